//! Templates in their order.
use std::alloc::{AllocError, Global};
use std::test::Fail;
use wt_template::{Ops, Template, nth_template};

/// Whether the template of a number, with its size and its weight, is written so.
fn stands(
    alloc: Global,
    ops: u8,
    most: u32,
    number: u64,
    expected: &str,
) -> Result<bool, AllocError> {
    match nth_template(alloc, Ops(ops), most, number)? {
        Some(t) => {
            let text = format!(in alloc; "{t:?} {} {}", t.size(), t.weight())?;
            Ok(text.as_str() == expected && t.same(&t.copy(alloc)?) && !t.same(&Template::Input))
        }
        None => Ok(expected == "none"),
    }
}

/// Whether the templates of these letters up to a size are those of the lines, in this order.
fn are_listed(alloc: Global, ops: u8, most: u32, expected: &str) -> Result<bool, AllocError> {
    for (number, line) in expected.lines().enumerate() {
        if !stands(alloc, ops, most, number as u64, line)? {
            return Ok(false);
        }
    }
    Ok(true)
}

fn is_there(alloc: Global, ops: u8, most: u32, number: u64) -> Result<bool, AllocError> {
    Ok(nth_template(alloc, Ops(ops), most, number)?.is_some())
}

#[test]
fn templates_stand_in_order(rt: HostRuntime) -> Result<(), Fail> {
    for (ops, most, expected) in [
        (
            0b10_0000,
            2,
            "Dedup(Input) 1 3\nDedup(Dedup(Input)) 2 6\nnone",
        ),
        (
            0b110,
            2,
            "Filter(Input) 1 1\nInnerJoin(Input, Input) 1 6\nFilter(Filter(Input)) 2 2\nFilter(InnerJoin(Input, Input)) 2 7\nInnerJoin(Input, Filter(Input)) 2 7\nInnerJoin(Input, InnerJoin(Input, Input)) 2 12\nInnerJoin(Filter(Input), Input) 2 7\nInnerJoin(InnerJoin(Input, Input), Input) 2 12\nnone",
        ),
        (
            0b11_1111,
            1,
            "Proj(Input) 1 1\nFilter(Input) 1 1\nInnerJoin(Input, Input) 1 6\nLeftJoin(Input, Input) 1 7\nInSub(Input, Input) 1 4\nDedup(Input) 1 3\nnone",
        ),
    ] {
        assert!(rt; are_listed(rt.alloc(), ops, most, expected)?);
    }
    Ok(())
}

#[test]
fn templates_are_counted(rt: HostRuntime) -> Result<(), Fail> {
    for (ops, most, number, expected) in [
        (0b11_1111, 3, 653, true),
        (0b11_1111, 3, 654, false),
        (0b11_1111, 2, 60, false),
        (0b11_1111, u32::MAX, u64::MAX, true),
        (0b1100_0000, u32::MAX, 0, false),
        (0b1, 0, 0, false),
    ] {
        assert_eq!(rt;
            is_there(rt.alloc(), ops, most, number)?,
            expected,
            "{ops} {most} {number}"
        );
    }
    Ok(())
}
