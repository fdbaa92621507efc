//! The text of rules, and of the first and the last line of a file.
use crate::tests::lawful;
use std::alloc::{AllocError, Global};
use std::test::Fail;
use wt_constraint::AtomSet;
use wt_rule::{Rule, write_end, write_head, write_rule};

/// A pair, a set of its constraints and the line.
static LINES: [(&str, u64, &str); 5] = [
    (
        "r0 D D | r0 D |",
        0,
        "Dedup(Dedup(r0)) => Dedup(r0) | - | 6 3\n",
    ),
    (
        "r0 F11 F00 | r0 F00 |00",
        3,
        "Filter<p0,a0@r0>(Filter<p1,a1@r0>(r0)) => Filter<p0,a0>(r0) | AttrsEq(a0,a1) PredEq(p0,p1) | 2 1\n",
    ),
    (
        "r0 r1 L01 | r0 r1 I01 |01",
        0b101_0001,
        "LeftJoin<a0@r0,a1@r1>(r0,r1) => InnerJoin<a0,a1>(r0,r1) | RelEq(r0,r1) NotNull(r0,a0) RefAttrs(r0,a0,r1,a1) | 7 6\n",
    ),
    (
        "r0 r1 I12 P0 | r0 r1 P2 S1 P0 |001",
        64,
        "Proj<a0@r0>(InnerJoin<a1@r0,a2@r1>(r0,r1)) => Proj<a0>(InSub<a1>(r0,Proj<a2>(r1))) | Unique(r1,a2) | 7 6\n",
    ),
    (
        "r0 r1 P1 S0 | r0 |01",
        0b101_0000,
        "InSub<a0@r0>(r0,Proj<a1@r1>(r1)) => r0 | NotNull(r0,a0) RefAttrs(r0,a0,r1,a1) | 5 0\n",
    ),
];

fn has_line(alloc: Global, text: &str, set: u64, expected: &str) -> Result<bool, AllocError> {
    let Some(pair) = lawful(alloc, text)? else {
        return Ok(false);
    };
    let rule = Rule {
        pair,
        set: AtomSet(set),
    };
    Ok(write_rule(alloc, &rule)?.as_slice() == expected.as_bytes())
}

#[test]
fn rules_have_lines(rt: HostRuntime) -> Result<(), Fail> {
    for (text, set, expected) in &LINES {
        assert!(rt; has_line(rt.alloc(), text, *set, expected)?, "{text}");
    }
    Ok(())
}

fn ends_are_written(alloc: Global) -> Result<bool, AllocError> {
    Ok(
        write_head(alloc, 8)?.as_slice() == "wetune-rules 2 steps=8\n".as_bytes()
            && write_end(alloc, 5)?.as_slice() == "end 5\n".as_bytes(),
    )
}

#[test]
fn files_have_a_first_and_a_last_line(rt: HostRuntime) -> Result<(), Fail> {
    assert!(rt; ends_are_written(rt.alloc())?);
    Ok(())
}
