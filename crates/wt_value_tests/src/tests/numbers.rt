//! The columns of predicates, and predicates with other numbers.
use crate::tests::{Side, Step, by_columns_behind, pred};
use std::alloc::{AllocError, Global};
use std::test::Fail;
use wt_pred::Cmp;

// A predicate, its columns, columns that stand before these in a list, and the predicate by that list.
struct Numbered {
    steps: &'static [Step],
    columns: &'static [u32],
    front: &'static [u32],
    renumbered: &'static [Step],
}

static NUMBERED: [Numbered; 6] = [
    Numbered {
        steps: &[
            Step::Compare(Cmp::Eq, Side::Column(3), Side::Int(1)),
            Step::Compare(Cmp::Lt, Side::Column(1), Side::Column(3)),
            Step::Or(2),
        ],
        columns: &[3, 1],
        front: &[],
        renumbered: &[
            Step::Compare(Cmp::Eq, Side::Column(0), Side::Int(1)),
            Step::Compare(Cmp::Lt, Side::Column(1), Side::Column(0)),
            Step::Or(2),
        ],
    },
    Numbered {
        steps: &[
            Step::Compare(Cmp::Eq, Side::Column(3), Side::Int(1)),
            Step::Compare(Cmp::Lt, Side::Column(1), Side::Column(3)),
            Step::Or(2),
        ],
        columns: &[3, 1],
        front: &[7, 3, 7],
        renumbered: &[
            Step::Compare(Cmp::Eq, Side::Column(1), Side::Int(1)),
            Step::Compare(Cmp::Lt, Side::Column(4), Side::Column(1)),
            Step::Or(2),
        ],
    },
    Numbered {
        steps: &[
            Step::InList(9, &[Side::Int(1)]),
            Step::IsNotNull(2),
            Step::IsNull(4_294_967_295),
            Step::Not,
            Step::And(3),
            Step::IsNull(2),
            Step::InList(0, &[Side::Int(1), Side::Text(b"a")]),
            Step::Or(3),
        ],
        columns: &[9, 2, 4_294_967_295, 0],
        front: &[],
        renumbered: &[
            Step::InList(0, &[Side::Int(1)]),
            Step::IsNotNull(1),
            Step::IsNull(2),
            Step::Not,
            Step::And(3),
            Step::IsNull(1),
            Step::InList(3, &[Side::Int(1), Side::Text(b"a")]),
            Step::Or(3),
        ],
    },
    Numbered {
        steps: &[Step::Compare(Cmp::Ne, Side::Column(5), Side::Column(5))],
        columns: &[5],
        front: &[6],
        renumbered: &[Step::Compare(Cmp::Ne, Side::Column(1), Side::Column(1))],
    },
    Numbered {
        steps: &[Step::Compare(Cmp::Ge, Side::Int(1), Side::Null)],
        columns: &[],
        front: &[1, 1],
        renumbered: &[Step::Compare(Cmp::Ge, Side::Int(1), Side::Null)],
    },
    Numbered {
        steps: &[Step::Or(0), Step::Not],
        columns: &[],
        front: &[],
        renumbered: &[Step::Or(0), Step::Not],
    },
];

fn has_columns(alloc: Global, row: &Numbered) -> Result<bool, AllocError> {
    Ok(pred(alloc, row.steps)?.columns(alloc)?.as_slice() == row.columns)
}

fn is_renumbered(alloc: Global, row: &Numbered) -> Result<bool, AllocError> {
    let numbered = by_columns_behind(alloc, &pred(alloc, row.steps)?, row.front)?;
    Ok(numbered.same(&pred(alloc, row.renumbered)?))
}

fn are_same(alloc: Global, row: &Numbered, other: &Numbered) -> Result<bool, AllocError> {
    Ok(
        pred(alloc, row.steps)?
            .copy(alloc)?
            .same(&pred(alloc, other.steps)?),
    )
}

#[test]
fn columns_are_renumbered(rt: HostRuntime) -> Result<(), Fail> {
    for (i, row) in NUMBERED.iter().enumerate() {
        assert!(rt; has_columns(rt.alloc(), row)?, "{i}");
        assert!(rt; is_renumbered(rt.alloc(), row)?, "{i}");
    }
    Ok(())
}

#[test]
fn a_copy_is_the_same_predicate_alone(rt: HostRuntime) -> Result<(), Fail> {
    for (i, row) in NUMBERED.iter().enumerate() {
        for (j, other) in NUMBERED.iter().enumerate() {
            let alike = i == j || i + j == 1;
            assert_eq!(rt; are_same(rt.alloc(), row, other)?, alike, "{i} {j}");
        }
    }
    Ok(())
}
