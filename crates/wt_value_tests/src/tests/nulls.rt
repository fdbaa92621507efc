//! Predicates that reject NULL at column 0.

use crate::tests::{Side, Step, pred};
use std::alloc::{AllocError, Global};
use std::test::Fail;
use wt_pred::Cmp;

// A predicate, and whether its form tells that NULL at column 0 keeps it from being True.
type Case = (&'static [Step], bool);

// Comparisons and tests of column 0, and one that has it not.
static CASES: [Case; 34] = [
    (
        &[Step::Compare(Cmp::Eq, Side::Column(0), Side::Int(1))],
        true,
    ),
    (
        &[Step::Compare(Cmp::Ne, Side::Int(1), Side::Column(0))],
        true,
    ),
    (
        &[Step::Compare(Cmp::Lt, Side::Column(0), Side::Column(0))],
        true,
    ),
    (
        &[Step::Compare(Cmp::Ge, Side::Column(1), Side::Column(0))],
        true,
    ),
    (
        &[Step::Compare(Cmp::Eq, Side::Column(1), Side::Int(1))],
        false,
    ),
    (&[Step::Compare(Cmp::Eq, Side::Null, Side::Int(1))], false),
    (&[Step::InList(0, &[Side::Int(1)])], true),
    (&[Step::InList(0, &[])], true),
    (&[Step::InList(1, &[Side::Int(1)])], false),
    (&[Step::IsNotNull(0)], true),
    (&[Step::IsNotNull(1)], false),
    (&[Step::IsNull(0)], false),
    (&[Step::IsNull(1)], false),
    // NOT asks whether its part is never False.
    (
        &[
            Step::Compare(Cmp::Eq, Side::Column(0), Side::Int(1)),
            Step::Not,
        ],
        true,
    ),
    (
        &[
            Step::Compare(Cmp::Eq, Side::Column(1), Side::Int(1)),
            Step::Not,
        ],
        false,
    ),
    (&[Step::InList(0, &[Side::Int(1)]), Step::Not], true),
    (&[Step::InList(0, &[]), Step::Not], false),
    (&[Step::IsNull(0), Step::Not], true),
    (&[Step::IsNull(1), Step::Not], false),
    (&[Step::IsNotNull(0), Step::Not], false),
    // AND rejects where one part does, OR where all do; below NOT the other way round.
    (&[Step::IsNotNull(0), Step::IsNull(1), Step::And(2)], true),
    (&[Step::IsNull(0), Step::IsNull(1), Step::And(2)], false),
    (&[Step::IsNotNull(0), Step::IsNull(1), Step::Or(2)], false),
    (
        &[
            Step::IsNotNull(0),
            Step::InList(0, &[Side::Int(1)]),
            Step::Or(2),
        ],
        true,
    ),
    (&[Step::And(0)], false),
    (&[Step::Or(0)], true),
    (&[Step::And(0), Step::Not], true),
    (&[Step::Or(0), Step::Not], false),
    (
        &[Step::IsNull(0), Step::IsNull(1), Step::And(2), Step::Not],
        false,
    ),
    (
        &[
            Step::IsNull(0),
            Step::Compare(Cmp::Eq, Side::Column(0), Side::Int(1)),
            Step::And(2),
            Step::Not,
        ],
        true,
    ),
    (
        &[Step::IsNull(0), Step::IsNull(1), Step::Or(2), Step::Not],
        true,
    ),
    (
        &[Step::IsNotNull(0), Step::IsNull(1), Step::Or(2), Step::Not],
        false,
    ),
    // Two NOTs are none.
    (&[Step::IsNotNull(0), Step::Not, Step::Not], true),
    (&[Step::IsNull(0), Step::Not, Step::Not], false),
];

fn rejects(alloc: Global, steps: &[Step]) -> Result<bool, AllocError> {
    Ok(pred(alloc, steps)?.rejects_null(0))
}

#[test]
fn forms_that_reject_null(rt: HostRuntime) -> Result<(), Fail> {
    let alloc = rt.alloc();
    for (i, (steps, wanted)) in CASES.iter().enumerate() {
        assert_eq!(rt; rejects(alloc, steps)?, *wanted, "{i}");
    }
    Ok(())
}
