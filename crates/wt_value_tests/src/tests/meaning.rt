//! The truth of predicates at rows.

use crate::tests::{Side, Step, truth};
use std::test::Fail;
use wt_pred::Cmp;
use wt_value::Truth;

// A predicate, a row, and the truth.
type Case = (&'static [Step], &'static [Side], Truth);

// Of two truth values: each, their AND and their OR.
static CONNECTIVES: [(Truth, Truth, Truth, Truth); 9] = [
    (Truth::True, Truth::True, Truth::True, Truth::True),
    (Truth::True, Truth::Unknown, Truth::Unknown, Truth::True),
    (Truth::True, Truth::False, Truth::False, Truth::True),
    (Truth::Unknown, Truth::True, Truth::Unknown, Truth::True),
    (
        Truth::Unknown,
        Truth::Unknown,
        Truth::Unknown,
        Truth::Unknown,
    ),
    (Truth::Unknown, Truth::False, Truth::False, Truth::Unknown),
    (Truth::False, Truth::True, Truth::False, Truth::True),
    (Truth::False, Truth::Unknown, Truth::False, Truth::Unknown),
    (Truth::False, Truth::False, Truth::False, Truth::False),
];

// A condition on a column of one value that has this truth where the column is 1, 0 or NULL.
fn side(truth: Truth) -> Side {
    match truth {
        Truth::True => Side::Int(1),
        Truth::False => Side::Int(0),
        Truth::Unknown => Side::Null,
    }
}

#[test]
fn connectives_are_least_and_greatest(rt: HostRuntime) -> Result<(), Fail> {
    let alloc = rt.alloc();
    let is_one = [
        Step::Compare(Cmp::Eq, Side::Column(0), Side::Int(1)),
        Step::Compare(Cmp::Eq, Side::Column(1), Side::Int(1)),
        Step::And(2),
        Step::Compare(Cmp::Eq, Side::Column(0), Side::Int(1)),
        Step::Compare(Cmp::Eq, Side::Column(1), Side::Int(1)),
        Step::Or(2),
        Step::Compare(Cmp::Eq, Side::Column(0), Side::Int(1)),
        Step::Not,
    ];
    for (a, b, both, either) in &CONNECTIVES {
        let values = [side(*a), side(*b)];
        assert_eq!(rt; truth(alloc, &is_one[..3], &values)?, *both);
        assert_eq!(rt; truth(alloc, &is_one[3..6], &values)?, *either);
        let negated = match a {
            Truth::True => Truth::False,
            Truth::Unknown => Truth::Unknown,
            Truth::False => Truth::True,
        };
        assert_eq!(rt; truth(alloc, &is_one[6..], &values)?, negated);
    }
    Ok(())
}

// Two values, and the truth of their comparison by =, <>, <, <=, > and >=.
static COMPARISONS: [(Side, Side, [Truth; 6]); 17] = [
    (Side::Int(2), Side::Int(2), EQUAL),
    (Side::Int(-1), Side::Int(2), LESS),
    (Side::Int(2), Side::Int(-1), GREATER),
    (Side::Int(i64::MIN), Side::Int(i64::MAX), LESS),
    (Side::Text(b"ab"), Side::Text(b"ab"), EQUAL),
    (Side::Text(b""), Side::Text(b""), EQUAL),
    (Side::Text(b""), Side::Text(b"a"), LESS),
    (Side::Text(b"ab"), Side::Text(b"abc"), LESS),
    (Side::Text(b"b"), Side::Text(b"abc"), GREATER),
    (Side::Text(b"10"), Side::Text(b"9"), LESS),
    (Side::Text(b"z"), Side::Text(b"\xc3\xa4"), LESS),
    (Side::Text(b"\xff"), Side::Text(b"\x7f\xff"), GREATER),
    (Side::Int(1), Side::Text(b"1"), UNKNOWN),
    (Side::Text(b"1"), Side::Int(1), UNKNOWN),
    (Side::Null, Side::Int(1), UNKNOWN),
    (Side::Text(b""), Side::Null, UNKNOWN),
    (Side::Null, Side::Null, UNKNOWN),
];

const EQUAL: [Truth; 6] = [
    Truth::True,
    Truth::False,
    Truth::False,
    Truth::True,
    Truth::False,
    Truth::True,
];

const LESS: [Truth; 6] = [
    Truth::False,
    Truth::True,
    Truth::True,
    Truth::True,
    Truth::False,
    Truth::False,
];

const GREATER: [Truth; 6] = [
    Truth::False,
    Truth::True,
    Truth::False,
    Truth::False,
    Truth::True,
    Truth::True,
];

const UNKNOWN: [Truth; 6] = [
    Truth::Unknown,
    Truth::Unknown,
    Truth::Unknown,
    Truth::Unknown,
    Truth::Unknown,
    Truth::Unknown,
];

static CMPS: [Cmp; 6] = [Cmp::Eq, Cmp::Ne, Cmp::Lt, Cmp::Le, Cmp::Gt, Cmp::Ge];

#[test]
fn values_compare_by_kind(rt: HostRuntime) -> Result<(), Fail> {
    let alloc = rt.alloc();
    for (i, (a, b, wanted)) in COMPARISONS.iter().enumerate() {
        let values = [*a, *b];
        for (cmp, wanted) in CMPS.iter().zip(wanted.iter()) {
            let columns = [Step::Compare(*cmp, Side::Column(0), Side::Column(1))];
            assert_eq!(rt; truth(alloc, &columns, &values)?, *wanted, "{i} {cmp:?}");
            let constants = [Step::Compare(*cmp, *a, *b)];
            assert_eq!(rt; truth(alloc, &constants, &values)?, *wanted, "{i} {cmp:?}");
        }
    }
    Ok(())
}

// A column past the end of the row is NULL.
static CASES: [Case; 27] = [
    (&[Step::IsNull(0)], &[Side::Null], Truth::True),
    (&[Step::IsNull(0)], &[Side::Int(0)], Truth::False),
    (&[Step::IsNull(0)], &[Side::Text(b"")], Truth::False),
    (&[Step::IsNull(1)], &[Side::Int(0)], Truth::True),
    (&[Step::IsNotNull(0)], &[Side::Null], Truth::False),
    (&[Step::IsNotNull(0)], &[Side::Int(0)], Truth::True),
    (&[Step::IsNotNull(7)], &[Side::Int(0)], Truth::False),
    (
        &[Step::Compare(Cmp::Eq, Side::Column(1), Side::Int(0))],
        &[Side::Int(0)],
        Truth::Unknown,
    ),
    (
        &[Step::Compare(Cmp::Eq, Side::Column(u32::MAX), Side::Int(0))],
        &[],
        Truth::Unknown,
    ),
    (
        &[Step::InList(0, &[Side::Int(1), Side::Int(2)])],
        &[Side::Int(2)],
        Truth::True,
    ),
    (
        &[Step::InList(0, &[Side::Int(1), Side::Int(2)])],
        &[Side::Int(3)],
        Truth::False,
    ),
    (
        &[Step::InList(0, &[Side::Int(1), Side::Int(2)])],
        &[Side::Null],
        Truth::Unknown,
    ),
    (
        &[Step::InList(0, &[Side::Text(b"a"), Side::Int(2)])],
        &[Side::Int(2)],
        Truth::True,
    ),
    (
        &[Step::InList(0, &[Side::Text(b"a"), Side::Int(2)])],
        &[Side::Int(3)],
        Truth::Unknown,
    ),
    (
        &[Step::InList(0, &[Side::Int(1), Side::Null])],
        &[Side::Int(2)],
        Truth::Unknown,
    ),
    (&[Step::InList(0, &[])], &[Side::Null], Truth::False),
    (
        &[Step::InList(0, &[Side::Int(1)]), Step::Not],
        &[Side::Null],
        Truth::Unknown,
    ),
    (
        &[Step::InList(0, &[]), Step::Not],
        &[Side::Null],
        Truth::True,
    ),
    (&[Step::And(0)], &[], Truth::True),
    (&[Step::Or(0)], &[], Truth::False),
    (
        &[
            Step::Compare(Cmp::Ge, Side::Column(0), Side::Int(2)),
            Step::Compare(Cmp::Le, Side::Column(0), Side::Int(4)),
            Step::And(2),
        ],
        &[Side::Int(4)],
        Truth::True,
    ),
    (
        &[
            Step::Compare(Cmp::Ge, Side::Column(0), Side::Int(2)),
            Step::Compare(Cmp::Le, Side::Column(0), Side::Int(4)),
            Step::And(2),
            Step::Not,
        ],
        &[Side::Int(5)],
        Truth::True,
    ),
    (
        &[
            Step::Compare(Cmp::Ge, Side::Column(0), Side::Int(2)),
            Step::Compare(Cmp::Le, Side::Column(0), Side::Null),
            Step::And(2),
            Step::Not,
        ],
        &[Side::Int(1)],
        Truth::True,
    ),
    (
        &[
            Step::Compare(Cmp::Ge, Side::Column(0), Side::Int(2)),
            Step::Compare(Cmp::Le, Side::Column(0), Side::Null),
            Step::And(2),
            Step::Not,
        ],
        &[Side::Int(3)],
        Truth::Unknown,
    ),
    (
        &[
            Step::IsNull(0),
            Step::Compare(Cmp::Ge, Side::Column(0), Side::Int(2)),
            Step::Compare(Cmp::Le, Side::Column(0), Side::Int(4)),
            Step::And(2),
            Step::Or(2),
        ],
        &[Side::Null],
        Truth::True,
    ),
    (
        &[
            Step::Compare(Cmp::Eq, Side::Column(0), Side::Column(0)),
            Step::Not,
            Step::Not,
        ],
        &[Side::Null],
        Truth::Unknown,
    ),
    (
        &[
            Step::IsNull(0),
            Step::Compare(Cmp::Eq, Side::Column(1), Side::Int(1)),
            Step::IsNull(2),
            Step::Or(3),
        ],
        &[Side::Int(1), Side::Null, Side::Int(1)],
        Truth::Unknown,
    ),
];

#[test]
fn predicates_have_their_truth(rt: HostRuntime) -> Result<(), Fail> {
    let alloc = rt.alloc();
    for (i, (steps, sides, wanted)) in CASES.iter().enumerate() {
        assert_eq!(rt; truth(alloc, steps, sides)?, *wanted, "{i}");
    }
    Ok(())
}
