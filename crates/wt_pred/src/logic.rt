//! Comparisons of values, and the connectives of three truth values.
ghost use Rattle.std.specs.Prelude.{◌≡◌};
ghost use Rattle.wt_value.specs.Truths.{truth_of, and_of, or_of, not_of, equality};
ghost use Rattle.wt_pred.specs.Meaning.{less, comparison};

use crate::tree::Cmp;
use wt_value::{Truth, Value};

pub fn truth(holds: bool) -> Truth
    ensures { result ≡ truth_of holds }
{
    if holds { Truth::True } else { Truth::False }
}

/// The least of two under False < Unknown < True.
pub fn and(a: Truth, b: Truth) -> Truth
    ensures { result ≡ and_of a b }
{
    match a {
        Truth::False => Truth::False,
        Truth::Unknown => match b {
            Truth::False => Truth::False,
            _ => Truth::Unknown,
        },
        Truth::True => b,
    }
}

/// The greatest of two under False < Unknown < True.
pub fn or(a: Truth, b: Truth) -> Truth
    ensures { result ≡ or_of a b }
{
    match a {
        Truth::False => b,
        Truth::Unknown => match b {
            Truth::True => Truth::True,
            _ => Truth::Unknown,
        },
        Truth::True => Truth::True,
    }
}

/// Exchanges True and False.
pub fn not(a: Truth) -> Truth
    ensures { result ≡ not_of a }
{
    match a {
        Truth::False => Truth::True,
        Truth::Unknown => Truth::Unknown,
        Truth::True => Truth::False,
    }
}

/// Whether the values are equal: Unknown where one is NULL or their kinds differ.
pub fn equal(a: &Value, b: &Value) -> Truth
    ensures { result ≡ equality a.now b.now }
{
    match a {
        Value::Null => Truth::Unknown,
        Value::Int(x) => match b {
            Value::Int(y) => truth(x == y),
            _ => Truth::Unknown,
        },
        Value::Text(s) => match b {
            Value::Text(t) => truth(s == t),
            _ => Truth::Unknown,
        },
    }
}

/// Whether the first value is the less one: Unknown where one is NULL or their kinds differ.
pub fn less_than(a: &Value, b: &Value) -> Truth
    ensures { result ≡ less a.now b.now }
{
    match a {
        Value::Null => Truth::Unknown,
        Value::Int(x) => match b {
            Value::Int(y) => truth(x < y),
            _ => Truth::Unknown,
        },
        Value::Text(s) => match b {
            Value::Text(t) => truth(s.as_bytes().cmp(&t.as_bytes()).is_lt()),
            _ => Truth::Unknown,
        },
    }
}

/// The comparison of two values.
pub fn compare(cmp: Cmp, a: &Value, b: &Value) -> Truth
    ensures { result ≡ comparison cmp a.now b.now }
{
    match cmp {
        Cmp::Eq => equal(a, b),
        Cmp::Ne => not(equal(a, b)),
        Cmp::Lt => less_than(a, b),
        Cmp::Le => not(less_than(b, a)),
        Cmp::Gt => less_than(b, a),
        Cmp::Ge => not(less_than(a, b)),
    }
}
