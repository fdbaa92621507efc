//! Rows of a leaf at some column numbers, without taking memory.
ghost use Rattle.std.specs.Prelude.{◌≡◌, ◌↔◌, IsTrue, false};
ghost use Rattle.std.specs.List.{list_any};
ghost use Rattle.wt_bag.specs.Bags.{Each};
ghost use Rattle.wt_value.specs.Values.{pick, row_matches};
ghost use Rattle.wt_instance.specs.Meeting as spec;

use wt_value::{Row, has_no_null_at, matches_at};

/// Whether a row matches none of the others.
fn matches_none(row: &Row, numbers: &[u32], mut others: &[Row]) -> bool
    ensures { IsTrue result ↔ Each (λ other. row_matches (pick numbers.now row.now) (pick numbers.now other) ≡ false) others.entry.now }
{
    'others: while let [other, more @ ..] = others {
        if matches_at(row, numbers, other, numbers) {
            return false;
        }
        others = more;
    }
    true
}

/// Whether no row matches one behind it.
pub(crate) fn is_unique(numbers: &[u32], mut rows: &[Row]) -> bool
    ensures { IsTrue result ↔ spec.IsUnique numbers.now rows.entry.now }
{
    'rows: while let [row, others @ ..] = rows {
        if !matches_none(row, numbers, others) {
            return false;
        }
        rows = others;
    }
    true
}

/// Whether no row has a NULL.
pub(crate) fn is_not_null(numbers: &[u32], mut rows: &[Row]) -> bool
    ensures { IsTrue result ↔ spec.IsNotNull numbers.now rows.entry.now }
{
    'rows: while let [row, others @ ..] = rows {
        if !has_no_null_at(row.as_slice(), numbers) {
            return false;
        }
        rows = others;
    }
    true
}

/// Whether one of the others matches a row.
fn is_matched(row: &Row, numbers: &[u32], others: &[Row], other_numbers: &[u32]) -> bool
    ensures { result ≡ list_any (λ other. row_matches (pick numbers.now row.now) (pick other_numbers.now other)) others.now }
{
    others
        .iter()
        .any(|other| matches_at(row, numbers, other, other_numbers))
}

/// Whether each row without NULL is matched by one of the others.
pub(crate) fn refers(
    numbers: &[u32],
    other_numbers: &[u32],
    mut rows: &[Row],
    others: &[Row],
) -> bool
    ensures { IsTrue result ↔ spec.Refers numbers.now other_numbers.now rows.entry.now others.now }
{
    'rows: while let [row, more @ ..] = rows {
        if has_no_null_at(row.as_slice(), numbers)
            && !is_matched(row, numbers, others, other_numbers)
        {
            return false;
        }
        rows = more;
    }
    true
}
