//! Rows and bags of rows.
ghost use Rattle.std.specs.Prelude.{◌≡◌, ◌↔◌, ◌==◌, [], ◌∷◌, ◌++◌, IsTrue, IfOk, OnOk, Any, if◌then◌else◌};
ghost use Rattle.std.specs.List.{list_all};
ghost use Rattle.wt_value.specs.Values.{Matches, row_same, row_matches, occurrences, IsOneBag, distinct_rows};
ghost use Rattle.wt_value.specs.declared.value.Value.TheVariants.{Null};

use crate::seq::Seq;
use crate::value::Value;
use std::alloc::{AllocError, Global};

/// A list of values, as the constants of a condition.
pub type Values = Seq<Value>;

/// A row: its values from left to right.
pub type Row = Seq<Value>;

/// A list of rows.
pub type Rows = Seq<Row>;

fn has_null(row: &Row) -> bool
    ensures { IsTrue result ↔ Any (λ v. v ≡ Null) row.now }
{
    row.as_slice().iter().any(|v| v.is_null())
}

/// Whether the rows have the same length and the same values, NULL being the same as NULL.
pub fn same_row(a: &Row, b: &Row) -> bool
    ensures same { IsTrue result ↔ (a.now ≡ b.now) }
    ensures test { result ≡ row_same a.now b.now }
{
    a == b
}

/// Whether the rows have the same length, no NULL, and equal values place by place.
pub fn matches(a: &Row, b: &Row) -> bool
    ensures matching { IsTrue result ↔ Matches a.now b.now }
    ensures test { result ≡ row_matches a.now b.now }
{
    same_row(a, b) && !has_null(a)
}

/// How often the row occurs among the rows.
pub fn count(rows: &Rows, row: &Row) -> u64
    ensures { result ≡ occurrences rows.now row.now }
{
    rows.as_slice().iter().filter(|r| same_row(row, r)).count() as u64
}

fn all_alike(rows: &Rows, a: &Rows, b: &Rows) -> bool
    ensures { result ≡ list_all (λ row. occurrences a.now row == occurrences b.now row) rows.now }
{
    rows.as_slice()
        .iter()
        .all(|row| count(a, row) == count(b, row))
}

/// Whether every row occurs equally often in both lists.
pub fn same_bag(a: &Rows, b: &Rows) -> bool
    ensures { IsTrue result ↔ IsOneBag a.now b.now }
{
    all_alike(a, a, b) && all_alike(b, a, b)
}

/// Adds the row at the end if it is not there yet.
fn keep(kept: &mut Rows, row: &Row) -> Result<(), AllocError>
    ensures { OnOk result (kept.new ≡ (if occurrences kept.old row.now == 0 then kept.old ++ row.now ∷ [] else kept.old)) }
{
    if count(kept, row) == 0 {
        kept.push(row.clone()?)?;
    }
    Ok(())
}

/// The first of each group of equal rows, in order.
pub fn distinct(alloc: Global, rows: &Rows) -> Result<Rows, AllocError>
    ensures { IfOk result (λ kept. kept ≡ distinct_rows rows.now) }
{
    let mut kept = Rows::new(alloc);
    for row in rows.as_slice() {
        keep(&mut kept, row)?;
    }
    Ok(kept)
}
