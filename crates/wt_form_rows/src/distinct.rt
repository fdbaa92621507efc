//! The distinct rows of a form.
ghost use Rattle.std.specs.Prelude.{◌≡◌, ◌==◌, [], ◌∷◌, ◌++◌, IfOk, OnOk, if◌then◌else◌};
ghost use Rattle.wt_bag.specs.Bags.{count_of, distinct};
ghost use Rattle.wt_rows.specs.FormRows.{form_row_same};

use crate::values::{FormRow, FormRows};
use std::alloc::{AllocError, Global};

/// Whether both rows have the same values piece by piece, NULL being the same as NULL.
fn same_form_row(a: &FormRow, b: &FormRow) -> bool
    ensures { result ≡ form_row_same a.now b.now }
{
    a == b
}

/// How often a row occurs among the rows.
fn occurrences(rows: &FormRows, row: &FormRow) -> usize
    ensures { result ≡ count_of form_row_same rows.now row.now }
{
    rows.as_slice()
        .iter()
        .filter(|other| same_form_row(row, other))
        .count()
}

/// Adds the row at the end if it is not there yet.
fn keep(kept: &mut FormRows, row: &FormRow) -> Result<(), AllocError>
    ensures { OnOk result (kept.new ≡ (if count_of form_row_same kept.old row.now == 0 then kept.old ++ row.now ∷ [] else kept.old)) }
{
    if occurrences(kept, row) == 0 {
        kept.push(row.clone()?)?;
    }
    Ok(())
}

/// The first of each group of equal rows, in order.
pub(crate) fn distinct_rows(alloc: Global, rows: &FormRows) -> Result<FormRows, AllocError>
    ensures { IfOk result (λ kept. kept ≡ distinct form_row_same rows.now) }
{
    let mut kept = FormRows::new(alloc);
    for row in rows.as_slice() {
        keep(&mut kept, row)?;
    }
    Ok(kept)
}
