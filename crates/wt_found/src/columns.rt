//! The columns of a side's output, and the numbers that places of it have.
ghost use Rattle.std.specs.Prelude.{◌≡◌, ◌^◌, ◌<◌, length, IfOk};
ghost use Rattle.wt_instance.specs.Rows as rows;
ghost use Rattle.wt_matching.specs.Filling as filling;
ghost use Rattle.wt_matching.specs.Finding as spec;
ghost use Rattle.wt_found.specs.Seen.{named, listed, as_maybe};

use std::alloc::Global;
use wt_value::{Cols, WantOfMemory};

/// A column of a side's output: the leaf that it is of, and its number there.
#[derive(Clone, Copy, Debug, PartialEq, Eq)]
pub struct Shown {
    pub leaf: u8,
    pub number: u32,
}

/// The first place of a leaf's column, or how many columns there are.
pub fn place(columns: &[Shown], leaf: u8, number: u32) -> usize
    ensures { result ≡ filling.place (named columns.now) leaf number }
{
    let mut others = columns;
    let mut passed = 0;
    'columns: while let [column, rest @ ..] = others {
        if column.leaf == leaf && column.number == number {
            return passed;
        }
        passed += 1;
        others = rest;
    }
    passed
}

/// The columns of a leaf that is so wide.
pub fn leaf_columns(alloc: Global, leaf: u8, width: u32) -> Result<Vec<Shown>, WantOfMemory>
    ensures { IfOk result (λ columns. named columns.items ≡ rows.leaf_columns leaf 0 width) }
{
    let mut columns = Vec::new(alloc);
    for number in 0..width {
        columns.push(Shown { leaf, number })?;
    }
    Ok(columns)
}

/// The columns of a leaf that a list has.
pub fn list_columns(alloc: Global, leaf: u8, numbers: &Cols) -> Result<Vec<Shown>, WantOfMemory>
    ensures { IfOk result (λ columns. named columns.items ≡ listed leaf numbers.now) }
{
    let mut columns = Vec::new(alloc);
    for number in numbers.as_slice() {
        columns.push(Shown {
            leaf,
            number: *number,
        })?;
    }
    Ok(columns)
}

/// The number of the column at a place, where it is one of the leaf's and stands there first.
fn number_at(columns: &[Shown], leaf: u8, at: u32) -> Option<u32>
    ensures { as_maybe result ≡ spec.number_at (named columns.now) leaf at }
{
    match columns.get(at as usize) {
        Some(column) => {
            if column.leaf == leaf && place(columns, leaf, column.number) == at as usize {
                Some(column.number)
            } else {
                None
            }
        }
        None => None,
    }
}

/// The numbers of the columns at the places of a list, where each is the leaf's and stands there first.
pub(crate) fn numbers_at(
    alloc: Global,
    columns: &[Shown],
    leaf: u8,
    places: &Cols,
) -> Result<Option<Cols>, WantOfMemory>
    ensures { IfOk result (λ numbers. as_maybe numbers ≡ spec.numbers_at (named columns.now) leaf places.now) }
{
    let mut numbers = Cols::new(alloc);
    for at in places.as_slice() {
        match number_at(columns, leaf, *at) {
            Some(number) => numbers.push(number)?,
            None => return Ok(None),
        }
    }
    Ok(Some(numbers))
}
