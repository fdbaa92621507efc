//! One set of columns, and each of several.
ghost use Rattle.std.specs.Prelude.{◌≡◌, ◌+◌, map, slice_index_or, IfOk};
ghost use Rattle.wt_plan.specs.Tree.{plan_tree};
ghost use Rattle.wt_plan.specs.Measures as measures;
ghost use Rattle.wt_plan_widths.specs.Widths.{IsWidth};
ghost use Rattle.wt_known.specs.Sets as facts;
ghost use Rattle.wt_unique.specs.Asking as spec;

use crate::{Answers, Sets};
use std::alloc::Global;
use wt_plan::Plan;
use wt_schema::Table;
use wt_value::{Cols, WantOfMemory};

/// Whether a column is in a set.
pub fn is_in(column: u64, set: &[u32]) -> bool
    ensures { result ≡ facts.is_in column set.now }
{
    set.iter().any(|other| column == *other as u64)
}

fn within(cols: &[u32], set: &[u32]) -> bool
    ensures { result ≡ facts.within cols.now set.now }
{
    cols.iter().all(|column| is_in(*column as u64, set))
}

/// Whether each column of a set is below a bound.
pub fn all_below(bound: u64, set: &[u32]) -> bool
    ensures { result ≡ facts.all_below bound set.now }
{
    set.iter().all(|column| (*column as u64) < bound)
}

/// Whether the set has each column of a plan that is so wide.
pub fn is_whole(plan: &Plan, width: u64, set: &[u32]) -> bool
    requires { IsWidth width (measures.width (plan_tree plan.now)) }
    ensures { result ≡ facts.is_whole (measures.width (plan_tree plan.now)) set.now }
{
    has_all_below(width, set)
}

fn has_all_below(mut bound: u64, set: &[u32]) -> bool
    ensures { result ≡ facts.is_whole bound set.now }
{
    'bound: while bound > 0 {
        bound -= 1;
        if !is_in(bound, set) {
            return false;
        }
    }
    true
}

/// Whether a join's column of a number in its right operand is in a set.
pub fn has_right(left: &Plan, width: u64, column: u32, set: &[u32]) -> bool
    requires { IsWidth width (measures.width (plan_tree left.now)) }
    ensures { result ≡ facts.is_in (column + measures.width (plan_tree left.now)) set.now }
{
    is_in((column as u64).saturating_add(width), set)
}

fn has_key(tables: &[Table], number: u32, set: &[u32]) -> bool
    ensures { result ≡ spec.has_key tables.now number set.now }
{
    match tables.get(number as usize) {
        Some(table) => table
            .keys
            .as_slice()
            .iter()
            .any(|key| within(key.columns.as_slice(), set)),
        None => false,
    }
}

fn place_or_zero(list: &[u32], place: u32) -> u32
    ensures { result ≡ slice_index_or list.now place 0 }
{
    match list.get(place as usize) {
        Some(column) => *column,
        None => 0,
    }
}

/// What a list has at the places of a set.
pub fn listed_at(alloc: Global, list: &[u32], set: &[u32]) -> Result<Cols, WantOfMemory>
    ensures { IfOk result (λ r. r ≡ facts.listed_at list.now set.now) }
{
    let mut out = Cols::new(alloc);
    for column in set {
        out.push(place_or_zero(list, *column))?;
    }
    Ok(out)
}

/// What a Proj's list has at the places of each set.
pub fn listed(alloc: Global, list: &[u32], sets: &Sets) -> Result<Sets, WantOfMemory>
    ensures { IfOk result (λ r. r ≡ map (facts.listed_at list.now) sets.now) }
{
    let mut out = Sets::new(alloc);
    for set in sets.as_slice() {
        out.push(listed_at(alloc, list, set.as_slice())?)?;
    }
    Ok(out)
}

/// For each set whether it contains a key of the table.
pub fn keyed(
    alloc: Global,
    tables: &[Table],
    number: u32,
    sets: &Sets,
) -> Result<Answers, WantOfMemory>
    ensures { IfOk result (λ r. r ≡ map (spec.has_key tables.now number) sets.now) }
{
    let mut out = Answers::new(alloc);
    for set in sets.as_slice() {
        out.push(has_key(tables, number, set.as_slice()))?;
    }
    Ok(out)
}
