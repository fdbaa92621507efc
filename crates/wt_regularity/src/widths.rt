//! How wide a plan is, where each of its nodes may be as wide as it is and names places that are there.
ghost use Rattle.std.specs.Prelude.{◌≡◌};
ghost use Rattle.wt_draft.specs.Roots.{any_tree};
ghost use Rattle.wt_regularity.specs.Widths as spec;

use wt_draft::{AnyPlan, Root};
use wt_schema::Table;
use wt_value::Cols;

/// The most columns that a plan, a Proj, a Dedup and the right operand of an InSub may have.
const MOST_COLUMNS: u32 = 16_384;

/// Whether a width is one that may be.
pub fn is_narrow(width: u32) -> bool
    ensures { result ≡ spec.is_narrow width }
{
    width <= MOST_COLUMNS
}

fn all_below(width: u32, cols: &[u32]) -> bool
    ensures { result ≡ spec.all_below width cols.now }
{
    cols.iter().all(|column| *column < width)
}

fn are_places(width: u32, cols: &[u32]) -> bool
    ensures { result ≡ spec.are_places width cols.now }
{
    !cols.is_empty() && all_below(width, cols)
}

fn table_width(tables: &[Table], number: u32, width: u32) -> Option<u32>
    ensures { result ≡ spec.table_width tables.now number width }
{
    match tables.get(number as usize) {
        Some(table) if table.columns.len() == width as usize => Some(width),
        _ => None,
    }
}

fn listed_width(width: u32, cols: &Cols) -> Option<u32>
    ensures { result ≡ spec.listed_width width cols.now }
{
    if !are_places(width, cols.as_slice()) || cols.len() > MOST_COLUMNS as usize {
        return None;
    }
    Some(cols.len() as u32)
}

fn filtered_width(width: u32, cols: &Cols) -> Option<u32>
    ensures { result ≡ spec.filtered_width width cols.now }
{
    if are_places(width, cols.as_slice()) {
        Some(width)
    } else {
        None
    }
}

fn joined_width(left: u32, right: u32, a: &Cols, b: &Cols) -> Option<u32>
    ensures { result ≡ spec.joined_width left right a.now b.now }
{
    if are_places(left, a.as_slice()) && are_places(right, b.as_slice()) && a.len() == b.len() {
        left.checked_add(right)
    } else {
        None
    }
}

fn matched_width(left: u32, right: u32, cols: &Cols) -> Option<u32>
    ensures { result ≡ spec.matched_width left right cols.now }
{
    if are_places(left, cols.as_slice()) && cols.len() == right as usize && is_narrow(right) {
        Some(left)
    } else {
        None
    }
}

fn narrow(width: u32) -> Option<u32>
    ensures { result ≡ spec.narrow width }
{
    if is_narrow(width) { Some(width) } else { None }
}

/// How many columns the plan's rows have, if each of its nodes may be so wide and names places that are there.
pub fn fitting_width(tables: &[Table], plan: AnyPlan) -> Option<u32>
    ensures { result ≡ spec.fitting_width tables.now (any_tree plan.entry) }
{
    match plan.root() {
        Root::Table(number, width) => table_width(tables, number, width),
        Root::Proj(cols, p) => listed_width(fitting_width(tables, p)?, cols),
        Root::Filter(_, cols, p) => filtered_width(fitting_width(tables, p)?, cols),
        Root::InnerJoin(a, b, left, right) | Root::LeftJoin(a, b, left, right) => joined_width(
            fitting_width(tables, left)?,
            fitting_width(tables, right)?,
            a,
            b,
        ),
        Root::InSub(cols, left, right) => matched_width(
            fitting_width(tables, left)?,
            fitting_width(tables, right)?,
            cols,
        ),
        Root::Dedup(p) => narrow(fitting_width(tables, p)?),
    }
}
