//! Whether a plan is regular.
ghost use Rattle.std.specs.Prelude.{◌≡◌, ◌↔◌, IsTrue};
ghost use Rattle.wt_plan.specs.Regular.{Regular, plan_kinds, kinds_at};
ghost use Rattle.wt_draft.specs.Drafts.{draft_tree};
ghost use Rattle.wt_draft.specs.Roots.{any_tree};
ghost use Rattle.wt_regularity.specs.Kinds as kinds;
ghost use Rattle.wt_regularity.specs.Deciding as spec;

use crate::kinds::{kind_of, kind_or_int, same_kind};
use crate::predicate::filter_fits;
use crate::widths::{fitting_width, is_narrow};
use wt_draft::{AnyPlan, Draft, Root};
use wt_schema::{ColKind, Table};

fn kind_at(tables: &[Table], plan: AnyPlan, column: u32) -> ColKind
    ensures { result ≡ spec.kind_at (plan_kinds tables.now (any_tree plan.entry)) column }
{
    kind_or_int(kind_of(tables, plan, column as usize))
}

/// Whether the columns that a join compares are of one kind, place by place.
fn pairs_fit(tables: &[Table], left: AnyPlan, mut a: &[u32], right: AnyPlan, mut b: &[u32]) -> bool
    ensures { result ≡ kinds.all_same (kinds_at (plan_kinds tables.now (any_tree left.entry)) a.entry.now) (kinds_at (plan_kinds tables.now (any_tree right.entry)) b.entry.now) }
{
    'pairs: while let [x, more_a @ ..] = a {
        let [y, more_b @ ..] = b else {
            return false;
        };
        if !same_kind(kind_at(tables, left, *x), kind_at(tables, right, *y)) {
            return false;
        }
        a = more_a;
        b = more_b;
    }
    b.is_empty()
}

fn has_kind(tables: &[Table], plan: AnyPlan, place: usize, kind: ColKind) -> bool
    ensures { result ≡ spec.has_kind (plan_kinds tables.now (any_tree plan.entry)) place kind }
{
    match kind_of(tables, plan, place) {
        Ok(found) => same_kind(kind, found),
        Err(_) => false,
    }
}

fn ends_at(tables: &[Table], plan: AnyPlan, place: usize) -> bool
    ensures { result ≡ spec.ends_at (plan_kinds tables.now (any_tree plan.entry)) place }
{
    kind_of(tables, plan, place).is_err()
}

/// Whether an InSub's columns are of the kinds of its right operand's columns, place by place.
fn matched_fit(tables: &[Table], left: AnyPlan, mut cols: &[u32], right: AnyPlan) -> bool
    ensures { result ≡ spec.matched_from (plan_kinds tables.now (any_tree left.entry)) (plan_kinds tables.now (any_tree right.entry)) 0 cols.entry.now }
{
    let mut place = 0;
    'cols: while let [column, others @ ..] = cols {
        if !has_kind(tables, right, place, kind_at(tables, left, *column)) {
            return false;
        }
        cols = others;
        place += 1;
    }
    ends_at(tables, right, place)
}

/// Whether the kinds at each node are as regular plans have them, and so is each filter.
fn kinds_fit(tables: &[Table], plan: AnyPlan) -> bool
    ensures { result ≡ spec.kinds_fit tables.now (any_tree plan.entry) }
{
    match plan.root() {
        Root::Table(_, _) => true,
        Root::Proj(_, p) | Root::Dedup(p) => kinds_fit(tables, p),
        Root::Filter(pred, cols, p) => filter_fits(tables, pred, cols, p) && kinds_fit(tables, p),
        Root::InnerJoin(a, b, left, right) | Root::LeftJoin(a, b, left, right) => {
            pairs_fit(tables, left, a.as_slice(), right, b.as_slice())
                && kinds_fit(tables, left)
                && kinds_fit(tables, right)
        }
        Root::InSub(cols, left, right) => {
            matched_fit(tables, left, cols.as_slice(), right)
                && kinds_fit(tables, left)
                && kinds_fit(tables, right)
        }
    }
}

fn is_cheap(plan: AnyPlan) -> bool
    ensures { result ≡ spec.is_cheap (any_tree plan.entry) }
{
    plan.cost() <= u32::MAX as u64
}

fn is_regular(tables: &[Table], plan: AnyPlan) -> bool
    ensures { result ≡ spec.is_regular tables.now (any_tree plan.entry) }
{
    match fitting_width(tables, plan) {
        Some(width) => is_narrow(width) && is_cheap(plan) && kinds_fit(tables, plan),
        None => false,
    }
}

/// Whether the plan that a draft is, is regular for a schema of these tables. The kind of a column is looked up by one walk, in time
/// that goes with the number of nodes; no memory is taken.
pub fn regular(tables: &[Table], plan: &Draft) -> bool
    ensures exact { IsTrue result ↔ Regular tables.now (draft_tree plan.now) }
{
    is_regular(tables, AnyPlan::Draft(plan))
}
