//! Conjuncts of ON and WHERE.
ghost use Rattle.std.specs.Prelude.{◌≡◌, ◌<◌, ◌^◌, ◌++◌, ◌∷◌, [], List, not, nat_eq, map, length, IfOk};
ghost use Rattle.wt_ast.specs.Tree.{condition_tree, from_tree};
ghost use Rattle.wt_pred.specs.Columns.{occurring};
ghost use Rattle.wt_pred.specs.Tree.{pred_tree};
ghost use Rattle.wt_plan.specs.Tree.{plan_tree};
ghost use Rattle.wt_plan.specs.Regular as regular;
ghost use Rattle.wt_schema.specs.declared.schema.Table.{Table};
ghost use Rattle.wt_query_rows.specs.Scopes.{scope_of};
ghost use Rattle.wt_query_plan.specs.Building as spec;
ghost use Rattle.wt_query_plan.specs.Faults as faults;
ghost use Rattle.wt_query_plan.specs.Faults.{first_of, fault_if};
ghost use Rattle.wt_query_plan.specs.declared.fault.BuildFault.TheVariants as fault_kinds;
ghost use Rattle.wt_query_plan.specs.Telling.{Tells};
ghost use Rattle.wt_resolve.specs.Scoping.{outside, inside, outer_columns};
ghost use Rattle.wt_conjunct.specs.Views.{conjunct_trees};

use std::alloc::Global;
use wt_ast::{ColumnName, Condition, FromPart};
use wt_conjunct::Conjunct;
use wt_pred::Pred;
use wt_query_plan::{BuildError, BuildFault};
use wt_resolve::{Scope, column, kind_at, predicate, same_kind};
use wt_schema::ColKind;
use wt_sources::Built;
use wt_value::{Cols, WantOfMemory};

/// The FROM clauses that a query inside is enclosed by.
pub fn enclosing<'a>(
    alloc: Global,
    outer: &[&'a FromPart],
    from: &'a FromPart,
) -> Result<Vec<&'a FromPart>, WantOfMemory>
    ensures { IfOk result (λ clauses. (S : List Table) → outer_columns S clauses.items ≡ outer_columns S outer.now ++ scope_of S (from_tree from.now)) }
{
    let mut clauses = Vec::from_slice(alloc, outer)?;
    clauses.push(from)?;
    Ok(clauses)
}

fn is_empty(cols: &[u32]) -> bool
    ensures { result ≡ faults.is_empty cols.now }
{
    cols.is_empty()
}

/// Whether a predicate names no column.
#[tactic(auto, using(crate::proofs::Once::none_once))]
fn names_nothing(alloc: Global, pred: &Pred) -> Result<bool, WantOfMemory>
    ensures { IfOk result (λ yes. yes ≡ faults.is_empty (occurring (pred_tree pred.now))) }
{
    let cols = pred.columns(alloc)?;
    Ok(is_empty(cols.as_slice()))
}

/// Adds a conjunct without a subquery.
pub fn push_test(
    alloc: Global,
    scope: &Scope,
    c: &Condition,
    out: &mut Vec<Conjunct>,
) -> Result<(), BuildError>
    requires narrow { length (inside scope.now) < 2 ^ 32 }
    ensures { Tells (faults.conjunct_fault (outside scope.now) (inside scope.now) scope.now.kinds.now c.now.at (condition_tree c.now)) (λ _. conjunct_trees out.new.items ≡ conjunct_trees out.old.items ++ spec.keeps (spec.pred_of (inside scope.now) (condition_tree c.now)) ∷ []) result }
{
    let pred = predicate(alloc, scope, c)?;
    if names_nothing(alloc, &pred)? {
        return Err(BuildError::Refused(BuildFault::ConditionWithoutColumn, c.at));
    }
    out.push(Conjunct::Keeps(pred))?;
    Ok(())
}

/// The places of columns.
pub fn places(alloc: Global, scope: &Scope, columns: &[ColumnName]) -> Result<Cols, BuildError>
    requires narrow { length (inside scope.now) < 2 ^ 32 }
    ensures { Tells (faults.columns_fault (outside scope.now) (inside scope.now) columns.now) (λ cols. cols ≡ map (spec.place_of (inside scope.now)) columns.now) result }
{
    let mut found = Cols::new(alloc);
    let mut rest = columns;
    'columns: while let [name, more @ ..] = rest {
        found.push(column(alloc, scope, name)?)?;
        rest = more;
    }
    Ok(found)
}

/// Whether the columns have these kinds.
fn kinds_fit(kinds: &[ColKind], mut cols: &[u32], mut wanted: &[ColKind]) -> bool
    ensures { result ≡ faults.kinds_same (map (λ k. regular.kind_at kinds.now k) cols.entry.now) wanted.entry.now }
{
    'cols: while let [col, more @ ..] = cols {
        let [kind, others @ ..] = wanted else {
            return false;
        };
        if !same_kind(kind_at(kinds, *col), *kind) {
            return false;
        }
        cols = more;
        wanted = others;
    }
    wanted.is_empty()
}

/// Refuses a subquery whose output has another width, or other kinds, than the columns.
pub fn member_told(
    kinds: &[ColKind],
    cols: &[u32],
    wanted: &[ColKind],
    at: u32,
) -> Result<(), BuildError>
    ensures { Tells (first_of (fault_if (not (nat_eq (length cols.now) (length wanted.now))) fault_kinds.InWidth at) (fault_if (not (faults.kinds_same (map (λ k. regular.kind_at kinds.now k) cols.now) wanted.now)) fault_kinds.TypeMismatch at)) (λ _. Unit {0}) result }
{
    if cols.len() != wanted.len() {
        return Err(BuildError::Refused(BuildFault::InWidth, at));
    }
    if !kinds_fit(kinds, cols, wanted) {
        return Err(BuildError::Refused(BuildFault::TypeMismatch, at));
    }
    Ok(())
}

/// Adds the conjunct of a subquery IN.
pub fn push_member(
    scope: &Scope,
    cols: Cols,
    built: Built,
    at: u32,
    out: &mut Vec<Conjunct>,
) -> Result<(), BuildError>
    ensures { Tells (first_of (fault_if (not (nat_eq (length cols) (length built.kinds.items))) fault_kinds.InWidth at) (fault_if (not (faults.kinds_same (map (λ k. regular.kind_at scope.now.kinds.now k) cols) built.kinds.items)) fault_kinds.TypeMismatch at))
        (λ _. conjunct_trees out.new.items ≡ conjunct_trees out.old.items ++ spec.is_in cols (plan_tree built.plan) ∷ []) result }
{
    member_told(scope.kinds, cols.as_slice(), &built.kinds, at)?;
    out.push(Conjunct::IsIn(cols, built.plan))?;
    Ok(())
}
