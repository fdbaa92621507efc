//! Queries become plans: one walk finds the first fault, or builds the plan.
ghost use Rattle.std.specs.Prelude.{◌≡◌, ◌<◌, ◌≤◌, ◌+◌, ◌^◌, ◌++◌, length};
ghost use Rattle.wt_ast.specs.Tree.{query_tree, from_tree, condition_tree, conditions_tree};
ghost use Rattle.wt_query_rows.specs.Scopes.{scope_of};
ghost use Rattle.wt_query_plan.specs.Building as spec;
ghost use Rattle.wt_query_plan.specs.Faults as faults;
ghost use Rattle.wt_query_plan.specs.Faults.{first_of};
ghost use Rattle.wt_query_plan.specs.Telling.{Tells};
ghost use Rattle.wt_resolve.specs.Scoping.{outside, inside, outer_columns};
ghost use Rattle.wt_conjunct.specs.Views.{conjunct_trees};
ghost use Rattle.wt_joins.specs.Parts.{part_tree};
ghost use Rattle.wt_query_bounds.specs.Bounds.{items_in, items_in_from, items_in_cond, items_in_conds};
ghost use Rattle.wt_clause.specs.Items.{aliases, items_of, leaves_of};
ghost use Rattle.wt_clause.specs.Lists.{from_operand, first_operand, later_operands, commas_of, IsList};
ghost use Rattle.wt_clause.specs.Walking.{from_of, filter_of, Seen, Ready, Halves};
ghost use Rattle.wt_build.specs.Walk.{clause_fault, both_faults, both_leaves, on_fault, on_conjuncts};
ghost use Rattle.wt_sources.specs.Sources.{leaves_tree, Adds, IsBuilt};

use std::alloc::Global;
use wt_ast::{CondKind, Condition, Conditions, FromPart, Query};
use wt_conjunct::Conjunct;
use wt_from::{
    enclosing, finished, join_list, leaf_list, longer, padded, places, push_member, push_test,
    single, split,
};
use wt_joins::{Comma, CommaList, Part};
use wt_query_plan::BuildError;
use wt_resolve::Scope;
use wt_schema::Schema;
use wt_sources::{Built, Leaves, Sources, derived_leaf, table_leaf, two_leaves};

/// The plan of a query inside these FROM clauses.
#[cycle(build)]
pub fn built_query(
    alloc: Global,
    schema: &Schema,
    outer: &[&FromPart],
    q: &Query,
) -> Result<Built, BuildError>
    requires small { items_in (query_tree q.now) ≤ 256 }
    ensures { Tells (faults.query_fault schema.now.tables (outer_columns schema.now.tables outer.now) (query_tree q.now)) (IsBuilt schema.now.tables (query_tree q.now)) result }
{
    let mut sources = Sources::new(alloc);
    let leaves = gather(alloc, schema, outer, &q.from, &mut sources)?;
    let scope = Scope {
        schema: &*schema,
        outer: &*outer,
        items: &sources.items,
        kinds: &sources.kinds,
    };
    planned(alloc, &scope, q, leaves)
}

/// The plan of a query whose items are gathered.
#[cycle(build)]
fn planned(alloc: Global, scope: &Scope, q: &Query, leaves: Leaves) -> Result<Built, BuildError>
    requires small { items_in (query_tree q.now) ≤ 256 }
    requires ready { Ready (from_of (query_tree q.now)) scope.now (leaves_tree leaves) }
    ensures { Tells (clause_fault scope.now.schema.now.tables (outside scope.now) (query_tree q.now)) (IsBuilt scope.now.schema.now.tables (query_tree q.now)) result }
{
    let list = listed(alloc, scope, &q.from, &q.from, leaves)?;
    let conjuncts = kept(alloc, scope, q)?;
    finished(
        alloc,
        scope,
        q.distinct,
        q.items.as_slice(),
        &q.from,
        list,
        conjuncts,
    )
}

/// Adds the items of a FROM clause, and gives the plans of its tables and derived tables.
#[cycle(build)]
fn gather<'a>(
    alloc: Global,
    schema: &'a Schema,
    outer: &[&FromPart],
    from: &'a FromPart,
    out: &mut Sources<'a>,
) -> Result<Leaves, BuildError>
    requires small { items_in_from (from_tree from.now) ≤ 256 }
    ensures { Tells (faults.from_fault schema.now.tables (outer_columns schema.now.tables outer.now) (aliases out.old.items.items) (from_tree from.now))
        (λ leaves. (leaves_tree leaves ≡ leaves_of schema.now.tables (from_tree from.now)) × Adds (items_of schema.now.tables (from_tree from.now)) (faults.kinds_of schema.now.tables (from_tree from.now)) out.old out.new) result }
{
    match from {
        FromPart::Table {
            name,
            alias,
            at,
            alias_at,
        } => table_leaf(schema, name, alias, *at, *alias_at, out),
        FromPart::Derived {
            query,
            alias,
            columns,
            alias_at,
            ..
        } => {
            let built = built_query(alloc, schema, outer, query)?;
            derived_leaf(built, alias, columns, *alias_at, out)
        }
        FromPart::Inner { left, right, .. }
        | FromPart::Left { left, right, .. }
        | FromPart::Right { left, right, .. }
        | FromPart::Comma { left, right, .. } => {
            gather_two(alloc, schema, outer, left, right, out)
        }
    }
}

/// The same for two operands.
#[cycle(build)]
fn gather_two<'a>(
    alloc: Global,
    schema: &'a Schema,
    outer: &[&FromPart],
    left: &'a FromPart,
    right: &'a FromPart,
    out: &mut Sources<'a>,
) -> Result<Leaves, BuildError>
    requires small { items_in_from (from_tree left.now) + items_in_from (from_tree right.now) ≤ 256 }
    ensures { Tells (both_faults schema.now.tables (outer_columns schema.now.tables outer.now) (aliases out.old.items.items) (from_tree left.now) (from_tree right.now))
        (λ leaves. (leaves_tree leaves ≡ both_leaves schema.now.tables (from_tree left.now) (from_tree right.now)) × Adds (items_of schema.now.tables (from_tree left.now) ++ items_of schema.now.tables (from_tree right.now)) (faults.kinds_of schema.now.tables (from_tree left.now) ++ faults.kinds_of schema.now.tables (from_tree right.now)) out.old out.new) result }
{
    let (items, columns) = (out.items.len(), out.kinds.len());
    let one = gather(alloc, schema, outer, left, out)?;
    let (items, columns) = (out.items.len() - items, out.kinds.len() - columns);
    let other = gather(alloc, schema, outer, right, out)?;
    Ok(two_leaves(alloc, one, other, items, columns)?)
}

/// The operands of a FROM clause, or of a part of the one of `block`.
#[cycle(build)]
fn listed(
    alloc: Global,
    scope: &Scope,
    block: &FromPart,
    from: &FromPart,
    leaves: Leaves,
) -> Result<CommaList, BuildError>
    requires ready { Ready (from_tree from.now) scope.now (leaves_tree leaves) }
    ensures { Tells (faults.joins_fault scope.now.schema.now.tables (outside scope.now) (scope_of scope.now.schema.now.tables (from_tree block.now)) (from_tree from.now)) (IsList (first_operand scope.now.schema.now.tables (from_tree from.now)) (later_operands scope.now.schema.now.tables (from_tree from.now)) (commas_of scope.now.schema.now.tables (from_tree from.now))) result }
{
    match from {
        FromPart::Table { .. } | FromPart::Derived { .. } => {
            leaf_list(alloc, leaves.into_plan(), scope.kinds.len() as u32)
        }
        FromPart::Inner {
            left,
            right,
            on,
            on_at,
        }
        | FromPart::Left {
            left,
            right,
            on,
            on_at,
        }
        | FromPart::Right {
            left,
            right,
            on,
            on_at,
        } => {
            let (one, other, conjuncts) = joined(alloc, scope, block, left, right, on, leaves)?;
            join_list(alloc, padded(from), one, other, conjuncts, on, *on_at)
        }
        FromPart::Comma {
            left,
            right,
            comma_at,
        } => {
            let (list, other, columns) = operands(alloc, scope, block, left, right, leaves)?;
            let comma = Comma {
                columns: columns as u32,
                next: scope.kinds.len() as u32,
                at: *comma_at,
            };
            longer(list, other, comma)
        }
    }
}

/// The operands of a comma: the list before it, and the operand behind it. The list has so many columns.
#[cycle(build)]
fn operands(
    alloc: Global,
    scope: &Scope,
    block: &FromPart,
    left: &FromPart,
    right: &FromPart,
    leaves: Leaves,
) -> Result<(CommaList, Part, usize), BuildError>
    requires halves { Halves (from_tree left.now) (from_tree right.now) scope.now (leaves_tree leaves) }
    ensures { Tells (first_of (faults.joins_fault scope.now.schema.now.tables (outside scope.now) (scope_of scope.now.schema.now.tables (from_tree block.now)) (from_tree left.now)) (faults.joins_fault scope.now.schema.now.tables (outside scope.now) (scope_of scope.now.schema.now.tables (from_tree block.now)) (from_tree right.now)))
        (λ two. IsList (first_operand scope.now.schema.now.tables (from_tree left.now)) (later_operands scope.now.schema.now.tables (from_tree left.now)) (commas_of scope.now.schema.now.tables (from_tree left.now)) two.0 × (part_tree two.1 ≡ from_operand scope.now.schema.now.tables (from_tree right.now)) × (two.2 ≡ length (faults.kinds_of scope.now.schema.now.tables (from_tree left.now)))) result }
{
    let (one, other, items, columns) = leaves.into_operands();
    let (before, behind) = split(scope, items, columns);
    let list = listed(alloc, &before, block, left, one)?;
    let right = operand(alloc, &behind, block, right, other)?;
    Ok((list, right, columns))
}

/// A FROM clause, joined.
#[cycle(build)]
fn operand(
    alloc: Global,
    scope: &Scope,
    block: &FromPart,
    from: &FromPart,
    leaves: Leaves,
) -> Result<Part, BuildError>
    requires ready { Ready (from_tree from.now) scope.now (leaves_tree leaves) }
    ensures { Tells (faults.joins_fault scope.now.schema.now.tables (outside scope.now) (scope_of scope.now.schema.now.tables (from_tree block.now)) (from_tree from.now)) (λ p. part_tree p ≡ from_operand scope.now.schema.now.tables (from_tree from.now)) result }
{
    let list = listed(alloc, scope, block, from, leaves)?;
    single(alloc, list)
}

/// The operands of a join.
#[cycle(build)]
fn parts(
    alloc: Global,
    scope: &Scope,
    block: &FromPart,
    left: &FromPart,
    right: &FromPart,
    leaves: Leaves,
) -> Result<(Part, Part), BuildError>
    requires halves { Halves (from_tree left.now) (from_tree right.now) scope.now (leaves_tree leaves) }
    ensures { Tells (first_of (faults.joins_fault scope.now.schema.now.tables (outside scope.now) (scope_of scope.now.schema.now.tables (from_tree block.now)) (from_tree left.now)) (faults.joins_fault scope.now.schema.now.tables (outside scope.now) (scope_of scope.now.schema.now.tables (from_tree block.now)) (from_tree right.now)))
        (λ two. (part_tree two.0 ≡ from_operand scope.now.schema.now.tables (from_tree left.now)) × (part_tree two.1 ≡ from_operand scope.now.schema.now.tables (from_tree right.now))) result }
{
    let (one, other, items, columns) = leaves.into_operands();
    let (before, behind) = split(scope, items, columns);
    let left = operand(alloc, &before, block, left, one)?;
    let right = operand(alloc, &behind, block, right, other)?;
    Ok((left, right))
}

/// The operands of a join, and the conjuncts of its ON.
#[cycle(build)]
fn joined(
    alloc: Global,
    scope: &Scope,
    block: &FromPart,
    left: &FromPart,
    right: &FromPart,
    on: &Condition,
    leaves: Leaves,
) -> Result<(Part, Part, Vec<Conjunct>), BuildError>
    requires small { items_in_cond (condition_tree on.now) ≤ 256 }
    requires halves { Halves (from_tree left.now) (from_tree right.now) scope.now (leaves_tree leaves) }
    ensures { Tells (on_fault scope.now.schema.now.tables (outside scope.now) (scope_of scope.now.schema.now.tables (from_tree block.now)) (from_tree left.now) (from_tree right.now) (condition_tree on.now))
        (λ three. (part_tree three.0 ≡ from_operand scope.now.schema.now.tables (from_tree left.now)) × (part_tree three.1 ≡ from_operand scope.now.schema.now.tables (from_tree right.now)) × (conjunct_trees three.2.items ≡ on_conjuncts scope.now.schema.now.tables (from_tree left.now) (from_tree right.now) (condition_tree on.now))) result }
{
    let (one, other) = parts(alloc, scope, block, left, right, leaves)?;
    let conjuncts = resolved(alloc, scope, block, on)?;
    Ok((one, other, conjuncts))
}

/// The conjuncts of a condition.
#[cycle(build)]
fn resolved(
    alloc: Global,
    scope: &Scope,
    block: &FromPart,
    c: &Condition,
) -> Result<Vec<Conjunct>, BuildError>
    requires small { items_in_cond (condition_tree c.now) ≤ 256 }
    requires narrow { length (inside scope.now) < 2 ^ 32 }
    ensures { Tells (faults.cond_fault scope.now.schema.now.tables (outside scope.now) (scope_of scope.now.schema.now.tables (from_tree block.now)) (inside scope.now) scope.now.kinds.now (condition_tree c.now)) (λ js. conjunct_trees js.items ≡ spec.conjuncts scope.now.schema.now.tables (inside scope.now) (condition_tree c.now)) result }
{
    let mut out = Vec::new(alloc);
    push_conjuncts(alloc, scope, block, c, &mut out)?;
    Ok(out)
}

/// The conjuncts of WHERE.
#[cycle(build)]
fn kept(alloc: Global, scope: &Scope, q: &Query) -> Result<Vec<Conjunct>, BuildError>
    requires small { items_in (query_tree q.now) ≤ 256 }
    requires seen { Seen (from_of (query_tree q.now)) scope.now }
    ensures { Tells (faults.filter_fault scope.now.schema.now.tables (outside scope.now) (scope_of scope.now.schema.now.tables (from_of (query_tree q.now))) (faults.kinds_of scope.now.schema.now.tables (from_of (query_tree q.now))) (filter_of (query_tree q.now))) (λ js. conjunct_trees js.items ≡ spec.kept_by scope.now.schema.now.tables (scope_of scope.now.schema.now.tables (from_of (query_tree q.now))) (filter_of (query_tree q.now))) result }
{
    match &q.filter {
        None => Ok(Vec::new(alloc)),
        Some(c) => resolved(alloc, scope, &q.from, c),
    }
}

/// Adds the conjuncts of a condition.
#[cycle(build)]
fn push_conjuncts(
    alloc: Global,
    scope: &Scope,
    block: &FromPart,
    c: &Condition,
    out: &mut Vec<Conjunct>,
) -> Result<(), BuildError>
    requires small { items_in_cond (condition_tree c.now) ≤ 256 }
    requires narrow { length (inside scope.now) < 2 ^ 32 }
    ensures { Tells (faults.cond_fault scope.now.schema.now.tables (outside scope.now) (scope_of scope.now.schema.now.tables (from_tree block.now)) (inside scope.now) scope.now.kinds.now (condition_tree c.now)) (λ _. conjunct_trees out.new.items ≡ conjunct_trees out.old.items ++ spec.conjuncts scope.now.schema.now.tables (inside scope.now) (condition_tree c.now)) result }
{
    match &c.kind {
        CondKind::And(parts) => push_each(alloc, scope, block, parts, out),
        CondKind::InQuery(columns, query, at) => {
            let cols = places(alloc, scope, columns.as_slice())?;
            let clauses = enclosing(alloc, scope.outer, block)?;
            let built = built_query(alloc, scope.schema, &clauses, query)?;
            push_member(scope, cols, built, *at, out)
        }
        _ => push_test(alloc, scope, c, out),
    }
}

/// Adds the conjuncts of each condition.
#[cycle(build)]
fn push_each(
    alloc: Global,
    scope: &Scope,
    block: &FromPart,
    parts: &Conditions,
    out: &mut Vec<Conjunct>,
) -> Result<(), BuildError>
    requires small { items_in_conds (conditions_tree parts.now) ≤ 256 }
    requires narrow { length (inside scope.now) < 2 ^ 32 }
    ensures { Tells (faults.conds_fault scope.now.schema.now.tables (outside scope.now) (scope_of scope.now.schema.now.tables (from_tree block.now)) (inside scope.now) scope.now.kinds.now (conditions_tree parts.now)) (λ _. conjunct_trees out.new.items ≡ conjunct_trees out.old.items ++ spec.all_conjuncts scope.now.schema.now.tables (inside scope.now) (conditions_tree parts.now)) result }
{
    let mut rest = parts;
    'parts: loop {
        match rest {
            Conditions::Empty => return Ok(()),
            Conditions::More(part, more) => {
                push_conjuncts(alloc, scope, block, part, out)?;
                rest = more;
            }
        }
    }
}
