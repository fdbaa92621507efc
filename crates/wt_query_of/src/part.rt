//! A FROM clause with its items, from its parts.
ghost use Rattle.std.specs.Prelude.{◌≡◌, ◌++◌, ◌+◌, ◌<◌, ◌^◌, List, [], ◌∷◌, map, None, Some, IfOk, OnOk};
ghost use Rattle.wt_schema.specs.declared.schema.Table.{Table};
ghost use Rattle.wt_ast.specs.Tree.{query_tree, from_tree, condition_tree, select, no_filter, table, derived, inner_join, left_join, in_query};
ghost use Rattle.wt_pred.specs.Tree.{pred_tree};
ghost use Rattle.wt_query_rows.specs.Scopes.{in_scope};
ghost use Rattle.wt_blocks.specs.Printed as spec;
ghost use Rattle.wt_tree_parts.specs.Leaves.{scope_of_leaves};

use std::alloc::Global;
use wt_ast::{ColumnNames, CondKind, Condition, FromPart, Items, Query};
use wt_pred::Pred;
use wt_schema::Schema;
use wt_tree_parts::{
    Leaf, LeafColumns, Sight, alias_of, columns_at, place_names, plain, push_pairs, star,
    table_name, test, together, where_of, with_names,
};
use wt_value::{Cols, Name, Names, WantOfMemory};

/// A FROM clause, and its items with their columns.
#[derive(Drop)]
pub(crate) struct Part {
    pub from: Box<FromPart>,
    pub leaves: Vec<Leaf>,
}

/// A zone: its FROM clause with its items, and its conditions.
#[derive(Drop)]
pub(crate) struct Zone {
    pub from: Box<FromPart>,
    pub leaves: Vec<Leaf>,
    pub conditions: Vec<Condition>,
}

/// The next number of a FROM item.
pub(crate) fn taken(next: &mut u64) -> u64
    requires { next.old < 2 ^ 62 }
    ensures number { result ≡ next.old }
    ensures next { next.new ≡ next.old + 1 }
{
    let number = *next;
    *next = number + 1;
    number
}

fn one_leaf(alloc: Global, leaf: Leaf) -> Result<Vec<Leaf>, WantOfMemory>
    ensures { IfOk result (λ leaves. leaves.items ≡ leaf ∷ []) }
{
    let mut leaves = Vec::new(alloc);
    leaves.push(leaf)?;
    Ok(leaves)
}

/// A table.
pub(crate) fn table_part(
    alloc: Global,
    schema: &Schema,
    number: u32,
    item: u64,
) -> Result<Part, WantOfMemory>
    ensures from { IfOk result (λ p. from_tree p.from.value ≡ table (spec.table_name schema.now.tables number) (Some (spec.alias_of item)) 0 0) }
    ensures columns { IfOk result (λ p. scope_of_leaves schema.now.tables p.leaves.items ≡ map (in_scope (spec.alias_of item)) (spec.table_columns schema.now.tables number)) }
{
    let leaf = Leaf {
        alias: alias_of(alloc, item)?,
        columns: LeafColumns::Table(number),
    };
    let table = FromPart::Table {
        name: table_name(alloc, schema, number)?,
        alias: Some(leaf.alias.clone()?),
        at: 0,
        alias_at: 0,
    };
    let from = Box::new(alloc, table)?;
    let leaves = one_leaf(alloc, leaf)?;
    Ok(Part { from, leaves })
}

/// A derived table with a column list.
pub(crate) fn derived_from(
    alloc: Global,
    query: Query,
    alias: Name,
    columns: Names,
) -> Result<Box<FromPart>, WantOfMemory>
    ensures { IfOk result (λ f. from_tree f.value ≡ derived (query_tree query) alias (Some columns) 0 0) }
{
    let query = Box::new(alloc, query)?;
    let derived = FromPart::Derived {
        query,
        alias,
        columns: Some(columns),
        at: 0,
        alias_at: 0,
    };
    Ok(Box::new(alloc, derived)?)
}

/// What a derived table is called: its alias, its columns, and itself as the only item of a FROM clause.
#[derive(Drop)]
struct DerivedNames {
    alias: Name,
    columns: Names,
    leaves: Vec<Leaf>,
}

fn derived_names(alloc: Global, width: u32, item: u64) -> Result<DerivedNames, WantOfMemory>
    ensures alias { IfOk result (λ d. d.alias ≡ spec.alias_of item) }
    ensures columns { IfOk result (λ d. d.columns ≡ spec.place_names width) }
    ensures leaves { (S : List Table) → IfOk result (λ d. scope_of_leaves S d.leaves.items ≡ map (in_scope (spec.alias_of item)) (spec.place_names width)) }
{
    let columns = place_names(alloc, width)?;
    let alias = alias_of(alloc, item)?;
    let leaf = Leaf {
        alias: alias.clone()?,
        columns: LeafColumns::Places(width),
    };
    let leaves = one_leaf(alloc, leaf)?;
    Ok(DerivedNames {
        alias,
        columns,
        leaves,
    })
}

/// A query of so many columns as a derived table.
pub(crate) fn derived_part(
    alloc: Global,
    query: Query,
    width: u32,
    item: u64,
) -> Result<Part, WantOfMemory>
    ensures from { IfOk result (λ p. from_tree p.from.value ≡ derived (query_tree query) (spec.alias_of item) (Some (spec.place_names width)) 0 0) }
    ensures columns { (S : List Table) → IfOk result (λ p. scope_of_leaves S p.leaves.items ≡ map (in_scope (spec.alias_of item)) (spec.place_names width)) }
{
    let names = derived_names(alloc, width, item)?;
    let from = derived_from(alloc, query, names.alias, names.columns)?;
    Ok(Part {
        from,
        leaves: names.leaves,
    })
}

fn pairs(
    alloc: Global,
    schema: &Schema,
    a: &Cols,
    b: &Cols,
    left: &[Leaf],
    right: &[Leaf],
) -> Result<Vec<Condition>, WantOfMemory>
    ensures { IfOk result (λ cs. map condition_tree cs.items ≡ spec.pair_trees (scope_of_leaves schema.now.tables left.now) (scope_of_leaves schema.now.tables right.now) a.now b.now) }
{
    let mut on = Vec::new(alloc);
    let lefts = Sight {
        schema,
        leaves: left,
    };
    let rights = Sight {
        schema,
        leaves: right,
    };
    push_pairs(alloc, &lefts, &rights, a.as_slice(), b.as_slice(), &mut on)?;
    Ok(on)
}

/// The items of both operands of a join.
fn both(left: Vec<Leaf>, right: Vec<Leaf>) -> Result<Vec<Leaf>, WantOfMemory>
    ensures { IfOk result (λ leaves. leaves.items ≡ left.items ++ right.items) }
{
    let (mut left, mut right) = (left, right);
    left.append(&mut right)?;
    Ok(left)
}

fn longer(pairs: Vec<Condition>, conditions: Vec<Condition>) -> Result<Vec<Condition>, WantOfMemory>
    ensures { IfOk result (λ cs. cs.items ≡ pairs.items ++ conditions.items) }
{
    let (mut pairs, mut conditions) = (pairs, conditions);
    pairs.append(&mut conditions)?;
    Ok(pairs)
}

/// The ON of a join: its pairs, and these conditions behind them.
#[tactic(auto, using(crate::proofs::Scopes::scopes))]
fn on_of(
    alloc: Global,
    schema: &Schema,
    a: &Cols,
    b: &Cols,
    left: &[Leaf],
    right: &[Leaf],
    conditions: Vec<Condition>,
) -> Result<Condition, WantOfMemory>
    ensures { IfOk result (λ c. condition_tree c ≡ spec.together (spec.pair_trees (scope_of_leaves schema.now.tables left.now) (scope_of_leaves schema.now.tables right.now) a.now b.now ++ map condition_tree conditions.items)) }
{
    let on = pairs(alloc, schema, a, b, left, right)?;
    let on = longer(on, conditions)?;
    together(alloc, on)
}

/// The parts of a join: its operands, its ON, and the items of both operands.
#[derive(Drop)]
struct Join {
    left: Box<FromPart>,
    right: Box<FromPart>,
    on: Condition,
    leaves: Vec<Leaf>,
}

/// The parts of a join, in whose ON the conditions of the right operand stand behind the pairs.
#[tactic(auto, using(crate::proofs::Scopes::scopes))]
fn joined(
    alloc: Global,
    schema: &Schema,
    a: &Cols,
    b: &Cols,
    left: Part,
    right: Zone,
) -> Result<Join, WantOfMemory>
    ensures left { IfOk result (λ j. j.left.value ≡ left.from.value) }
    ensures right { IfOk result (λ j. j.right.value ≡ right.from.value) }
    ensures on { IfOk result (λ j. condition_tree j.on ≡ spec.together (spec.pair_trees (scope_of_leaves schema.now.tables left.leaves.items) (scope_of_leaves schema.now.tables right.leaves.items) a.now b.now ++ map condition_tree right.conditions.items)) }
    ensures columns { IfOk result (λ j. scope_of_leaves schema.now.tables j.leaves.items ≡ scope_of_leaves schema.now.tables left.leaves.items ++ scope_of_leaves schema.now.tables right.leaves.items) }
{
    let conditions = right.conditions;
    let on = on_of(alloc, schema, a, b, &left.leaves, &right.leaves, conditions)?;
    let leaves = both(left.leaves, right.leaves)?;
    Ok(Join {
        left: left.from,
        right: right.from,
        on,
        leaves,
    })
}

/// An inner join.
#[tactic(auto, using(crate::proofs::Scopes::scopes))]
pub(crate) fn inner_part(
    alloc: Global,
    schema: &Schema,
    a: &Cols,
    b: &Cols,
    left: Part,
    right: Part,
) -> Result<Part, WantOfMemory>
    ensures from { IfOk result (λ p. from_tree p.from.value ≡ inner_join (from_tree left.from.value) (from_tree right.from.value) (spec.together (spec.pair_trees (scope_of_leaves schema.now.tables left.leaves.items) (scope_of_leaves schema.now.tables right.leaves.items) a.now b.now)) 0) }
    ensures columns { IfOk result (λ p. scope_of_leaves schema.now.tables p.leaves.items ≡ scope_of_leaves schema.now.tables left.leaves.items ++ scope_of_leaves schema.now.tables right.leaves.items) }
{
    let right = Zone {
        from: right.from,
        leaves: right.leaves,
        conditions: Vec::new(alloc),
    };
    let join = joined(alloc, schema, a, b, left, right)?;
    let from = FromPart::Inner {
        left: join.left,
        right: join.right,
        on: join.on,
        on_at: 0,
    };
    Ok(Part {
        from: Box::new(alloc, from)?,
        leaves: join.leaves,
    })
}

/// A LEFT JOIN, in whose ON the conditions of the right operand stand behind the pairs.
pub(crate) fn left_part(
    alloc: Global,
    schema: &Schema,
    a: &Cols,
    b: &Cols,
    left: Part,
    right: Zone,
) -> Result<Part, WantOfMemory>
    ensures from { IfOk result (λ p. from_tree p.from.value ≡ left_join (from_tree left.from.value) (from_tree right.from.value) (spec.together (spec.pair_trees (scope_of_leaves schema.now.tables left.leaves.items) (scope_of_leaves schema.now.tables right.leaves.items) a.now b.now ++ map condition_tree right.conditions.items)) 0) }
    ensures columns { IfOk result (λ p. scope_of_leaves schema.now.tables p.leaves.items ≡ scope_of_leaves schema.now.tables left.leaves.items ++ scope_of_leaves schema.now.tables right.leaves.items) }
{
    let join = joined(alloc, schema, a, b, left, right)?;
    let from = FromPart::Left {
        left: join.left,
        right: join.right,
        on: join.on,
        on_at: 0,
    };
    Ok(Part {
        from: Box::new(alloc, from)?,
        leaves: join.leaves,
    })
}

/// Adds a test of columns.
pub(crate) fn push_test(
    alloc: Global,
    schema: &Schema,
    leaves: &[Leaf],
    cols: &Cols,
    pred: &Pred,
    conditions: &mut Vec<Condition>,
) -> Result<(), WantOfMemory>
    ensures { OnOk result (map condition_tree conditions.new.items ≡ map condition_tree conditions.old.items ++ spec.test_tree (scope_of_leaves schema.now.tables leaves.now) cols.now (pred_tree pred.now) ∷ []) }
{
    let sight = Sight { schema, leaves };
    let condition = test(alloc, &sight, cols.as_slice(), pred)?;
    Ok(conditions.push(condition)?)
}

/// `columns IN (query)`.
fn member(alloc: Global, columns: ColumnNames, query: Query) -> Result<Condition, WantOfMemory>
    ensures { IfOk result (λ c. condition_tree c ≡ in_query 0 columns (query_tree query) 0) }
{
    let query = Box::new(alloc, query)?;
    Ok(Condition {
        at: 0,
        kind: CondKind::InQuery(columns, query, 0),
    })
}

/// Adds `columns IN (query)`.
pub(crate) fn push_member(
    alloc: Global,
    schema: &Schema,
    leaves: &[Leaf],
    cols: &Cols,
    query: Query,
    conditions: &mut Vec<Condition>,
) -> Result<(), WantOfMemory>
    ensures { OnOk result (map condition_tree conditions.new.items ≡ map condition_tree conditions.old.items ++ in_query 0 (spec.columns_at (scope_of_leaves schema.now.tables leaves.now) cols.now) (query_tree query) 0 ∷ []) }
{
    let sight = Sight { schema, leaves };
    let columns = columns_at(alloc, &sight, cols.as_slice())?;
    let condition = member(alloc, columns, query)?;
    Ok(conditions.push(condition)?)
}

/// A query of its clauses.
#[tactic(auto, using(crate::proofs::Scopes::queries))]
fn finished(
    alloc: Global,
    distinct: bool,
    items: Items,
    from: Box<FromPart>,
    conditions: Vec<Condition>,
) -> Result<Query, WantOfMemory>
    ensures { IfOk result (λ q. query_tree q ≡ select distinct items (from_tree from.value) (spec.where_of (map condition_tree conditions.items))) }
{
    let filter = where_of(alloc, conditions)?;
    Ok(Query {
        distinct,
        items,
        from: Box::into_inner(from),
        filter,
    })
}

/// `SELECT [DISTINCT] *` from a zone.
pub(crate) fn all_columns(alloc: Global, distinct: bool, zone: Zone) -> Result<Query, WantOfMemory>
    ensures { IfOk result (λ q. query_tree q ≡ select distinct (spec.items_of None []) (from_tree zone.from.value) (spec.where_of (map condition_tree zone.conditions.items))) }
{
    let items = star(alloc)?;
    finished(alloc, distinct, items, zone.from, zone.conditions)
}

/// `SELECT [DISTINCT]` of columns from a zone.
pub(crate) fn some_columns(
    alloc: Global,
    schema: &Schema,
    distinct: bool,
    cols: &Cols,
    zone: Zone,
) -> Result<Query, WantOfMemory>
    ensures { IfOk result (λ q. query_tree q ≡ select distinct (spec.items_of (Some cols.now) (scope_of_leaves schema.now.tables zone.leaves.items)) (from_tree zone.from.value) (spec.where_of (map condition_tree zone.conditions.items))) }
{
    let sight = Sight {
        schema,
        leaves: &zone.leaves,
    };
    let items = plain(alloc, &sight, cols.as_slice())?;
    finished(alloc, distinct, items, zone.from, zone.conditions)
}

/// `SELECT [DISTINCT]` of columns with names from a zone.
pub(crate) fn named_columns(
    alloc: Global,
    schema: &Schema,
    distinct: bool,
    cols: &Cols,
    names: &[Name],
    zone: Zone,
) -> Result<Query, WantOfMemory>
    ensures { IfOk result (λ q. query_tree q ≡ select distinct (spec.named_items (scope_of_leaves schema.now.tables zone.leaves.items) cols.now names.now) (from_tree zone.from.value) (spec.where_of (map condition_tree zone.conditions.items))) }
{
    let sight = Sight {
        schema,
        leaves: &zone.leaves,
    };
    let items = with_names(alloc, &sight, cols.as_slice(), names)?;
    finished(alloc, distinct, items, zone.from, zone.conditions)
}

/// `SELECT [DISTINCT] *` from a FROM clause without conditions.
pub(crate) fn star_from(
    alloc: Global,
    distinct: bool,
    from: Box<FromPart>,
) -> Result<Query, WantOfMemory>
    ensures { IfOk result (λ q. query_tree q ≡ select distinct (spec.items_of None []) (from_tree from.value) no_filter) }
{
    let items = star(alloc)?;
    finished(alloc, distinct, items, from, Vec::new(alloc))
}
