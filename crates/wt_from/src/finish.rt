//! The plan of a query whose FROM clause and WHERE are resolved.
ghost use Rattle.std.specs.Prelude.{◌≡◌, ◌<◌, ◌^◌, ◌&&◌, None, length, flat_map, not};
ghost use Rattle.wt_ast.specs.Tree.{from_tree};
ghost use Rattle.wt_plan.specs.Tree.{plan_tree};
ghost use Rattle.wt_query_rows.specs.Scopes.{scope_of, item_names};
ghost use Rattle.wt_query_plan.specs.Building as building;
ghost use Rattle.wt_query_plan.specs.Faults as faults;
ghost use Rattle.wt_query_plan.specs.Faults.{first_of};
ghost use Rattle.wt_query_plan.specs.Telling.{Tells};
ghost use Rattle.wt_resolve.specs.Scoping.{outside, inside};
ghost use Rattle.wt_conjunct.specs.Views.{conjunct_trees};
ghost use Rattle.wt_select.specs.Listing.{Lists};
ghost use Rattle.wt_joins.specs.Parts.{part_tree, part_trees};
ghost use Rattle.wt_joins.specs.Commas.{commas_refused, free_at, list_operand, list_width, AllWithin};
ghost use Rattle.wt_joins.specs.Wholes.{whole};
ghost use Rattle.wt_clause.specs.Lists.{first_operand, later_operands, commas_of, planned_by, IsList};
ghost use Rattle.wt_clause.specs.Walking.{Seen};

use std::alloc::Global;
use wt_ast::{FromPart, Item};
use wt_conjunct::Conjunct;
use wt_joins::{Comma, CommaList, assembled, commas_told, has_right, is_sole_star};
use wt_query_plan::BuildError;
use wt_resolve::Scope;
use wt_select::{Selected, select};
use wt_sources::Built;

/// The select list of a query each of whose commas is linked.
fn selected(
    alloc: Global,
    scope: &Scope,
    items: &[Item],
    commas: &[Comma],
    conjuncts: &[Conjunct],
) -> Result<Selected, BuildError>
    requires narrow { length (inside scope.now) < 2 ^ 32 }
    requires even { length scope.now.kinds.now ≡ length (inside scope.now) }
    ensures { Tells (first_of (commas_refused (conjunct_trees conjuncts.now) commas.now) (faults.items_fault (outside scope.now) (inside scope.now) scope.now.kinds.now 0 items.now)) (λ s. Lists (inside scope.now) scope.now.kinds.now items.now s) result }
{
    commas_told(commas, conjuncts)?;
    select(alloc, scope, items)
}

/// The plan of a query with this select list.
fn finish(
    alloc: Global,
    distinct: bool,
    sole: bool,
    list: CommaList,
    conjuncts: Vec<Conjunct>,
    selected: Selected,
) -> Result<Built, BuildError>
    requires narrow { list_width (part_tree list.first) (part_trees list.others.items) < 2 ^ 32 }
    requires within { AllWithin (part_trees list.others.items) }
    ensures { Tells None (λ b. (plan_tree b.plan ≡ whole distinct sole selected.places.items (free_at list.commas.items (conjunct_trees conjuncts.items)) (list_operand (conjunct_trees conjuncts.items) (part_tree list.first) (part_trees list.others.items)))
        × (b.names.items ≡ selected.names.items) × (b.kinds.items ≡ selected.kinds.items)) result }
{
    let Selected {
        names,
        kinds,
        places,
    } = selected;
    let plan = assembled(alloc, list, conjuncts, sole, &places, distinct)?;
    Ok(Built { plan, names, kinds })
}

/// Whether the select list is all columns, as they stand in the rows of the FROM clause.
fn is_whole(items: &[Item], from: &FromPart) -> bool
    ensures { result ≡ (building.is_sole_star items.now && not (building.has_right (from_tree from.now))) }
{
    is_sole_star(items) && !has_right(from)
}

/// The plan of a query from its operands and the conjuncts of its WHERE.
pub fn finished(
    alloc: Global,
    scope: &Scope,
    distinct: bool,
    items: &[Item],
    from: &FromPart,
    list: CommaList,
    conjuncts: Vec<Conjunct>,
) -> Result<Built, BuildError>
    requires seen { Seen (from_tree from.now) scope.now }
    requires list { IsList (first_operand scope.now.schema.now.tables (from_tree from.now)) (later_operands scope.now.schema.now.tables (from_tree from.now)) (commas_of scope.now.schema.now.tables (from_tree from.now)) list }
    ensures { Tells (first_of (faults.commas_fault scope.now.schema.now.tables (conjunct_trees conjuncts.items) (from_tree from.now)) (faults.items_fault (outside scope.now) (scope_of scope.now.schema.now.tables (from_tree from.now)) (faults.kinds_of scope.now.schema.now.tables (from_tree from.now)) 0 items.now))
        (λ b. (plan_tree b.plan ≡ planned_by scope.now.schema.now.tables distinct items.now (from_tree from.now) (conjunct_trees conjuncts.items))
        × (b.names.items ≡ flat_map (item_names (scope_of scope.now.schema.now.tables (from_tree from.now))) items.now)
        × (b.kinds.items ≡ flat_map (faults.item_kinds (scope_of scope.now.schema.now.tables (from_tree from.now)) (faults.kinds_of scope.now.schema.now.tables (from_tree from.now))) items.now)) result }
{
    let selected = selected(alloc, scope, items, &list.commas, &conjuncts)?;
    let sole = is_whole(items, from);
    finish(alloc, distinct, sole, list, conjuncts, selected)
}
