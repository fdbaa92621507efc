//! A FROM clause, its items and its operands.
ghost use Rattle.std.specs.Prelude.{◌≡◌, ◌<◌, ◌≤◌, ◌+◌, ◌^◌, ◌++◌, None, ℕ, List, [], length};
ghost use Rattle.std.specs.Prelude.{Result};
ghost use Rattle.wt_ast.specs.Tree.{FromTree, CondTree, inner_join, left_join, right_join};
ghost use Rattle.wt_schema.specs.declared.schema.Table.{Table};
ghost use Rattle.wt_schema.specs.Lawful.{IsSchema};
ghost use Rattle.wt_query_rows.specs.declared.scope.ScopeColumn.{ScopeColumn};
ghost use Rattle.wt_query_rows.specs.Scopes.{scope_of};
ghost use Rattle.wt_query_plan.specs.Building.{Conjunct, from_plan, places_of, conjuncts, free_of};
ghost use Rattle.wt_query_plan.specs.Faults.{aliases_of, commas_fault, from_fault, kinds_of};
ghost use Rattle.wt_resolve.specs.declared.lookup.Scope.{Scope};
ghost use Rattle.wt_resolve.specs.Scoping.{columns_of, inside};
ghost use Rattle.wt_joins.specs.Parts.{operand, inner_operand, left_operand, right_operand, Within};
ghost use Rattle.wt_joins.specs.Commas.{commas_refused, free_at, list_operand, list_width, AllWithin};
ghost use Rattle.wt_query_bounds.specs.Bounds.{items_in_from};
ghost use Rattle.wt_clause.specs.Items.{items_of, aliases};
ghost use Rattle.wt_clause.specs.Lists.{from_operand, first_operand, later_operands, commas_of};
ghost use Rattle.wt_clause.specs.Walking.{Seen};

/// A law: the items of a clause have its columns and its aliases, and its places are those of its rows.
pub fn clauses_have_their_items()
    ensures columns { (S : List Table) (f : FromTree) → columns_of (items_of S f) ≡ scope_of S f }
    ensures aliases { (S : List Table) (f : FromTree) → aliases (items_of S f) ≡ aliases_of f }
    ensures places { (S : List Table) (f : FromTree) → Within (places_of S f) }
{}

/// A law: a clause is the list of its operands: joined, they have its plan, whichever conjuncts WHERE has; the first comma that
/// none links is the clause's fault; and the conjuncts that link none are those that stand above.
pub fn clauses_are_comma_lists()
    ensures plan { (S : List Table) (js : List Conjunct) (f : FromTree) → list_operand js (first_operand S f) (later_operands S f) ≡ operand (from_plan S js f) (places_of S f) }
    ensures fault { (S : List Table) (js : List Conjunct) (f : FromTree) → commas_refused js (commas_of S f) ≡ commas_fault S js f }
    ensures free { (S : List Table) (f : FromTree) (js : List Conjunct) → free_at (commas_of S f) js ≡ free_of S f js }
    ensures width { (S : List Table) (f : FromTree) → list_width (first_operand S f) (later_operands S f) ≡ length (scope_of S f) }
    ensures within { (S : List Table) (f : FromTree) → AllWithin (later_operands S f) }
{}

/// A law: a clause without a fault of its items, of at most 256 items, is seen: its columns in scope are those of its items,
/// with a kind for each, and fewer than 2^32.
pub fn parts_are_seen()
    ensures seen { (scope : Scope) (f : FromTree) (outer : List ScopeColumn) → IsSchema scope.schema.now.tables → items_in_from f ≤ 256 → from_fault scope.schema.now.tables outer [] f ≡ None
        → scope.items.now ≡ items_of scope.schema.now.tables f → scope.kinds.now ≡ kinds_of scope.schema.now.tables f → Seen f scope }
    ensures columns { (scope : Scope) (f : FromTree) → Seen f scope → inside scope ≡ scope_of scope.schema.now.tables f }
    ensures narrow { (scope : Scope) (f : FromTree) → Seen f scope → length (inside scope) < 2 ^ 32 }
    ensures even { (scope : Scope) (f : FromTree) → Seen f scope → length scope.kinds.now ≡ length (inside scope) }
{}

/// A law: the operands of two clauses, joined, are the operand of the join.
pub fn joins_are_operands()
    ensures inner { (S : List Table) (l r : FromTree) (on : CondTree) (at : ℕ) → inner_operand (conjuncts S (scope_of S l ++ scope_of S r) on) (from_operand S l) (from_operand S r) ≡ from_operand S (inner_join l r on at) }
    ensures left { (S : List Table) (l r : FromTree) (on : CondTree) (at : ℕ) → left_operand (conjuncts S (scope_of S l ++ scope_of S r) on) (from_operand S l) (from_operand S r) ≡ from_operand S (left_join l r on at) }
    ensures right { (S : List Table) (l r : FromTree) (on : CondTree) (at : ℕ) → right_operand (conjuncts S (scope_of S l ++ scope_of S r) on) (from_operand S l) (from_operand S r) ≡ from_operand S (right_join l r on at) }
{}
