//! Steps that rest on a Join, and the one that puts two terms together.
ghost use Rattle.std.specs.Prelude.{true, false, List, [], ◌∷◌};
ghost use Rattle.wt_form.specs.declared.form.Expr.{Expr};
ghost use Rattle.wt_form.specs.Trees.{Terms, no_ranges, range_then, Rel, Pred, Join, not_in};
ghost use Rattle.wt_form.specs.Parts.{one_term};
ghost use Rattle.wt_form.specs.Places.{list_rows};
ghost use Rattle.wt_form.specs.Joining.{JoinToIn, Merged, Rewritten};
ghost use Rattle.wt_form.specs.TwoTerms.{SplitByIn};
ghost use Rattle.wt_form.specs.Worked.{known, list, one_row, two_rows, only_cond, joined};
ghost use Rattle.wt_worked_steps.specs.Shapes.{two_conds, part, three_rows, match, in_rows, not_in_rows, row_and_distinct};

/// A Join becomes an In where its variable occurs nowhere else and at most one row of it matches, by Unique or
/// by Distinct, or where it only counts which rows occur. It stays at the top without Unique, and where a
/// piece, another condition or the other side of the Join is over the variable.
pub fn joins_become_ins()
    ensures by_unique { JoinToIn (known true false false) false two_rows joined (list 0 1 ∷ []) (one_term one_row (only_cond (in_rows 0 0)) (list 0 1 ∷ [])) }
    ensures by_distinct { JoinToIn (known false false false) false (row_and_distinct (list_rows 0 0)) joined (list 0 1 ∷ []) (one_term one_row (only_cond (in_rows 0 0)) (list 0 1 ∷ [])) }
    ensures inside { JoinToIn (known false false false) true two_rows joined (list 0 1 ∷ []) (one_term one_row (only_cond (in_rows 0 0)) (list 0 1 ∷ [])) }
    ensures many_rows { (us : Terms) → JoinToIn (known false true true) false two_rows joined (list 0 1 ∷ []) us → ⊥ }
    ensures in_pieces { (us : Terms) → JoinToIn (known true true true) true two_rows joined (list 0 1 ∷ list 1 1 ∷ []) us → ⊥ }
    ensures in_the_join { (us : Terms) → JoinToIn (known true true true) true two_rows (only_cond (Join (list 1 0) (list 1 1))) (list 0 1 ∷ []) us → ⊥ }
    ensures in_conditions { (us : Terms) → JoinToIn (known true true true) true two_rows (two_conds match (Pred 0 (list 1 1))) (list 0 1 ∷ []) us → ⊥ }
{}

/// Two variables over one leaf become one where they are joined on a unique list, with one another or
/// with one expression; not without Unique, over
/// two leaves, or where they are joined on two lists.
pub fn merged_variables()
    ensures step { Merged (known true false false) two_rows joined (list 1 1 ∷ []) (one_term one_row (only_cond (Join (list 0 0) (list 0 0))) (list 0 1 ∷ [])) }
    ensures by_expression { Merged (known true false false) three_rows (two_conds (Join (list 0 0) (list 2 1)) (Join (list 1 0) (list 2 1))) [] (one_term two_rows (two_conds (Join (list 0 0) (list 1 1)) (Join (list 0 0) (list 1 1))) []) }
    ensures not_unique { (us : Terms) → Merged (known false true true) two_rows joined (list 1 1 ∷ []) us → ⊥ }
    ensures other_leaf { (us : Terms) → Merged (known true true true) (range_then (Rel 0) (range_then (Rel 1) no_ranges)) joined (list 1 1 ∷ []) us → ⊥ }
    ensures other_list { (us : Terms) → Merged (known true true true) two_rows (only_cond (Join (list 0 0) (list 1 1))) (list 1 1 ∷ []) us → ⊥ }
{}

/// Of two joined expressions the first is written for the other one; it is no step where the other one occurs
/// nowhere else, and an expression of another list stays.
pub fn rewritten_expressions()
    ensures step { Rewritten (known false false false) two_rows joined (list 1 0 ∷ list 1 1 ∷ []) (one_term two_rows joined (list 0 0 ∷ list 1 1 ∷ [])) }
    ensures nothing_to_write { (us : Terms) → Rewritten (known true true true) two_rows joined (list 0 0 ∷ []) us → ⊥ }
    ensures the_other_way { (us : Terms) → Rewritten (known true true true) two_rows (only_cond (Join (list 1 0) (list 0 0))) (list 0 0 ∷ list 1 1 ∷ []) us → ⊥ }
{}

/// A term with an In and one with the NotIn of the same values in the same rows are one term without either;
/// not where the rows, the values or the pieces differ.
pub fn split_terms()
    ensures step { SplitByIn (known false false false) one_row (only_cond (in_rows 1 1)) (list 0 1 ∷ []) one_row (only_cond (not_in_rows 1 1)) (list 0 1 ∷ []) }
    ensures other_rows { SplitByIn (known true true true) one_row (only_cond (in_rows 1 1)) [] one_row (only_cond (not_in_rows 2 1)) [] → ⊥ }
    ensures other_values { SplitByIn (known true true true) one_row (only_cond (in_rows 1 1)) [] one_row (only_cond (not_in (list 0 1) (part 1 1 ∷ []) (list_rows 1 1))) [] → ⊥ }
    ensures other_pieces { SplitByIn (known true true true) one_row (only_cond (in_rows 1 1)) (list 0 1 ∷ []) one_row (only_cond (not_in_rows 1 1)) (list 0 2 ∷ []) → ⊥ }
    ensures two_ins { SplitByIn (known true true true) one_row (only_cond (in_rows 1 1)) [] one_row (only_cond (in_rows 1 1)) [] → ⊥ }
{}
