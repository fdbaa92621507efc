//! Congruence, for each kind of range, condition and piece.
ghost use Rattle.std.specs.Prelude.{true, false, [], ◌∷◌};
ghost use Rattle.wt_symbol.specs.declared.head.PartCols.TheVariants.{Whole, List as Listed};
ghost use Rattle.wt_form.specs.declared.form.Expr.TheVariants.{Of, Null as null_of};
ghost use Rattle.wt_form.specs.Trees.{Rel, distinct_of, no_conds, Pred, Join, is_in};
ghost use Rattle.wt_form.specs.Places.{list_rows};
ghost use Rattle.wt_form.specs.Congruent.{Congruent};
ghost use Rattle.wt_form.specs.Worked.{known, list, one_row, two_rows, only_cond};
ghost use Rattle.wt_worked_steps.specs.Shapes.{all_same, two_conds, part, whole_part, pred, self_joined, in_rows, not_in_rows, null, distinct_values, form, with_conds, with_pieces, over, rows_0_1, rows_1_0};

/// Ranges are the same over leaves that are the same, or over distinct rows of congruent forms whose heads
/// have the same columns; variables may stand in any order, and none is left over.
pub fn congruent_ranges()
    ensures same_leaves { Congruent all_same (over (Rel 0)) (over (Rel 1)) }
    ensures any_order { Congruent (known false false false) (form rows_0_1 no_conds (list 0 0 ∷ list 1 1 ∷ [])) (form rows_1_0 no_conds (list 1 0 ∷ list 0 1 ∷ [])) }
    ensures distinct { Congruent (known false false false) (over (distinct_values (list_rows 0 0))) (over (distinct_values (list_rows 0 0))) }
    ensures other_leaf { Congruent (known true true true) (over (Rel 0)) (over (Rel 1)) → ⊥ }
    ensures other_order { Congruent (known true true true) (form rows_0_1 no_conds (list 0 0 ∷ list 1 1 ∷ [])) (form rows_1_0 no_conds (list 0 0 ∷ list 1 1 ∷ [])) → ⊥ }
    ensures other_rows { Congruent (known true true true) (over (distinct_values (list_rows 0 0))) (over (distinct_values (list_rows 1 0))) → ⊥ }
    ensures other_list { Congruent (known true true true) (over (distinct_of (part 0 0 ∷ []) (list_rows 0 0))) (over (distinct_of (part 0 1 ∷ []) (list_rows 0 0))) → ⊥ }
    ensures other_whole { Congruent (known true true true) (over (distinct_of (whole_part 0 ∷ []) (list_rows 0 0))) (over (distinct_of (whole_part 1 ∷ []) (list_rows 0 0))) → ⊥ }
    ensures other_kind { Congruent (known true true true) (over (Rel 0)) (over (distinct_values (list_rows 0 0))) → ⊥ }
    ensures fewer { Congruent (known true true true) (form two_rows no_conds []) (form one_row no_conds []) → ⊥ }
{}

/// Conditions are the same where their kinds, predicates and expressions are and their forms are congruent;
/// a Join's two sides and the conditions may stand in any order, and none is left over.
pub fn congruent_conditions()
    ensures same_predicates { Congruent all_same (with_conds (only_cond (pred 0))) (with_conds (only_cond (pred 1))) }
    ensures either_way { Congruent (known false false false) (with_conds (only_cond (self_joined 1))) (with_conds (only_cond (Join (list 0 1) (list 0 0)))) }
    ensures is_among { Congruent (known false false false) (with_conds (only_cond (in_rows 1 1))) (with_conds (only_cond (in_rows 1 1))) }
    ensures not_among { Congruent (known false false false) (with_conds (only_cond (not_in_rows 1 1))) (with_conds (only_cond (not_in_rows 1 1))) }
    ensures any_order { Congruent (known false false false) (with_conds (two_conds (pred 0) (in_rows 1 1))) (with_conds (two_conds (in_rows 1 1) (pred 0))) }
    ensures other_predicate { Congruent (known true true true) (with_conds (only_cond (pred 0))) (with_conds (only_cond (pred 1))) → ⊥ }
    ensures predicate_of_other_list { Congruent (known true true true) (with_conds (only_cond (pred 0))) (with_conds (only_cond (Pred 0 (list 0 1)))) → ⊥ }
    ensures other_join { Congruent (known true true true) (with_conds (only_cond (self_joined 1))) (with_conds (only_cond (self_joined 2))) → ⊥ }
    ensures other_rows { Congruent (known true true true) (with_conds (only_cond (in_rows 1 1))) (with_conds (only_cond (in_rows 2 1))) → ⊥ }
    ensures other_values { Congruent (known true true true) (with_conds (only_cond (in_rows 1 1))) (with_conds (only_cond (is_in (list 0 1) (part 1 1 ∷ []) (list_rows 1 1)))) → ⊥ }
    ensures other_rows_not { Congruent (known true true true) (with_conds (only_cond (not_in_rows 1 1))) (with_conds (only_cond (not_in_rows 2 1))) → ⊥ }
    ensures other_kind { Congruent (known true true true) (with_conds (only_cond (in_rows 1 1))) (with_conds (only_cond (not_in_rows 1 1))) → ⊥ }
    ensures fewer { Congruent (known true true true) (with_conds (only_cond (pred 0))) (with_conds no_conds) → ⊥ }
{}

/// Pieces are the same in order: of one variable and part with the same columns, or NULLs for lists that are
/// the same, or NULLs for all of leaves that are the same.
pub fn congruent_pieces()
    ensures same_lists { Congruent all_same (with_pieces (list 0 0 ∷ [])) (with_pieces (list 0 1 ∷ [])) }
    ensures nulls { Congruent (known false false false) (with_pieces (null ∷ [])) (with_pieces (null_of 2 (Listed 1) ∷ [])) }
    ensures other_list { Congruent (known true true true) (with_pieces (list 0 0 ∷ [])) (with_pieces (list 0 1 ∷ [])) → ⊥ }
    ensures other_order { Congruent (known true true true) (with_pieces (list 0 0 ∷ list 0 1 ∷ [])) (with_pieces (list 0 1 ∷ list 0 0 ∷ [])) → ⊥ }
    ensures whole { Congruent all_same (with_pieces (Of 0 0 Whole ∷ [])) (with_pieces (list 0 0 ∷ [])) → ⊥ }
    ensures other_part { Congruent all_same (with_pieces (Of 0 0 Whole ∷ [])) (with_pieces (Of 0 1 Whole ∷ [])) → ⊥ }
    ensures fewer { Congruent all_same (with_pieces (list 0 0 ∷ [])) (with_pieces []) → ⊥ }
    ensures whole_nulls { Congruent (known true true true) (with_pieces (null_of 1 Whole ∷ [])) (with_pieces (null_of 2 Whole ∷ [])) → ⊥ }
    ensures null_or_list { Congruent all_same (with_pieces (null ∷ [])) (with_pieces (list 0 1 ∷ [])) → ⊥ }
{}
