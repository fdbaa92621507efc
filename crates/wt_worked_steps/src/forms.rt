//! The forms of sides, operator by operator.
ghost use Rattle.std.specs.Prelude.{◌≡◌, [], ◌∷◌};
ghost use Rattle.wt_symbol.specs.declared.head.PartCols.TheVariants.{Whole, List as Listed};
ghost use Rattle.wt_symbol.specs.Sides.{input, proj, filtered, inner_join, left_join, in_sub, dedup};
ghost use Rattle.wt_form.specs.declared.form.Expr.TheVariants.{Of, Null as null_of};
ghost use Rattle.wt_form.specs.Trees.{term_then, no_ranges, range_then, Rel, distinct_of, no_conds, Pred, Join, not_in};
ghost use Rattle.wt_form.specs.Parts.{one_term};
ghost use Rattle.wt_form.specs.Places.{list_rows};
ghost use Rattle.wt_form.specs.FormOf.{form_of};
ghost use Rattle.wt_form.specs.Worked.{list, one_row, only_cond};
ghost use Rattle.wt_worked_steps.specs.Shapes.{two_conds, part, whole_part, pred, in_rows, one_distinct, rows_0_1, all_of};

/// The forms of an input, of each operator over inputs, and of three sides with operators inside: a Filter on
/// a list that the side below does not show, a join of joins, whose variables are numbered on, and the
/// distinct rows of a join, whose variable has two parts.
pub fn worked_forms()
    ensures input { form_of (input 0) [] ≡ record { head = whole_part 0 ∷ []; terms = one_term one_row no_conds (all_of 0 ∷ []) } }
    ensures proj { form_of (proj 0 (input 0)) (0 ∷ []) ≡ record { head = part 0 0 ∷ []; terms = list_rows 0 0 } }
    ensures filter { form_of (filtered 0 0 (input 0)) (0 ∷ []) ≡ record { head = whole_part 0 ∷ []; terms = one_term one_row (only_cond (pred 0)) (all_of 0 ∷ []) } }
    ensures inner_join { form_of (inner_join 0 1 (input 0) (input 1)) (0 ∷ 1 ∷ []) ≡ record {
      head = whole_part 0 ∷ whole_part 1 ∷ [];
      terms = one_term rows_0_1 (only_cond (Join (list 0 0) (list 1 1))) (all_of 0 ∷ all_of 1 ∷ []);
    } }
    ensures left_join { form_of (left_join 0 1 (input 0) (input 1)) (0 ∷ 1 ∷ []) ≡ record {
      head = whole_part 0 ∷ whole_part 1 ∷ [];
      terms = term_then rows_0_1 (only_cond (Join (list 0 0) (list 1 1))) (all_of 0 ∷ all_of 1 ∷ [])
          (one_term one_row (only_cond (not_in (list 0 0) (part 1 1 ∷ []) (list_rows 1 1))) (all_of 0 ∷ null_of 1 Whole ∷ []));
    } }
    ensures in_sub { form_of (in_sub 0 (input 0) (proj 1 (input 1))) (0 ∷ 1 ∷ []) ≡ record { head = whole_part 0 ∷ []; terms = one_term one_row (only_cond (in_rows 1 1)) (all_of 0 ∷ []) } }
    ensures dedup { form_of (dedup (proj 0 (input 0))) (0 ∷ []) ≡ record { head = part 0 0 ∷ []; terms = one_term (one_distinct (list_rows 0 0)) no_conds (list 0 0 ∷ []) } }
    ensures hidden { form_of (filtered 0 1 (proj 0 (input 0))) (0 ∷ 1 ∷ []) ≡ record { head = part 0 0 ∷ []; terms = one_term one_row (only_cond (Pred 0 (null_of 1 (Listed 1)))) (list 0 0 ∷ []) } }
    ensures joins { form_of (inner_join 0 1 (input 0) (inner_join 2 3 (input 1) (input 2))) (0 ∷ 2 ∷ 1 ∷ 2 ∷ []) ≡ record {
      head = whole_part 0 ∷ whole_part 1 ∷ whole_part 2 ∷ [];
      terms = one_term (range_then (Rel 0) (range_then (Rel 1) (range_then (Rel 2) no_ranges))) (two_conds (Join (list 1 2) (list 2 3)) (Join (list 0 0) (list 2 1))) (all_of 0 ∷ all_of 1 ∷ all_of 2 ∷ []);
    } }
    ensures distinct_join { form_of (dedup (inner_join 0 1 (input 0) (input 1))) (0 ∷ 1 ∷ []) ≡ record {
      head = whole_part 0 ∷ whole_part 1 ∷ [];
      terms = one_term (range_then (distinct_of (whole_part 0 ∷ whole_part 1 ∷ []) (one_term rows_0_1 (only_cond (Join (list 0 0) (list 1 1))) (all_of 0 ∷ all_of 1 ∷ []))) no_ranges) no_conds (all_of 0 ∷ Of 0 1 Whole ∷ []);
    } }
{}
