//! The step that opens a variable over distinct rows, and the one inside nested forms that drops a repeated term.
ghost use Rattle.std.specs.Prelude.{true, false, [], ◌∷◌};
ghost use Rattle.wt_symbol.specs.declared.head.PartCols.TheVariants.{Whole};
ghost use Rattle.wt_form.specs.declared.form.Expr.TheVariants.{Of};
ghost use Rattle.wt_form.specs.Trees.{Terms, no_ranges, range_then, distinct_of, no_conds};
ghost use Rattle.wt_form.specs.Parts.{one_term};
ghost use Rattle.wt_form.specs.Places.{list_rows};
ghost use Rattle.wt_form.specs.Opening.{Opened};
ghost use Rattle.wt_form.specs.TwoTerms.{Twins};
ghost use Rattle.wt_form.specs.Worked.{known, list, one_row, two_rows, joined};
ghost use Rattle.wt_worked_steps.specs.Shapes.{whole_part, one_distinct, both_rows};

/// A variable over distinct rows is opened where each row is there once: the pieces hold a unique list that is
/// not NULL, a whole row, or join the other variables to one that is held. Inside a nested form it is opened
/// without. It stays without Unique, where the unique list may be NULL, over two terms, and where a list is
/// asked that the pieces do not hold.
pub fn opened_variables()
    ensures by_list { Opened (known true true false) false (one_distinct (list_rows 0 0)) no_conds (list 0 0 ∷ []) (one_term one_row no_conds (list 0 0 ∷ [])) }
    ensures by_whole_row { Opened (known true true false) false (range_then (distinct_of (whole_part 0 ∷ []) (one_term one_row no_conds (Of 0 0 Whole ∷ []))) no_ranges) no_conds (list 0 1 ∷ []) (one_term one_row no_conds (list 0 1 ∷ [])) }
    ensures by_join { Opened (known true true false) false (one_distinct (one_term two_rows joined (list 0 0 ∷ []))) no_conds (list 0 0 ∷ []) (one_term two_rows joined (list 0 0 ∷ [])) }
    ensures inside { Opened (known false false false) true (one_distinct (list_rows 0 0)) no_conds (list 0 0 ∷ []) (one_term one_row no_conds (list 0 0 ∷ [])) }
    ensures not_unique { (us : Terms) → Opened (known false true true) false (one_distinct (list_rows 0 0)) no_conds (list 0 0 ∷ []) us → ⊥ }
    ensures may_be_null { (us : Terms) → Opened (known true false true) false (one_distinct (list_rows 0 0)) no_conds (list 0 0 ∷ []) us → ⊥ }
    ensures two_terms { (us : Terms) → Opened (known true true true) true (one_distinct both_rows) no_conds (list 0 0 ∷ []) us → ⊥ }
    ensures not_held { (us : Terms) → Opened (known true true true) true (one_distinct (list_rows 0 2)) no_conds (list 0 1 ∷ []) us → ⊥ }
{}

/// Inside a nested form a later term goes that is the same as an earlier one; at the top both stay, and inside
/// one with another piece stays.
pub fn twin_terms()
    ensures inside { Twins (known false false false) true one_row no_conds (list 0 0 ∷ []) one_row no_conds (list 0 0 ∷ []) }
    ensures at_the_top { Twins (known true true true) false one_row no_conds (list 0 0 ∷ []) one_row no_conds (list 0 0 ∷ []) → ⊥ }
    ensures other_piece { Twins (known true true true) true one_row no_conds (list 0 0 ∷ []) one_row no_conds (list 0 1 ∷ []) → ⊥ }
{}
