//! Steps that drop a condition or a term.
ghost use Rattle.std.specs.Prelude.{true, false, List, [], ◌∷◌};
ghost use Rattle.wt_form.specs.Trees.{Terms, no_terms, no_conds, Pred, Join, is_in, not_in};
ghost use Rattle.wt_form.specs.Parts.{one_term};
ghost use Rattle.wt_form.specs.Places.{list_rows};
ghost use Rattle.wt_form.specs.Drops.{Repeated, SelfJoin, InTrue, NotInFalse, NullCompared, NotInOfNull};
ghost use Rattle.wt_form.specs.Worked.{known, list, one_row, two_rows, only_cond, joined};
ghost use Rattle.wt_worked_steps.specs.Shapes.{two_conds, part, pred, self_joined, match, in_rows, not_in_rows, filtered_rows, null};

/// A condition goes that is the same as an earlier one; one on another predicate stays.
pub fn repeated_conditions()
    ensures step { Repeated (known false false false) one_row (two_conds (pred 0) (pred 0)) [] (one_term one_row (only_cond (pred 0)) []) }
    ensures other_predicate { (us : Terms) → Repeated (known true true true) one_row (two_conds (pred 0) (pred 1)) [] us → ⊥ }
{}

/// A Join of a list with itself goes where the list is not NULL, by its relation or by another condition; a
/// Join of two lists stays, and so does one of a list that may be NULL.
pub fn self_joins()
    ensures step { SelfJoin (known false true false) one_row (only_cond (self_joined 0)) [] (one_term one_row no_conds []) }
    ensures by_condition { SelfJoin (known false false false) one_row (two_conds (self_joined 0) (in_rows 1 1)) [] (one_term one_row (only_cond (in_rows 1 1)) []) }
    ensures other_list { (us : Terms) → SelfJoin (known true true true) one_row (only_cond (self_joined 1)) [] us → ⊥ }
    ensures may_be_null { (us : Terms) → SelfJoin (known true false true) one_row (only_cond (self_joined 0)) [] us → ⊥ }
{}

/// An In goes that a reference makes true; it stays where the list may be NULL apart from this condition,
/// where there is no reference, and where the form holds some of the rows alone.
pub fn ins_by_references()
    ensures step { InTrue (known false true true) one_row (only_cond (in_rows 1 1)) [] (one_term one_row no_conds []) }
    ensures may_be_null { (us : Terms) → InTrue (known true false true) one_row (only_cond (in_rows 1 1)) [] us → ⊥ }
    ensures no_reference { (us : Terms) → InTrue (known true true false) one_row (only_cond (in_rows 1 1)) [] us → ⊥ }
    ensures filtered { (us : Terms) → InTrue (known true true true) one_row (only_cond (is_in (list 0 0) (part 1 1 ∷ []) filtered_rows)) [] us → ⊥ }
{}

/// An In goes that a Join of the same values makes true; it stays where it is of another leaf or another list.
pub fn ins_by_joins()
    ensures step { InTrue (known false false false) two_rows (two_conds match (in_rows 0 0)) [] (one_term two_rows joined []) }
    ensures other_leaf { (us : Terms) → InTrue (known true true false) two_rows (two_conds match (in_rows 1 0)) [] us → ⊥ }
    ensures other_list { (us : Terms) → InTrue (known true true false) two_rows (two_conds match (in_rows 0 1)) [] us → ⊥ }
{}

/// A term goes with a NotIn that its In of the same rows, a reference or a Join makes false; it stays where
/// the In is of other rows, and where the reference may be of NULL.
pub fn false_not_ins()
    ensures by_in { NotInFalse (known false false false) one_row (two_conds (in_rows 1 1) (not_in_rows 1 1)) [] no_terms }
    ensures by_reference { NotInFalse (known false true true) one_row (only_cond (not_in_rows 1 1)) [] no_terms }
    ensures by_join { NotInFalse (known false false false) two_rows (two_conds match (not_in_rows 0 0)) [] no_terms }
    ensures other_rows { (us : Terms) → NotInFalse (known true true false) one_row (two_conds (in_rows 1 1) (not_in_rows 2 1)) [] us → ⊥ }
    ensures may_be_null { (us : Terms) → NotInFalse (known true false true) one_row (only_cond (not_in_rows 1 1)) [] us → ⊥ }
{}

/// A term goes with a Join or an In of NULLs, and a NotIn of NULLs goes alone; a predicate on NULLs stays, and
/// a NotIn of a list.
pub fn compared_nulls()
    ensures join { NullCompared one_row (only_cond (Join null (list 0 0))) [] no_terms }
    ensures is_among { NullCompared one_row (only_cond (is_in null (part 1 1 ∷ []) (list_rows 1 1))) [] no_terms }
    ensures predicate { (us : Terms) → NullCompared one_row (only_cond (Pred 0 null)) [] us → ⊥ }
    ensures not_among { (us : Terms) → NullCompared one_row (only_cond (not_in null (part 1 1 ∷ []) (list_rows 1 1))) [] us → ⊥ }
    ensures dropped { NotInOfNull one_row (only_cond (not_in null (part 1 1 ∷ []) (list_rows 1 1))) [] (one_term one_row no_conds []) }
    ensures of_list { (us : Terms) → NotInOfNull one_row (only_cond (not_in_rows 1 1)) [] us → ⊥ }
{}
