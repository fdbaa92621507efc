//! Worked rows of the definitions: what each demand keeps out, and what a step leaves. Each is a law of an
//! empty body.
ghost use Rattle.std.specs.Prelude.{◌≡◌, true, false, ℕ, List, [], ◌∷◌};
ghost use Rattle.wt_symbol.specs.declared.head.Part.{Part};
ghost use Rattle.wt_symbol.specs.declared.head.PartCols.TheVariants.{Whole, List as Listed};
ghost use Rattle.wt_symbol.specs.Sides.{input, left_join};
ghost use Rattle.wt_constraint.specs.declared.atom.Atom.TheVariants.{Unique as unique_atom};
ghost use Rattle.wt_constraint.specs.declared.set.AtomSet.{AtomSet};
ghost use Rattle.wt_form.specs.declared.form.Expr.{Expr};
ghost use Rattle.wt_form.specs.declared.form.Expr.TheVariants.{Of, Null as null_of};
ghost use Rattle.wt_form.specs.Trees.{Terms, no_terms, term_then, no_ranges, range_then, Rel, no_conds, Join, not_in};
ghost use Rattle.wt_form.specs.Parts.{one_term};
ghost use Rattle.wt_form.specs.Places.{list_rows};
ghost use Rattle.wt_form.specs.Facts.{Determined};
ghost use Rattle.wt_form.specs.Drops.{SelfJoin, ByReference};
ghost use Rattle.wt_form.specs.Joining.{Joined, Merged, Rewritten};
ghost use Rattle.wt_form.specs.FormOf.{form_of, list_part};
ghost use Rattle.wt_form.specs.Under.{Holds, KeptBelow};
ghost use Rattle.wt_form.specs.Worked.{known, list, one_row, two_rows, only_cond, joined, join_pair, kept_pair};

/// Worked rows: a Join of a list with itself stays where the list may be NULL; an In by a reference stays
/// where the list may be NULL; a Join becomes no In at the top where its list may match many rows; a unique
/// list that may be NULL determines no variable.
pub fn steps_need_their_facts()
    ensures self_join { (ps : List Expr) (us : Terms) → SelfJoin (known true false true) one_row (only_cond (Join (list 0 0) (list 0 0))) ps us → ⊥ }
    ensures reference { ByReference (known true false true) one_row no_conds (list 0 0) (list_rows 1 1) → ⊥ }
    ensures join_to_in { (h : List Part) (ts : Terms) → Joined (known false true true) false (Rel 0) 0 h ts → ⊥ }
    ensures opening { Determined (known true false true) (Rel 0 ∷ []) [] (list 0 0 ∷ []) 0 → ⊥ }
{}

/// Worked rows: where two variables become one, the Joins stay; where one expression is written for
/// another, an expression of another list stays.
pub fn steps_leave_the_rest()
    ensures merged { Merged (known true false false) two_rows joined (Of 0 0 Whole ∷ Of 1 0 Whole ∷ []) (one_term one_row (only_cond (Join (list 0 0) (list 0 0))) (Of 0 0 Whole ∷ Of 0 0 Whole ∷ [])) }
    ensures rewritten { Rewritten (known false false false) two_rows joined (list 1 0 ∷ list 1 1 ∷ []) (one_term two_rows joined (list 0 0 ∷ list 1 1 ∷ [])) }
{}

/// A worked row: the form of a LeftJoin of two leaves.
pub fn left_join_has_two_terms()
    ensures { form_of (left_join 0 1 (input 0) (input 1)) (0 ∷ 1 ∷ []) ≡ record {
      head = record { leaf = 0; cols = Whole } ∷ record { leaf = 1; cols = Whole } ∷ [];
      terms = term_then (range_then (Rel 0) (range_then (Rel 1) no_ranges)) (only_cond (Join (list 0 0) (list 1 1))) (Of 0 0 Whole ∷ Of 1 0 Whole ∷ [])
          (term_then one_row (only_cond (not_in (list 0 0) (list_part (0 ∷ 1 ∷ []) 1 ∷ []) (list_rows 1 1))) (Of 0 0 Whole ∷ null_of 1 Whole ∷ []) no_terms);
    } }
{}

/// Worked rows: a Unique holds of no other leaf than its own, and the columns of a lower list are not
/// among those of an upper one.
pub fn facts_stand_where_they_are_asked()
    ensures unique { (set : AtomSet) → set.0 ≡ 4 → Holds join_pair set unique_atom 1 0 → ⊥ }
    ensures within { (set : AtomSet) → set.0 ≡ 0 → KeptBelow kept_pair set 0 1 → ⊥ }
{}
