//! What a proof of a pair means.
ghost use Rattle.std.specs.Prelude.{◌≡◌, ◌↔◌, ◌++◌, ℕ, List, true};
ghost use Rattle.wt_bag.specs.Bags.{Each};
ghost use Rattle.wt_value.specs.Values.{IsOneBag};
ghost use Rattle.wt_symbol.specs.Sides.{SideTree, PairTree, lists_of};
ghost use Rattle.wt_symbol.specs.Lawful.{IsLawful};
ghost use Rattle.wt_constraint.specs.declared.set.AtomSet.{AtomSet};
ghost use Rattle.wt_form.specs.Trees.{Form};
ghost use Rattle.wt_form.specs.Known.{Known};
ghost use Rattle.wt_form.specs.Congruent.{Congruent};
ghost use Rattle.wt_form.specs.FormOf.{form_of};
ghost use Rattle.wt_form.specs.Under.{Under, Provable, kept_below};
ghost use Rattle.wt_instance.specs.declared.instance.Instance.{Instance};
ghost use Rattle.wt_instance.specs.Instances.{IsInstance};
ghost use Rattle.wt_instance.specs.Meeting.{Meets, lists_come};
ghost use Rattle.wt_instance.specs.Rows as sides;
ghost use Rattle.wt_rows.specs.FormRows.{form_rows};
ghost use Rattle.wt_rows.specs.Holding.{KnownHolds, IsKept, IsOfLeaf};
ghost use Rattle.wt_rows.specs.Fits.{Fits};

/// A law: what is known under a set holds on every instance that meets it.
pub fn what_is_known_holds()
    ensures { (pair : PairTree) (set : AtomSet) (I : Instance) (K : Known) → Meets pair set I → Under pair set K → KnownHolds K I }
{}

/// A law: each list of a side comes from its anchor through the operand that it is used on exactly
/// where its columns are those of its anchor and of each list that a Proj keeps on the way.
pub fn fixed_constraints_are_said_twice()
    ensures { (side : SideTree) (anchors : List ℕ) (I : Instance) →
        lists_come side anchors I ≡ true ↔ (Each (IsKept I) (kept_below side anchors) × Each (IsOfLeaf anchors I) (lists_of side)) }
{}

/// The law of translation: on an instance in which the lists of a side come from their anchors, the
/// side's form fits, and the side and its form have one bag.
pub fn sides_and_forms_have_one_bag()
    ensures source { (pair : PairTree) (I : Instance) → IsLawful pair → IsInstance pair I → lists_come pair.source pair.anchors I ≡ true →
        Fits I (form_of pair.source pair.anchors) × IsOneBag (sides.rows_of pair.source pair.anchors I) (form_rows (form_of pair.source pair.anchors) I) }
    ensures dest { (pair : PairTree) (I : Instance) → IsLawful pair → IsInstance pair I → lists_come pair.dest pair.anchors I ≡ true →
        Fits I (form_of pair.dest pair.anchors) × IsOneBag (sides.rows_of pair.dest pair.anchors I) (form_rows (form_of pair.dest pair.anchors) I) }
{}

/// The law of congruence: forms that are congruent under a set have one bag on every instance that
/// meets it.
pub fn congruent_forms_have_one_bag()
    ensures { (pair : PairTree) (set : AtomSet) (I : Instance) (K : Known) (f g : Form) → IsInstance pair I → Meets pair set I → Under pair set K →
        Congruent K f g → IsOneBag (form_rows f I) (form_rows g I) }
{}

/// The composed law: where a lawful pair is provable under a set, both sides give one bag on every
/// instance that meets the set, NULLs and repeated rows included.
pub fn provable_sides_have_one_bag()
    ensures { (pair : PairTree) (set : AtomSet) (steps : ℕ) (I : Instance) → IsLawful pair → IsInstance pair I → Meets pair set I → Provable pair set steps →
        IsOneBag (sides.rows_of pair.source pair.anchors I) (sides.rows_of pair.dest pair.anchors I) }
{}
