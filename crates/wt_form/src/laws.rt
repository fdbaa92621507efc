//! Laws of forms: each is a function with an empty body, and its contract is the law.
ghost use Rattle.std.specs.Prelude.{◌≡◌, ℕ, List};
ghost use Rattle.wt_symbol.specs.Sides.{PairTree};
ghost use Rattle.wt_symbol.specs.Lawful.{IsLawful};
ghost use Rattle.wt_constraint.specs.declared.set.AtomSet.{AtomSet};
ghost use Rattle.wt_constraint.specs.Sets.{HasAtom};
ghost use Rattle.wt_form.specs.Trees.{Form};
ghost use Rattle.wt_form.specs.Known.{Known};
ghost use Rattle.wt_form.specs.Growing.{Grows};
ghost use Rattle.wt_form.specs.Congruent.{Congruent};
ghost use Rattle.wt_form.specs.FormOf.{form_of};
ghost use Rattle.wt_form.specs.Steps.{Step};
ghost use Rattle.wt_form.specs.Provable.{Chain};
ghost use Rattle.wt_form.specs.Under.{Under, Provable};
ghost use Rattle.wt_form.specs.Weights.{weight_of, Lighter, IsSmall, EachExpr};
ghost use Rattle.wt_form.specs.Relaxed.{AreRules};

/// A law: under each set of a pair's atoms something is known, and nothing else is.
pub fn something_is_known()
    ensures known { (pair : PairTree) (set : AtomSet) → (K : Known) × Under pair set K }
    ensures alike { (pair : PairTree) (set : AtomSet) (K L : Known) → Under pair set K → Under pair set L → Grows K L }
{}

/// A law: what a set gives, every set that contains it gives too.
pub fn sets_are_monotone()
    ensures known { (pair : PairTree) (s t : AtomSet) (K L : Known) → ((i : ℕ) → HasAtom s i → HasAtom t i) → Under pair s K → Under pair t L → Grows K L }
    ensures steps { (K L : Known) (f g : Form) → Grows K L → Step K f g → Step L f g }
    ensures congruent { (K L : Known) (f g : Form) → Grows K L → Congruent K f g → Congruent L f g }
    ensures provable { (pair : PairTree) (s t : AtomSet) (steps : ℕ) → ((i : ℕ) → HasAtom s i → HasAtom t i) → Provable pair s steps → Provable pair t steps }
{}

/// A law: each step of a form that a chain from a side of a lawful pair reaches lowers the weight, and
/// so does each step of a form whose expressions are small.
pub fn steps_lower_the_weight()
    ensures source { (pair : PairTree) (K : Known) (k : ℕ) (f g : Form) → IsLawful pair → Chain K k (form_of pair.source pair.anchors) f → Step K f g → Lighter (weight_of g) (weight_of f) }
    ensures dest { (pair : PairTree) (K : Known) (k : ℕ) (f g : Form) → IsLawful pair → Chain K k (form_of pair.dest pair.anchors) f → Step K f g → Lighter (weight_of g) (weight_of f) }
    ensures small { (K : Known) (f g : Form) → EachExpr IsSmall f.terms → Step K f g → Lighter (weight_of g) (weight_of f) × EachExpr IsSmall g.terms }
{}

/// A law: a pair has one list of rules, for any number of steps and any depth.
pub fn one_list_of_rules()
    ensures { (pair : PairTree) (steps depth : ℕ) (xs ys : List AtomSet) →
        AreRules pair steps depth xs → AreRules pair steps depth ys → xs ≡ ys }
{}
