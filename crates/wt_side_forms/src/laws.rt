//! A law of the forms of sides: a function with an empty body, whose contract is the law.
ghost use Rattle.std.specs.Prelude.{◌<◌, ◌≤◌, ◌^◌, ℕ, List};
ghost use Rattle.wt_symbol.specs.Sides.{SideTree, PairTree, size_of};
ghost use Rattle.wt_symbol.specs.Lawful.{IsLawful, most_operators};
ghost use Rattle.wt_form.specs.FormOf.{form_of};
ghost use Rattle.wt_form.specs.Closed.{VariablesExist};
ghost use Rattle.wt_form.specs.Weights.{terms_size};

/// A law: the expressions of the form of a side name variables of their own terms alone, and the form
/// of a side with as many operators as a lawful one may have is of a size below 2 to the 32.
pub fn forms_of_sides_have_room()
    ensures exist { (s : SideTree) (A : List ℕ) → VariablesExist (form_of s A).terms }
    ensures narrow { (s : SideTree) (A : List ℕ) → size_of s ≤ most_operators → terms_size (form_of s A).terms < 2 ^ 32 }
    ensures lawful { (p : PairTree) → IsLawful p → (size_of p.source ≤ most_operators) × (size_of p.dest ≤ most_operators) }
{}
