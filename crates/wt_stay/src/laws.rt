//! A law of steps: a function with an empty body, whose contract is the law.
ghost use Rattle.std.specs.Prelude.{◌≤◌};
ghost use Rattle.wt_form.specs.Trees.{Form};
ghost use Rattle.wt_form.specs.Known.{Known};
ghost use Rattle.wt_form.specs.Steps.{Step};
ghost use Rattle.wt_form.specs.Closed.{VariablesExist};
ghost use Rattle.wt_form.specs.Weights.{terms_size};

/// A law: a step of a form whose expressions name variables of their own terms alone gives such a
/// form, and no step gives a form of greater size.
pub fn steps_stay()
    ensures exist { (K : Known) (f g : Form) → VariablesExist f.terms → Step K f g → VariablesExist g.terms }
    ensures no_greater { (K : Known) (f g : Form) → Step K f g → terms_size g.terms ≤ terms_size f.terms }
{}
