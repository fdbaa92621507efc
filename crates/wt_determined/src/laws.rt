//! A law of determined variables: a function with an empty body, whose contract is the law.
ghost use Rattle.std.specs.Prelude.{◌≡◌, ℕ, List, true};
ghost use Rattle.wt_bag.specs.Choices.{At, Has};
ghost use Rattle.wt_symbol.specs.declared.head.PartCols.TheVariants.{Whole, List as Listed};
ghost use Rattle.wt_form.specs.declared.form.Expr.{Expr};
ghost use Rattle.wt_form.specs.declared.form.Expr.TheVariants.{Of};
ghost use Rattle.wt_form.specs.Trees.{FormRange, Rel, Cond};
ghost use Rattle.wt_form.specs.Facts.{NotNull, Determined};
ghost use Rattle.wt_facts.specs.declared.facts.Facts.{Facts};
ghost use Rattle.wt_facts.specs.Facts.{known_of};
ghost use Rattle.wt_determined.specs.Alone.{RangeHeld};

/// A law: a variable whose range the pieces hold is determined, and where its row or a list of it
/// determines a variable over a relation, the pieces hold it.
pub fn held_is_determined()
    ensures held { (facts : Facts) (rs : List FormRange) (cs : List Cond) (ps : List Expr) (u : ℕ) (range : FormRange) →
        At (λ r. r ≡ range) u rs → RangeHeld facts rs cs ps u range → Determined (known_of facts) rs cs ps u }
    ensures whole_row { (facts : Facts) (rs : List FormRange) (cs : List Cond) (ps : List Expr) (u r c : ℕ) →
        (known_of facts).unique r c ≡ true → Has (Of u 0 Whole) ps → NotNull (known_of facts) rs cs u 0 c → RangeHeld facts rs cs ps u (Rel r) }
    ensures columns { (facts : Facts) (rs : List FormRange) (cs : List Cond) (ps : List Expr) (u r c d : ℕ) →
        (known_of facts).unique r c ≡ true → Has (Of u 0 (Listed d)) ps → (known_of facts).within c d ≡ true → NotNull (known_of facts) rs cs u 0 c → RangeHeld facts rs cs ps u (Rel r) }
{}
