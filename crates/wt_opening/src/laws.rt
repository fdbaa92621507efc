//! A law of opening: a function with an empty body, whose contract is the law.
ghost use Rattle.std.specs.Prelude.{◌≡◌, ◌↔◌, List, map};
ghost use Rattle.wt_bag.specs.Bags.{Each};
ghost use Rattle.wt_form.specs.declared.form.Expr.{Expr};
ghost use Rattle.wt_form.specs.Trees.{Conds};
ghost use Rattle.wt_form.specs.Parts.{conds_map};
ghost use Rattle.wt_form.specs.Opening.{Opening, CondsOpened, PiecesOpened};
ghost use Rattle.wt_opening.specs.Opened.{CanOpen, CondsCanOpen, opened_or_same};

/// A law: conditions and pieces are opened where each of their expressions can be, and each becomes
/// what it is opened.
pub fn opened_by_each()
    ensures conds { (o : Opening) (cs ds : Conds) → (CondsOpened o cs ds ↔ (CondsCanOpen o cs × (ds ≡ conds_map (opened_or_same o) cs))) }
    ensures pieces { (o : Opening) (xs ys : List Expr) → (PiecesOpened o xs ys ↔ (Each (CanOpen o) xs × (ys ≡ map (opened_or_same o) xs))) }
{}
