//! How a query is spelled, and the law that its text reads back. A law is the contract of a function that does nothing.
#![tactic(auto)]

ghost use Rattle.std.specs.Prelude.{◌≡◌, ℕ};
ghost use Rattle.wt_ast.specs.Tree.{QueryTree};
ghost use Rattle.wt_ast.specs.Lawful.{IsFormed};
ghost use Rattle.wt_spelling.specs.Numbers.{Fits};
ghost use Rattle.wt_spelling.specs.ReadingBack.{IsWithin, ReadsAs};
ghost use Rattle.wt_spelling.specs.Spelling.{statement_text};

/// The text of a query tree is read as the same tree, offsets apart, wherever the text is within the limits of a statement.
pub fn texts_read_back()
    ensures { (q : QueryTree) → IsFormed q → Fits q → IsWithin (statement_text q) q → ReadsAs (statement_text q) q }
{}
