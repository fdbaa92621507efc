//! Laws of rule files: each is a function with an empty body, and its contract is the law.
ghost use Rattle.std.specs.Prelude.{◌≡◌, ℕ, List, Result, Ok};
ghost use Rattle.wt_bag.specs.Bags.{Each};
ghost use Rattle.wt_rule_line.specs.declared.fault.RuleFault.{RuleFault};
ghost use Rattle.wt_rule_file.specs.Files.{BookTree, IsAnswer};
ghost use Rattle.wt_rule_file.specs.Good.{IsGoodWithin};

/// A law: a rule file has one answer.
pub fn one_answer()
    ensures { (bytes : List ℕ) (a b : Result BookTree (RuleFault × ℕ)) → IsAnswer bytes a → IsAnswer bytes b → a ≡ b }
{}

/// A law: each rule that is read is lawful, and proved within the steps of the head.
pub fn rules_that_are_read_are_good()
    ensures { (bytes : List ℕ) (book : BookTree) → IsAnswer bytes (Ok book) → Each (IsGoodWithin book.steps) book.rules }
{}
