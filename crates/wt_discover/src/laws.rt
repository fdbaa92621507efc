//! Laws of rule files: each is a function with an empty body, and its contract is the law.
ghost use Rattle.std.specs.Prelude.{◌≡◌, ◌++◌, ℕ, List, take};
ghost use Rattle.wt_symbol.specs.Sides.{PairTree};
ghost use Rattle.wt_rule.specs.Texts.{head_line};
ghost use Rattle.wt_discover.specs.Files.{AreAllLines, IsRuleFile};

/// A law: some pairs have one rule file, for any number of steps and any depth.
pub fn one_rule_file()
    ensures { (steps depth : ℕ) (pairs : List PairTree) (a b : List ℕ) →
        IsRuleFile steps depth pairs a → IsRuleFile steps depth pairs b → a ≡ b }
{}

/// A law: the first line and the lines of the rules of the first pairs begin the rule file of all pairs.
pub fn first_pairs_begin_the_rule_file()
    ensures { (steps depth n : ℕ) (pairs : List PairTree) (lines file : List ℕ) (count : ℕ) →
        AreAllLines steps depth (take n pairs) lines count → IsRuleFile steps depth pairs file →
        (rest : List ℕ) × (file ≡ (head_line steps ++ lines) ++ rest) }
{}
