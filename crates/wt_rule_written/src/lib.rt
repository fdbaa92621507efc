//! Rule files that are written are read as the same rules.
#![tactic(auto)]

ghost use Rattle.std.specs.Prelude.{◌≡◌, ◌≤◌, ℕ, List, Ok, length};
ghost use Rattle.wt_bag.specs.Bags.{Each};
ghost use Rattle.wt_rule_file.specs.Files.{RuleTree, IsAnswer};
ghost use Rattle.wt_rule_file.specs.Good.{IsGoodWithin};
ghost use Rattle.wt_rule_written.specs.Written.{file_text, IsReadAsRules};
ghost use Rattle.wt_symbol.specs.Sides.{PairTree};
ghost use Rattle.wt_symbol.specs.Lawful.{IsLawful};
ghost use Rattle.wt_discover.specs.Files.{IsRuleFile};

/// A law: the file of at most 65,536 lawful rules, each proved within the steps of its head, which are
/// from 1 to 16, is read as these rules.
pub fn written_files_are_read()
    ensures { (steps : ℕ) (rules : List RuleTree) → 1 ≤ steps → steps ≤ 16 → length rules ≤ 65536 → Each (IsGoodWithin steps) rules →
        IsAnswer (file_text steps rules) (Ok (record { steps = steps; rules = rules })) }
{}

/// A law: the rule file of lawful pairs, which has at most 65,536 rules and a head of 1 to 16 steps, is
/// read as the rules of these pairs, pair after pair.
pub fn rules_that_are_discovered_are_read()
    ensures { (steps depth : ℕ) (pairs : List PairTree) (text : List ℕ) → 1 ≤ steps → steps ≤ 16 → Each IsLawful pairs →
        (file : IsRuleFile steps depth pairs text) → file.count ≤ 65536 → IsReadAsRules steps depth pairs text }
{}
