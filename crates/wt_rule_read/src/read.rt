//! Rule files.
ghost use Rattle.std.specs.Prelude.{◌≤◌, ℕ, List, Ok, IfOk, length};
ghost use Rattle.wt_rule.specs.declared.RuleBook.{RuleBook as Book};
ghost use Rattle.wt_chains.specs.Chains.{AreLawful, AreSound};
ghost use Rattle.wt_rule_read.specs.Answers.{IsAnswer, Tells};

use std::alloc::Global;
use wt_rule::RuleBook;
use wt_rule_file::RuleError;
use wt_search::Search;

/// Reads a rule file of version 1 or 2: its rules in order, each proved again within the steps of the
/// head, or the first fault with the number of its line, from 1.
pub fn read_rules(alloc: Global, bytes: &[u8]) -> Result<RuleBook, RuleError>
    ensures told { Tells bytes.now result }
    ensures lawful { IfOk result (λ book. AreLawful book.rules) }
    ensures sound { IfOk result (λ book. AreSound book.rules) }
    ensures few { IfOk result (λ book. length book.rules ≤ 65536) }
{
    wt_rule_file::read_rules(&Search {}, alloc, bytes)
}

/// A law: the rules that are read are lawful, and the two sides of each are one bag on every instance
/// that meets its set.
pub fn rules_that_are_read_hold()
    ensures { (bytes : List ℕ) (book : Book) → IsAnswer bytes (Ok book) → AreLawful book.rules × AreSound book.rules }
{}
