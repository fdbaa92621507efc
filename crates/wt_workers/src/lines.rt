//! The lines of rules.
ghost use Rattle.std.specs.Prelude.{◌≡◌, ℕ, ◌++◌, All, List, length, map, flat_map, IfOk, OnOk};
ghost use Rattle.wt_symbol.specs.Sides.{PairTree, pair_of};
ghost use Rattle.wt_symbol.specs.Lawful.{IsLawful};
ghost use Rattle.wt_rule.specs.Texts.{line_of};
ghost use Rattle.wt_discover.specs.Files.{AreCounted};
ghost use Rattle.wt_board.specs.Rules.{AreRulesOf, rule_of};
ghost use Rattle.wt_workers.specs.LineOf.{line_of_rule};

use std::alloc::{AllocError, Global};
use wt_discover::RuleLines;
use wt_rule::{Rule, write_rule};
use wt_value::Bytes;

/// Adds the line of a rule.
fn push_line(alloc: Global, rule: &Rule, text: &mut Vec<u8>) -> Result<(), AllocError>
    requires { IsLawful (pair_of rule.now.pair) }
    ensures { OnOk result (text.new.items ≡ text.old.items ++ line_of (pair_of rule.now.pair) rule.now.set) }
{
    let line = write_rule(alloc, rule)?;
    text.extend_from_slice(line.as_slice())?;
    Ok(())
}

/// The text of the lines of rules, in order.
fn lines_of(alloc: Global, rules: &[Rule]) -> Result<Vec<u8>, AllocError>
    requires { All (λ r. IsLawful (pair_of r.pair)) rules.now }
    ensures { IfOk result (λ text. text.items ≡ flat_map line_of_rule rules.now) }
{
    let mut text = Vec::new(alloc);
    for rule in rules {
        push_line(alloc, rule, &mut text)?;
    }
    Ok(text)
}

/// The lines of rules, in order, and their number. Of the rules of pairs they are the lines that `lines_of_pairs` of `wt_discover` gives.
pub fn lines_of_rules(alloc: Global, rules: &[Rule]) -> Result<RuleLines, AllocError>
    requires lawful { All (λ r. IsLawful (pair_of r.pair)) rules.now }
    ensures text { IfOk result (λ lines. lines.text ≡ flat_map line_of_rule rules.now) }
    ensures number { IfOk result (λ lines. lines.count ≡ length rules.now) }
    ensures counted { (steps depth : ℕ) (pairs : List PairTree) → AreRulesOf steps depth pairs (map rule_of rules.now)
        → IfOk result (λ lines. AreCounted steps depth pairs lines.text lines.count) }
{
    let text = lines_of(alloc, rules)?;
    Ok(RuleLines {
        count: rules.len() as u64,
        text: Bytes::from_vec(text),
    })
}
