//! The rule of a line.
ghost use Rattle.std.specs.Prelude.{◌≡◌, ◌↔◌, ℕ, List, IsTrue};
ghost use Rattle.wt_symbol.specs.Sides.{pair_of, weight_of, PairTree};
ghost use Rattle.wt_symbol.specs.Lawful.{IsLawful};
ghost use Rattle.wt_constraint.specs.declared.set.AtomSet.{AtomSet as Atoms};
ghost use Rattle.wt_rule_text.specs.Trees.{rule_of};
ghost use Rattle.wt_rule_line.specs.Pairs.{pair_of_text};
ghost use Rattle.wt_rule_line.specs.declared.fault.RuleFault.{RuleFault};
ghost use Rattle.wt_rule_line.specs.Lines.{HasWeights, Completes, Judges, States, IsRefused, GivesRule};

use crate::atoms::set_of;
use crate::fault::{RuleFault, RuleLineError};
use crate::pair::lawful_pair;
use std::alloc::Global;
use wt_constraint::AtomSet;
use wt_rule::Rule;
use wt_rule_text::{LineError, ParsedRule, Version, Weights, parse_rule};
use wt_symbol::Pair;

/// The weights of a pair's sides.
fn weights_of(pair: &Pair) -> Weights
    requires lawful { IsLawful (pair_of pair.now) }
    ensures source { result.source ≡ weight_of (pair_of pair.now).source }
    ensures dest { result.dest ≡ weight_of (pair_of pair.now).dest }
{
    Weights {
        source: u64::from(pair.source.weight()),
        dest: u64::from(pair.dest.weight()),
    }
}

fn are_same(a: Weights, b: Weights) -> bool
    ensures { IsTrue result ↔ ((a.source ≡ b.source) × (a.dest ≡ b.dest)) }
{
    a.source == b.source && a.dest == b.dest
}

/// Whether the stated weights, if there are any, are those of the pair's sides.
fn has_weights(pair: &Pair, weights: Option<Weights>) -> bool
    requires lawful { IsLawful (pair_of pair.now) }
    ensures { IsTrue result ↔ HasWeights (pair_of pair.now) weights }
{
    match weights {
        None => true,
        Some(stated) => are_same(stated, weights_of(pair)),
    }
}

/// The set of the atoms of a parsed line, with the weights found right.
fn stated_set(alloc: Global, parsed: &ParsedRule, pair: &Pair) -> Result<AtomSet, RuleLineError>
    requires lawful { IsLawful (pair_of pair.now) }
    requires same { pair_of pair.now ≡ pair_of_text (rule_of parsed.now) }
    ensures { Completes (rule_of parsed.now) (pair_of pair.now) result }
{
    let set = match set_of(alloc, pair, parsed.atoms.as_slice()) {
        Ok(set) => set,
        Err(error) => return Err(error),
    };
    if has_weights(pair, parsed.weights) {
        Ok(set)
    } else {
        Err(RuleLineError::Fault(RuleFault::StatedWeight))
    }
}

/// The rule that a parsed line states.
fn judge(alloc: Global, parsed: &ParsedRule) -> Result<Rule, RuleLineError>
    ensures { Judges (rule_of parsed.now) result }
{
    let pair = match lawful_pair(alloc, parsed) {
        Ok(pair) => pair,
        Err(error) => return Err(error),
    };
    match stated_set(alloc, parsed, &pair) {
        Ok(set) => Ok(Rule { pair, set }),
        Err(error) => Err(error),
    }
}

/// Reads the line of a rule, which stands without its LF, in the form of a version: the rule that it
/// states, or why it is refused.
pub fn read_line(alloc: Global, line: &[u8], version: Version) -> Result<Rule, RuleLineError>
    ensures { GivesRule version line.now result }
{
    match parse_rule(alloc, line, version) {
        Ok(parsed) => judge(alloc, &parsed),
        Err(LineError::Syntax) => Err(RuleLineError::Fault(RuleFault::Syntax)),
        Err(LineError::Memory) => Err(RuleLineError::Memory),
    }
}

/// A law: a line states one rule.
pub fn a_line_states_one_rule()
    ensures { (version : Version) (line : List ℕ) (p q : PairTree) (a b : Atoms) → States version line p a → States version line q b → (p ≡ q) × (a ≡ b) }
{}

/// A law: a line that states a rule is not refused.
pub fn a_line_with_a_rule_is_not_refused()
    ensures { (version : Version) (line : List ℕ) (p : PairTree) (set : Atoms) (f : RuleFault) → States version line p set → IsRefused version line f → ⊥ }
{}

/// A law: a line is refused for one fault.
pub fn a_line_has_one_fault()
    ensures { (version : Version) (line : List ℕ) (f g : RuleFault) → IsRefused version line f → IsRefused version line g → f ≡ g }
{}
