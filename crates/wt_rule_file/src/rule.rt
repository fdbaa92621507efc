//! A line of a rule file behind its head.
ghost use Rattle.std.specs.Prelude.{◌≡◌, ◌≤◌, ◌↔◌, ℕ, List, [], ◌∷◌, length, true, IsTrue};
ghost use Rattle.wt_symbol.specs.Sides.{pair_of};
ghost use Rattle.wt_symbol.specs.Lawful.{IsLawful};
ghost use Rattle.wt_form.specs.Under.{Provable};
ghost use Rattle.wt_rule_line.specs.Lines.{States};
ghost use Rattle.wt_rule_file.specs.Files.{Line, rule_tree};
ghost use Rattle.wt_rule_file.specs.Reading.{IsUnproved, ReadsRule, Verdict};

use crate::ending::{end_fault, is_end};
use crate::head::Head;
use std::alloc::Global;
use wt_form::Prover;
use wt_rule::Rule;
use wt_rule_line::{RuleFault, RuleLineError, read_line};

/// The greatest length of a line, in bytes before its LF.
const LONGEST_LINE: usize = 4096;

/// How many rules a file has at most.
const MOST_RULES: usize = 65_536;

/// Why a rule is refused that is lawful: it is not proved within so many steps.
fn unproved<P: Prover>(prover: &P, alloc: Global, rule: &Rule, steps: u32) -> Option<RuleLineError>
    requires lawful { IsLawful (pair_of rule.now.pair) }
    ensures { IsUnproved rule.now steps result }
{
    match prover.prove(alloc, &rule.pair, rule.set, steps) {
        Ok(true) => None,
        Ok(false) => Some(RuleLineError::Fault(RuleFault::NotProved)),
        Err(_) => Some(RuleLineError::Memory),
    }
}

/// The rule of a line, proved within the steps of the head.
fn proved_rule<P: Prover>(
    prover: &P,
    alloc: Global,
    text: &[u8],
    head: Head,
) -> Result<Rule, RuleLineError>
    ensures { ReadsRule head.version head.steps (record { text = text.now; ended = true }) result }
{
    let rule = match read_line(alloc, text, head.version) {
        Ok(rule) => rule,
        Err(error) => return Err(error),
    };
    match unproved(prover, alloc, &rule, head.steps) {
        None => Ok(rule),
        Some(error) => Err(error),
    }
}

fn ended_rule<P: Prover>(
    prover: &P,
    alloc: Global,
    text: &[u8],
    ended: bool,
    head: Head,
) -> Result<Rule, RuleLineError>
    ensures { ReadsRule head.version head.steps (record { text = text.now; ended = ended }) result }
{
    if !ended {
        return Err(RuleLineError::Fault(RuleFault::Syntax));
    }
    proved_rule(prover, alloc, text, head)
}

/// What a line is behind so many rules: a rule, the end line of the file, or a fault.
pub(crate) fn verdict<P: Prover>(
    prover: &P,
    alloc: Global,
    text: &[u8],
    ended: bool,
    more: bool,
    head: Head,
    count: usize,
) -> Result<Option<Rule>, RuleLineError>
    requires few { count ≤ 65536 }
    ensures { Verdict head.version head.steps count (record { text = text.now; ended = ended }) more result }
{
    if text.len() > LONGEST_LINE {
        return Err(RuleLineError::Fault(RuleFault::TooLong));
    }
    if is_end(text) {
        return match end_fault(text, ended, more, count) {
            None => Ok(None),
            Some(fault) => Err(RuleLineError::Fault(fault)),
        };
    }
    if count >= MOST_RULES {
        return Err(RuleLineError::Fault(RuleFault::TooLong));
    }
    match ended_rule(prover, alloc, text, ended, head) {
        Ok(rule) => Ok(Some(rule)),
        Err(error) => Err(error),
    }
}
