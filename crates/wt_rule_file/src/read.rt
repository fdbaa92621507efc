//! A rule file.
ghost use Rattle.std.specs.Prelude.{◌≡◌, ◌≤◌, ℕ, List, [], map, drop, length, true};
ghost use Rattle.wt_rule_file.specs.Files.{lines_of, rule_tree, IsRead};
ghost use Rattle.wt_rule_file.specs.Reading as spec;
ghost use Rattle.wt_rule_file.specs.Reading.{IsLineAt, IsFirstLine, VerdictAt, Reads, GivesHead};

use crate::fault::RuleError;
use crate::head::{Head, read_head};
use crate::lines::{LineAt, line_at};
use crate::rule::verdict;
use std::alloc::Global;
use wt_form::Prover;
use wt_rule::{Rule, RuleBook, Rules};
use wt_rule_line::{RuleFault, RuleLineError};

/// A fault of the line behind so many rules.
fn at_line(error: RuleLineError, count: usize) -> RuleError
    requires few { count ≤ 65536 }
    ensures { result ≡ spec.at_line error count }
{
    match error {
        RuleLineError::Fault(fault) => RuleError::Fault(fault, count as u32 + 2),
        RuleLineError::Memory => RuleError::Memory,
    }
}

/// Whether more follows at a place.
fn has_more(bytes: &[u8], at: usize) -> bool
    ensures { spec.Follow result (lines_of (drop at bytes.now)) }
{
    at < bytes.len()
}

/// What the line is at a place, behind so many rules.
fn verdict_at<P: Prover>(
    prover: &P,
    alloc: Global,
    bytes: &[u8],
    at: usize,
    line: LineAt,
    head: Head,
    count: usize,
) -> Result<Option<Rule>, RuleError>
    requires few { count ≤ 65536 }
    requires line { IsLineAt bytes.now at line }
    ensures { VerdictAt head.version head.steps count (lines_of (drop at bytes.now)) (lines_of (drop line.next bytes.now)) result }
{
    let more = has_more(bytes, line.next);
    let text = &bytes[at..line.end];
    match verdict(prover, alloc, text, line.ended, more, head, count) {
        Ok(rule) => Ok(rule),
        Err(error) => Err(at_line(error, count)),
    }
}

/// The rules of the lines from a place on, up to the end line, which ends the file.
fn read_from<P: Prover>(
    prover: &P,
    alloc: Global,
    bytes: &[u8],
    from: usize,
    head: Head,
) -> Result<Rules, RuleError>
    ensures { Reads head.version head.steps (lines_of (drop from bytes.now)) result }
{
    let mut rules = Rules::new(alloc);
    let mut at = from;
    'lines: while let Some(line) = line_at(bytes, at) {
        match verdict_at(prover, alloc, bytes, at, line, head, rules.len()) {
            Ok(Some(rule)) => rules.push(rule)?,
            Ok(None) => return Ok(rules),
            Err(error) => return Err(error),
        }
        at = line.next;
    }
    Err(at_line(RuleLineError::Fault(RuleFault::Count), rules.len()))
}

/// The first line of a file; an empty file has an empty one.
fn first_line(bytes: &[u8]) -> LineAt
    ensures { IsFirstLine bytes.now result }
{
    match line_at(bytes, 0) {
        Some(line) => line,
        None => LineAt {
            end: 0,
            next: 0,
            ended: false,
        },
    }
}

/// The head of a file, or the fault of its first line.
fn head_of(bytes: &[u8], line: LineAt) -> Result<Head, RuleError>
    requires line { IsFirstLine bytes.now line }
    ensures { GivesHead (lines_of bytes.now) result }
{
    let text = &bytes[..line.end];
    if text.len() > 4096 {
        return Err(RuleError::Fault(RuleFault::TooLong, 1));
    }
    let Some(head) = read_head(text) else {
        return Err(RuleError::Fault(RuleFault::Head, 1));
    };
    if line.ended {
        Ok(head)
    } else {
        Err(RuleError::Fault(RuleFault::Syntax, 1))
    }
}

/// Reads a rule file of version 1 or 2: its rules in order, each proved again within the steps of the
/// head, or the first fault with the number of its line.
pub fn read_rules<P: Prover>(prover: &P, alloc: Global, bytes: &[u8]) -> Result<RuleBook, RuleError>
    ensures answer { IsRead bytes.now result }
{
    let line = first_line(bytes);
    let head = match head_of(bytes, line) {
        Ok(head) => head,
        Err(error) => return Err(error),
    };
    match read_from(prover, alloc, bytes, line.next, head) {
        Ok(rules) => Ok(RuleBook {
            steps: head.steps,
            rules,
        }),
        Err(error) => Err(error),
    }
}
