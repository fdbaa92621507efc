//! The line of a rule.
ghost use Rattle.std.specs.Prelude.{◌≡◌, ℕ, List, Option, IfOk, codes, length, Result, Ok, Err};
ghost use Rattle.wt_rule_text.specs.Reading as spec;
ghost use Rattle.wt_rule_text.specs.Trees.{side_of, RuleText, rule_of};
ghost use Rattle.wt_rule_text.specs.Given.{Gives};
ghost use Rattle.wt_rule_text.specs.Forms.{IsLine};

use crate::atom::atoms;
use crate::parsed::{LineError, ParsedRule, ParsedSide, Version, Weights};
use crate::scan::{after, number};
use crate::side::{expect, side};
use std::alloc::Global;
use wt_value::Seq;

/// The weights that a line of this version states.
fn stated(line: &[u8], at: usize, version: Version) -> Option<(Option<Weights>, usize)>
    ensures { result ≡ spec.stated version line.now at }
{
    if version == Version::One {
        return Some((None, at));
    }
    let at = after(line, at, " | ")?;
    let (source, at) = number(line, at)?;
    let at = after(line, at, " ")?;
    let (dest, at) = number(line, at)?;
    Some((Some(Weights { source, dest }), at))
}

/// The two sides, up to the bar behind them.
fn sides(alloc: Global, line: &[u8]) -> Result<(ParsedSide, ParsedSide, usize), LineError>
    ensures { Gives (λ (s : ParsedSide × ParsedSide × ℕ). (side_of s.0, side_of s.1, s.2)) (spec.sides line.now) result }
{
    let (source, at) = side(alloc, line, 0, true, line.len())?;
    let at = expect(line, at, " => ")?;
    let (dest, at) = side(alloc, line, at, false, line.len())?;
    let at = expect(line, at, " | ")?;
    Ok((source, dest, at))
}

/// The weights that stand here and end the line.
fn ending(line: &[u8], at: usize, version: Version) -> Result<Option<Weights>, LineError>
    ensures { Gives (λ (w : Option Weights). w) (spec.ending version line.now at) result }
{
    let (weights, at) = stated(line, at, version).ok_or(LineError::Syntax)?;
    if at == line.len() {
        Ok(weights)
    } else {
        Err(LineError::Syntax)
    }
}

/// Reads the line of a rule.
fn read_rule(alloc: Global, line: &[u8], version: Version) -> Result<ParsedRule, LineError>
    ensures { Gives rule_of (spec.rule version line.now) result }
{
    let (source, dest, at) = sides(alloc, line)?;
    let (atoms, at) = atoms(alloc, line, at)?;
    let weights = ending(line, at, version)?;
    Ok(ParsedRule {
        source,
        dest,
        atoms: Seq::from_vec(atoms),
        weights,
    })
}

/// Reads the line of a rule, which stands without its LF, in the form of a version. Syntax comes
/// exactly where the line has not this form.
pub fn parse_rule(alloc: Global, line: &[u8], version: Version) -> Result<ParsedRule, LineError>
    ensures line { IfOk result (λ rule. IsLine version (rule_of rule) line.now) }
    ensures syntax { result ≡ Err LineError.Syntax → (rule : RuleText) → IsLine version rule line.now → ⊥ }
{
    read_rule(alloc, line, version)
}

/// A law: a line is the line of one rule.
pub fn a_line_has_one_rule()
    ensures { (version : Version) (line : List ℕ) (a b : RuleText) → IsLine version a line → IsLine version b line → a ≡ b }
{}
