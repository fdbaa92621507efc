//! The pair of a rule as its line has it.
ghost use Rattle.std.specs.Prelude.{◌≡◌, ◌≤◌, ◌++◌, map, min, IfOk, true};
ghost use Rattle.wt_symbol.specs.Sides.{tree_of, pair_of, size_of};
ghost use Rattle.wt_symbol.specs.Lawful.{IsLawful, has_lawful_symbols};
ghost use Rattle.wt_rule_text.specs.Trees.{side_of, rule_of, SideText, one, two};
ghost use Rattle.wt_rule_line.specs.Pairs.{tree_of_text, anchors_of, pair_of_text, in_byte, in_bytes, MakesPair};
ghost use Rattle.wt_rule_line.specs.Pairs as spec;
ghost use Rattle.wt_symbol.specs.Lawful.{fault_of};

use crate::fault::{RuleFault, RuleLineError};
use crate::symbols::{passes_symbols, size, symbols_of};
use std::alloc::{AllocError, Global};
use wt_rule_text::{Binary, ParsedRule, ParsedSide, Unary};
use wt_symbol::{Anchors, MOST_OPERATORS, Pair, PairFault, Side, first_fault};

/// A number as a byte, up to the greatest one.
fn byte(n: u64) -> u8
    ensures { result ≡ in_byte n }
{
    n.min(255) as u8
}

/// An operator of one operand over this one, its numbers as bytes.
fn over_one(alloc: Global, operator: Unary, operand: Side) -> Result<Side, AllocError>
    ensures { IfOk result (λ side. (s : SideText) → tree_of operand ≡ in_bytes (tree_of_text s) → tree_of side ≡ in_bytes (tree_of_text (one operator s))) }
{
    let operand = Box::new(alloc, operand)?;
    Ok(match operator {
        Unary::Proj(a) => Side::Proj(byte(a.list), operand),
        Unary::Filter(p, a) => Side::Filter(byte(p), byte(a.list), operand),
        Unary::Dedup => Side::Dedup(operand),
    })
}

/// An operator of two operands over these, its numbers as bytes.
fn over_two(alloc: Global, operator: Binary, left: Side, right: Side) -> Result<Side, AllocError>
    ensures { IfOk result (λ side. (s t : SideText) → tree_of left ≡ in_bytes (tree_of_text s) → tree_of right ≡ in_bytes (tree_of_text t) → tree_of side ≡ in_bytes (tree_of_text (two operator s t))) }
{
    let left = Box::new(alloc, left)?;
    let right = Box::new(alloc, right)?;
    Ok(match operator {
        Binary::InnerJoin(a, b) => Side::InnerJoin(byte(a.list), byte(b.list), left, right),
        Binary::LeftJoin(a, b) => Side::LeftJoin(byte(a.list), byte(b.list), left, right),
        Binary::InSub(a) => Side::InSub(byte(a.list), left, right),
    })
}

/// The side with its numbers as bytes.
fn bytes_of(alloc: Global, side: &ParsedSide) -> Result<Side, AllocError>
    ensures { IfOk result (λ s. tree_of s ≡ in_bytes (tree_of_text (side_of side.now))) }
{
    match side {
        ParsedSide::Input(r) => Ok(Side::Input(byte(*r))),
        ParsedSide::One(operator, s) => {
            let operand = bytes_of(alloc, s)?;
            over_one(alloc, *operator, operand)
        }
        ParsedSide::Two(operator, s, t) => {
            let left = bytes_of(alloc, s)?;
            let right = bytes_of(alloc, t)?;
            over_two(alloc, *operator, left, right)
        }
    }
}

/// Numbers as bytes.
fn bytes(alloc: Global, numbers: &[u64]) -> Result<Anchors, AllocError>
    ensures { IfOk result (λ bytes. bytes ≡ map in_byte numbers.now) }
{
    let mut bytes = Anchors::new(alloc);
    for n in numbers {
        bytes.push(byte(*n))?;
    }
    Ok(bytes)
}

/// The anchors of a source as bytes.
fn anchor_bytes(alloc: Global, side: &ParsedSide) -> Result<Anchors, AllocError>
    ensures { IfOk result (λ bytes. bytes ≡ map in_byte (anchors_of (side_of side.now))) }
{
    let symbols = symbols_of(alloc, side)?;
    bytes(alloc, &symbols.anchors)
}

/// The sides with their anchors, their numbers as bytes.
fn pair_bytes(alloc: Global, rule: &ParsedRule) -> Result<Pair, AllocError>
    ensures source { IfOk result (λ p. tree_of p.source ≡ in_bytes (tree_of_text (side_of rule.now.source))) }
    ensures dest { IfOk result (λ p. tree_of p.dest ≡ in_bytes (tree_of_text (side_of rule.now.dest))) }
    ensures anchors { IfOk result (λ p. p.anchors ≡ map in_byte (anchors_of (side_of rule.now.source))) }
{
    let source = bytes_of(alloc, &rule.source)?;
    let dest = bytes_of(alloc, &rule.dest)?;
    let anchors = anchor_bytes(alloc, &rule.source)?;
    Ok(Pair {
        source,
        dest,
        anchors,
    })
}

fn fault_name(fault: PairFault) -> RuleFault
    ensures { result ≡ spec.fault_name fault }
{
    match fault {
        PairFault::Symbol => RuleFault::Symbol,
        PairFault::Size => RuleFault::TooLong,
        PairFault::Anchor => RuleFault::Anchor,
        PairFault::Weight => RuleFault::Weight,
        PairFault::Root => RuleFault::Root,
    }
}

/// The first fault of a rule's pair.
fn pair_fault_of(
    alloc: Global,
    rule: &ParsedRule,
    pair: &Pair,
) -> Result<Option<PairFault>, AllocError>
    requires source { tree_of pair.now.source ≡ in_bytes (tree_of_text (side_of rule.now.source)) }
    requires dest { tree_of pair.now.dest ≡ in_bytes (tree_of_text (side_of rule.now.dest)) }
    requires anchors { pair.now.anchors ≡ map in_byte (anchors_of (side_of rule.now.source)) }
    ensures { IfOk result (λ fault. fault ≡ fault_of (pair_of_text (rule_of rule.now))) }
{
    if !passes_symbols(alloc, rule)? {
        return Ok(Some(PairFault::Symbol));
    }
    if size(&rule.source) > MOST_OPERATORS || size(&rule.dest) > MOST_OPERATORS {
        return Ok(Some(PairFault::Size));
    }
    first_fault(alloc, &pair.source, &pair.dest, &pair.anchors)
}

/// The pair of a rule, if it is lawful.
pub(crate) fn lawful_pair(alloc: Global, rule: &ParsedRule) -> Result<Pair, RuleLineError>
    ensures { MakesPair (rule_of rule.now) result }
{
    let pair = pair_bytes(alloc, rule)?;
    match pair_fault_of(alloc, rule, &pair)? {
        None => Ok(pair),
        Some(fault) => Err(RuleLineError::Fault(fault_name(fault))),
    }
}
