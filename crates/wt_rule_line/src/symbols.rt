//! The symbols of a rule as its line has them.
ghost use Rattle.std.specs.Prelude.{◌≡◌, ◌++◌, ◌-◌, ◌∷◌, ◌^◌, [], min, IfOk, OnOk};
ghost use Rattle.std.specs.Option.{option_to_list};
ghost use Rattle.wt_symbol.specs.Sides.{PairTree, leaves_of, lists_of, preds_of, size_of};
ghost use Rattle.wt_symbol.specs.Lawful.{counts_up, all_in, all_different, has_lawful_symbols};
ghost use Rattle.wt_rule_text.specs.Trees.{side_of, rule_of, SideText, one, two};
ghost use Rattle.wt_rule_line.specs.Pairs.{tree_of_text, anchors_of, pair_of_text};

use std::alloc::{AllocError, Global};
use wt_rule_text::{Binary, Listed, ParsedRule, ParsedSide, Unary};

/// The symbols of a side, each kind in preorder, and the anchors of its lists.
#[derive(Drop)]
pub(crate) struct Symbols {
    leaves: Vec<u64>,
    lists: Vec<u64>,
    preds: Vec<u64>,
    pub(crate) anchors: Vec<u64>,
}

/// Adds a list with its anchor, if it has one.
fn push_listed(list: Listed, symbols: &mut Symbols) -> Result<(), AllocError>
    ensures leaves { OnOk result (symbols.new.leaves.items ≡ symbols.old.leaves.items) }
    ensures lists { OnOk result (symbols.new.lists.items ≡ symbols.old.lists.items ++ list.list ∷ []) }
    ensures preds { OnOk result (symbols.new.preds.items ≡ symbols.old.preds.items) }
    ensures anchors { OnOk result (symbols.new.anchors.items ≡ symbols.old.anchors.items ++ option_to_list list.anchor) }
{
    symbols.lists.push(list.list)?;
    if let Some(r) = list.anchor {
        symbols.anchors.push(r)?;
    }
    Ok(())
}

/// Adds the symbols of an operator that come before those of its operand.
fn push_one(operator: Unary, symbols: &mut Symbols) -> Result<(), AllocError>
    ensures leaves { OnOk result ((s : SideText) → symbols.old.leaves.items ++ leaves_of (tree_of_text (one operator s)) ≡ symbols.new.leaves.items ++ leaves_of (tree_of_text s)) }
    ensures lists { OnOk result ((s : SideText) → symbols.old.lists.items ++ lists_of (tree_of_text (one operator s)) ≡ symbols.new.lists.items ++ lists_of (tree_of_text s)) }
    ensures preds { OnOk result ((s : SideText) → symbols.old.preds.items ++ preds_of (tree_of_text (one operator s)) ≡ symbols.new.preds.items ++ preds_of (tree_of_text s)) }
    ensures anchors { OnOk result ((s : SideText) → symbols.old.anchors.items ++ anchors_of (one operator s) ≡ symbols.new.anchors.items ++ anchors_of s) }
{
    match operator {
        Unary::Proj(a) => push_listed(a, symbols),
        Unary::Filter(p, a) => {
            symbols.preds.push(p)?;
            push_listed(a, symbols)
        }
        Unary::Dedup => Ok(()),
    }
}

/// Adds the symbols of an operator that come before those of its operands.
fn push_two(operator: Binary, symbols: &mut Symbols) -> Result<(), AllocError>
    ensures leaves { OnOk result ((s t : SideText) → symbols.old.leaves.items ++ leaves_of (tree_of_text (two operator s t)) ≡ symbols.new.leaves.items ++ (leaves_of (tree_of_text s) ++ leaves_of (tree_of_text t))) }
    ensures lists { OnOk result ((s t : SideText) → symbols.old.lists.items ++ lists_of (tree_of_text (two operator s t)) ≡ symbols.new.lists.items ++ (lists_of (tree_of_text s) ++ lists_of (tree_of_text t))) }
    ensures preds { OnOk result ((s t : SideText) → symbols.old.preds.items ++ preds_of (tree_of_text (two operator s t)) ≡ symbols.new.preds.items ++ (preds_of (tree_of_text s) ++ preds_of (tree_of_text t))) }
    ensures anchors { OnOk result ((s t : SideText) → symbols.old.anchors.items ++ anchors_of (two operator s t) ≡ symbols.new.anchors.items ++ (anchors_of s ++ anchors_of t)) }
{
    match operator {
        Binary::InnerJoin(a, b) | Binary::LeftJoin(a, b) => {
            push_listed(a, symbols)?;
            push_listed(b, symbols)
        }
        Binary::InSub(a) => push_listed(a, symbols),
    }
}

/// Adds the symbols of a side.
fn push_symbols(side: &ParsedSide, symbols: &mut Symbols) -> Result<(), AllocError>
    ensures leaves { OnOk result (symbols.new.leaves.items ≡ symbols.old.leaves.items ++ leaves_of (tree_of_text (side_of side.now))) }
    ensures lists { OnOk result (symbols.new.lists.items ≡ symbols.old.lists.items ++ lists_of (tree_of_text (side_of side.now))) }
    ensures preds { OnOk result (symbols.new.preds.items ≡ symbols.old.preds.items ++ preds_of (tree_of_text (side_of side.now))) }
    ensures anchors { OnOk result (symbols.new.anchors.items ≡ symbols.old.anchors.items ++ anchors_of (side_of side.now)) }
{
    match side {
        ParsedSide::Input(r) => Ok(symbols.leaves.push(*r)?),
        ParsedSide::One(operator, s) => {
            push_one(*operator, symbols)?;
            push_symbols(s, symbols)
        }
        ParsedSide::Two(operator, s, t) => {
            push_two(*operator, symbols)?;
            push_symbols(s, symbols)?;
            push_symbols(t, symbols)
        }
    }
}

/// The symbols of a side.
pub(crate) fn symbols_of(alloc: Global, side: &ParsedSide) -> Result<Symbols, AllocError>
    ensures leaves { IfOk result (λ s. s.leaves.items ≡ leaves_of (tree_of_text (side_of side.now))) }
    ensures lists { IfOk result (λ s. s.lists.items ≡ lists_of (tree_of_text (side_of side.now))) }
    ensures preds { IfOk result (λ s. s.preds.items ≡ preds_of (tree_of_text (side_of side.now))) }
    ensures anchors { IfOk result (λ s. s.anchors.items ≡ anchors_of (side_of side.now)) }
{
    let mut symbols = Symbols {
        leaves: Vec::new(alloc),
        lists: Vec::new(alloc),
        preds: Vec::new(alloc),
        anchors: Vec::new(alloc),
    };
    push_symbols(side, &mut symbols)?;
    Ok(symbols)
}

/// How many operators a side has, up to the type's greatest number.
pub(crate) fn size(side: &ParsedSide) -> u32
    ensures { result ≡ min (size_of (tree_of_text (side_of side.now))) (2 ^ 32 - 1) }
{
    match side {
        ParsedSide::Input(_) => 0,
        ParsedSide::One(Unary::Proj(_), s)
        | ParsedSide::One(Unary::Filter(_, _), s)
        | ParsedSide::One(Unary::Dedup, s) => size(s).saturating_add(1),
        ParsedSide::Two(Binary::InnerJoin(_, _), s, t)
        | ParsedSide::Two(Binary::LeftJoin(_, _), s, t)
        | ParsedSide::Two(Binary::InSub(_), s, t) => {
            size(s).saturating_add(size(t)).saturating_add(1)
        }
    }
}

/// Whether the numbers are 0, 1, 2 and so on.
fn counts_from_zero(symbols: &[u64]) -> bool
    ensures { result ≡ counts_up 0 symbols.now }
{
    for (i, x) in symbols.iter().enumerate() {
        if *x != i as u64 {
            return false;
        }
    }
    true
}

/// Whether no number stands twice.
fn are_different(symbols: &[u64]) -> bool
    ensures { result ≡ all_different symbols.now }
{
    for i in 0..symbols.len() {
        if symbols[i + 1..].contains(&symbols[i]) {
            return false;
        }
    }
    true
}

/// Whether each number is one of the others.
fn are_among(symbols: &[u64], others: &[u64]) -> bool
    ensures { result ≡ all_in others.now symbols.now }
{
    symbols.iter().all(|x| others.contains(x))
}

/// Whether the symbols of a source, and those that its destination uses, are lawful.
fn are_lawful(of: &Symbols, used: &Symbols) -> bool
    ensures { (p : PairTree) → of.now.leaves.items ≡ leaves_of p.source → of.now.lists.items ≡ lists_of p.source → of.now.preds.items ≡ preds_of p.source → of.now.anchors.items ≡ p.anchors
        → used.now.leaves.items ≡ leaves_of p.dest → used.now.lists.items ≡ lists_of p.dest → used.now.preds.items ≡ preds_of p.dest → result ≡ has_lawful_symbols p }
{
    counts_from_zero(&of.leaves)
        && counts_from_zero(&of.lists)
        && counts_from_zero(&of.preds)
        && of.anchors.len() == of.lists.len()
        && are_among(&used.leaves, &of.leaves)
        && are_among(&used.lists, &of.lists)
        && are_among(&used.preds, &of.preds)
        && are_different(&used.leaves)
}

/// Whether the symbols of both sides are lawful.
pub(crate) fn passes_symbols(alloc: Global, rule: &ParsedRule) -> Result<bool, AllocError>
    ensures { IfOk result (λ yes. yes ≡ has_lawful_symbols (pair_of_text (rule_of rule.now))) }
{
    let of = symbols_of(alloc, &rule.source)?;
    let used = symbols_of(alloc, &rule.dest)?;
    Ok(are_lawful(&of, &used))
}
