//! The lines of the rules of pairs, by a prover of pairs.
ghost use Rattle.std.specs.Prelude.{◌≡◌, ◌++◌, [], All, map, take, IfOk, OnOk, length};
ghost use Rattle.std.specs.List.{flat_map};
ghost use Rattle.wt_symbol.specs.Sides.{pair_of};
ghost use Rattle.wt_symbol.specs.Lawful.{IsLawful};
ghost use Rattle.wt_rule.specs.Texts.{line_of};
ghost use Rattle.wt_discover.specs.Files.{AreLines, AreCounted};

use std::alloc::{AllocError, Global};
use wt_constraint::AtomSet;
use wt_cores::rules_of_pair;
use wt_form::Prover;
use wt_rule::{Rule, write_rule};
use wt_symbol::Pair;
use wt_value::Bytes;

/// The lines of the rules of a pair, and their number.
#[derive(Debug, Drop)]
pub struct RuleLines {
    pub text: Bytes,
    pub count: u64,
}

/// Adds the line of the rule of a pair with a set.
fn push_line(alloc: Global, pair: &Pair, set: AtomSet, text: &mut Vec<u8>) -> Result<(), AllocError>
    requires { IsLawful (pair_of pair.now) }
    ensures { OnOk result (text.new.items ≡ text.old.items ++ line_of (pair_of pair.now) set) }
{
    let rule = Rule {
        pair: pair.copy(alloc)?,
        set,
    };
    let line = write_rule(alloc, &rule)?;
    text.extend_from_slice(line.as_slice())?;
    Ok(())
}

/// The lines of a pair with each of these sets, in order.
fn lines_of(alloc: Global, pair: &Pair, sets: &[AtomSet]) -> Result<Vec<u8>, AllocError>
    requires { IsLawful (pair_of pair.now) }
    ensures { IfOk result (λ text. text.items ≡ flat_map (line_of (pair_of pair.now)) sets.now) }
{
    let mut text = Vec::new(alloc);
    for set in sets {
        push_line(alloc, pair, *set, &mut text)?;
    }
    Ok(text)
}

/// The lines of the rules of a pair, within so many atoms dropped and so many steps.
pub fn rule_lines<P: Prover>(
    prover: &P,
    alloc: Global,
    pair: &Pair,
    depth: u32,
    steps: u32,
) -> Result<RuleLines, AllocError>
    requires lawful { IsLawful (pair_of pair.now) }
    ensures { IfOk result (λ lines. AreLines (pair_of pair.now) steps depth lines.text lines.count) }
{
    let sets = rules_of_pair(prover, alloc, pair, depth, steps)?;
    let text = lines_of(alloc, pair, sets.as_slice())?;
    Ok(RuleLines {
        text: Bytes::from_vec(text),
        count: sets.len() as u64,
    })
}

/// The lines of the rules of some pairs, pair after pair, and their number as far as 64 bits go.
pub fn lines_of_pairs<P: Prover>(
    prover: &P,
    alloc: Global,
    pairs: &[Pair],
    depth: u32,
    steps: u32,
) -> Result<RuleLines, AllocError>
    requires lawful { All (λ p. IsLawful (pair_of p)) pairs.now }
    ensures { IfOk result (λ lines. AreCounted steps depth (map pair_of pairs.now) lines.text lines.count) }
{
    let mut text = Vec::new(alloc);
    let mut count = 0u64;
    for pair in pairs {
        let lines = rule_lines(prover, alloc, pair, depth, steps)?;
        text.extend_from_slice(lines.text.as_slice())?;
        count = count.saturating_add(lines.count);
    }
    Ok(RuleLines {
        text: Bytes::from_vec(text),
        count,
    })
}
