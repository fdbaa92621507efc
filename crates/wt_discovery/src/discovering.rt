//! `discover`, on the caller's thread.
ghost use Rattle.std.specs.Prelude.{◌≡◌, ◌≢◌, ◌≤◌, ◌⊎◌, All, map, ℕ, List};
ghost use Rattle.wt_io.specs.Causes.{Rose};
ghost use Rattle.wt_pair.specs.Candidates.{IsWithinLimits, pairs_of};
ghost use Rattle.wt_symbol.specs.Lawful.{IsLawful};
ghost use Rattle.wt_symbol.specs.Sides.{pair_of};
ghost use Rattle.wt_discovery.specs.Discovering as spec;
ghost use Rattle.wt_outcome.specs.Outcomes.{AppendsPrefix, Ends, Outcome};

use std::alloc::Global;
use wt_discover::rule_lines;
use wt_form::Prover;
use wt_io::Sink;
use wt_outcome::{Stop, put};
use wt_pair::{Bounds, Pairs};
use wt_rule::{write_end, write_head};
use wt_symbol::Pair;

// Puts the lines of the rules of some pairs, those of each pair as soon as they are known; answers their number.
fn put_pairs<P: Prover, K: Sink>(
    prover: &P,
    alloc: Global,
    bounds: &Bounds,
    pairs: &[Pair],
    sink: &mut K,
) -> Result<u64, Stop>
    requires lawful { All (λ p. IsLawful (pair_of p)) pairs.now }
    ensures puts { spec.PutsRulesOf bounds.now (map pair_of pairs.now) (Rose (K.faults sink.old) (K.faults sink.new)) (K.written sink.old) (K.written sink.new) result }
    ensures later { K.faults sink.old ≤ K.faults sink.new }
{
    let mut count = 0u64;
    'pairs: for pair in pairs {
        let lines = rule_lines(prover, alloc, pair, bounds.depth, bounds.steps)?;
        put(sink, lines.text.as_slice())?;
        count = count.saturating_add(lines.count);
    }
    Ok(count)
}

// Puts the lines of the rules of all pairs, lot by lot; answers their number.
fn put_lots<P: Prover, K: Sink>(
    prover: &P,
    alloc: Global,
    bounds: &Bounds,
    sink: &mut K,
) -> Result<u64, Stop>
    requires limits { IsWithinLimits bounds.now }
    ensures puts { spec.PutsRulesOf bounds.now (pairs_of bounds.now) (Rose (K.faults sink.old) (K.faults sink.new)) (K.written sink.old) (K.written sink.new) result }
    ensures later { K.faults sink.old ≤ K.faults sink.new }
{
    let mut count = 0u64;
    let mut pairs = Pairs::new(*bounds);
    'lots: while let Some(lot) = pairs.next_lot(alloc)? {
        let found = put_pairs(prover, alloc, bounds, lot.pairs.as_slice(), sink)?;
        count = count.saturating_add(found);
    }
    Ok(count)
}

fn try_discover<P: Prover, K: Sink>(
    prover: &P,
    alloc: Global,
    bounds: &Bounds,
    sink: &mut K,
) -> Result<u8, Stop>
    requires limits { IsWithinLimits bounds.now }
    ensures { spec.Discovers bounds.now (Rose (K.faults sink.old) (K.faults sink.new)) (K.written sink.old) (K.written sink.new) result }
{
    let head = write_head(alloc, bounds.steps)?;
    put(sink, head.as_slice())?;
    let count = put_lots(prover, alloc, bounds, sink)?;
    let end = write_end(alloc, count)?;
    put(sink, end.as_slice())?;
    Ok(0)
}

/// Writes the rule file of the bounds, made on the caller's thread, and ends with the status of the command.
pub fn discover_alone<P: Prover, K: Sink>(
    prover: &P,
    alloc: Global,
    bounds: &Bounds,
    sink: &mut K,
) -> u8
    requires limits { IsWithinLimits bounds.now }

    // The status and the bytes.
    ensures whole { (o : Outcome) × spec.IsDiscovered bounds.now o
        × Ends ⊥ (Rose (K.faults sink.old) (K.faults sink.new)) (K.written sink.old) (K.written sink.new) o result }

    // Every status but 5 and 6 is 0, and the rule file of the bounds was written.
    ensures done { result ≢ 5 → result ≢ 6 → (result ≡ 0) × spec.WritesFile bounds.now (K.written sink.old) (K.written sink.new) }

    // 5 comes only where the count of faults rose in this call; 6 is want of memory. After both a prefix of the file was written.
    ensures write { result ≡ 5 → Rose (K.faults sink.old) (K.faults sink.new) }
    ensures prefix { (result ≡ 5) ⊎ (result ≡ 6) → (file : List ℕ) → spec.IsFileOf bounds.now file → AppendsPrefix (K.written sink.old) (K.written sink.new) file }
{
    match try_discover(prover, alloc, bounds, sink) {
        Ok(status) => status,
        Err(stop) => stop.status(),
    }
}
