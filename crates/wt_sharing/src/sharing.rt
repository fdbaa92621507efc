//! The lots of bounds, part by part.
ghost use Rattle.std.specs.Prelude.{◌≡◌, ◌≢◌, ◌≤◌, ◌<◌, ◌⊎◌, ℕ, List};
ghost use Rattle.wt_io.specs.Causes.{Rose};
ghost use Rattle.wt_pair.specs.Candidates.{IsWithinLimits, pairs_of};
ghost use Rattle.wt_discovery.specs.Discovering as spec;
ghost use Rattle.wt_outcome.specs.Outcomes.{AppendsPrefix, Ends, Outcome};

use crate::parts::next_part;
use crate::stage::run_stage;
use std::alloc::Global;
use std::sync::Wait;
use std::thread::Threads;
use wt_form::Prover;
use wt_io::{Gate, Sink};
use wt_outcome::{Stop, put};
use wt_pair::{Bounds, Pairs};
use wt_rule::{Rules, write_end, write_head};
use wt_workers::lines_of_rules;

// Puts the lines of the rules of all pairs, part by part; answers their number.
fn put_parts<R: Threads + Wait + Sync, P: Prover + Sync, K: Sink, G: Gate + Sync>(
    rt: &R,
    prover: &P,
    alloc: Global,
    bounds: &Bounds,
    workers: u32,
    sink: &mut K,
    gate: &G,
) -> Result<u64, Stop>
    requires limits { IsWithinLimits bounds.now }
    requires some { 0 < workers }
    requires most { workers ≤ 64 }
    ensures puts { spec.PutsRulesOf bounds.now (pairs_of bounds.now) (Rose (K.faults sink.old) (K.faults sink.new)) (K.written sink.old) (K.written sink.new) result }
    ensures later { K.faults sink.old ≤ K.faults sink.new }
{
    let mut count = 0u64;
    let mut pairs = Pairs::new(*bounds);
    let mut next = next_part(&mut pairs, alloc)?;
    let mut before = Rules::new(alloc);
    'parts: while let Some(part) = next {
        let stage = run_stage(rt, prover, alloc, &part, workers, gate, &before, &mut pairs)?;
        put(sink, stage.lines.text.as_slice())?;
        count = count.saturating_add(stage.lines.count);
        before = stage.found;
        next = stage.next;
    }
    let last = lines_of_rules(alloc, before.as_slice())?;
    put(sink, last.text.as_slice())?;
    Ok(count.saturating_add(last.count))
}

fn try_discover<R: Threads + Wait + Sync, P: Prover + Sync, K: Sink, G: Gate + Sync>(
    rt: &R,
    prover: &P,
    alloc: Global,
    bounds: &Bounds,
    workers: u32,
    sink: &mut K,
    gate: &G,
) -> Result<u8, Stop>
    requires limits { IsWithinLimits bounds.now }
    requires some { 0 < workers }
    requires most { workers ≤ 64 }
    ensures { spec.Discovers bounds.now (Rose (K.faults sink.old) (K.faults sink.new)) (K.written sink.old) (K.written sink.new) result }
{
    let head = write_head(alloc, bounds.steps)?;
    put(sink, head.as_slice())?;
    let count = put_parts(rt, prover, alloc, bounds, workers, sink, gate)?;
    let end = write_end(alloc, count)?;
    put(sink, end.as_slice())?;
    Ok(0)
}

/// Writes the rule file of the bounds, found by so many workers, and ends with the status of the command. The bytes do not depend on
/// how many there are, nor on how they are scheduled.
pub fn discover<R: Threads + Wait + Sync, P: Prover + Sync, K: Sink, G: Gate + Sync>(
    rt: &R,
    prover: &P,
    alloc: Global,
    bounds: &Bounds,
    workers: u32,
    sink: &mut K,
    gate: &G,
) -> u8
    requires limits { IsWithinLimits bounds.now }
    requires some { 0 < workers }
    requires most { workers ≤ 64 }

    // The status and the bytes.
    ensures whole { (o : Outcome) × spec.IsDiscovered bounds.now o
        × Ends ⊥ (Rose (K.faults sink.old) (K.faults sink.new)) (K.written sink.old) (K.written sink.new) o result }

    // Every status but 5 and 6 is 0, and the rule file of the bounds was written.
    ensures done { result ≢ 5 → result ≢ 6 → (result ≡ 0) × spec.WritesFile bounds.now (K.written sink.old) (K.written sink.new) }

    // 5 comes only where the count of faults rose in this call; 6 is want of memory. After both a prefix of the file was written.
    ensures write { result ≡ 5 → Rose (K.faults sink.old) (K.faults sink.new) }
    ensures prefix { (result ≡ 5) ⊎ (result ≡ 6) → (file : List ℕ) → spec.IsFileOf bounds.now file → AppendsPrefix (K.written sink.old) (K.written sink.new) file }
{
    match try_discover(rt, prover, alloc, bounds, workers, sink, gate) {
        Ok(status) => status,
        Err(stop) => stop.status(),
    }
}
