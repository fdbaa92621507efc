//! `check`, over a file of rules.
ghost use Rattle.std.specs.Prelude.{◌≡◌, ◌≢◌, ◌≤◌, ◌⊎◌, IfOk, string_bytes};
ghost use Rattle.wt_io.specs.Causes.{Rose};
ghost use Rattle.wt_outcome.specs.declared.input.Input.{Input};
ghost use Rattle.wt_outcome.specs.Inputs.{IsInput};
ghost use Rattle.wt_outcome.specs.Outcomes.{AppendsPrefix, Ends, Outcome, Runs, Writes};
ghost use Rattle.wt_rewriting.specs.Rewriting.{Gives};
ghost use Rattle.wt_rewriting.specs.Checking as spec;

use crate::putting::put_line_fault;
use std::alloc::{AllocError, Global};
use wt_io::{Sink, Store};
use wt_outcome::{Input, Stop, put, read_input};
use wt_rule_read::{RuleError, read_rules, rules_name};

fn read_text(alloc: Global, count: usize) -> Result<String, AllocError>
    ensures { IfOk result (λ text. string_bytes text ≡ (spec.all_read count).text) }
{
    format!(in alloc; "ok {count}\n")
}

// All rules of the file were read.
fn put_read<K: Sink>(alloc: Global, count: usize, sink: &mut K) -> Result<u8, Stop>
    ensures { Runs ⊥ (Rose (K.faults sink.old) (K.faults sink.new)) (K.written sink.old) (K.written sink.new) (spec.all_read count) result }
{
    let Ok(text) = read_text(alloc, count) else {
        return Err(Stop::Memory);
    };
    put(sink, text.as_bytes())?;
    Ok(0)
}

// What a file of rules gives.
fn put_check<K: Sink>(alloc: Global, name: &str, rules: &Input, sink: &mut K) -> Result<u8, Stop>
    ensures { Gives (spec.IsCheckOutcome name.now rules.now) ⊥ (Rose (K.faults sink.old) (K.faults sink.new)) (K.written sink.old) (K.written sink.new) result }
{
    let Input::Whole(bytes) = rules else {
        return put_line_fault(alloc, name, 1, "TooLong", sink);
    };
    match read_rules(alloc, bytes.as_slice()) {
        Ok(book) => put_read(alloc, book.rules.len(), sink),
        Err(RuleError::Fault(fault, line)) => put_line_fault(
            alloc,
            name,
            line,
            rules_name(fault),
            sink,
        ),
        Err(RuleError::Memory) => Err(Stop::Memory),
    }
}

fn try_check<S: Store, K: Sink>(
    alloc: Global,
    name: &str,
    store: &mut S,
    sink: &mut K,
) -> Result<u8, Stop>
    ensures { (input : Input) × IsInput (S.told store.old name.now) input
        × Gives (spec.IsCheckOutcome name.now input) (Rose (S.faults store.old) (S.faults store.new)) (Rose (K.faults sink.old) (K.faults sink.new)) (K.written sink.old) (K.written sink.new) result }
{
    let rules = read_input(alloc, store, name)?;
    put_check(alloc, name, &rules, sink)
}

/// Reads the file of rules of this name, each rule proved again, and ends with the status of the command: it writes `ok N` for a
/// file of N rules, or the file's refusal.
pub fn check<S: Store, K: Sink>(alloc: Global, rules: &str, store: &mut S, sink: &mut K) -> u8
    // The status and the bytes, for some input that the file may have given.
    ensures whole { (input : Input) × IsInput (S.told store.old rules.now) input × (o : Outcome) × spec.IsChecking rules.now input o
        × Ends (Rose (S.faults store.old) (S.faults store.new)) (Rose (K.faults sink.old) (K.faults sink.new)) (K.written sink.old) (K.written sink.new) o result }

    // Every status but 3, 5 and 6 is the outcome's, and the outcome's text was written.
    ensures bytes { result ≢ 3 → result ≢ 5 → result ≢ 6 → (input : Input) × IsInput (S.told store.old rules.now) input × (o : Outcome) × spec.IsCheckOutcome rules.now input o
        × Writes (K.written sink.old) (K.written sink.new) o result }

    // 3 and 5 come only where a count of faults rose in this call; before 3 nothing was written.
    ensures read { result ≡ 3 → Rose (S.faults store.old) (S.faults store.new) × (K.written sink.new ≡ K.written sink.old) }
    ensures write { result ≡ 5 → Rose (K.faults sink.old) (K.faults sink.new) }

    // After 5 and 6, which is want of memory, a prefix of the text of such a run was written. There is no other status, and 1 is none.
    ensures prefix { (result ≡ 5) ⊎ (result ≡ 6) → (input : Input) × IsInput (S.told store.old rules.now) input × (o : Outcome) × spec.IsChecking rules.now input o
        × AppendsPrefix (K.written sink.old) (K.written sink.new) o.text }

    // So a prefix of the whole answer was written.
    ensures begins { (result ≡ 5) ⊎ (result ≡ 6) → (input : Input) × IsInput (S.told store.old rules.now) input
        × ((whole : Outcome) → spec.IsCheckOutcome rules.now input whole → AppendsPrefix (K.written sink.old) (K.written sink.new) whole.text) }
    ensures known { (result ≤ 6) × (result ≢ 1) }
{
    match try_check(alloc, rules, store, sink) {
        Ok(status) => status,
        Err(stop) => stop.status(),
    }
}
