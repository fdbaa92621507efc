//! The top call.
ghost use Rattle.std.specs.Prelude.{◌≡◌, ◌≢◌, ◌≤◌, ◌<◌, ◌⊎◌, IsErr, map, string_bytes};
ghost use Rattle.wt_discovery.specs.Discovering.{IsDiscovered, WritesFile};
ghost use Rattle.wt_io.specs.Causes.{Rose};
ghost use Rattle.wt_pair.specs.Candidates.{IsWithinLimits};
ghost use Rattle.wt_pair.specs.declared.bounds.Bounds.{Bounds};
ghost use Rattle.wt_tool.specs.Answers.{Answers, IsDiscovery, RunOutcome, RunTexts, usage};
ghost use Rattle.wt_lines.specs.Laws.{HasNoMatchLeft, IsOne, KeepsNames, KeepsRows, Stays};
ghost use Rattle.wt_outcome.specs.Outcomes.{AppendsPrefix, Ends, Outcome, Writes};
ghost use Rattle.wt_tool.specs.Laws.{ForRulesRead, LowersTheCost, RulesHaveOneBag, RulesReadHold};
ghost use Rattle.wt_words.specs.Commands.{command_of};

use std::alloc::Global;
use std::sync::Wait;
use std::thread::Threads;
use wt_demo::demo;
use wt_discovery::discover_alone;
use wt_io::{Gate, Sink, Store};
use wt_outcome::put;
use wt_pair::Bounds;
use wt_rewriting::{Names, check, rewrite_files};
use wt_search::Search;
use wt_sharing::discover;
use wt_words::{Command, UsageFault, read_words};

// The line of words that are refused.
fn usage_line(fault: UsageFault) -> &'static [u8]
    ensures { result.now ≡ (usage fault).text }
{
    match fault {
        UsageFault::NoCommand => b"usage NoCommand\n",
        UsageFault::UnknownCommand => b"usage UnknownCommand\n",
        UsageFault::WordCount => b"usage WordCount\n",
        UsageFault::UnknownKey => b"usage UnknownKey\n",
        UsageFault::RepeatedKey => b"usage RepeatedKey\n",
        UsageFault::BadNumber => b"usage BadNumber\n",
        UsageFault::OutOfRange => b"usage OutOfRange\n",
        UsageFault::BadOps => b"usage BadOps\n",
        UsageFault::MissingKey => b"usage MissingKey\n",
    }
}

fn refuse_words<K: Sink>(fault: UsageFault, sink: &mut K) -> u8
    ensures { Ends ⊥ (Rose (K.faults sink.old) (K.faults sink.new)) (K.written sink.old) (K.written sink.new) (usage fault) result }
{
    match put(sink, usage_line(fault)) {
        Ok(()) => 1,
        Err(stop) => stop.status(),
    }
}

// Discovers with so many workers: one is the caller's thread.
fn discover_by<R: Threads + Wait + Sync, K: Sink, G: Gate + Sync>(
    rt: &R,
    alloc: Global,
    bounds: &Bounds,
    workers: u32,
    sink: &mut K,
    gate: &G,
) -> u8
    requires limits { IsWithinLimits bounds.now }
    requires some { 0 < workers }
    requires most { workers ≤ 64 }
    ensures { (o : Outcome) × IsDiscovered bounds.now o
        × Ends ⊥ (Rose (K.faults sink.old) (K.faults sink.new)) (K.written sink.old) (K.written sink.new) o result }
{
    if workers == 1 {
        discover_alone(&Search {}, alloc, bounds, sink)
    } else {
        discover(rt, &Search {}, alloc, bounds, workers, sink, gate)
    }
}

fn run<R: Threads + Wait + Sync, S: Store, K: Sink, G: Gate + Sync>(
    rt: &R,
    alloc: Global,
    words: &[String],
    store: &mut S,
    sink: &mut K,
    gate: &G,
) -> u8
    ensures { Answers (S.told store.old) (map string_bytes words.now)
        (Rose (S.faults store.old) (S.faults store.new)) (Rose (K.faults sink.old) (K.faults sink.new))
        (K.written sink.old) (K.written sink.new) result }
{
    match read_words(words) {
        Ok(
            Command::Rewrite {
                rules,
                schema,
                queries,
            },
        ) => {
            let names = Names {
                rules,
                schema,
                queries,
            };
            rewrite_files(rt, alloc, &names, store, sink)
        }
        Ok(Command::Check { rules }) => check(alloc, rules, store, sink),
        Ok(Command::Demo { first, count }) => demo(alloc, first, count, sink),
        Ok(Command::Discover { bounds, workers }) => {
            discover_by(rt, alloc, &bounds, workers, sink, gate)
        }
        Err(fault) => refuse_words(fault, sink),
    }
}

/// Reads the words and runs their command. It ends with the status, reads the store alone and writes to the sink alone.
pub fn wetune<R: Threads + Wait + Sync, S: Store, K: Sink, G: Gate + Sync>(
    rt: &R,
    alloc: Global,
    words: &[String],
    store: &mut S,
    sink: &mut K,
    gate: &G,
) -> u8
    // The status and the bytes, whole.
    ensures whole { Answers (S.told store.old) (map string_bytes words.now)
        (Rose (S.faults store.old) (S.faults store.new)) (Rose (K.faults sink.old) (K.faults sink.new))
        (K.written sink.old) (K.written sink.new) result }

    // Every status but 3, 5 and 6 is the outcome's, and the outcome's text was written.
    ensures bytes { result ≢ 3 → result ≢ 5 → result ≢ 6 → RunOutcome (S.told store.old) (map string_bytes words.now)
        (λ o. Writes (K.written sink.old) (K.written sink.new) o result) }

    // The words of a discovery: with 0 the rule file of its bounds was written, for every number of workers.
    ensures file { (bounds : Bounds) → IsDiscovery (map string_bytes words.now) bounds → result ≡ 0 → WritesFile bounds (K.written sink.old) (K.written sink.new) }

    // 1 comes exactly where the words are no command.
    ensures usage_only { result ≡ 1 → IsErr (command_of (map string_bytes words.now)) }
    ensures usage_where { IsErr (command_of (map string_bytes words.now)) → (result ≡ 1) ⊎ (result ≡ 3) ⊎ (result ≡ 5) ⊎ (result ≡ 6) }

    // 3 and 5 come only where a count of faults rose in this call; before 3 nothing was written.
    ensures read { result ≡ 3 → Rose (S.faults store.old) (S.faults store.new) × (K.written sink.new ≡ K.written sink.old) }
    ensures write { result ≡ 5 → Rose (K.faults sink.old) (K.faults sink.new) }

    // After 5 and 6, which is want of memory, a prefix of the text was written. There is no other status.
    ensures prefix { (result ≡ 5) ⊎ (result ≡ 6) → RunOutcome (S.told store.old) (map string_bytes words.now)
        (λ o. AppendsPrefix (K.written sink.old) (K.written sink.new) o.text) }

    // It is one of each whole answer that the words and the inputs have.
    ensures begins { (result ≡ 5) ⊎ (result ≡ 6) → RunTexts (S.told store.old) (map string_bytes words.now) (AppendsPrefix (K.written sink.old) (K.written sink.new)) }
    ensures known { result ≤ 6 }

    // What a rule of a written file means, and one of a file that is read: nothing is assumed of the files.
    ensures one_bag { RulesHaveOneBag }
    ensures hold { RulesReadHold }

    // What the query that is printed has in common with its statement, on every database that satisfies the schema.
    ensures rows { ForRulesRead KeepsRows }
    ensures names { ForRulesRead KeepsNames }

    // There is one. It is accepted as well, and rewritten as itself; no rule of the file has a match in it.
    ensures one { ForRulesRead IsOne }
    ensures itself { ForRulesRead Stays }
    ensures least { ForRulesRead HasNoMatchLeft }
    ensures cheaper { ForRulesRead LowersTheCost }
{
    run(rt, alloc, words, store, sink, gate)
}
