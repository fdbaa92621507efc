//! What a refused file is told as, and the lines of statements.
ghost use Rattle.std.specs.Prelude.{◌≡◌, ◌≤◌, IfOk, length, string_bytes};
ghost use Rattle.wt_io.specs.Causes.{Rose};
ghost use Rattle.wt_outcome.specs.Outcomes.{Runs};
ghost use Rattle.wt_rewrite.specs.Books.{IsReady};
ghost use Rattle.wt_rewriting.specs.Rewriting as spec;

use crate::making::{Source, made_lines, reach};
use std::alloc::{AllocError, Global};
use std::thread::Threads;
use wt_io::Sink;
use wt_outcome::{Stop, put};
use wt_plan_facts::Facts;

fn fault_text(alloc: Global, name: &str, at: u32, kind: &str) -> Result<String, AllocError>
    ensures { IfOk result (λ text. string_bytes text ≡ (spec.fault_at name.now at kind.now).text) }
{
    format!(in alloc; "fault {name} offset {at} {kind}\n")
}

/// Puts the refusal of a schema or of statements at an offset; the status is 2.
pub fn put_fault<K: Sink>(
    alloc: Global,
    name: &str,
    at: u32,
    kind: &str,
    sink: &mut K,
) -> Result<u8, Stop>
    ensures { Runs ⊥ (Rose (K.faults sink.old) (K.faults sink.new)) (K.written sink.old) (K.written sink.new) (spec.fault_at name.now at kind.now) result }
{
    let Ok(text) = fault_text(alloc, name, at, kind) else {
        return Err(Stop::Memory);
    };
    put(sink, text.as_bytes())?;
    Ok(2)
}

pub(crate) fn put_too_long<K: Sink>(alloc: Global, name: &str, sink: &mut K) -> Result<u8, Stop>
    ensures { Runs ⊥ (Rose (K.faults sink.old) (K.faults sink.new)) (K.written sink.old) (K.written sink.new) (spec.too_long name.now) result }
{
    put_fault(alloc, name, 16_777_216, "TooLong", sink)
}

fn line_text(alloc: Global, name: &str, line: u32, kind: &str) -> Result<String, AllocError>
    ensures { IfOk result (λ text. string_bytes text ≡ (spec.fault_in_line name.now line kind.now).text) }
{
    format!(in alloc; "fault {name} line {line} {kind}\n")
}

/// Puts the refusal of rules in a line; the status is 2.
pub fn put_line_fault<K: Sink>(
    alloc: Global,
    name: &str,
    line: u32,
    kind: &str,
    sink: &mut K,
) -> Result<u8, Stop>
    ensures { Runs ⊥ (Rose (K.faults sink.old) (K.faults sink.new)) (K.written sink.old) (K.written sink.new) (spec.fault_in_line name.now line kind.now) result }
{
    let Ok(text) = line_text(alloc, name, line, kind) else {
        return Err(Stop::Memory);
    };
    put(sink, text.as_bytes())?;
    Ok(2)
}

// So many bytes of statements are rewritten before their lines are put.
const PIECE: u32 = 131_072;

// A line for each statement; a write takes the lines of some 128 KiB of statements. It answers whether one of them was refused.
pub(crate) fn put_lines<R: Threads + Sync, F: Facts + Sync, K: Sink>(
    rt: &R,
    alloc: Global,
    source: &Source<'_, F>,
    sink: &mut K,
) -> Result<bool, Stop>
    requires ready { IsReady source.now.book.now }
    requires few { length source.now.queries.now.statements ≤ 16777216 }
    ensures { spec.PutsLines source.now.schema.now.tables source.now.book.now.rules source.now.queries.now (Rose (K.faults sink.old) (K.faults sink.new)) (K.written sink.old) (K.written sink.new) result }
{
    let queries = source.queries;
    let count = queries.count();
    let mut refused = false;
    let mut n = 0;
    'pieces: while n < count {
        let end = reach(queries, n, count, PIECE);
        let made = made_lines(rt, alloc, source, n, end)?;
        put(sink, made.text.as_slice())?;
        refused |= made.refused;
        n = end;
    }
    Ok(refused)
}
