//! `demo`, to a sink.
ghost use Rattle.std.specs.Prelude.{◌≡◌, ◌≢◌, ◌≤◌, ◌⊎◌, ℕ, IfOk, length, string_bytes};
ghost use Rattle.wt_chains.specs.Chains.{AreLawful};
ghost use Rattle.wt_ddl.specs.Schemas.{schema_of};
ghost use Rattle.wt_io.specs.Causes.{Rose};
ghost use Rattle.wt_outcome.specs.Outcomes.{AppendsPrefix, Ends, Outcome, Runs, Writes};
ghost use Rattle.wt_rewrite.specs.Books.{IsReady};
ghost use Rattle.wt_rewriting.specs.Rewriting.{Gives};
ghost use Rattle.wt_demo.specs.Demo as spec;
ghost use Rattle.wt_demo.specs.Tallies.{tally};
ghost use Rattle.wt_demo.specs.Texts as texts;

use crate::statements::{statement_text, text_tally};
use crate::tally::Tally;
use std::alloc::{AllocError, Global};
use wt_ddl::{DdlError, read_schema};
use wt_fault_names::{lexical_name, schema_name};
use wt_io::Sink;
use wt_outcome::{Stop, put};
use wt_plan_facts::Facts;
use wt_props::Known;
use wt_rewrite::Book;
use wt_rewriting::{put_fault, put_line_fault};
use wt_rule::RuleBook;
use wt_rule_read::{RuleError, read_rules, rules_name};
use wt_schema::Schema;

const SCHEMA: &[u8] =
    b"CREATE TABLE cust (id INTEGER PRIMARY KEY, name TEXT);\nCREATE TABLE o (id INTEGER PRIMARY KEY, c INTEGER REFERENCES cust (id), d INTEGER NOT NULL REFERENCES cust (id), k INTEGER UNIQUE);\n";

const RULES: &[u8] =
    b"wetune-rules 1 steps=8\nProj<a0@r0>(LeftJoin<a1@r0,a2@r1>(r0,r1)) => Proj<a0>(r0) | Unique(r1,a2)\nLeftJoin<a0@r0,a1@r1>(r0,r1) => InnerJoin<a0,a1>(r0,r1) | NotNull(r0,a0) RefAttrs(r0,a0,r1,a1)\nProj<a0@r0>(InnerJoin<a1@r0,a2@r1>(r0,r1)) => Proj<a0>(InSub<a1>(r0,Proj<a2>(r1))) | Unique(r1,a2)\nInSub<a0@r0>(r0,Proj<a1@r1>(r1)) => r0 | NotNull(r0,a0) RefAttrs(r0,a0,r1,a1)\nDedup(Proj<a0@r0>(r0)) => Proj<a0>(r0) | Unique(r0,a0) NotNull(r0,a0)\nend 5\n";

// What is counted of so many statements, the first of this kind.
fn total<F: Facts>(
    alloc: Global,
    schema: &Schema,
    facts: &F,
    book: &Book,
    first: u32,
    count: u32,
) -> Result<Tally, AllocError>
    requires same { F.tables facts.now ≡ schema.now.tables }
    requires ready { IsReady book.now }
    requires first { first ≤ 999999 }
    requires count { count ≤ 100000 }
    ensures { IfOk result (spec.IsTotal schema.now.tables book.now.rules first count) }
{
    let mut all = Tally::new();
    'statements: for n in 0..count {
        let text = statement_text(alloc, (first + n) % 7, n)?;
        let own = text_tally(alloc, schema, facts, book, text.as_bytes())?;
        all = all.and(own);
    }
    Ok(all)
}

fn counts_text(alloc: Global, count: u32, printed: u64, refused: u64) -> Result<String, AllocError>
    ensures { IfOk result (λ text. (matches before after : ℕ) → string_bytes text ≡ spec.counts_text count (tally printed refused matches before after)) }
{
    format!(in alloc; "queries {count} printed {printed} refused {refused}")
}

fn costs_text(alloc: Global, matches: u64, before: u64, after: u64) -> Result<String, AllocError>
    ensures { IfOk result (λ text. (printed refused : ℕ) → string_bytes text ≡ spec.costs_text (tally printed refused matches before after)) }
{
    format!(in alloc; " matches {matches} cost {before} -> {after}\n")
}

fn line_text(alloc: Global, count: u32, all: &Tally) -> Result<String, AllocError>
    ensures { IfOk result (λ text. string_bytes text ≡ (spec.counted count all.now).text) }
{
    let mut text = counts_text(alloc, count, all.printed, all.refused)?;
    let costs = costs_text(alloc, all.matches, all.before, all.after)?;
    text.push_str(&costs)?;
    Ok(text)
}

// What was counted of so many statements.
fn put_counted<K: Sink>(alloc: Global, count: u32, all: &Tally, sink: &mut K) -> Result<u8, Stop>
    ensures { Runs ⊥ (Rose (K.faults sink.old) (K.faults sink.new)) (K.written sink.old) (K.written sink.new) (spec.counted count all.now) result }
{
    let Ok(text) = line_text(alloc, count, all) else {
        return Err(Stop::Memory);
    };
    put(sink, text.as_bytes())?;
    Ok(0)
}

// The statements over the tables of a schema.
fn put_total<K: Sink>(
    alloc: Global,
    schema: &Schema,
    book: &Book,
    first: u32,
    count: u32,
    sink: &mut K,
) -> Result<u8, Stop>
    requires ready { IsReady book.now }
    requires first { first ≤ 999999 }
    requires count { count ≤ 100000 }
    ensures { Gives (spec.IsTotalled schema.now.tables book.now.rules first count) ⊥ (Rose (K.faults sink.old) (K.faults sink.new)) (K.written sink.old) (K.written sink.new) result }
{
    let known = Known::new(schema);
    let all = total(alloc, schema, &known, book, first, count)?;
    put_counted(alloc, count, &all, sink)
}

// The statements over the schema of the demonstration.
fn put_tables<K: Sink>(
    alloc: Global,
    book: &Book,
    first: u32,
    count: u32,
    sink: &mut K,
) -> Result<u8, Stop>
    requires ready { IsReady book.now }
    requires first { first ≤ 999999 }
    requires count { count ≤ 100000 }
    ensures { Gives (spec.IsTablesDemo book.now.rules (schema_of texts.schema_text) first count) ⊥ (Rose (K.faults sink.old) (K.faults sink.new)) (K.written sink.old) (K.written sink.new) result }
{
    match read_schema(alloc, SCHEMA) {
        Ok(schema) => put_total(alloc, &schema, book, first, count, sink),
        Err(DdlError::Fault(fault, at)) => put_fault(alloc, "X", at, schema_name(fault), sink),
        Err(DdlError::Lex(fault, at)) => put_fault(alloc, "X", at, lexical_name(fault), sink),
        Err(DdlError::Memory) => Err(Stop::Memory),
    }
}

// The statements with rules that were read.
fn put_book<K: Sink>(
    alloc: Global,
    book: RuleBook,
    first: u32,
    count: u32,
    sink: &mut K,
) -> Result<u8, Stop>
    requires lawful { AreLawful book.rules }
    requires few { length book.rules ≤ 65536 }
    requires first { first ≤ 999999 }
    requires count { count ≤ 100000 }
    ensures { Gives (spec.IsTablesDemo book.rules (schema_of texts.schema_text) first count) ⊥ (Rose (K.faults sink.old) (K.faults sink.new)) (K.written sink.old) (K.written sink.new) result }
{
    let book = Book::new(alloc, book.rules)?;
    put_tables(alloc, &book, first, count, sink)
}

// The statements with the rules of the demonstration.
fn put_demo<K: Sink>(alloc: Global, first: u32, count: u32, sink: &mut K) -> Result<u8, Stop>
    requires first { first ≤ 999999 }
    requires count { count ≤ 100000 }
    ensures { Gives (spec.IsWholeDemo first count) ⊥ (Rose (K.faults sink.old) (K.faults sink.new)) (K.written sink.old) (K.written sink.new) result }
{
    match read_rules(alloc, RULES) {
        Ok(book) => put_book(alloc, book, first, count, sink),
        Err(RuleError::Fault(fault, line)) => put_line_fault(
            alloc,
            "A",
            line,
            rules_name(fault),
            sink,
        ),
        Err(RuleError::Memory) => Err(Stop::Memory),
    }
}

/// Rewrites so many generated statements, the first of them of the kind `first` modulo 7, by five rules over two tables, writes what
/// was counted, and ends with the status of the command.
pub fn demo<K: Sink>(alloc: Global, first: u32, count: u32, sink: &mut K) -> u8
    requires first { first ≤ 999999 }
    requires count { count ≤ 100000 }

    // The status and the bytes.
    ensures whole { (o : Outcome) × spec.IsDemo first count o
        × Ends ⊥ (Rose (K.faults sink.old) (K.faults sink.new)) (K.written sink.old) (K.written sink.new) o result }

    // Every status but 5 and 6 is the outcome's, and the outcome's text was written.
    ensures bytes { result ≢ 5 → result ≢ 6 → (o : Outcome) × spec.IsWholeDemo first count o × Writes (K.written sink.old) (K.written sink.new) o result }

    // 5 comes only where the count of faults rose in this call; 6 is want of memory. After both a prefix of the text was written.
    ensures write { result ≡ 5 → Rose (K.faults sink.old) (K.faults sink.new) }
    ensures begins { (result ≡ 5) ⊎ (result ≡ 6) → (whole : Outcome) → spec.IsWholeDemo first count whole → AppendsPrefix (K.written sink.old) (K.written sink.new) whole.text }
    ensures known { (result ≤ 6) × (result ≢ 1) × (result ≢ 3) }
{
    match put_demo(alloc, first, count, sink) {
        Ok(status) => status,
        Err(stop) => stop.status(),
    }
}
