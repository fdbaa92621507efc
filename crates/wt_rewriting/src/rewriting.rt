//! `rewrite`, over three files.
ghost use Rattle.std.specs.Prelude.{◌≡◌, ◌≢◌, ◌≤◌, ◌⊎◌, length, IfOk};
ghost use Rattle.wt_io.specs.Causes.{Rose};
ghost use Rattle.wt_outcome.specs.Outcomes.{AppendsPrefix, Ends, Outcome, StopsReading, Writes};
ghost use Rattle.wt_chains.specs.Chains.{AreLawful};
ghost use Rattle.wt_rewrite.specs.Books.{IsReady};
ghost use Rattle.wt_rewriting.specs.Files.{AreInputs, WithInputs, named, names_of};
ghost use Rattle.wt_rewriting.specs.Rewriting as spec;

use crate::making::Source;
use crate::names::Names;
use crate::putting::{put_fault, put_line_fault, put_lines, put_too_long};
use std::alloc::Global;
use std::thread::Threads;
use wt_ddl::{DdlError, read_schema};
use wt_fault_names::{lexical_name, schema_name};
use wt_io::{Sink, Store};
use wt_lex::LexError;
use wt_outcome::{Input, Stop, read_input};
use wt_parse::{Queries, read_queries};
use wt_props::Known;
use wt_rewrite::Book;
use wt_rule::RuleBook;
use wt_rule_read::{RuleError, read_rules, rules_name};
use wt_schema::Schema;

fn status_of(refused: bool) -> u8
    ensures { result ≡ spec.status_of refused }
{
    if refused { 4 } else { 0 }
}

// The lines of the statements, and the status.
fn put_file<R: Threads + Sync, K: Sink>(
    rt: &R,
    alloc: Global,
    schema: &Schema,
    book: &Book,
    queries: &Queries,
    sink: &mut K,
) -> Result<u8, Stop>
    requires ready { IsReady book.now }
    requires few { length queries.now.statements ≤ 16777216 }
    ensures { spec.Gives (λ o. spec.AreAll schema.now.tables book.now.rules queries.now o ⊎ spec.AreFirst schema.now.tables book.now.rules queries.now o)
        ⊥ (Rose (K.faults sink.old) (K.faults sink.new)) (K.written sink.old) (K.written sink.new) result }
{
    let known = Known::new(schema);
    let source = Source {
        schema,
        facts: &known,
        book,
        queries,
    };
    let refused = put_lines(rt, alloc, &source, sink)?;
    Ok(status_of(refused))
}

// The statements over a schema that was read.
fn put_queries<R: Threads + Sync, K: Sink>(
    rt: &R,
    alloc: Global,
    names: &Names<'_>,
    schema: &Schema,
    book: &Book,
    queries: &Input,
    sink: &mut K,
) -> Result<u8, Stop>
    requires ready { IsReady book.now }
    ensures { spec.Gives (spec.IsQueriesOutcome (names_of names.now) schema.now.tables book.now.rules queries.now)
        ⊥ (Rose (K.faults sink.old) (K.faults sink.new)) (K.written sink.old) (K.written sink.new) result }
{
    let Input::Whole(bytes) = queries else {
        return put_too_long(alloc, names.queries, sink);
    };
    match read_queries(alloc, bytes.as_slice()) {
        Ok(queries) => put_file(rt, alloc, schema, book, &queries, sink),
        Err(LexError::Fault(fault, at)) => put_fault(
            alloc,
            names.queries,
            at,
            lexical_name(fault),
            sink,
        ),
        Err(LexError::Memory) => Err(Stop::Memory),
    }
}

// The schema and the statements.
fn put_schema<R: Threads + Sync, K: Sink>(
    rt: &R,
    alloc: Global,
    names: &Names<'_>,
    book: &Book,
    schema: &Input,
    queries: &Input,
    sink: &mut K,
) -> Result<u8, Stop>
    requires ready { IsReady book.now }
    ensures { spec.Gives (spec.IsSchemaOutcome (names_of names.now) book.now.rules schema.now queries.now)
        ⊥ (Rose (K.faults sink.old) (K.faults sink.new)) (K.written sink.old) (K.written sink.new) result }
{
    let Input::Whole(bytes) = schema else {
        return put_too_long(alloc, names.schema, sink);
    };
    match read_schema(alloc, bytes.as_slice()) {
        Ok(schema) => put_queries(rt, alloc, names, &schema, book, queries, sink),
        Err(DdlError::Fault(fault, at)) => put_fault(
            alloc,
            names.schema,
            at,
            schema_name(fault),
            sink,
        ),
        Err(DdlError::Lex(fault, at)) => put_fault(
            alloc,
            names.schema,
            at,
            lexical_name(fault),
            sink,
        ),
        Err(DdlError::Memory) => Err(Stop::Memory),
    }
}

// The three files.
#[derive(Drop)]
struct Files {
    rules: Input,
    schema: Input,
    queries: Input,
}

// The schema and the statements, with rules that were read.
fn put_book<R: Threads + Sync, K: Sink>(
    rt: &R,
    alloc: Global,
    names: &Names<'_>,
    book: RuleBook,
    files: &Files,
    sink: &mut K,
) -> Result<u8, Stop>
    requires lawful { AreLawful book.rules }
    requires few { length book.rules ≤ 65536 }
    ensures { spec.Gives (spec.IsSchemaOutcome (names_of names.now) book.rules files.now.schema files.now.queries)
        ⊥ (Rose (K.faults sink.old) (K.faults sink.new)) (K.written sink.old) (K.written sink.new) result }
{
    let book = Book::new(alloc, book.rules)?;
    put_schema(rt, alloc, names, &book, &files.schema, &files.queries, sink)
}

// What the three files give: the fault of the first that is refused, or a line for each statement.
fn answer<R: Threads + Sync, K: Sink>(
    rt: &R,
    alloc: Global,
    names: &Names<'_>,
    files: &Files,
    sink: &mut K,
) -> Result<u8, Stop>
    ensures { spec.Gives (spec.IsRulesOutcome (names_of names.now) files.now.rules files.now.schema files.now.queries)
        ⊥ (Rose (K.faults sink.old) (K.faults sink.new)) (K.written sink.old) (K.written sink.new) result }
{
    let Input::Whole(bytes) = &files.rules else {
        return put_line_fault(alloc, names.rules, 1, "TooLong", sink);
    };
    match read_rules(alloc, bytes.as_slice()) {
        Ok(book) => put_book(rt, alloc, names, book, files, sink),
        Err(RuleError::Fault(fault, line)) => put_line_fault(
            alloc,
            names.rules,
            line,
            rules_name(fault),
            sink,
        ),
        Err(RuleError::Memory) => Err(Stop::Memory),
    }
}

// Reads the three files, in their order.
fn read_files<S: Store>(alloc: Global, names: &Names<'_>, store: &mut S) -> Result<Files, Stop>
    ensures ok { IfOk result (λ files. AreInputs (S.told store.old) (names_of names.now) files.rules files.schema files.queries) }
    ensures err { StopsReading (Rose (S.faults store.old) (S.faults store.new)) result }
{
    let rules = read_input(alloc, store, names.rules)?;
    let schema = read_input(alloc, store, names.schema)?;
    let queries = read_input(alloc, store, names.queries)?;
    Ok(Files {
        rules,
        schema,
        queries,
    })
}

fn try_rewrite<R: Threads + Sync, S: Store, K: Sink>(
    rt: &R,
    alloc: Global,
    names: &Names<'_>,
    store: &mut S,
    sink: &mut K,
) -> Result<u8, Stop>
    ensures { WithInputs (S.told store.old) (names_of names.now) (λ rules schema queries.
        spec.Gives (spec.IsRulesOutcome (names_of names.now) rules schema queries) (Rose (S.faults store.old) (S.faults store.new))
        (Rose (K.faults sink.old) (K.faults sink.new)) (K.written sink.old) (K.written sink.new) result) }
{
    let files = read_files(alloc, names, store)?;
    answer(rt, alloc, names, &files, sink)
}

/// `rewrite` over the files of these names: see `rewrite`.
pub fn rewrite_files<R: Threads + Sync, S: Store, K: Sink>(
    rt: &R,
    alloc: Global,
    names: &Names<'_>,
    store: &mut S,
    sink: &mut K,
) -> u8
    ensures { WithInputs (S.told store.old) (names_of names.now) (λ rules schema queries. (o : Outcome) × spec.IsRewriting (names_of names.now) rules schema queries o
        × Ends (Rose (S.faults store.old) (S.faults store.new)) (Rose (K.faults sink.old) (K.faults sink.new))
        (K.written sink.old) (K.written sink.new) o result) }
{
    match try_rewrite(rt, alloc, names, store, sink) {
        Ok(status) => status,
        Err(stop) => stop.status(),
    }
}

/// Rewrites the statements of the file `queries` with the rules of the file `rules`, over the schema of the file `schema`, and
/// ends with the status of the command.
///
/// It reads the three files in this order, and writes a line for each statement: the rewritten query, or why it is refused.
pub fn rewrite<R: Threads + Sync, S: Store, K: Sink>(
    rt: &R,
    alloc: Global,
    rules: &str,
    schema: &str,
    queries: &str,
    store: &mut S,
    sink: &mut K,
) -> u8
    // The status and the bytes, for some inputs that the files may have given.
    ensures whole { WithInputs (S.told store.old) (named rules.now schema.now queries.now) (λ r s q. (o : Outcome) × spec.IsRewriting (named rules.now schema.now queries.now) r s q o
        × Ends (Rose (S.faults store.old) (S.faults store.new)) (Rose (K.faults sink.old) (K.faults sink.new))
        (K.written sink.old) (K.written sink.new) o result) }

    // Every status but 3, 5 and 6 is an outcome's, and the outcome's text was written.
    ensures bytes { result ≢ 3 → result ≢ 5 → result ≢ 6 → WithInputs (S.told store.old) (named rules.now schema.now queries.now) (λ r s q. (o : Outcome)
        × spec.IsRulesOutcome (named rules.now schema.now queries.now) r s q o × Writes (K.written sink.old) (K.written sink.new) o result) }

    // 3 and 5 come only where a count of faults rose in this call; before 3 nothing was written.
    ensures read { result ≡ 3 → Rose (S.faults store.old) (S.faults store.new) × (K.written sink.new ≡ K.written sink.old) }
    ensures write { result ≡ 5 → Rose (K.faults sink.old) (K.faults sink.new) }

    // After 5 and 6, which is want of memory, a prefix of the text of such a run was written. There is no other status, and 1 is none.
    ensures prefix { (result ≡ 5) ⊎ (result ≡ 6) → WithInputs (S.told store.old) (named rules.now schema.now queries.now) (λ r s q. (o : Outcome)
        × spec.IsRewriting (named rules.now schema.now queries.now) r s q o × AppendsPrefix (K.written sink.old) (K.written sink.new) o.text) }

    // So a prefix of the whole answer was written.
    ensures begins { (result ≡ 5) ⊎ (result ≡ 6) → WithInputs (S.told store.old) (named rules.now schema.now queries.now) (λ r s q. (whole : Outcome)
        → spec.IsWhole (named rules.now schema.now queries.now) r s q whole → AppendsPrefix (K.written sink.old) (K.written sink.new) whole.text) }
    ensures known { (result ≤ 6) × (result ≢ 1) }
{
    let names = Names {
        rules,
        schema,
        queries,
    };
    rewrite_files(rt, alloc, &names, store, sink)
}
