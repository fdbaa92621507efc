//! The lines of statements.
ghost use Rattle.std.specs.Prelude.{◌≡◌, ◌<◌, IfOk, List, Some, length, slice_get};
ghost use Rattle.std.specs.List.{AllByRecursion};
ghost use Rattle.wt_ast.specs.Tree.{query_tree};
ghost use Rattle.wt_ast.specs.Lawful.{IsLawful, IsName};
ghost use Rattle.wt_grammar.specs.Statements.{Statement};
ghost use Rattle.wt_plan.specs.Tree.{PlanTree, plan_tree};
ghost use Rattle.wt_plan.specs.Measures.{width};
ghost use Rattle.wt_plan.specs.Regular.{Regular};
ghost use Rattle.wt_place.specs.Keeping.{IsPlaced};
ghost use Rattle.wt_blocks.specs.Printed.{printed};
ghost use Rattle.wt_rewrite.specs.Books.{IsReady};
ghost use Rattle.wt_lines.specs.Queries.{IsLast};
ghost use Rattle.wt_lines.specs.Lines as spec;

use std::alloc::{AllocError, Global};
use wt_ast::Query;
use wt_build::plan_of;
use wt_fault_names::{build_name, lexical_name, query_name};
use wt_limits::lawful_queries_are_small;
use wt_parse::{Queries, QueryError};
use wt_plan::Named;
use wt_plan_facts::Facts;
use wt_print::print_query;
use wt_query_of::query_of;
use wt_query_plan::BuildError;
use wt_rewrite::{Book, rewrite};
use wt_schema::Schema;
use wt_value::Bytes;

/// The line of a statement, with its line end, and whether the statement was refused.
#[derive(Debug, Drop)]
pub struct Line {
    pub text: Bytes,
    pub refused: bool,
}

/// The line of a statement that is refused as this kind, at this offset.
fn refusal_line(alloc: Global, kind: &str, at: u32) -> Result<Line, AllocError>
    ensures { IfOk result (λ line. line ≡ spec.refusal_line kind.now at) }
{
    let text = format!(in alloc; "-- refused {kind} at {at}\n")?;
    Ok(Line {
        text: Bytes::from_vec(text.into_bytes()),
        refused: true,
    })
}

/// The line of a query that is printed.
fn text_line(alloc: Global, query: &Query) -> Result<Line, AllocError>
    ensures { IfOk result (λ line. line ≡ spec.printed_line (query_tree query.now)) }
{
    let mut text = print_query(alloc, query)?.into_vec();
    text.push(b'\n')?;
    Ok(Line {
        text: Bytes::from_vec(text),
        refused: false,
    })
}

/// The line of the query that is printed for a plan.
fn plan_line(alloc: Global, schema: &Schema, named: &Named) -> Result<Line, AllocError>
    requires placed { IsPlaced (plan_tree named.now.plan) }
    requires regular { Regular schema.now.tables (plan_tree named.now.plan) }
    requires names { length named.now.names ≡ width (plan_tree named.now.plan) }
    requires named { AllByRecursion IsName named.now.names }
    ensures { IfOk result (λ line. line ≡ spec.printed_line (printed schema.now.tables (plan_tree named.now.plan) named.now.names)) }
{
    let query = query_of(alloc, schema, named)?;
    text_line(alloc, &query)
}

/// The last plan of the chain from a plan, with the plan's names.
fn last_plan<F: Facts>(
    alloc: Global,
    facts: &F,
    book: &Book,
    named: Named,
) -> Result<Named, AllocError>
    requires ready { IsReady book.now }
    requires regular { Regular (F.tables facts.now) (plan_tree named.plan) }
    ensures last { IfOk result (λ last. IsLast (F.tables facts.now) book.now.rules (plan_tree named.plan) (plan_tree last.plan)) }
    ensures names { IfOk result (λ last. last.names ≡ named.names) }
{
    let Named { plan, names } = named;
    let rewritten = rewrite(alloc, facts, book, plan)?;
    Ok(Named {
        plan: rewritten.plan,
        names,
    })
}

/// The line of the query that rules make of a plan with names.
fn rewritten_line<F: Facts>(
    alloc: Global,
    schema: &Schema,
    facts: &F,
    book: &Book,
    named: Named,
) -> Result<Line, AllocError>
    requires same { F.tables facts.now ≡ schema.now.tables }
    requires ready { IsReady book.now }
    requires placed { IsPlaced (plan_tree named.plan) }
    requires regular { Regular schema.now.tables (plan_tree named.plan) }
    requires names { length named.names ≡ width (plan_tree named.plan) }
    requires named { AllByRecursion IsName named.names }
    ensures { IfOk result (λ line. (last : PlanTree) × IsLast schema.now.tables book.now.rules (plan_tree named.plan) last
        × (line ≡ spec.printed_line (printed schema.now.tables last named.names))) }
{
    let last = last_plan(alloc, facts, book, named)?;
    plan_line(alloc, schema, &last)
}

/// The line of a statement that was read as this query.
fn query_line<F: Facts>(
    alloc: Global,
    schema: &Schema,
    facts: &F,
    book: &Book,
    query: &Query,
) -> Result<Line, AllocError>
    requires same { F.tables facts.now ≡ schema.now.tables }
    requires ready { IsReady book.now }
    requires lawful { IsLawful (query_tree query.now) }
    ensures { IfOk result (spec.IsTreeLine schema.now.tables book.now.rules (query_tree query.now)) }
{
    lawful_queries_are_small();
    match plan_of(alloc, schema, query) {
        Ok(named) => rewritten_line(alloc, schema, facts, book, named),
        Err(BuildError::Refused(fault, at)) => refusal_line(alloc, build_name(fault), at),
        Err(BuildError::Memory) => Err(AllocError),
    }
}

/// The line of a statement of a file, with its line end: the query that the rules of the book make of it, or its first refusal.
pub fn statement_line<F: Facts>(
    alloc: Global,
    schema: &Schema,
    facts: &F,
    book: &Book,
    queries: &Queries,
    n: u32,
) -> Result<Line, AllocError>
    requires same { F.tables facts.now ≡ schema.now.tables }
    requires ready { IsReady book.now }
    requires within { n < length queries.now.statements }
    ensures { IfOk result (λ line. (s : Statement) → slice_get queries.now.statements n ≡ Some s → spec.IsStatementLine schema.now.tables book.now.rules queries.now.bytes s line) }
{
    match queries.get(alloc, n) {
        Ok(query) => query_line(alloc, schema, facts, book, &query),
        Err(QueryError::Refused(fault, at)) => refusal_line(alloc, query_name(fault), at),
        Err(QueryError::Lex(fault, at)) => refusal_line(alloc, lexical_name(fault), at),
        Err(QueryError::Memory) => Err(AllocError),
    }
}
