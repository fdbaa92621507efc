//! What is counted of one statement.
ghost use Rattle.std.specs.Prelude.{◌≡◌, IfOk, List, Ok, length, string_bytes};
ghost use Rattle.wt_ast.specs.Tree.{query_tree};
ghost use Rattle.wt_ast.specs.Lawful.{IsLawful};
ghost use Rattle.wt_chains.specs.declared.applied.Applied.{Applied};
ghost use Rattle.wt_chains.specs.Chains.{IsChain};
ghost use Rattle.wt_plan.specs.Tree.{PlanTree, plan_tree};
ghost use Rattle.wt_plan.specs.Measures.{cost};
ghost use Rattle.wt_plan.specs.Regular.{Regular};
ghost use Rattle.wt_rewrite.specs.Books.{IsReady};
ghost use Rattle.wt_demo.specs.Demo as spec;
ghost use Rattle.wt_demo.specs.Tallies.{one_printed};
ghost use Rattle.wt_demo.specs.Texts as texts;

use crate::tally::Tally;
use std::alloc::{AllocError, Global};
use wt_ast::Query;
use wt_build::plan_of;
use wt_lex::LexError;
use wt_limits::lawful_queries_are_small;
use wt_parse::{Queries, QueryError, read_queries};
use wt_plan::Plan;
use wt_plan_facts::Facts;
use wt_query_plan::BuildError;
use wt_rewrite::{Book, rewrite};
use wt_schema::Schema;

/// The statement of a kind, 0 to 6, with a number.
pub(crate) fn statement_text(alloc: Global, kind: u32, n: u32) -> Result<String, AllocError>
    ensures { IfOk result (λ text. string_bytes text ≡ texts.statement_text kind n) }
{
    match kind {
        0 => format!(in alloc;
            "SELECT o.id FROM o LEFT JOIN cust ON o.c = cust.id WHERE o.k = {n};"
        ),
        1 => format!(in alloc;
            "SELECT o.id FROM o INNER JOIN cust ON o.c = cust.id WHERE o.k = {n};"
        ),
        2 => format!(in alloc;
            "SELECT o.id FROM o INNER JOIN cust ON o.d = cust.id WHERE o.k = {n};"
        ),
        3 => format!(in alloc;
            "SELECT o.id, cust.name FROM o LEFT JOIN cust ON o.d = cust.id WHERE o.k = {n};"
        ),
        4 => format!(in alloc; "SELECT DISTINCT o.id FROM o WHERE o.k = {n};"),
        5 => format!(in alloc; "SELECT DISTINCT o.k FROM o WHERE o.c < {n};"),
        _ => format!(in alloc; "SELECT o.id FROM o ORDER BY o.id;"),
    }
}

const REFUSED: Tally = Tally {
    printed: 0,
    refused: 1,
    matches: 0,
    before: 0,
    after: 0,
};

// What is counted of a plan and the chain that begins with it.
fn plan_tally<F: Facts>(
    alloc: Global,
    facts: &F,
    book: &Book,
    plan: Plan,
) -> Result<Tally, AllocError>
    requires ready { IsReady book.now }
    requires regular { Regular (F.tables facts.now) (plan_tree plan) }
    ensures { IfOk result (λ t. (trace : List Applied) × (last : PlanTree) × IsChain (F.tables facts.now) book.now.rules (plan_tree plan) trace last
        × (t ≡ one_printed (length trace) (cost (plan_tree plan)) (cost last))) }
{
    let before = plan.cost();
    let rewritten = rewrite(alloc, facts, book, plan)?;
    Ok(Tally {
        printed: 1,
        refused: 0,
        matches: rewritten.trace.len() as u64,
        before,
        after: rewritten.plan.cost(),
    })
}

// What is counted of a query.
fn query_tally<F: Facts>(
    alloc: Global,
    schema: &Schema,
    facts: &F,
    book: &Book,
    query: &Query,
) -> Result<Tally, AllocError>
    requires same { F.tables facts.now ≡ schema.now.tables }
    requires ready { IsReady book.now }
    requires lawful { IsLawful (query_tree query.now) }
    ensures { IfOk result (spec.IsTreeTally schema.now.tables book.now.rules (query_tree query.now)) }
{
    lawful_queries_are_small();
    match plan_of(alloc, schema, query) {
        Ok(named) => plan_tally(alloc, facts, book, named.plan),
        Err(BuildError::Refused(_, _)) => Ok(REFUSED),
        Err(BuildError::Memory) => Err(AllocError),
    }
}

// What is counted of the first statement of a text that was read.
fn first_tally<F: Facts>(
    alloc: Global,
    schema: &Schema,
    facts: &F,
    book: &Book,
    queries: &Queries,
) -> Result<Tally, AllocError>
    requires same { F.tables facts.now ≡ schema.now.tables }
    requires ready { IsReady book.now }
    ensures { IfOk result (spec.IsFileTally schema.now.tables book.now.rules (Ok queries.now)) }
{
    if queries.count() == 0 {
        return Ok(Tally::new());
    }
    match queries.get(alloc, 0) {
        Ok(query) => query_tally(alloc, schema, facts, book, &query),
        Err(QueryError::Refused(_, _)) => Ok(REFUSED),
        Err(QueryError::Lex(_, _)) => Ok(REFUSED),
        Err(QueryError::Memory) => Err(AllocError),
    }
}

/// What is counted of the first statement of a text.
pub(crate) fn text_tally<F: Facts>(
    alloc: Global,
    schema: &Schema,
    facts: &F,
    book: &Book,
    text: &[u8],
) -> Result<Tally, AllocError>
    requires same { F.tables facts.now ≡ schema.now.tables }
    requires ready { IsReady book.now }
    ensures { IfOk result (spec.IsTextTally schema.now.tables book.now.rules text.now) }
{
    match read_queries(alloc, text) {
        Ok(queries) => first_tally(alloc, schema, facts, book, &queries),
        Err(LexError::Fault(_, _)) => Ok(REFUSED),
        Err(LexError::Memory) => Err(AllocError),
    }
}
