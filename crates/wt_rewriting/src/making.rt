//! The lines of statements, made by several threads.
ghost use Rattle.std.specs.Prelude.{◌≡◌, ◌≤◌, ◌<◌, ◌++◌, ◌||◌, length, IfOk};
ghost use Rattle.std.specs.Thread.{IsSync};
ghost use Rattle.wt_rewrite.specs.Books.{IsReady};
ghost use Rattle.wt_rewriting.specs.Making as spec;

use std::alloc::{AllocError, Global};
use std::thread::{Threads, join_mut};
use wt_lines::statement_line;
use wt_parse::Queries;
use wt_plan_facts::Facts;
use wt_rewrite::Book;
use wt_schema::Schema;

/// So many bytes of statements are not worth a thread.
const FEW: u32 = 4_096;

/// What lines are made of: the statements, over a schema, and the rules that rewrite them.
#[derive(Drop)]
pub(crate) struct Source<'a, F: Facts> {
    pub schema: &'a Schema,
    pub facts: &'a F,
    pub book: &'a Book,
    pub queries: &'a Queries<'a>,
    pub ghost same: { F.tables facts.now ≡ schema.now.tables },
}

/// The lines of statements that stand one behind another, and whether one of them is a refusal.
#[derive(Drop)]
pub(crate) struct Made {
    pub text: Vec<u8>,
    pub refused: bool,
}

impl Made {
    /// These lines, and the others behind them.
    fn followed_by(self, others: &Made) -> Result<Made, AllocError>
        ensures text { IfOk result (λ all. all.text.items ≡ self.text.items ++ others.now.text.items) }
        ensures refused { IfOk result (λ all. all.refused ≡ (self.refused || others.now.refused)) }
    {
        let Made { mut text, refused } = self;
        text.extend_from_slice(others.text.as_slice())?;
        Ok(Made {
            text,
            refused: refused | others.refused,
        })
    }
}

/// The lines that one thread made, and those of another behind them, if there was memory for both.
fn together(
    first: Result<Made, AllocError>,
    second: Result<Made, AllocError>,
) -> Result<Made, AllocError>
    ensures { spec.Joins first second result }
{
    first?.followed_by(&second?)
}

/// The lines of the statements from a place to before another.
fn lines_between<F: Facts>(
    alloc: Global,
    source: &Source<'_, F>,
    from: u32,
    to: u32,
) -> Result<Made, AllocError>
    requires order { from ≤ to }
    requires ready { IsReady source.now.book.now }
    requires within { to ≤ length source.now.queries.now.statements }
    ensures { IfOk result (spec.AreBetween source.now.schema.now.tables source.now.book.now.rules source.now.queries.now from to) }
{
    let mut text = Vec::new(alloc);
    let mut refused = false;
    'statements: for n in from..to {
        let line = statement_line(
            alloc,
            source.schema,
            source.facts,
            source.book,
            source.queries,
            n,
        )?;
        text.extend_from_slice(line.text.as_slice())?;
        refused |= line.refused;
    }
    Ok(Made { text, refused })
}

/// The first statement behind a place that begins so many bytes behind it, or the end.
pub(crate) fn reach(queries: &Queries, from: u32, to: u32, bytes: u32) -> u32
    requires some { from < to }
    requires within { to ≤ length queries.now.statements }
    ensures behind { from < result }
    ensures within { result ≤ to }
{
    let enough = queries.begin(from).saturating_add(bytes);
    let mut n = from + 1;
    'statements: while n < to && queries.begin(n) < enough {
        n += 1;
    }
    n
}

/// A place that halves the bytes of these statements, as near as they allow.
fn middle(queries: &Queries, from: u32, to: u32) -> u32
    requires order { from ≤ to }
    requires within { to ≤ length queries.now.statements }
    ensures behind { from ≤ result }
    ensures within { result ≤ to }
{
    if to - from < 2 {
        return to;
    }
    let span = queries.begin(to - 1).saturating_sub(queries.begin(from));
    reach(queries, from, to, span / 2)
}

/// The same, each half made by a thread.
fn by_two<R: Threads + Sync, F: Facts + Sync>(
    rt: &R,
    alloc: Global,
    source: &Source<'_, F>,
    from: u32,
    to: u32,
) -> Result<Made, AllocError>
    requires order { from ≤ to }
    requires ready { IsReady source.now.book.now }
    requires within { to ≤ length source.now.queries.now.statements }
    ensures { IfOk result (spec.AreBetween source.now.schema.now.tables source.now.book.now.rules source.now.queries.now from to) }
{
    let half = middle(source.queries, from, to);
    let (first, second) = join_mut(
        rt,
        &mut || lines_between(alloc, source, from, half),
        &mut || lines_between(alloc, source, half, to),
    );
    together(first, second)
}

/// The same, each quarter made by a thread.
fn by_four<R: Threads + Sync, F: Facts + Sync>(
    rt: &R,
    alloc: Global,
    source: &Source<'_, F>,
    from: u32,
    to: u32,
) -> Result<Made, AllocError>
    requires order { from ≤ to }
    requires ready { IsReady source.now.book.now }
    requires within { to ≤ length source.now.queries.now.statements }
    ensures { IfOk result (spec.AreBetween source.now.schema.now.tables source.now.book.now.rules source.now.queries.now from to) }
{
    let half = middle(source.queries, from, to);
    let (first, second) = join_mut(
        rt,
        &mut ||
            requires shared { IsSync R.row × IsSync F.row }
            requires order { from ≤ half }
            requires ready { IsReady source.now.book.now }
            requires within { half ≤ length source.now.queries.now.statements }
        { by_two(rt, alloc, source, from, half) },
        &mut ||
            requires shared { IsSync R.row × IsSync F.row }
            requires order { half ≤ to }
            requires ready { IsReady source.now.book.now }
            requires within { to ≤ length source.now.queries.now.statements }
        { by_two(rt, alloc, source, half, to) },
    );
    together(first, second)
}

/// The lines of statements, made by four threads unless there are few bytes of them.
pub(crate) fn made_lines<R: Threads + Sync, F: Facts + Sync>(
    rt: &R,
    alloc: Global,
    source: &Source<'_, F>,
    from: u32,
    to: u32,
) -> Result<Made, AllocError>
    requires some { from < to }
    requires ready { IsReady source.now.book.now }
    requires within { to ≤ length source.now.queries.now.statements }
    ensures { IfOk result (spec.AreBetween source.now.schema.now.tables source.now.book.now.rules source.now.queries.now from to) }
{
    let queries = source.queries;
    if reach(queries, from, to, FEW) == to {
        return lines_between(alloc, source, from, to);
    }
    by_four(rt, alloc, source, from, to)
}
