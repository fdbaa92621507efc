//! The choices of a term's variables.
ghost use Rattle.std.specs.Prelude.{◌≡◌, ◌++◌, [], map, OnOk};
ghost use Rattle.wt_form_rows.specs.Tests.{pieces_behind, rows_with};

use crate::conds::{Test, all_pass};
use crate::values::{FormRows, Pieces, row_of};
use std::alloc::{AllocError, Global};
use wt_form::Expr;
use wt_instance::Instance;
use wt_value::Seq;

/// What a variable may stand for.
pub(crate) type Choices = Seq<Pieces>;

/// What each variable of a term may stand for.
pub(crate) type ChoicesList = Seq<Choices>;

/// Adds the row of a choice, if it passes.
fn push_if_passed(
    alloc: Global,
    instance: &Instance,
    tests: &[Test],
    exprs: &[Expr],
    env: &[&Pieces],
    rows: &mut FormRows,
) -> Result<(), AllocError>
    ensures { OnOk result (rows.new ≡ rows.old ++ rows_with instance.now tests.now exprs.now (map pieces_behind env.now) []) }
{
    if all_pass(alloc, instance, env, tests)? {
        rows.push(row_of(alloc, instance, exprs, env)?)?;
    }
    Ok(())
}

/// Adds the rows of the choices that begin with those made, in order, the first variable's choice
/// being the outermost.
fn push_rows<'a>(
    alloc: Global,
    instance: &Instance,
    tests: &[Test],
    exprs: &[Expr],
    ranges: &'a [Choices],
    env: &mut Vec<&'a Pieces>,
    rows: &mut FormRows,
) -> Result<(), AllocError>
    ensures rows { OnOk result (rows.new ≡ rows.old ++ rows_with instance.now tests.now exprs.now (map pieces_behind env.old.items) ranges.now) }
    ensures env { OnOk result (env.new.items ≡ env.old.items) }
{
    match ranges {
        [] => push_if_passed(alloc, instance, tests, exprs, env.as_slice(), rows),
        [first, rest @ ..] => {
            let mut choices = first.as_slice();
            'choices: while let [choice, others @ ..] = choices {
                env.push(choice)?;
                push_rows(alloc, instance, tests, exprs, rest, env, rows)?;
                env.pop();
                choices = others;
            }
            Ok(())
        }
    }
}

/// Adds the rows of a term with these ranges, conditions and pieces.
pub(crate) fn push_term_rows(
    alloc: Global,
    instance: &Instance,
    tests: &[Test],
    exprs: &[Expr],
    ranges: &[Choices],
    rows: &mut FormRows,
) -> Result<(), AllocError>
    ensures { OnOk result (rows.new ≡ rows.old ++ rows_with instance.now tests.now exprs.now [] ranges.now) }
{
    let mut env = Vec::new(alloc);
    push_rows(alloc, instance, tests, exprs, ranges, &mut env, rows)
}
