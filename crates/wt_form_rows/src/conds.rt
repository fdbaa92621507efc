//! Conditions under a choice of the variables.
ghost use Rattle.std.specs.Prelude.{◌≡◌, map, IfOk};
ghost use Rattle.std.specs.List.{list_any};
ghost use Rattle.wt_value.specs.Values.{row_matches};
ghost use Rattle.wt_form_rows.specs.Tests as spec;

use crate::values::{Pieces, values_of};
use std::alloc::{AllocError, Global};
use wt_form::Expr;
use wt_instance::Instance;
use wt_value::{Row, Rows, Seq, matches};

/// A condition in which the rows of the nested form are known.
#[derive(Debug, Drop)]
pub(crate) enum Test {
    IsTrue(u8, Expr),
    Match(Expr, Expr),
    Among(Expr, Rows),
    NotAmong(Expr, Rows),
}

pub(crate) type Tests = Seq<Test>;

/// Whether some row matches these values.
fn is_matched(wanted: &Row, rows: &Rows) -> bool
    ensures { result ≡ list_any (λ row. row_matches wanted.now row) rows.now }
{
    rows.as_slice().iter().any(|row| matches(wanted, row))
}

/// Whether a condition holds under a choice.
fn passes(
    alloc: Global,
    instance: &Instance,
    env: &[&Pieces],
    test: &Test,
) -> Result<bool, AllocError>
    ensures { IfOk result (λ yes. yes ≡ spec.passes instance.now (map spec.pieces_behind env.now) test.now) }
{
    match test {
        Test::IsTrue(pred, x) => Ok(instance.is_true(*pred, &values_of(alloc, instance, env, *x)?)),
        Test::Match(x, y) => {
            let left = values_of(alloc, instance, env, *x)?;
            Ok(matches(&left, &values_of(alloc, instance, env, *y)?))
        }
        Test::Among(x, rows) => Ok(is_matched(&values_of(alloc, instance, env, *x)?, rows)),
        Test::NotAmong(x, rows) => Ok(!is_matched(&values_of(alloc, instance, env, *x)?, rows)),
    }
}

/// Whether each condition holds under a choice.
pub(crate) fn all_pass(
    alloc: Global,
    instance: &Instance,
    env: &[&Pieces],
    tests: &[Test],
) -> Result<bool, AllocError>
    ensures { IfOk result (λ yes. yes ≡ spec.all_pass instance.now (map spec.pieces_behind env.now) tests.now) }
{
    match tests {
        [] => Ok(true),
        [test, more @ ..] => {
            if !passes(alloc, instance, env, test)? {
                return Ok(false);
            }
            all_pass(alloc, instance, env, more)
        }
    }
}
