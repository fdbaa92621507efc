//! The ends of Joins that are a list of a variable.
ghost use Rattle.std.specs.Prelude.{◌≡◌, ◌↔◌, ◌⊎◌, ◌++◌, [], ◌∷◌, ℕ, map, IfOk, OnOk, MatchOption};
ghost use Rattle.wt_form.specs.Views.{cond_seen};
ghost use Rattle.wt_congruent.specs.Refs.{cond_behind};
ghost use Rattle.wt_joining.specs.Ends.{ends_of_sides, ends_of_cond, ends_of_conds};

use std::alloc::{AllocError, Global};
use wt_form::{Cond, Expr};
use wt_not_null::first_list;

/// A list of a variable, and the expression that it is joined with.
#[derive(Clone, Copy, Debug, PartialEq, Eq)]
pub struct End {
    pub var: u32,
    pub list: u8,
    pub other: Expr,
}

fn push_end(x: Expr, y: Expr, out: &mut Vec<End>) -> Result<(), AllocError>
    ensures { OnOk result (out.new.items ≡ out.old.items ++ ends_of_sides x y) }
{
    match first_list(x) {
        Some((var, list)) => {
            out.push(End {
                var,
                list,
                other: y,
            })?;
            Ok(())
        }
        None => Ok(()),
    }
}

fn push_ends_of(c: &Cond, out: &mut Vec<End>) -> Result<(), AllocError>
    ensures { OnOk result (out.new.items ≡ out.old.items ++ ends_of_cond (cond_seen c.now)) }
{
    match c {
        Cond::Join(x, y) => {
            push_end(*x, *y, out)?;
            push_end(*y, *x, out)
        }
        Cond::Pred(_, _) | Cond::In(_, _) | Cond::NotIn(_, _) => Ok(()),
    }
}

/// Adds the ends of every Join that are a list of a variable.
fn push_ends(refs: &[&Cond], out: &mut Vec<End>) -> Result<(), AllocError>
    ensures { OnOk result (out.new.items ≡ out.old.items ++ ends_of_conds (map cond_behind refs.now)) }
{
    match refs {
        [] => Ok(()),
        [c, rest @ ..] => {
            push_ends_of(c, out)?;
            push_ends(rest, out)
        }
    }
}

/// The ends of every Join that are a list of a variable.
pub fn ends_of(alloc: Global, refs: &[&Cond]) -> Result<Vec<End>, AllocError>
    ensures { IfOk result (λ ends. ends.items ≡ ends_of_conds (map cond_behind refs.now)) }
{
    let mut ends = Vec::new(alloc);
    push_ends(refs, &mut ends)?;
    Ok(ends)
}
