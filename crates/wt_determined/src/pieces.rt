//! What of a variable the pieces of a term hold.
ghost use Rattle.std.specs.Prelude.{◌≡◌, ◌↔◌, IsTrue};
ghost use Rattle.wt_bag.specs.Choices.{Has};
ghost use Rattle.wt_form.specs.declared.form.Expr.TheVariants.{Of};
ghost use Rattle.wt_form.specs.Facts.{HoldsParts};
ghost use Rattle.wt_facts.specs.Facts.{known_of};
ghost use Rattle.wt_determined.specs.Pieces.{ListOver, HasListOver};

use wt_facts::Facts;
use wt_form::Expr;
use wt_symbol::{Part, PartCols};

fn is_part(x: Expr, u: u32, i: usize, cols: PartCols) -> bool
    ensures { IsTrue result ↔ (Of u i cols ≡ x) }
{
    match x {
        Expr::Of(v, j, c) => v == u && j as usize == i && c == cols,
        Expr::Null(_, _) => false,
    }
}

/// Whether the pieces hold these columns of a part of a variable.
pub fn has_part(pieces: &[Expr], u: u32, i: usize, cols: PartCols) -> bool
    ensures { IsTrue result ↔ Has (Of u i cols) pieces.now }
{
    match pieces {
        [] => false,
        [x, rest @ ..] => is_part(*x, u, i, cols) || has_part(rest, u, i, cols),
    }
}

/// Whether the pieces hold each part of a variable whole.
pub fn holds_parts(pieces: &[Expr], u: u32, head: &[Part]) -> bool
    ensures { IsTrue result ↔ HoldsParts u 0 head.now pieces.now }
{
    for i in 0..head.len() {
        if !has_part(pieces, u, i, head[i].cols) {
            return false;
        }
    }
    true
}

fn is_list_over(facts: &Facts, x: Expr, u: u32, c: u8) -> bool
    ensures { IsTrue result ↔ ListOver (known_of facts.now) u c x }
{
    match x {
        Expr::Of(v, i, PartCols::List(d)) => v == u && i == 0 && facts.is_within(c, d),
        _ => false,
    }
}

/// Whether the pieces hold a list of a variable that has the columns of this one.
pub fn has_list_over(facts: &Facts, pieces: &[Expr], u: u32, c: u8) -> bool
    ensures { IsTrue result ↔ HasListOver (known_of facts.now) u c pieces.now }
{
    match pieces {
        [] => false,
        [x, rest @ ..] => is_list_over(facts, *x, u, c) || has_list_over(facts, rest, u, c),
    }
}
