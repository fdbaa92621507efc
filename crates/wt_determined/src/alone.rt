//! Variables that are determined by the pieces alone.
ghost use Rattle.std.specs.Prelude.{◌↔◌, map, IsTrue};
ghost use Rattle.wt_form.specs.Parts.{ranges_list};
ghost use Rattle.wt_form.specs.Views.{ranges_seen, range_seen};
ghost use Rattle.wt_facts.specs.Facts.{known_of};
ghost use Rattle.wt_congruent.specs.Refs.{cond_behind};
ghost use Rattle.wt_determined.specs.Alone.{IsHeld, KeyHeld, SomeKeyHeld, RangeHeld};

use crate::pieces::{has_list_over, has_part, holds_parts};
use wt_facts::{Facts, LeafList};
use wt_form::{Cond, Expr, FormRange, Ranges};
use wt_not_null::never_null;
use wt_symbol::PartCols;

/// Whether the pieces hold a variable whole, or a list that has the columns of this one.
fn is_held(facts: &Facts, pieces: &[Expr], u: u32, c: u8) -> bool
    ensures { IsTrue result ↔ IsHeld (known_of facts.now) u c pieces.now }
{
    has_part(pieces, u, 0, PartCols::Whole) || has_list_over(facts, pieces, u, c)
}

/// Whether a list that is unique is one of the leaf, is not NULL and is held by the pieces.
fn is_key_held(
    facts: &Facts,
    ranges: &Ranges,
    conds: &[&Cond],
    pieces: &[Expr],
    u: u32,
    r: u8,
    key: LeafList,
) -> bool
    ensures { IsTrue result ↔ KeyHeld (known_of facts.now) (ranges_list (ranges_seen ranges.now)) (map cond_behind conds.now) pieces.now u r key }
{
    facts.same_leaf(r, key.leaf)
        && never_null(
            facts,
            ranges,
            conds,
            Expr::Of(u, 0, PartCols::List(key.list)),
        )
        && is_held(facts, pieces, u, key.list)
}

fn is_some_key_held(
    facts: &Facts,
    ranges: &Ranges,
    conds: &[&Cond],
    pieces: &[Expr],
    u: u32,
    r: u8,
    keys: &[LeafList],
) -> bool
    ensures { IsTrue result ↔ SomeKeyHeld (known_of facts.now) (ranges_list (ranges_seen ranges.now)) (map cond_behind conds.now) pieces.now u r keys.now }
{
    match keys {
        [] => false,
        [key, rest @ ..] => is_key_held(facts, ranges, conds, pieces, u, r, *key)
            || is_some_key_held(facts, ranges, conds, pieces, u, r, rest),
    }
}

/// Whether the pieces hold a variable with this range so that it is determined.
pub fn is_determined_alone(
    facts: &Facts,
    ranges: &Ranges,
    conds: &[&Cond],
    pieces: &[Expr],
    u: u32,
    range: &FormRange,
) -> bool
    ensures { IsTrue result ↔ RangeHeld facts.now (ranges_list (ranges_seen ranges.now)) (map cond_behind conds.now) pieces.now u (range_seen range.now) }
{
    match range {
        FormRange::Rel(r) => is_some_key_held(
            facts,
            ranges,
            conds,
            pieces,
            u,
            *r,
            facts.unique.as_slice(),
        ),
        FormRange::Distinct(f) => holds_parts(pieces, u, f.head.as_slice()),
    }
}
