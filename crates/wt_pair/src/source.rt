//! The source of a template.
ghost use Rattle.std.specs.Prelude.{◌≡◌, ◌+◌, ◌<◌, ◌≤◌, IfOk, OnOk};
ghost use Rattle.wt_template.specs.Shapes.{shape_of};
ghost use Rattle.wt_symbol.specs.Sides.{tree_of};
ghost use Rattle.wt_pair.specs.Candidates.{leaf_count, list_count, pred_count, numbered, source_of};
ghost use Rattle.wt_pair.specs.Walk.{symbols_of};

use std::alloc::{AllocError, Global};
use wt_symbol::Side;
use wt_template::Template;

/// How many symbols of each kind there are, or the next number of each kind.
#[derive(Clone, Copy, Debug, PartialEq, Eq)]
pub struct Symbols {
    pub leaves: u8,
    pub lists: u8,
    pub preds: u8,
}

/// The template with its symbols numbered in preorder from the next ones on, which are taken.
fn number(alloc: Global, template: &Template, next: &mut Symbols) -> Result<Side, AllocError>
    requires leaves { next.old.leaves + leaf_count (shape_of template.now) < 256 }
    requires lists { next.old.lists + list_count (shape_of template.now) < 256 }
    requires preds { next.old.preds + pred_count (shape_of template.now) < 256 }
    ensures side { IfOk result (λ s. tree_of s ≡ numbered (shape_of template.now) next.old.leaves next.old.lists next.old.preds) }
    ensures leaves { OnOk result (next.new.leaves ≡ next.old.leaves + leaf_count (shape_of template.now)) }
    ensures lists { OnOk result (next.new.lists ≡ next.old.lists + list_count (shape_of template.now)) }
    ensures preds { OnOk result (next.new.preds ≡ next.old.preds + pred_count (shape_of template.now)) }
{
    match template {
        Template::Input => {
            let r = next.leaves;
            next.leaves += 1;
            Ok(Side::Input(r))
        }
        Template::Proj(t) => {
            let a = next.lists;
            next.lists += 1;
            Ok(Side::Proj(a, Box::new(alloc, number(alloc, t, next)?)?))
        }
        Template::Filter(t) => {
            let (p, a) = (next.preds, next.lists);
            next.preds += 1;
            next.lists += 1;
            Ok(Side::Filter(p, a, Box::new(alloc, number(alloc, t, next)?)?))
        }
        Template::InnerJoin(t, u) => {
            let a = next.lists;
            next.lists += 2;
            let left = Box::new(alloc, number(alloc, t, next)?)?;
            Ok(Side::InnerJoin(a, a + 1, left, Box::new(alloc, number(alloc, u, next)?)?))
        }
        Template::LeftJoin(t, u) => {
            let a = next.lists;
            next.lists += 2;
            let left = Box::new(alloc, number(alloc, t, next)?)?;
            Ok(Side::LeftJoin(a, a + 1, left, Box::new(alloc, number(alloc, u, next)?)?))
        }
        Template::InSub(t, u) => {
            let a = next.lists;
            next.lists += 1;
            let left = Box::new(alloc, number(alloc, t, next)?)?;
            Ok(Side::InSub(a, left, Box::new(alloc, number(alloc, u, next)?)?))
        }
        Template::Dedup(t) => Ok(Side::Dedup(Box::new(alloc, number(alloc, t, next)?)?)),
    }
}

/// A source with how many symbols it has.
#[derive(Drop)]
pub struct Source {
    pub side: Side,
    pub symbols: Symbols,
}

/// The source of a template.
pub fn source_of_template(alloc: Global, template: &Template) -> Result<Source, AllocError>
    requires leaves { leaf_count (shape_of template.now) < 256 }
    requires lists { list_count (shape_of template.now) < 256 }
    requires preds { pred_count (shape_of template.now) < 256 }
    ensures side { IfOk result (λ s. tree_of s.side ≡ source_of (shape_of template.now)) }
    ensures symbols { IfOk result (λ s. s.symbols ≡ symbols_of (shape_of template.now)) }
{
    let mut symbols = Symbols {
        leaves: 0,
        lists: 0,
        preds: 0,
    };
    let side = number(alloc, template, &mut symbols)?;
    Ok(Source { side, symbols })
}
