//! Walks over the candidates of bounds that keep the lawful ones, up to as many as are asked for.
ghost use Rattle.std.specs.Prelude.{◌≡◌, ◌+◌, ◌^◌, ◌<◌, ◌≤◌, ◌++◌, [], ◌∷◌, map, length, false, Some, None, IfOk, IfNone, IfSome, OnOk, slice_get};
ghost use Rattle.wt_template.specs.Shapes.{Shape, shape_of, templates};
ghost use Rattle.wt_symbol.specs.Sides.{tree_of, pair_of};
ghost use Rattle.wt_symbol.specs.Lawful.{stands};
ghost use Rattle.wt_pair.specs.Candidates.{source_of, lawful_pairs};
ghost use Rattle.wt_pair.specs.Walk.{nth_anchoring, rest_of_anchoring, rest_of_source, rest_of_pairs, symbols_of, IsSmall, Fills};

use crate::anchoring::{anchoring, count_anchorings};
use crate::bounds::Bounds;
use crate::dest::nth_dest;
use crate::source::{Source, source_of_template};
use std::alloc::{AllocError, Global};
use wt_symbol::{Anchors, Pair, PairFault, Side, first_fault};
use wt_template::{Template, nth_template};
use wt_value::Seq;

/// A list of pairs.
pub type PairList = Seq<Pair>;

/// The pair of a source and a destination.
fn paired(alloc: Global, source: &Side, dest: Side, anchors: &Anchors) -> Result<Pair, AllocError>
    ensures { IfOk result (λ p. pair_of p ≡ record { source = tree_of source.now; dest = tree_of dest; anchors = anchors.now }) }
{
    Ok(Pair {
        source: source.copy(alloc)?,
        dest,
        anchors: anchors.clone()?,
    })
}

/// Adds a source and a destination if they are a lawful pair.
fn push_lawful(
    alloc: Global,
    source: &Side,
    dest: Side,
    anchors: &Anchors,
    pairs: &mut PairList,
) -> Result<(), AllocError>
    ensures pairs { OnOk result (map pair_of pairs.new ≡ map pair_of pairs.old ++ lawful_pairs (tree_of source.now) anchors.now (tree_of dest ∷ [])) }
    ensures one { OnOk result (length pairs.new ≤ length pairs.old + 1) }
{
    if first_fault(alloc, source, &dest, anchors)?.is_none() {
        pairs.push(paired(alloc, source, dest, anchors)?)?;
    }
    Ok(())
}

/// Adds the lawful pairs of a source with anchors, from the d-th destination on; answers where it stopped.
fn fill_from_dest(
    alloc: Global,
    bounds: &Bounds,
    source: &Source,
    anchors: &Anchors,
    from: u64,
    most: usize,
    pairs: &mut PairList,
) -> Result<u64, AllocError>
    requires small { IsSmall source.now.symbols }
    requires dst { bounds.now.dst ≤ 4 }
    requires room { length pairs.old ≤ most }
    ensures { IfOk result (λ d. Fills most (map pair_of pairs.old) (map pair_of pairs.new)
        (rest_of_anchoring bounds.now (tree_of source.now.side) source.now.symbols from anchors.now)
        (rest_of_anchoring bounds.now (tree_of source.now.side) source.now.symbols d anchors.now)) }
{
    let mut k = from;
    'dests: while pairs.len() < most {
        match nth_dest(alloc, bounds.ops, &source.symbols, bounds.dst, k)? {
            Some(dest) => push_lawful(alloc, &source.side, dest, anchors, pairs)?,
            None => return Ok(k),
        }
        k += 1;
    }
    Ok(k)
}

/// Whether each list of a source stands where its anchor can be seen; if not, no destination makes
/// it a lawful pair.
fn has_pairs(alloc: Global, source: &Source, anchors: &Anchors) -> Result<bool, AllocError>
    ensures { IfOk result (λ yes. yes ≡ false → stands (tree_of source.now.side) anchors.now ≡ false) }
{
    Ok(first_fault(alloc, &source.side, &source.side, anchors)? != Some(PairFault::Anchor))
}

/// Adds the lawful pairs of a source with the a-th anchoring, from the d-th destination on; answers
/// where it stopped.
fn fill_anchoring(
    alloc: Global,
    bounds: &Bounds,
    source: &Source,
    a: u64,
    d: u64,
    most: usize,
    pairs: &mut PairList,
) -> Result<u64, AllocError>
    requires small { IsSmall source.now.symbols }
    requires dst { bounds.now.dst ≤ 4 }
    requires exists { a < source.now.symbols.leaves ^ source.now.symbols.lists }
    requires room { length pairs.old ≤ most }
    ensures { IfOk result (λ e. Fills most (map pair_of pairs.old) (map pair_of pairs.new)
        (rest_of_anchoring bounds.now (tree_of source.now.side) source.now.symbols d (nth_anchoring source.now.symbols.leaves source.now.symbols.lists a))
        (rest_of_anchoring bounds.now (tree_of source.now.side) source.now.symbols e (nth_anchoring source.now.symbols.leaves source.now.symbols.lists a))) }
{
    let anchors = anchoring(alloc, source.symbols.leaves, source.symbols.lists, a)?;
    if has_pairs(alloc, source, &anchors)? {
        fill_from_dest(alloc, bounds, source, &anchors, d, most, pairs)
    } else {
        Ok(d)
    }
}

/// A place among the pairs of a source: the number of an anchoring and of a destination.
#[derive(Clone, Copy, Debug, PartialEq, Eq)]
pub struct Spot {
    pub anchoring: u64,
    pub dest: u64,
}

/// Adds the lawful pairs of a source, from a place on; answers where it stopped.
fn fill_source(
    alloc: Global,
    bounds: &Bounds,
    source: &Source,
    from: Spot,
    most: usize,
    pairs: &mut PairList,
) -> Result<Spot, AllocError>
    requires small { IsSmall source.now.symbols }
    requires dst { bounds.now.dst ≤ 4 }
    requires room { length pairs.old ≤ most }
    ensures { IfOk result (λ e. Fills most (map pair_of pairs.old) (map pair_of pairs.new)
        (rest_of_source bounds.now (tree_of source.now.side) source.now.symbols from.anchoring from.dest)
        (rest_of_source bounds.now (tree_of source.now.side) source.now.symbols e.anchoring e.dest)) }
{
    let count = count_anchorings(source.symbols.leaves, source.symbols.lists);
    let mut anchoring = from.anchoring;
    let mut dest = from.dest;
    'anchorings: while anchoring < count {
        dest = fill_anchoring(alloc, bounds, source, anchoring, dest, most, pairs)?;
        if pairs.len() == most {
            return Ok(Spot { anchoring, dest });
        }
        anchoring += 1;
        dest = 0;
    }
    Ok(Spot { anchoring, dest })
}

/// Adds the lawful pairs of a template, from a place on; answers where it stopped.
fn fill_template(
    alloc: Global,
    bounds: &Bounds,
    template: &Template,
    from: Spot,
    most: usize,
    pairs: &mut PairList,
) -> Result<Spot, AllocError>
    requires small { IsSmall (symbols_of (shape_of template.now)) }
    requires dst { bounds.now.dst ≤ 4 }
    requires room { length pairs.old ≤ most }
    ensures { IfOk result (λ e. Fills most (map pair_of pairs.old) (map pair_of pairs.new)
        (rest_of_source bounds.now (source_of (shape_of template.now)) (symbols_of (shape_of template.now)) from.anchoring from.dest)
        (rest_of_source bounds.now (source_of (shape_of template.now)) (symbols_of (shape_of template.now)) e.anchoring e.dest)) }
{
    let source = source_of_template(alloc, template)?;
    let spot = fill_source(alloc, bounds, &source, from, most, pairs)?;
    Ok(spot)
}

/// Adds the lawful pairs of the n-th template, from a place on; answers where it stopped, or None
/// where there is no such template.
fn fill_nth(
    alloc: Global,
    bounds: &Bounds,
    n: u64,
    from: Spot,
    most: usize,
    pairs: &mut PairList,
) -> Result<Option<Spot>, AllocError>
    requires src { bounds.now.src ≤ 4 }
    requires dst { bounds.now.dst ≤ 4 }
    requires room { length pairs.old ≤ most }
    ensures none { IfOk result (λ spot. IfNone spot ((None ≡ slice_get (templates bounds.now.ops.0 bounds.now.src) n) × (pairs.new ≡ pairs.old))) }
    ensures some { IfOk result (λ spot. IfSome spot (λ e. (t : Shape) × (Some t ≡ slice_get (templates bounds.now.ops.0 bounds.now.src) n)
        × Fills most (map pair_of pairs.old) (map pair_of pairs.new)
        (rest_of_source bounds.now (source_of t) (symbols_of t) from.anchoring from.dest)
        (rest_of_source bounds.now (source_of t) (symbols_of t) e.anchoring e.dest))) }
{
    match nth_template(alloc, bounds.ops, bounds.src, n)? {
        Some(template) => {
            let spot = fill_template(alloc, bounds, &template, from, most, pairs)?;
            Ok(Some(spot))
        }
        None => Ok(None),
    }
}

/// A place among the pairs of bounds: the number of a template, and a place among its pairs.
#[derive(Clone, Copy, Debug, PartialEq, Eq)]
pub struct Cursor {
    pub template: u64,
    pub spot: Spot,
}

/// Adds the lawful pairs of bounds, from a place on; answers where it stopped.
pub fn fill(
    alloc: Global,
    bounds: &Bounds,
    from: Cursor,
    most: usize,
    pairs: &mut PairList,
) -> Result<Cursor, AllocError>
    requires src { bounds.now.src ≤ 4 }
    requires dst { bounds.now.dst ≤ 4 }
    requires room { length pairs.old ≤ most }
    ensures { IfOk result (λ e. Fills most (map pair_of pairs.old) (map pair_of pairs.new)
        (rest_of_pairs bounds.now from.template from.spot.anchoring from.spot.dest)
        (rest_of_pairs bounds.now e.template e.spot.anchoring e.spot.dest)) }
{
    let mut template = from.template;
    let mut spot = from.spot;
    'templates: while let Some(next) = fill_nth(alloc, bounds, template, spot, most, pairs)? {
        spot = next;
        if pairs.len() == most {
            return Ok(Cursor { template, spot });
        }
        template += 1;
        spot = Spot {
            anchoring: 0,
            dest: 0,
        };
    }
    Ok(Cursor { template, spot })
}
