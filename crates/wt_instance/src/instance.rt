//! Instances of a pair.
ghost use Rattle.std.specs.Prelude.{◌≡◌, ◌≢◌, ◌↔◌, ◌<◌, ℕ, [], length, slice_index_or, IsTrue, IfOk};
ghost use Rattle.wt_bag.specs.Bags.{among, Each};
ghost use Rattle.wt_value.specs.Values.{row_same};
ghost use Rattle.wt_symbol.specs.Sides.{pair_of};
ghost use Rattle.wt_symbol.specs.Heads as heads;
ghost use Rattle.wt_instance.specs.Instances as spec;

use std::alloc::{AllocError, Global};
use wt_symbol::{Anchors, Pair};
use wt_value::{Cols, Row, Rows, Seq, same_row};

/// A number of columns for each leaf.
pub type Widths = Seq<u32>;

/// Lists of rows, by number.
pub type RowsList = Seq<Rows>;

/// Lists of column numbers, by number.
pub type ColsList = Seq<Cols>;

/// What the symbols of a pair stand for: a leaf for rows of its width, a list for column numbers, and
/// a predicate for the rows on which it is True.
#[derive(Debug, Drop)]
pub struct Instance {
    pub widths: Widths,
    pub tables: RowsList,
    pub lists: ColsList,
    pub trues: RowsList,
}

/// The leaf that a list is anchored at.
pub(crate) fn anchor(anchors: &Anchors, list: u8) -> u8
    ensures { result ≡ heads.anchor anchors.now list }
{
    let place = list as usize;
    let anchors = anchors.as_slice();
    if place < anchors.len() {
        anchors[place]
    } else {
        0
    }
}

fn rows_at(lists: &RowsList, place: usize) -> &[Row]
    ensures { result.now ≡ slice_index_or lists.now place [] }
{
    let lists = lists.as_slice();
    if place < lists.len() {
        lists[place].as_slice()
    } else {
        &[]
    }
}

impl Instance {
    /// How many columns a leaf has.
    pub fn width(&self, leaf: u8) -> u32
        ensures { result ≡ spec.width self.now leaf }
    {
        width_at(&self.widths, leaf as usize)
    }

    /// The rows of a leaf.
    pub fn table(&self, leaf: u8) -> &[Row]
        ensures { result.now ≡ spec.table self.now leaf }
    {
        rows_at(&self.tables, leaf as usize)
    }

    /// The column numbers of a list.
    pub fn numbers(&self, list: u8) -> &[u32]
        ensures { result.now ≡ spec.numbers self.now list }
    {
        let place = list as usize;
        let lists = self.lists.as_slice();
        if place < lists.len() {
            lists[place].as_slice()
        } else {
            &[]
        }
    }

    /// The rows on which a predicate is True.
    pub(crate) fn trues_of(&self, pred: u8) -> &[Row]
        ensures { result.now ≡ slice_index_or self.now.trues pred [] }
    {
        rows_at(&self.trues, pred as usize)
    }

    /// Whether a predicate is True on a row.
    pub fn is_true(&self, pred: u8, row: &Row) -> bool
        ensures { result ≡ spec.is_true self.now pred row.now }
    {
        is_among(row, self.trues_of(pred))
    }
}

/// Whether a row is one of the rows, NULL being the same as NULL.
pub(crate) fn is_among(row: &Row, rows: &[Row]) -> bool
    ensures { result ≡ among row_same rows.now row.now }
{
    rows.iter().any(|other| same_row(row, other))
}

/// Whether each row has this many values.
fn are_wide(width: u32, mut rows: &[Row]) -> bool
    ensures { IsTrue result ↔ Each (λ row. length row ≡ width) rows.entry.now }
{
    'rows: while let [row, others @ ..] = rows {
        if row.len() != width as usize {
            return false;
        }
        rows = others;
    }
    true
}

fn width_at(widths: &Widths, place: usize) -> u32
    ensures { result ≡ slice_index_or widths.now place 0 }
{
    let widths = widths.as_slice();
    if place < widths.len() {
        widths[place]
    } else {
        0
    }
}

/// Whether each leaf's rows have its width.
fn tables_are_wide(instance: &Instance) -> bool
    ensures { IsTrue result ↔ ((r : ℕ) → r < length instance.now.tables → spec.IsWide instance.now r) }
{
    for r in 0..instance.tables.len() {
        if !are_wide(width_at(&instance.widths, r), rows_at(&instance.tables, r)) {
            return false;
        }
    }
    true
}

/// Whether no list is empty.
fn are_filled(mut lists: &[Cols]) -> bool
    ensures { IsTrue result ↔ Each (λ list. list ≢ []) lists.entry.now }
{
    'lists: while let [list, others @ ..] = lists {
        if list.is_empty() {
            return false;
        }
        lists = others;
    }
    true
}

/// Whether these are as many widths, tables, lists and predicates as the source has leaves, lists and
/// predicates.
fn has_parts(alloc: Global, pair: &Pair, instance: &Instance) -> Result<bool, AllocError>
    ensures { IfOk result (λ yes. IsTrue yes ↔ spec.HasParts (pair_of pair.now) instance.now) }
{
    let mut leaves = Vec::new(alloc);
    pair.source.push_leaves(&mut leaves)?;
    let mut lists = Vec::new(alloc);
    pair.source.push_lists(&mut lists)?;
    let mut preds = Vec::new(alloc);
    pair.source.push_preds(&mut preds)?;
    Ok(
        instance.widths.len() == leaves.len()
            && instance.tables.len() == leaves.len()
            && instance.lists.len() == lists.len()
            && instance.trues.len() == preds.len(),
    )
}

/// Whether it is an instance of the pair.
pub fn is_instance(alloc: Global, pair: &Pair, instance: &Instance) -> Result<bool, AllocError>
    ensures exact { IfOk result (λ yes. IsTrue yes ↔ spec.IsInstance (pair_of pair.now) instance.now) }
{
    Ok(
        has_parts(alloc, pair, instance)?
            && tables_are_wide(instance)
            && are_filled(instance.lists.as_slice()),
    )
}
