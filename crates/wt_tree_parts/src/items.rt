//! SELECT lists.
ghost use Rattle.std.specs.Prelude.{◌≡◌, ◌++◌, ◌<◌, ◌^◌, [], length, Some, None, IfOk, OnOk};
ghost use Rattle.wt_blocks.specs.Printed as spec;
ghost use Rattle.wt_tree_parts.specs.Leaves.{scope_of_leaves};

use crate::leaf::{Sight, column_at};
use std::alloc::Global;
use wt_ast::{Item, Items};
use wt_value::{Name, WantOfMemory};

/// `*`.
pub fn star(alloc: Global) -> Result<Items, WantOfMemory>
    ensures { IfOk result (λ is. is ≡ spec.items_of None []) }
{
    let mut list = Items::new(alloc);
    list.push(Item::Star { at: 0 })?;
    Ok(list)
}

/// The columns at these places, without names of their own.
pub fn plain(alloc: Global, sight: &Sight, cols: &[u32]) -> Result<Items, WantOfMemory>
    ensures { IfOk result (λ is. is ≡ spec.items_of (Some cols.now) (scope_of_leaves sight.now.schema.now.tables sight.now.leaves.now)) }
{
    let mut list = Items::new(alloc);
    for k in cols {
        list.push(Item::Column {
            column: column_at(alloc, sight, *k)?,
            output: None,
        })?;
    }
    Ok(list)
}

/// The columns at these places with these names.
pub fn with_names(
    alloc: Global,
    sight: &Sight,
    cols: &[u32],
    names: &[Name],
) -> Result<Items, WantOfMemory>
    ensures { IfOk result (λ is. is ≡ spec.named_items (scope_of_leaves sight.now.schema.now.tables sight.now.leaves.now) cols.now names.now) }
{
    let mut list = Vec::with_capacity(alloc, cols.len())?;
    push_named(alloc, sight, cols, names, &mut list)?;
    Ok(Items::from_vec(list))
}

fn push_named(
    alloc: Global,
    sight: &Sight,
    cols: &[u32],
    names: &[Name],
    out: &mut Vec<Item>,
) -> Result<(), WantOfMemory>
    ensures { OnOk result (out.new.items ≡ out.old.items ++ spec.named_items (scope_of_leaves sight.now.schema.now.tables sight.now.leaves.now) cols.now names.now) }
{
    let mut cols = cols;
    let mut names = names;
    'items: while let [k, others @ ..] = cols {
        let [name, more @ ..] = names else {
            return Ok(());
        };
        out.push(Item::Column {
            column: column_at(alloc, sight, *k)?,
            output: Some(name.clone()?),
        })?;
        cols = others;
        names = more;
    }
    Ok(())
}

/// Whether the columns have these names, of which there are as many.
pub fn have_names(alloc: Global, sight: &Sight, names: &[Name]) -> Result<bool, WantOfMemory>
    requires few { length names.now < 2 ^ 32 }
    requires as_many { length (scope_of_leaves sight.now.schema.now.tables sight.now.leaves.now) ≡ length names.now }
    ensures { IfOk result (λ same. same ≡ spec.have_names (scope_of_leaves sight.now.schema.now.tables sight.now.leaves.now) names.now) }
{
    let mut place: u32 = 0;
    'names: while (place as usize) < names.len() {
        let column = column_at(alloc, sight, place)?;
        if column.name != names[place as usize] {
            return Ok(false);
        }
        place += 1;
    }
    Ok(true)
}
