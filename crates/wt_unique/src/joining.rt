//! The sets that a join asks of its operands.
ghost use Rattle.std.specs.Prelude.{◌≡◌, [], ◌∷◌, ◌++◌, map, IfOk, OnOk};
ghost use Rattle.wt_plan.specs.Tree.{plan_tree};
ghost use Rattle.wt_plan.specs.Measures as measures;
ghost use Rattle.wt_plan_widths.specs.Widths.{IsWidth};
ghost use Rattle.wt_known.specs.Sets as facts;
ghost use Rattle.wt_unique.specs.Asking as spec;

use crate::Sets;
use crate::sets::{has_right, is_in};
use std::alloc::Global;
use wt_plan::Plan;
use wt_plan_widths::{behind, has_column};
use wt_value::{Cols, WantOfMemory};

fn lefts(alloc: Global, left: &Plan, width: u64, set: &[u32]) -> Result<Cols, WantOfMemory>
    requires { IsWidth width (measures.width (plan_tree left.now)) }
    ensures { IfOk result (λ r. r ≡ facts.lefts (measures.width (plan_tree left.now)) set.now) }
{
    let mut out = Cols::new(alloc);
    for column in set {
        if has_column(left, width, *column) {
            out.push(*column)?;
        }
    }
    Ok(out)
}

fn rights(alloc: Global, left: &Plan, width: u64, set: &[u32]) -> Result<Cols, WantOfMemory>
    requires { IsWidth width (measures.width (plan_tree left.now)) }
    ensures { IfOk result (λ r. r ≡ facts.rights (measures.width (plan_tree left.now)) set.now) }
{
    let mut out = Cols::new(alloc);
    for column in set {
        if !has_column(left, width, *column) {
            out.push(behind(left, width, *column))?;
        }
    }
    Ok(out)
}

// Adds the left columns that a join pairs with a column of the set.
fn add_lefts(
    left: &Plan,
    width: u64,
    mut a: &[u32],
    mut b: &[u32],
    set: &[u32],
    out: &mut Cols,
) -> Result<(), WantOfMemory>
    requires { IsWidth width (measures.width (plan_tree left.now)) }
    ensures { OnOk result (out.new ≡ out.old ++ spec.added_lefts (measures.width (plan_tree left.now)) a.entry.now b.entry.now set.now) }
{
    'pairs: while let [x, more_a @ ..] = a {
        let [y, more_b @ ..] = b else {
            return Ok(());
        };
        if has_right(left, width, *y, set) && has_column(left, width, *x) {
            out.push(*x)?;
        }
        a = more_a;
        b = more_b;
    }
    Ok(())
}

// Adds what one pair of columns adds to the right operand's set.
fn add_right(
    left: &Plan,
    width: u64,
    x: u32,
    y: u32,
    set: &[u32],
    out: &mut Cols,
) -> Result<(), WantOfMemory>
    requires { IsWidth width (measures.width (plan_tree left.now)) }
    ensures { OnOk result (out.new ≡ out.old ++ spec.added_right (measures.width (plan_tree left.now)) x y set.now) }
{
    if is_in(x as u64, set) {
        out.push(y)?;
    }
    if has_right(left, width, y, set) && !has_column(left, width, x) {
        out.push(behind(left, width, x))?;
    }
    Ok(())
}

// Adds the right columns that a join pairs with a column of the set.
fn add_rights(
    left: &Plan,
    width: u64,
    mut a: &[u32],
    mut b: &[u32],
    set: &[u32],
    out: &mut Cols,
) -> Result<(), WantOfMemory>
    requires { IsWidth width (measures.width (plan_tree left.now)) }
    ensures { OnOk result (out.new ≡ out.old ++ spec.added_rights (measures.width (plan_tree left.now)) a.entry.now b.entry.now set.now) }
{
    'pairs: while let [x, more_a @ ..] = a {
        let [y, more_b @ ..] = b else {
            return Ok(());
        };
        add_right(left, width, *x, *y, set, out)?;
        a = more_a;
        b = more_b;
    }
    Ok(())
}

fn paired_left(
    alloc: Global,
    left: &Plan,
    width: u64,
    a: &[u32],
    b: &[u32],
    set: &[u32],
) -> Result<Cols, WantOfMemory>
    requires { IsWidth width (measures.width (plan_tree left.now)) }
    ensures { IfOk result (λ r. r ≡ spec.paired_lefts (measures.width (plan_tree left.now)) a.now b.now set.now) }
{
    let mut out = lefts(alloc, left, width, set)?;
    add_lefts(left, width, a, b, set, &mut out)?;
    Ok(out)
}

fn paired_right(
    alloc: Global,
    left: &Plan,
    width: u64,
    a: &[u32],
    b: &[u32],
    set: &[u32],
) -> Result<Cols, WantOfMemory>
    requires { IsWidth width (measures.width (plan_tree left.now)) }
    ensures { IfOk result (λ r. r ≡ spec.paired_rights (measures.width (plan_tree left.now)) a.now b.now set.now) }
{
    let mut out = rights(alloc, left, width, set)?;
    add_rights(left, width, a, b, set, &mut out)?;
    Ok(out)
}

/// What an InnerJoin asks of its left operand: its own list, then for each set the columns there.
pub fn inner_lefts(
    alloc: Global,
    left: &Plan,
    width: u64,
    a: &Cols,
    b: &Cols,
    sets: &Sets,
) -> Result<Sets, WantOfMemory>
    requires { IsWidth width (measures.width (plan_tree left.now)) }
    ensures { IfOk result (λ r. r ≡ a.now ∷ map (spec.paired_lefts (measures.width (plan_tree left.now)) a.now b.now) sets.now) }
{
    let mut out = own_list(alloc, a)?;
    for set in sets.as_slice() {
        out.push(paired_left(
            alloc,
            left,
            width,
            a.as_slice(),
            b.as_slice(),
            set.as_slice(),
        )?)?;
    }
    Ok(out)
}

/// What an InnerJoin asks of its right operand.
pub fn inner_rights(
    alloc: Global,
    left: &Plan,
    width: u64,
    a: &Cols,
    b: &Cols,
    sets: &Sets,
) -> Result<Sets, WantOfMemory>
    requires { IsWidth width (measures.width (plan_tree left.now)) }
    ensures { IfOk result (λ r. r ≡ b.now ∷ map (spec.paired_rights (measures.width (plan_tree left.now)) a.now b.now) sets.now) }
{
    let mut out = own_list(alloc, b)?;
    for set in sets.as_slice() {
        out.push(paired_right(
            alloc,
            left,
            width,
            a.as_slice(),
            b.as_slice(),
            set.as_slice(),
        )?)?;
    }
    Ok(out)
}

/// What a LeftJoin asks of its left operand.
pub fn left_lefts(
    alloc: Global,
    left: &Plan,
    width: u64,
    a: &Cols,
    sets: &Sets,
) -> Result<Sets, WantOfMemory>
    requires { IsWidth width (measures.width (plan_tree left.now)) }
    ensures { IfOk result (λ r. r ≡ a.now ∷ map (facts.lefts (measures.width (plan_tree left.now))) sets.now) }
{
    let mut out = own_list(alloc, a)?;
    for set in sets.as_slice() {
        out.push(lefts(alloc, left, width, set.as_slice())?)?;
    }
    Ok(out)
}

/// What a LeftJoin asks of its right operand.
pub fn left_rights(
    alloc: Global,
    left: &Plan,
    width: u64,
    b: &Cols,
    sets: &Sets,
) -> Result<Sets, WantOfMemory>
    requires { IsWidth width (measures.width (plan_tree left.now)) }
    ensures { IfOk result (λ r. r ≡ b.now ∷ map (facts.rights (measures.width (plan_tree left.now))) sets.now) }
{
    let mut out = own_list(alloc, b)?;
    for set in sets.as_slice() {
        out.push(rights(alloc, left, width, set.as_slice())?)?;
    }
    Ok(out)
}

fn own_list(alloc: Global, list: &Cols) -> Result<Sets, WantOfMemory>
    ensures { IfOk result (λ r. r ≡ list.now ∷ []) }
{
    let mut out = Sets::new(alloc);
    out.push(list.clone()?)?;
    Ok(out)
}
