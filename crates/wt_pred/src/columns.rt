//! The columns of a predicate.
ghost use Rattle.std.specs.Prelude.{◌≡◌, nat_eq, [], ◌∷◌, ◌++◌, IfOk, OnOk};
ghost use Rattle.indexmap.specs.IndexSet.{insert_all};
ghost use Rattle.wt_bag.specs.Bags.{distinct};
ghost use Rattle.wt_pred.specs.Tree.{pred_tree, preds_tree};
ghost use Rattle.wt_pred.specs.Columns as spec;
ghost use Rattle.wt_pred.specs.Laws.{DependsOn};

use crate::tree::{Operand, Pred, Preds};
use indexmap::IndexSet;
use std::alloc::Global;
use wt_value::{Cols, WantOfMemory};

impl Pred {
    /// The columns of the predicate, each once, in the order of their first use.
    pub fn columns(&self, alloc: Global) -> Result<Cols, WantOfMemory>
        ensures exact { IfOk result (λ cols. cols ≡ spec.columns (pred_tree self.now)) }
        ensures law { IfOk result (λ cols. DependsOn cols (pred_tree self.now)) }
    {
        columns_of(alloc, self)
    }
}

/// One column.
fn alone(alloc: Global, column: u32) -> Result<Cols, WantOfMemory>
    ensures { IfOk result (λ cols. cols ≡ column ∷ []) }
{
    let mut cols = Cols::new(alloc);
    cols.push(column)?;
    Ok(cols)
}

/// Two columns, once if they are one.
fn of_two(alloc: Global, a: u32, b: u32) -> Result<Cols, WantOfMemory>
    ensures { IfOk result (λ cols. cols ≡ distinct nat_eq (a ∷ b ∷ [])) }
{
    let mut cols = alone(alloc, a)?;
    if a != b {
        cols.push(b)?;
    }
    Ok(cols)
}

/// The columns of a comparison.
fn of_operands(alloc: Global, a: &Operand, b: &Operand) -> Result<Cols, WantOfMemory>
    ensures { IfOk result (λ cols. cols ≡ distinct nat_eq (spec.operand_columns a.now ++ spec.operand_columns b.now)) }
{
    match (a, b) {
        (Operand::Column(a), Operand::Column(b)) => of_two(alloc, *a, *b),
        (Operand::Column(a), Operand::Constant(_)) => alone(alloc, *a),
        (Operand::Constant(_), Operand::Column(b)) => alone(alloc, *b),
        (Operand::Constant(_), Operand::Constant(_)) => Ok(Cols::new(alloc)),
    }
}

/// The columns of a predicate of any size, by a set.
fn collected(alloc: Global, pred: &Pred) -> Result<Cols, WantOfMemory>
    ensures { IfOk result (λ cols. cols ≡ spec.columns (pred_tree pred.now)) }
{
    let mut seen = IndexSet::new(alloc);
    add_columns(pred, &mut seen)?;
    Ok(Cols::from_vec(Vec::from_slice(alloc, seen.as_slice())?))
}

/// The columns of a predicate, without a set for the one or two of a single condition.
fn columns_of(alloc: Global, pred: &Pred) -> Result<Cols, WantOfMemory>
    ensures { IfOk result (λ cols. cols ≡ spec.columns (pred_tree pred.now)) }
{
    match pred {
        Pred::Compare(_, a, b) => of_operands(alloc, a, b),
        Pred::IsNull(column) | Pred::IsNotNull(column) => alone(alloc, *column),
        Pred::InList(column, _) => alone(alloc, *column),
        Pred::And(_) | Pred::Or(_) | Pred::Not(_) => collected(alloc, pred),
    }
}

fn add_column(column: u32, seen: &mut IndexSet<u32>) -> Result<(), WantOfMemory>
    ensures { OnOk result (seen.new.keys ≡ insert_all nat_eq seen.old.keys (column ∷ [])) }
{
    seen.insert(column)?;
    Ok(())
}

fn add_operand(operand: &Operand, seen: &mut IndexSet<u32>) -> Result<(), WantOfMemory>
    ensures { OnOk result (seen.new.keys ≡ insert_all nat_eq seen.old.keys (spec.operand_columns operand.now)) }
{
    match operand {
        Operand::Column(column) => add_column(*column, seen),
        Operand::Constant(_) => Ok(()),
    }
}

#[cycle(columns)]
fn add_columns(pred: &Pred, seen: &mut IndexSet<u32>) -> Result<(), WantOfMemory>
    ensures { OnOk result (seen.new.keys ≡ insert_all nat_eq seen.old.keys (spec.occurring (pred_tree pred.now))) }
{
    match pred {
        Pred::Compare(_, a, b) => {
            add_operand(a, seen)?;
            add_operand(b, seen)
        }
        Pred::IsNull(column) => add_column(*column, seen),
        Pred::IsNotNull(column) => add_column(*column, seen),
        Pred::InList(column, _) => add_column(*column, seen),
        Pred::And(parts) => add_parts(parts, seen),
        Pred::Or(parts) => add_parts(parts, seen),
        Pred::Not(inner) => add_columns(inner, seen),
    }
}

#[cycle(columns)]
fn add_parts(parts: &Preds, seen: &mut IndexSet<u32>) -> Result<(), WantOfMemory>
    ensures { OnOk result (seen.new.keys ≡ insert_all nat_eq seen.old.keys (spec.occurring_in (preds_tree parts.now))) }
{
    let mut rest = parts;
    'parts: loop {
        match rest {
            Preds::Empty => return Ok(()),
            Preds::More(part, more) => {
                add_columns(part, seen)?;
                rest = more;
            }
        }
    }
}
