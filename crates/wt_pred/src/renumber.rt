//! A predicate with other numbers of its columns.
ghost use Rattle.std.specs.Prelude.{◌≡◌, ◌≤◌, ◌^◌, ℕ, length, nat_eq, IsSome, IfOk, OnOk, is_some, if◌then◌else◌, Some};
ghost use Rattle.std.specs.List.{position_from};
ghost use Rattle.indexmap.specs.IndexMap.{get};
ghost use Rattle.wt_bag.specs.Bags.{Each};
ghost use Rattle.wt_bag.specs.Choices.{Has};
ghost use Rattle.wt_pred.specs.Tree.{pred_tree, preds_tree};
ghost use Rattle.wt_pred.specs.Columns.{occurring, occurring_in, operand_columns, operand_renumbered, renumbered, all_renumbered, place_in};
ghost use Rattle.wt_pred.specs.Laws.{KeepsTruth};
ghost use Rattle.wt_pred.specs.Places.{HasAll, number_by};

use crate::tree::{Operand, Pred, Preds};
use indexmap::IndexMap;
use std::alloc::Global;
use wt_value::{Cols, WantOfMemory};

/// The first place of each column.
type Places = IndexMap<u32, u32>;

impl Pred {
    /// The predicate in which each column has the number of its first place in `cols`.
    pub fn renumber(&self, alloc: Global, cols: &Cols) -> Result<Pred, WantOfMemory>
        // A place is a column's number, so it has to be one of 32 bits.
        requires few { length cols.now ≤ 2 ^ 32 }
        requires there { Each (λ c. Has c cols.now) (occurring (pred_tree self.now)) }
        ensures exact { IfOk result (λ p. pred_tree p ≡ renumbered (place_in cols.now) (pred_tree self.now)) }
        ensures law { IfOk result (λ p. KeepsTruth cols.now (pred_tree self.now) (pred_tree p)) }
    {
        let places = first_places(alloc, cols)?;
        renumber_by(alloc, &places, self)
    }
}

/// Notes the place of a column that has none yet.
fn note(places: &mut Places, column: u32, place: u32) -> Result<(), WantOfMemory>
    ensures { OnOk result ((c : ℕ) → get nat_eq places.new c ≡ (if nat_eq column c then (if is_some (get nat_eq places.old c) then get nat_eq places.old c else Some place) else get nat_eq places.old c)) }
{
    if !places.contains_key(&column) {
        places.insert(column, place)?;
    }
    Ok(())
}

fn first_places(alloc: Global, cols: &Cols) -> Result<Places, WantOfMemory>
    requires { length cols.now ≤ 2 ^ 32 }
    ensures { IfOk result (λ places. (c : ℕ) → get nat_eq places c ≡ position_from (nat_eq c) 0 cols.now) }
{
    let mut places = IndexMap::new(alloc);
    for (i, column) in cols.as_slice().iter().enumerate() {
        note(&mut places, *column, i as u32)?;
    }
    Ok(places)
}

fn place_of(places: &Places, column: u32) -> u32
    requires { IsSome (get nat_eq places.now column) }
    ensures { result ≡ number_by places.now column }
{
    match places.get(&column) {
        Some(place) => *place,
        None => unreachable!(),
    }
}

fn renumber_operand(places: &Places, operand: &Operand) -> Result<Operand, WantOfMemory>
    requires { HasAll places.now (operand_columns operand.now) }
    ensures { IfOk result (λ o. o ≡ operand_renumbered (number_by places.now) operand.now) }
{
    match operand {
        Operand::Column(column) => Ok(Operand::Column(place_of(places, *column))),
        Operand::Constant(value) => Ok(Operand::Constant(value.clone()?)),
    }
}

#[tactic(auto, using(crate::proofs::Lists::befores))]
#[cycle(renumber)]
fn renumber_by(alloc: Global, places: &Places, pred: &Pred) -> Result<Pred, WantOfMemory>
    requires { HasAll places.now (occurring (pred_tree pred.now)) }
    ensures { IfOk result (λ p. pred_tree p ≡ renumbered (number_by places.now) (pred_tree pred.now)) }
{
    match pred {
        Pred::Compare(cmp, a, b) => Ok(Pred::Compare(
            *cmp,
            renumber_operand(places, a)?,
            renumber_operand(places, b)?,
        )),
        Pred::IsNull(column) => Ok(Pred::IsNull(place_of(places, *column))),
        Pred::IsNotNull(column) => Ok(Pred::IsNotNull(place_of(places, *column))),
        Pred::InList(column, values) => {
            Ok(Pred::InList(place_of(places, *column), values.clone()?))
        }
        Pred::And(parts) => Ok(Pred::And(renumber_parts(alloc, places, parts)?)),
        Pred::Or(parts) => Ok(Pred::Or(renumber_parts(alloc, places, parts)?)),
        Pred::Not(inner) => {
            let inner = renumber_by(alloc, places, inner)?;
            Ok(Pred::Not(Box::new(alloc, inner)?))
        }
    }
}

#[tactic(auto, using(crate::proofs::Lists::befores))]
#[cycle(renumber)]
fn renumber_parts(alloc: Global, places: &Places, parts: &Preds) -> Result<Preds, WantOfMemory>
    requires { HasAll places.now (occurring_in (preds_tree parts.now)) }
    ensures { IfOk result (λ list. preds_tree list ≡ all_renumbered (number_by places.now) (preds_tree parts.now)) }
{
    let mut renumbered = Vec::new(alloc);
    let mut rest = parts;
    'parts: loop {
        match rest {
            Preds::Empty => return Preds::from_vec(alloc, renumbered),
            Preds::More(part, more) => {
                renumbered.push(renumber_by(alloc, places, part)?)?;
                rest = more;
            }
        }
    }
}
