//! Comma lists: an inner join at each comma, under the WHERE conjuncts that link it.
ghost use Rattle.std.specs.Prelude.{◌≡◌, ◌<◌, ◌+◌, ◌^◌, ◌++◌, [], ◌∷◌, None, length, filter, if◌then◌else◌, IfOk, OnOk};
ghost use Rattle.std.specs.List.{list_any};
ghost use Rattle.wt_query_plan.specs.Building as spec;
ghost use Rattle.wt_query_plan.specs.Telling.{Tells};
ghost use Rattle.wt_conjunct.specs.Views.{conjunct_tree, conjunct_trees};
ghost use Rattle.wt_joins.specs.Parts.{part_tree, part_trees, Within};
ghost use Rattle.wt_joins.specs.Commas.{links_at, commas_refused, free_at, comma_operand, list_operand, list_width, AllWithin};

use crate::part::{Part, joined_by, push_moved};
use std::alloc::Global;
use wt_conjunct::{Conjunct, firsts_at, pair_of, seconds_at};
use wt_pred::{Cmp, Operand, Pred};
use wt_query_plan::{BuildError, BuildFault};
use wt_value::WantOfMemory;

/// A comma of a FROM clause: how many columns stand before it, how many before the next one, and its offset.
#[derive(Clone, Copy, Debug, PartialEq, Eq)]
pub struct Comma {
    pub columns: u32,
    pub next: u32,
    pub at: u32,
}

/// A comma list: its first operand, the others, and the commas between them. A FROM clause without a comma is a list of one.
#[derive(Drop)]
pub struct CommaList {
    pub first: Part,
    pub others: Vec<Part>,
    pub commas: Vec<Comma>,
}

/// The pair of a conjunct at a comma behind n columns, if the conjunct is on the first m columns.
fn comma_pair(n: u32, m: u32, conjunct: &Conjunct) -> Option<(u32, u32)>
    ensures { result ≡ (if spec.within m (conjunct_tree conjunct.now) then spec.pair_of n (conjunct_tree conjunct.now) else None) }
{
    match conjunct {
        Conjunct::Keeps(Pred::Compare(Cmp::Eq, Operand::Column(x), Operand::Column(y))) => {
            if *x < m && *y < m {
                pair_of(n, conjunct)
            } else {
                None
            }
        }
        _ => None,
    }
}

/// Whether the conjunct links the comma.
fn links_comma(comma: &Comma, conjunct: &Conjunct) -> bool
    ensures { result ≡ links_at comma.now (conjunct_tree conjunct.now) }
{
    comma_pair(comma.columns, comma.next, conjunct).is_some()
}

/// Whether some conjunct links the comma.
fn is_linked(comma: &Comma, conjuncts: &[Conjunct]) -> bool
    ensures { result ≡ list_any (links_at comma.now) (conjunct_trees conjuncts.now) }
{
    let mut rest = conjuncts;
    'conjuncts: while let [conjunct, more @ ..] = rest {
        if links_comma(comma, conjunct) {
            return true;
        }
        rest = more;
    }
    false
}

/// Refuses the first comma that no conjunct links.
pub fn commas_told(commas: &[Comma], conjuncts: &[Conjunct]) -> Result<(), BuildError>
    ensures { Tells (commas_refused (conjunct_trees conjuncts.now) commas.now) (λ _. Unit {0}) result }
{
    let mut rest = commas;
    'commas: while let [comma, more @ ..] = rest {
        if !is_linked(comma, conjuncts) {
            return Err(BuildError::Refused(BuildFault::NoJoinEquality, comma.at));
        }
        rest = more;
    }
    Ok(())
}

/// Whether the conjunct links some comma.
fn links_some(commas: &[Comma], conjunct: &Conjunct) -> bool
    ensures { result ≡ list_any (λ c. links_at c (conjunct_tree conjunct.now)) commas.now }
{
    commas.iter().any(|comma| links_comma(comma, conjunct))
}

/// Adds the conjunct, unless it links a comma.
fn push_free(
    commas: &[Comma],
    conjunct: Conjunct,
    out: &mut Vec<Conjunct>,
) -> Result<(), WantOfMemory>
    ensures { OnOk result (conjunct_trees out.new.items ≡ conjunct_trees out.old.items ++ free_at commas.now (conjunct_tree conjunct ∷ [])) }
{
    if !links_some(commas, &conjunct) {
        out.push(conjunct)?;
    }
    Ok(())
}

/// The conjuncts that link none of these commas.
fn unlinked(
    alloc: Global,
    commas: &[Comma],
    conjuncts: Vec<Conjunct>,
) -> Result<Vec<Conjunct>, WantOfMemory>
    ensures { IfOk result (λ js. conjunct_trees js.items ≡ free_at commas.now (conjunct_trees conjuncts.items)) }
{
    let mut free = Vec::new(alloc);
    for conjunct in conjuncts {
        push_free(commas, conjunct, &mut free)?;
    }
    Ok(free)
}

/// The conjuncts that link no comma: all of them where there is none.
pub fn freed(
    alloc: Global,
    commas: &[Comma],
    conjuncts: Vec<Conjunct>,
) -> Result<Vec<Conjunct>, WantOfMemory>
    ensures { IfOk result (λ js. conjunct_trees js.items ≡ free_at commas.now (conjunct_trees conjuncts.items)) }
{
    if commas.is_empty() {
        Ok(conjuncts)
    } else {
        unlinked(alloc, commas, conjuncts)
    }
}

/// The pairs of a comma.
fn comma_pairs(
    alloc: Global,
    n: u32,
    m: u32,
    conjuncts: &[Conjunct],
) -> Result<Vec<(u32, u32)>, WantOfMemory>
    ensures { IfOk result (λ pairs. pairs.items ≡ spec.pairs_of n (filter (spec.within m) (conjunct_trees conjuncts.now))) }
{
    let mut pairs = Vec::new(alloc);
    let mut rest = conjuncts;
    'conjuncts: while let [conjunct, more @ ..] = rest {
        if let Some(pair) = comma_pair(n, m, conjunct) {
            pairs.push(pair)?;
        }
        rest = more;
    }
    Ok(pairs)
}

/// The list before a comma and the operand behind it.
fn comma_part(
    alloc: Global,
    left: Part,
    right: Part,
    conjuncts: &[Conjunct],
) -> Result<Part, BuildError>
    requires narrow { length left.places.items + length right.places.items < 2 ^ 32 }
    requires within { Within right.places.items }
    ensures { Tells None (λ p. part_tree p ≡ comma_operand (conjunct_trees conjuncts.now) (part_tree left) (part_tree right)) result }
{
    let n = left.places.len() as u32;
    let pairs = comma_pairs(alloc, n, n + right.places.len() as u32, conjuncts)?;
    let a = firsts_at(alloc, &left.places, &pairs)?;
    let b = seconds_at(alloc, &right.places, &pairs)?;
    let mut places = left.places;
    push_moved(n, &right.places, &mut places)?;
    let plan = joined_by(alloc, a, b, left.plan, right.plan)?;
    Ok(Part { plan, places })
}

/// An operand and those behind it, joined one after the other.
fn joined_onto(
    alloc: Global,
    first: Part,
    others: Vec<Part>,
    conjuncts: &[Conjunct],
) -> Result<Part, BuildError>
    requires narrow { list_width (part_tree first) (part_trees others.items) < 2 ^ 32 }
    requires within { AllWithin (part_trees others.items) }
    ensures { Tells None (λ p. part_tree p ≡ list_operand (conjunct_trees conjuncts.now) (part_tree first) (part_trees others.items)) result }
{
    let mut part = first;
    for other in others {
        part = comma_part(alloc, part, other, conjuncts)?;
    }
    Ok(part)
}

/// The operands of a list, joined: the first one where there is no other.
pub fn joined_list(
    alloc: Global,
    first: Part,
    others: Vec<Part>,
    conjuncts: &[Conjunct],
) -> Result<Part, BuildError>
    requires narrow { list_width (part_tree first) (part_trees others.items) < 2 ^ 32 }
    requires within { AllWithin (part_trees others.items) }
    ensures { Tells None (λ p. part_tree p ≡ list_operand (conjunct_trees conjuncts.now) (part_tree first) (part_trees others.items)) result }
{
    if others.is_empty() {
        Ok(first)
    } else {
        joined_onto(alloc, first, others, conjuncts)
    }
}
