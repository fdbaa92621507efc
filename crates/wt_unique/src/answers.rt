//! The answers of a node from those of its operands.
ghost use Rattle.std.specs.Prelude.{◌≡◌, length, map, IfOk};
ghost use Rattle.wt_plan.specs.Tree.{plan_tree};
ghost use Rattle.wt_plan.specs.Measures as measures;
ghost use Rattle.wt_plan_widths.specs.Widths.{IsWidth};
ghost use Rattle.wt_known.specs.Sets as facts;
ghost use Rattle.wt_known.specs.Facts.{some_case};
ghost use Rattle.wt_unique.specs.Answering as spec;

use crate::Answers;
use crate::sets::{all_below, is_whole};
use std::alloc::Global;
use wt_plan::Plan;
use wt_value::{Cols, WantOfMemory};

/// A Proj's answers: its operand's, where the set's places are there.
pub fn of_proj(
    alloc: Global,
    list: &[u32],
    mut sets: &[Cols],
    mut inner: &[bool],
) -> Result<Answers, WantOfMemory>
    ensures { IfOk result (λ r. r ≡ spec.both_each (map (facts.all_below (length list.now)) sets.entry.now) inner.entry.now) }
{
    let mut out = Answers::new(alloc);
    'sets: while let [set, more_sets @ ..] = sets {
        let [answer, more_answers @ ..] = inner else {
            return Ok(out);
        };
        out.push(all_below(list.len() as u64, set.as_slice()) && *answer)?;
        sets = more_sets;
        inner = more_answers;
    }
    Ok(out)
}

/// A Dedup's answers: its operand's, and yes where the set has each column.
pub fn of_dedup(
    alloc: Global,
    plan: &Plan,
    width: u64,
    mut sets: &[Cols],
    mut inner: &[bool],
) -> Result<Answers, WantOfMemory>
    requires { IsWidth width (measures.width (plan_tree plan.now)) }
    ensures { IfOk result (λ r. r ≡ spec.either_each inner.entry.now (map (facts.is_whole (measures.width (plan_tree plan.now))) sets.entry.now)) }
{
    let mut out = Answers::new(alloc);
    'sets: while let [answer, more_answers @ ..] = inner {
        let [set, more_sets @ ..] = sets else {
            return Ok(out);
        };
        out.push(*answer || is_whole(plan, width, set.as_slice()))?;
        sets = more_sets;
        inner = more_answers;
    }
    Ok(out)
}

fn has_case(left: bool, right_list: bool, right: bool, left_list: bool) -> bool
    ensures { result ≡ some_case left right_list right left_list }
{
    (left && right_list) || (right && left_list) || (left && right)
}

fn cases(
    alloc: Global,
    left_list: bool,
    right_list: bool,
    mut lefts: &[bool],
    mut rights: &[bool],
) -> Result<Answers, WantOfMemory>
    ensures { IfOk result (λ r. r ≡ spec.cases_each left_list right_list lefts.entry.now rights.entry.now) }
{
    let mut out = Answers::new(alloc);
    'lefts: while let [left, more_lefts @ ..] = lefts {
        let [right, more_rights @ ..] = rights else {
            return Ok(out);
        };
        out.push(has_case(*left, right_list, *right, left_list))?;
        lefts = more_lefts;
        rights = more_rights;
    }
    Ok(out)
}

/// A join's answers. The first answer of each operand is that of its own list.
pub fn of_join(alloc: Global, lefts: &[bool], rights: &[bool]) -> Result<Answers, WantOfMemory>
    ensures { IfOk result (λ r. r ≡ spec.join_answers lefts.now rights.now) }
{
    let [left_list, lefts @ ..] = lefts else {
        return Ok(Answers::new(alloc));
    };
    let [right_list, rights @ ..] = rights else {
        return Ok(Answers::new(alloc));
    };
    cases(alloc, *left_list, *right_list, lefts, rights)
}
