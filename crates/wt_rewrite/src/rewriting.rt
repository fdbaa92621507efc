//! Rewriting a plan.
ghost use Rattle.std.specs.Prelude.{◌≡◌, true, false, IfOk};
ghost use Rattle.wt_plan.specs.Tree.{plan_tree};
ghost use Rattle.wt_plan.specs.Regular.{Regular};
ghost use Rattle.wt_chains.specs.Chains.{IsChain, HasNoMatch};
ghost use Rattle.wt_rewrite.specs.Books.{IsReady};
ghost use Rattle.wt_rewrite.specs.Going.{HasGoneOn};

use crate::book::Book;
use crate::first::first;
use std::alloc::Global;
use wt_chains::Applied;
use wt_place::into_placed;
use wt_plan::Plan;
use wt_plan_facts::Facts;
use wt_value::WantOfMemory;

/// A plan without a match, and the matches that were applied on the way to it.
#[derive(Drop)]
pub struct Rewritten {
    pub plan: Plan,
    pub trace: Vec<Applied>,
}

/// Applies the first match of the plan, if it has one. Whether it had one.
fn goes_on<F: Facts>(
    alloc: Global,
    facts: &F,
    book: &Book,
    so_far: &mut Rewritten,
) -> Result<bool, WantOfMemory>
    requires ready { IsReady book.now }
    requires regular { Regular (F.tables facts.now) (plan_tree so_far.old.plan) }
    ensures goes { IfOk result (λ went. went ≡ true → HasGoneOn (F.tables facts.now) book.now.rules so_far.old so_far.new) }
    ensures ends { IfOk result (λ went. went ≡ false → HasNoMatch (F.tables facts.now) book.now.rules (plan_tree so_far.old.plan)) }
    ensures stays { IfOk result (λ went. went ≡ false → so_far.new ≡ so_far.old) }
{
    match first(alloc, facts, book, &so_far.plan)? {
        Some(hit) => {
            so_far.trace.push(Applied {
                node: hit.node,
                rule: hit.rule,
            })?;
            so_far.plan = into_placed(alloc, hit.plan)?;
            Ok(true)
        }
        None => Ok(false),
    }
}

/// The end of the chain of the plan by the book's rules, with the steps of the chain.
pub fn rewrite<F: Facts>(
    alloc: Global,
    facts: &F,
    book: &Book,
    plan: Plan,
) -> Result<Rewritten, WantOfMemory>
    requires ready { IsReady book.now }
    requires regular { Regular (F.tables facts.now) (plan_tree plan) }
    ensures chain { IfOk result (λ r. IsChain (F.tables facts.now) book.now.rules (plan_tree plan) r.trace.items (plan_tree r.plan)) }
{
    let trace = Vec::new(alloc);
    let mut so_far = Rewritten { plan, trace };
    'steps: while goes_on(alloc, facts, book, &mut so_far)? {}
    Ok(so_far)
}
