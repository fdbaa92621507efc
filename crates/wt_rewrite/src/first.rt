//! The first match in a plan.
ghost use Rattle.std.specs.Prelude.{◌≡◌, ◌<◌, ◌^◌, IfOk, IfSome, IfNone};
ghost use Rattle.wt_plan.specs.Tree.{plan_tree};
ghost use Rattle.wt_plan.specs.Measures.{node_count};
ghost use Rattle.wt_plan.specs.WellFormed.{Narrow};
ghost use Rattle.wt_matching.specs.Nodes.{at};
ghost use Rattle.wt_rewrite.specs.Books.{IsReady};
ghost use Rattle.wt_chains.specs.Chains.{HasNoMatch};
ghost use Rattle.wt_rewrite.specs.Operands.{AreOperands};
ghost use Rattle.wt_matching.specs.Finding as finding;
ghost use Rattle.wt_found.specs.Seen.{seen};
ghost use Rattle.wt_rewrite.specs.Runs.{IsRun};
ghost use Rattle.wt_rewrite.specs.Search.{HasWalked, HasNoneFrom, IsFirstOf, HasNoneAt, HasNoneIn, IsFirstIn, IsFirstHit};

use crate::book::Book;
use crate::runs::Run;
use std::alloc::Global;
use wt_found::{Found, find};
use wt_match::applied;
use wt_plan::Plan;
use wt_plan_facts::Facts;
use wt_value::WantOfMemory;

/// A match: the node and the number of the rule, and the plan that it makes.
#[derive(Drop)]
pub struct Hit {
    pub node: u32,
    pub rule: u32,
    pub plan: Plan,
}

/// The match of the first rule of a run that has one where the walk of their source found this.
fn in_run<F: Facts>(
    alloc: Global,
    facts: &F,
    book: &Book,
    run: Run,
    found: &Found,
    plan: &Plan,
    node: u32,
) -> Result<Option<Hit>, WantOfMemory>
    requires ready { IsReady book.now }
    requires run { IsRun book.now.rules run.start run.end }
    requires narrow { Narrow (plan_tree plan.now) }
    requires within { node < node_count (plan_tree plan.now) }
    requires walked { HasWalked book.now.rules (plan_tree plan.now) node run.start (finding.just (seen found.now)) }
    ensures some { IfOk result (λ hit. IfSome hit (λ h. IsFirstOf (F.tables facts.now) book.now.rules (plan_tree plan.now) node run.start h)) }
    ensures none { IfOk result (λ hit. IfNone hit (HasNoneFrom (F.tables facts.now) book.now.rules (plan_tree plan.now) node run.start run.end)) }
{
    let rules = book.rules.as_slice();
    let atoms = book.atoms.as_slice();
    for number in run.start..run.end {
        let asked = atoms[number].as_slice();
        match applied(alloc, facts, &rules[number], asked, found, plan, node)? {
            Some(plan) => {
                return Ok(Some(Hit {
                    node,
                    rule: number as u32,
                    plan,
                }));
            }
            None => {}
        }
    }
    Ok(None)
}

/// The match at a node of the first rule of a run that has one there.
fn at_run<F: Facts>(
    alloc: Global,
    facts: &F,
    book: &Book,
    run: Run,
    plan: &Plan,
    subplan: &Plan,
    node: u32,
) -> Result<Option<Hit>, WantOfMemory>
    requires ready { IsReady book.now }
    requires run { IsRun book.now.rules run.start run.end }
    requires narrow { Narrow (plan_tree plan.now) }
    requires within { node < node_count (plan_tree plan.now) }
    requires there { plan_tree subplan.now ≡ at (plan_tree plan.now) node }
    ensures some { IfOk result (λ hit. IfSome hit (λ h. IsFirstOf (F.tables facts.now) book.now.rules (plan_tree plan.now) node run.start h)) }
    ensures none { IfOk result (λ hit. IfNone hit (HasNoneFrom (F.tables facts.now) book.now.rules (plan_tree plan.now) node run.start run.end)) }
{
    let first = &book.rules.as_slice()[run.start];
    match find(alloc, &first.pair.source, &first.pair.anchors, subplan)? {
        Some(found) => in_run(alloc, facts, book, run, &found, plan, node),
        None => Ok(None),
    }
}

/// The match at a node of the first rule that has one there.
fn at_node<F: Facts>(
    alloc: Global,
    facts: &F,
    book: &Book,
    plan: &Plan,
    subplan: &Plan,
    node: u32,
) -> Result<Option<Hit>, WantOfMemory>
    requires ready { IsReady book.now }
    requires narrow { Narrow (plan_tree plan.now) }
    requires within { node < node_count (plan_tree plan.now) }
    requires there { plan_tree subplan.now ≡ at (plan_tree plan.now) node }
    ensures some { IfOk result (λ hit. IfSome hit (λ h. IsFirstIn (F.tables facts.now) book.now.rules (plan_tree plan.now) node h)) }
    ensures none { IfOk result (λ hit. IfNone hit (HasNoneAt (F.tables facts.now) book.now.rules (plan_tree plan.now) node)) }
{
    for run in &book.runs {
        match at_run(alloc, facts, book, *run, plan, subplan, node)? {
            Some(hit) => return Ok(Some(hit)),
            None => {}
        }
    }
    Ok(None)
}

/// The operands of a plan's root.
pub enum Operands<'a> {
    Leaf,
    One(&'a Plan),
    Two(&'a Plan, &'a Plan),
}

/// The operands of the plan's root.
fn root_operands(plan: &Plan) -> Operands<'_>
    ensures { AreOperands (plan_tree plan.now) result }
{
    match plan {
        Plan::Table(_, _) => Operands::Leaf,
        Plan::Proj(_, p) => Operands::One(p),
        Plan::Filter(_, _, p) => Operands::One(p),
        Plan::Dedup(p) => Operands::One(p),
        Plan::InnerJoin(_, _, p, q) => Operands::Two(p, q),
        Plan::LeftJoin(_, _, p, q) => Operands::Two(p, q),
        Plan::InSub(_, p, q) => Operands::Two(p, q),
    }
}

/// The first match at the nodes of a subplan, the root of which is this node.
fn first_in<F: Facts>(
    alloc: Global,
    facts: &F,
    book: &Book,
    plan: &Plan,
    subplan: &Plan,
    node: u32,
) -> Result<Option<Hit>, WantOfMemory>
    requires ready { IsReady book.now }
    requires narrow { Narrow (plan_tree plan.now) }
    requires few { node_count (plan_tree plan.now) < 2 ^ 32 }
    requires within { node < node_count (plan_tree plan.now) }
    requires there { plan_tree subplan.now ≡ at (plan_tree plan.now) node }
    ensures some { IfOk result (λ hit. IfSome hit (λ h. IsFirstIn (F.tables facts.now) book.now.rules (plan_tree plan.now) node h)) }
    ensures none { IfOk result (λ hit. IfNone hit (HasNoneIn (F.tables facts.now) book.now.rules (plan_tree plan.now) node (node_count (plan_tree subplan.now)))) }
{
    match at_node(alloc, facts, book, plan, subplan, node)? {
        Some(hit) => return Ok(Some(hit)),
        None => {}
    }
    match root_operands(subplan) {
        Operands::Leaf => Ok(None),
        Operands::One(p) => first_in(alloc, facts, book, plan, p, node + 1),
        Operands::Two(p, q) => {
            let behind = node + 1 + p.node_count();
            match first_in(alloc, facts, book, plan, p, node + 1)? {
                Some(hit) => return Ok(Some(hit)),
                None => {}
            }
            first_in(alloc, facts, book, plan, q, behind)
        }
    }
}

/// The first match in a plan; None exactly where it has none.
pub(crate) fn first<F: Facts>(
    alloc: Global,
    facts: &F,
    book: &Book,
    plan: &Plan,
) -> Result<Option<Hit>, WantOfMemory>
    requires ready { IsReady book.now }
    requires narrow { Narrow (plan_tree plan.now) }
    requires few { node_count (plan_tree plan.now) < 2 ^ 32 }
    ensures some { IfOk result (λ hit. IfSome hit (λ h. IsFirstHit (F.tables facts.now) book.now.rules (plan_tree plan.now) h)) }
    ensures none { IfOk result (λ hit. IfNone hit (HasNoMatch (F.tables facts.now) book.now.rules (plan_tree plan.now))) }
{
    first_in(alloc, facts, book, plan, plan, 0)
}
