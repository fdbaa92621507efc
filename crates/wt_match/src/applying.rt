//! Applying what was found at a node, where it is a match.
ghost use Rattle.std.specs.Prelude.{◌≡◌, ◌<◌, IfOk, IfSome, IfNone};
ghost use Rattle.wt_symbol.specs.Sides.{tree_of, pair_of};
ghost use Rattle.wt_symbol.specs.Lawful.{IsLawful};
ghost use Rattle.wt_plan.specs.Tree.{plan_tree};
ghost use Rattle.wt_plan.specs.Measures.{width, node_count};
ghost use Rattle.wt_plan.specs.WellFormed.{Narrow};
ghost use Rattle.wt_plan.specs.Regular.{Regular};
ghost use Rattle.wt_draft.specs.Drafts.{draft_tree};
ghost use Rattle.wt_matching.specs.Nodes.{at};
ghost use Rattle.wt_matching.specs.Finding as finding;
ghost use Rattle.wt_found.specs.Seen.{seen};
ghost use Rattle.wt_fill.specs.Blanks.{IsBlank};
ghost use Rattle.wt_match.specs.Asking.{asked};
ghost use Rattle.wt_match.specs.Matched.{GivesAt};

use crate::asking::asked_atoms;
use std::alloc::Global;
use wt_constraint::Atom;
use wt_draft::Draft;
use wt_fill::{Blank, Given, are_known, fill, plan_at, put_at};
use wt_found::{Found, find};
use wt_plan::Plan;
use wt_plan_facts::Facts;
use wt_rule::Rule;
use wt_value::WantOfMemory;

/// The plan of a draft, where it is regular and as wide as another plan. It is copied only then.
fn copy_if_regular<F: Facts>(
    alloc: Global,
    facts: &F,
    plan: &Plan,
    made: &Draft,
) -> Result<Option<Plan>, WantOfMemory>
    ensures is { IfOk result (λ o. IfSome o (λ p. plan_tree p ≡ draft_tree made.now)) }
    ensures regular { IfOk result (λ o. IfSome o (λ p. Regular (F.tables facts.now) (draft_tree made.now))) }
    ensures wide { IfOk result (λ o. IfSome o (λ p. width (draft_tree made.now) ≡ width (plan_tree plan.now))) }
    ensures none { IfOk result (λ o. IfNone o (Regular (F.tables facts.now) (draft_tree made.now) → width (draft_tree made.now) ≡ width (plan_tree plan.now) → ⊥)) }
{
    if made.width() == plan.width() && facts.regular(made) {
        Ok(Some(made.copy(alloc)?))
    } else {
        Ok(None)
    }
}

/// What a rule gives at a node, where this is given for its symbols: what the walk of its source and of the subplan there found.
fn applied_given<'p, F: Facts>(
    alloc: Global,
    facts: &F,
    rule: &Rule,
    atoms: &[Atom],
    given: &Given<'p>,
    plan: &'p Plan,
    node: u32,
) -> Result<Option<Plan>, WantOfMemory>
    requires lawful { IsLawful (pair_of rule.now.pair) }
    requires asked { atoms.now ≡ asked (pair_of rule.now.pair) rule.now.set }
    requires narrow { Narrow (plan_tree plan.now) }
    requires within { node < node_count (plan_tree plan.now) }
    requires blank { IsBlank given.now.blank.now }
    requires anchors { given.now.anchors.now ≡ rule.now.pair.anchors }
    requires walked { finding.found (tree_of rule.now.pair.source) rule.now.pair.anchors (at (plan_tree plan.now) node) ≡ finding.just (seen given.now.found.now) }
    ensures exact { IfOk result (λ made. GivesAt (F.tables facts.now) (pair_of rule.now.pair) rule.now.set (plan_tree plan.now) node made) }
{
    if !are_known(alloc, facts, given, atoms)? {
        return Ok(None);
    }
    let filled = fill(alloc, &rule.pair.dest, given)?;
    let made = put_at(alloc, plan, node, filled)?;
    copy_if_regular(alloc, facts, plan, &made)
}

/// What a rule gives at a node, where the walk of its source and of the subplan there found this.
pub fn applied<F: Facts>(
    alloc: Global,
    facts: &F,
    rule: &Rule,
    atoms: &[Atom],
    found: &Found,
    plan: &Plan,
    node: u32,
) -> Result<Option<Plan>, WantOfMemory>
    requires lawful { IsLawful (pair_of rule.now.pair) }
    requires asked { atoms.now ≡ asked (pair_of rule.now.pair) rule.now.set }
    requires narrow { Narrow (plan_tree plan.now) }
    requires within { node < node_count (plan_tree plan.now) }
    requires walked { finding.found (tree_of rule.now.pair.source) rule.now.pair.anchors (at (plan_tree plan.now) node) ≡ finding.just (seen found.now) }
    ensures exact { IfOk result (λ made. GivesAt (F.tables facts.now) (pair_of rule.now.pair) rule.now.set (plan_tree plan.now) node made) }
{
    let blank = Blank::new(alloc);
    let given = Given {
        anchors: &rule.pair.anchors,
        found,
        blank: &blank,
    };
    applied_given(alloc, facts, rule, atoms, &given, &*plan, node)
}

/// The plan with the rule's destination in the place of its match at a node; None exactly where the rule has no match there.
pub fn match_at<F: Facts>(
    alloc: Global,
    facts: &F,
    rule: &Rule,
    plan: &Plan,
    node: u32,
) -> Result<Option<Plan>, WantOfMemory>
    requires lawful { IsLawful (pair_of rule.now.pair) }
    requires narrow { Narrow (plan_tree plan.now) }
    requires within { node < node_count (plan_tree plan.now) }
    ensures exact { IfOk result (λ made. GivesAt (F.tables facts.now) (pair_of rule.now.pair) rule.now.set (plan_tree plan.now) node made) }
{
    let subplan = plan_at(plan, node);
    match find(alloc, &rule.pair.source, &rule.pair.anchors, subplan)? {
        Some(found) => {
            let atoms = asked_atoms(alloc, rule)?;
            applied(alloc, facts, rule, &atoms, &found, plan, node)
        }
        None => Ok(None),
    }
}
