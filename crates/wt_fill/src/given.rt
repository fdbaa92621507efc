//! What the symbols of a rule stand for.
ghost use Rattle.std.specs.Prelude.{◌≡◌};
ghost use Rattle.wt_pred.specs.Tree.{pred_tree};
ghost use Rattle.wt_plan.specs.Tree.{plan_tree};
ghost use Rattle.wt_symbol.specs.Heads.{anchor};
ghost use Rattle.wt_matching.specs.Filling.{leaf_plan, list_of, pred_of};
ghost use Rattle.wt_found.specs.Seen.{assigned_in};
ghost use Rattle.wt_fill.specs.Blanks.{IsBlank};

use std::alloc::Global;
use wt_found::{Found, anchor_of};
use wt_plan::Plan;
use wt_pred::{Pred, Preds};
use wt_symbol::Anchors;
use wt_value::Cols;

/// What stands for symbols that have nothing assigned.
#[derive(Drop)]
pub struct Blank {
    pub plan: Plan,
    pub list: Cols,
    pub pred: Pred,
}

impl Blank {
    /// The table without columns, no numbers, and the conjunction of nothing.
    pub fn new(alloc: Global) -> Blank
        ensures blank { IsBlank result }
    {
        Blank {
            plan: Plan::Table(0, 0),
            list: Cols::new(alloc),
            pred: Pred::And(Preds::Empty),
        }
    }
}

/// What was found, the anchors of its lists, and blanks for other symbols.
#[derive(Clone, Copy)]
pub struct Given<'a> {
    pub anchors: &'a Anchors,
    pub found: &'a Found<'a>,
    pub blank: &'a Blank,
}

impl<'a> Given<'a> {
    /// The plan of a leaf.
    pub(crate) fn leaf(&self, leaf: u8) -> &'a Plan
        requires { IsBlank self.now.blank.now }
        ensures { plan_tree result.now ≡ leaf_plan (assigned_in self.now.found.now) leaf }
    {
        match self.found.leaves.get(leaf as usize) {
            Some(plan) => *plan,
            None => &self.blank.plan,
        }
    }

    /// The numbers of a list.
    pub(crate) fn list(&self, list: u8) -> &'a Cols
        requires { IsBlank self.now.blank.now }
        ensures { result.now ≡ list_of (assigned_in self.now.found.now) list }
    {
        match self.found.lists.get(list as usize) {
            Some(numbers) => numbers,
            None => &self.blank.list,
        }
    }

    /// A predicate.
    pub(crate) fn pred(&self, pred: u8) -> &'a Pred
        requires { IsBlank self.now.blank.now }
        ensures { pred_tree result.now ≡ pred_of (assigned_in self.now.found.now) pred }
    {
        match self.found.preds.get(pred as usize) {
            Some(pred) => *pred,
            None => &self.blank.pred,
        }
    }

    /// The leaf that a list is anchored at.
    pub(crate) fn anchor(&self, list: u8) -> u8
        ensures { result ≡ anchor self.now.anchors.now list }
    {
        anchor_of(self.anchors, list)
    }

    /// The plan of the leaf that a list is anchored at.
    pub(crate) fn at_anchor(&self, list: u8) -> &'a Plan
        requires { IsBlank self.now.blank.now }
        ensures { plan_tree result.now ≡ leaf_plan (assigned_in self.now.found.now) (anchor self.now.anchors.now list) }
    {
        self.leaf(self.anchor(list))
    }
}
