//! The questions on plans.
ghost use Rattle.std.specs.Prelude.{◌≡◌, ◌↔◌, List, IsTrue, IfOk};
ghost use Rattle.std.specs.List.{list_all};
ghost use Rattle.wt_schema.specs.declared.schema.Table.{Table};
ghost use Rattle.wt_schema.specs.Lawful.{IsSchema};
ghost use Rattle.wt_plan.specs.Tree.{plan_tree};
ghost use Rattle.wt_plan.specs.Regular.{Regular};
ghost use Rattle.wt_draft.specs.Drafts.{draft_tree};
ghost use Rattle.wt_known.specs.Facts.{unique, not_null, refers};

use std::alloc::Global;
use wt_draft::Draft;
use wt_plan::Plan;
use wt_value::{Cols, WantOfMemory};

/// Answers questions on plans over one schema. Each answer is true exactly where the fact is known of the plan by its form and
/// the schema.
pub trait Facts {
    /// The tables of the schema.
    ghost tables: { Self → List Table };

    /// They make a schema.
    ghost lawful: { (facts : Self) → IsSchema (tables facts) };

    /// Whether no two rows of the plan are known to match at these columns.
    fn known_unique(&self, alloc: Global, plan: &Plan, cols: &Cols) -> Result<bool, WantOfMemory>
        ensures exact { IfOk result (λ yes. yes ≡ unique (tables self.now) (plan_tree plan.now) cols.now) };

    /// Whether no row of the plan is known to have a NULL at any of these columns.
    fn known_not_null(&self, plan: &Plan, cols: &Cols) -> bool
        ensures exact { result ≡ list_all (not_null (tables self.now) (plan_tree plan.now)) cols.now };

    /// Whether each row of the plan without NULL at these columns is known to have a row of the target that matches it at the
    /// target's columns.
    fn known_ref(
        &self,
        alloc: Global,
        plan: &Plan,
        cols: &Cols,
        target: &Plan,
        target_cols: &Cols,
    ) -> Result<bool, WantOfMemory>
        ensures exact { IfOk result (λ yes. yes ≡ refers (tables self.now) (plan_tree plan.now) cols.now (plan_tree target.now) target_cols.now) };

    /// Whether the plan that a draft is, is regular for the schema.
    fn regular(&self, plan: &Draft) -> bool
        ensures exact { IsTrue result ↔ Regular (tables self.now) (draft_tree plan.now) };
}
