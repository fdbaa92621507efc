//! The schema that answers.
ghost use Rattle.std.specs.Prelude.{◌≡◌};

use crate::not_null::are_not_null;
use crate::references::is_reference;
use std::alloc::Global;
use wt_draft::Draft;
use wt_plan::Plan;
use wt_plan_facts::Facts;
use wt_schema::Schema;
use wt_unique::is_unique;
use wt_value::{Cols, WantOfMemory};

/// The known facts of plans over one schema.
#[derive(Clone, Copy)]
pub struct Known<'a> {
    /// The schema.
    pub schema: &'a Schema,
}

impl<'a> Known<'a> {
    /// The facts over this schema.
    pub fn new(schema: &'a Schema) -> Known<'a>
        ensures { result.schema.now.tables ≡ schema.now.tables }
    {
        Known { schema }
    }
}

impl<'a> Facts for Known<'a> {
    ghost tables = { λ known. known.schema.now.tables };

    ghost lawful = { λ known. known.schema.now.lawful };

    fn known_unique(&self, alloc: Global, plan: &Plan, cols: &Cols) -> Result<bool, WantOfMemory> {
        is_unique(alloc, self.schema.tables.as_slice(), plan, cols)
    }

    fn known_not_null(&self, plan: &Plan, cols: &Cols) -> bool {
        are_not_null(self.schema.tables.as_slice(), plan, cols.as_slice())
    }

    fn known_ref(
        &self,
        alloc: Global,
        plan: &Plan,
        cols: &Cols,
        target: &Plan,
        target_cols: &Cols,
    ) -> Result<bool, WantOfMemory> {
        is_reference(
            alloc,
            self.schema.tables.as_slice(),
            plan,
            cols.as_slice(),
            target,
            target_cols.as_slice(),
        )
    }

    fn regular(&self, plan: &Draft) -> bool {
        wt_regularity::regular(self.schema.tables.as_slice(), plan)
    }
}
