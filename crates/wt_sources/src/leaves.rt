//! The plans of the tables and derived tables of a FROM clause.
ghost use Rattle.std.specs.Prelude.{◌≡◌, IfOk};
ghost use Rattle.wt_plan.specs.Tree.{plan_tree};
ghost use Rattle.wt_clause.specs.Items.{leaf, fork, IsFork};
ghost use Rattle.wt_sources.specs.Sources.{leaves_tree, IsLeaf};

use std::alloc::Global;
use wt_plan::Plan;
use wt_value::WantOfMemory;

/// The plans of the tables and derived tables of a FROM clause, as they stand in it. Where two operands stand, the left one
/// has so many items and so many columns.
#[cycle(leaves)]
pub enum Leaves {
    One(Plan),
    Two(Box<Leaves>, Box<Leaves>, usize, usize),
}

// A FROM clause has hundreds of joins, each in the left operand of the next: they are dropped by a loop.
impl Drop for Leaves {
    #[cycle(leaves)]
    fn drop(mut self) {
        loop {
            match self {
                Leaves::One(_) => return,
                Leaves::Two(left, _, _, _) => self = Box::into_inner(left),
            }
        }
    }
}

impl Leaves {
    /// The plan of a table or of a derived table.
    pub fn into_plan(self) -> Plan
        requires { IsLeaf (leaves_tree self) }
        ensures { leaves_tree self ≡ leaf (plan_tree result) }
    {
        match self {
            Leaves::One(plan) => plan,
            Leaves::Two(_, _, _, _) => unreachable!(),
        }
    }

    /// The plans of the operands, and how many items and columns the left one has.
    pub fn into_operands(self) -> (Leaves, Leaves, usize, usize)
        requires { IsFork (leaves_tree self) }
        ensures { leaves_tree self ≡ fork (leaves_tree result.0) (leaves_tree result.1) result.2 result.3 }
    {
        match self {
            Leaves::One(_) => unreachable!(),
            Leaves::Two(left, right, items, columns) => (
                Box::into_inner(left),
                Box::into_inner(right),
                items,
                columns,
            ),
        }
    }
}

/// The plans of two operands.
pub fn two_leaves(
    alloc: Global,
    left: Leaves,
    right: Leaves,
    items: usize,
    columns: usize,
) -> Result<Leaves, WantOfMemory>
    ensures { IfOk result (λ leaves. leaves_tree leaves ≡ fork (leaves_tree left) (leaves_tree right) items columns) }
{
    let (left, right) = (Box::new(alloc, left)?, Box::new(alloc, right)?);
    Ok(Leaves::Two(left, right, items, columns))
}
