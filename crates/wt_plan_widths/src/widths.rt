//! A plan's width as a number of 64 bits, the greatest of which stands for all from it on.
ghost use Rattle.std.specs.Prelude.{◌≡◌, ◌+◌, ◌-◌, nat_lt};
ghost use Rattle.wt_plan.specs.Tree.{plan_tree};
ghost use Rattle.wt_plan.specs.Measures as spec;
ghost use Rattle.wt_plan_widths.specs.Widths.{IsWidth};

use wt_plan::Plan;

/// How many columns the plan's rows have.
pub fn wide(plan: &Plan) -> u64
    ensures { IsWidth result (spec.width (plan_tree plan.now)) }
{
    match plan {
        Plan::Table(_, width) => *width as u64,
        Plan::Proj(cols, _) => cols.len() as u64,
        Plan::Filter(_, _, plan) | Plan::InSub(_, plan, _) | Plan::Dedup(plan) => wide(plan),
        Plan::InnerJoin(_, _, left, right) | Plan::LeftJoin(_, _, left, right) => {
            wide(left).saturating_add(wide(right))
        }
    }
}

/// How wide the operands of a join are that is so wide itself. Only the right one is walked, so that a chain of joins to the left
/// costs as much as it is long.
pub fn operand_widths(width: u64, left: &Plan, right: &Plan) -> (u64, u64)
    requires { IsWidth width (spec.width (plan_tree left.now) + spec.width (plan_tree right.now)) }
    ensures left { IsWidth result.0 (spec.width (plan_tree left.now)) }
    ensures right { IsWidth result.1 (spec.width (plan_tree right.now)) }
{
    let right_width = wide(right);
    if width == u64::MAX {
        return (wide(left), right_width);
    }
    (width - right_width, right_width)
}

/// Whether a plan that is so wide has the column of a number.
pub fn has_column(plan: &Plan, width: u64, column: u32) -> bool
    requires { IsWidth width (spec.width (plan_tree plan.now)) }
    ensures { result ≡ nat_lt column (spec.width (plan_tree plan.now)) }
{
    (column as u64) < width
}

/// A join's column, counted from the first column behind its left operand; 0 for a column of that operand.
pub fn behind(left: &Plan, width: u64, column: u32) -> u32
    requires { IsWidth width (spec.width (plan_tree left.now)) }
    ensures { result ≡ column - spec.width (plan_tree left.now) }
{
    (column as u64).saturating_sub(width) as u32
}
