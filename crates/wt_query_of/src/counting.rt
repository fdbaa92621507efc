//! How many FROM items the text of a plan has.
ghost use Rattle.std.specs.Prelude.{◌≡◌, ◌+◌, ◌^◌, ◌<◌, ◌≤◌};
ghost use Rattle.wt_plan.specs.Tree.{plan_tree};
ghost use Rattle.wt_plan.specs.Measures.{cost};
ghost use Rattle.wt_blocks.specs.Blocks.{zone_of, plan_block, distinct};
ghost use Rattle.wt_blocks.specs.Counting.{block_items, from_items, condition_items};

use wt_plan::Plan;

/// The FROM items of a zone's FROM clause, and those in the subqueries of its conditions.
#[derive(Clone, Copy)]
pub(crate) struct Counts {
    pub from: u64,
    pub conditions: u64,
}

/// The FROM items of a plan as a block, given those of its zone.
#[tactic(auto, using(crate::proofs::Counts::counting))]
fn of_block(plan: &Plan, zone: Counts) -> u64
    requires from { zone.from ≡ from_items (zone_of (plan_tree plan.now)) }
    requires conditions { zone.conditions ≡ condition_items (zone_of (plan_tree plan.now)) }
    requires small { zone.from + zone.conditions < 2 ^ 62 }
    ensures exact { result ≡ block_items (plan_block (plan_tree plan.now)) }
    ensures few { result ≤ zone.from + zone.conditions }
{
    match plan {
        Plan::Proj(_, _) | Plan::Dedup(_) => zone.from - 1,
        _ => zone.from + zone.conditions,
    }
}

/// The FROM items of a plan as a block with DISTINCT, given those of its zone.
#[tactic(auto, using(crate::proofs::Counts::counting))]
fn of_distinct(plan: &Plan, zone: Counts) -> u64
    requires from { zone.from ≡ from_items (zone_of (plan_tree plan.now)) }
    requires conditions { zone.conditions ≡ condition_items (zone_of (plan_tree plan.now)) }
    requires small { zone.from + zone.conditions < 2 ^ 62 }
    ensures exact { result ≡ block_items (distinct (plan_block (plan_tree plan.now))) }
    ensures few { result ≤ zone.from + zone.conditions }
{
    match plan {
        Plan::Dedup(_) => zone.from,
        _ => of_block(plan, zone),
    }
}

pub(crate) fn counted(plan: &Plan) -> Counts
    requires { cost (plan_tree plan.now) < 2 ^ 62 }
    ensures from { result.from ≡ from_items (zone_of (plan_tree plan.now)) }
    ensures conditions { result.conditions ≡ condition_items (zone_of (plan_tree plan.now)) }
    ensures few { result.from + result.conditions ≤ cost (plan_tree plan.now) }
{
    match plan {
        Plan::Table(_, _) => Counts {
            from: 1,
            conditions: 0,
        },
        Plan::Proj(_, inner) => {
            let zone = counted(inner);
            Counts {
                from: 1 + (zone.from + zone.conditions),
                conditions: 0,
            }
        }
        Plan::Dedup(inner) => Counts {
            from: 1 + of_distinct(inner, counted(inner)),
            conditions: 0,
        },
        Plan::Filter(_, _, inner) => counted(inner),
        Plan::InSub(_, left, right) => {
            let zone = counted(left);
            Counts {
                from: zone.from,
                conditions: zone.conditions + of_block(right, counted(right)),
            }
        }
        Plan::InnerJoin(_, _, left, right) => {
            let (one, other) = (counted(left), counted(right));
            Counts {
                from: one.from + other.from,
                conditions: one.conditions + other.conditions,
            }
        }
        Plan::LeftJoin(_, _, left, right) => {
            let (one, other) = (counted(left), counted(right));
            Counts {
                from: one.from + (other.from + other.conditions),
                conditions: one.conditions,
            }
        }
    }
}
