//! The offsets of the conjuncts of a condition.
ghost use Rattle.std.specs.Prelude.{◌≡◌, ◌++◌, IfOk, OnOk};
ghost use Rattle.wt_ast.specs.Tree.{condition_tree, conditions_tree};
ghost use Rattle.wt_query_plan.specs.Faults.{conjunct_places, all_places};

use std::alloc::Global;
use wt_ast::{CondKind, Condition, Conditions};
use wt_value::WantOfMemory;

/// The offset of each conjunct of a condition.
pub fn offsets(alloc: Global, c: &Condition) -> Result<Vec<u32>, WantOfMemory>
    ensures { IfOk result (λ found. found.items ≡ conjunct_places (condition_tree c.now)) }
{
    let mut found = Vec::new(alloc);
    push_offsets(c, &mut found)?;
    Ok(found)
}

#[cycle(offsets)]
fn push_offsets(c: &Condition, out: &mut Vec<u32>) -> Result<(), WantOfMemory>
    ensures { OnOk result (out.new.items ≡ out.old.items ++ conjunct_places (condition_tree c.now)) }
{
    match &c.kind {
        CondKind::And(parts) => push_each(parts, out),
        _ => {
            out.push(c.at)?;
            Ok(())
        }
    }
}

#[cycle(offsets)]
fn push_each(parts: &Conditions, out: &mut Vec<u32>) -> Result<(), WantOfMemory>
    ensures { OnOk result (out.new.items ≡ out.old.items ++ all_places (conditions_tree parts.now)) }
{
    let mut rest = parts;
    'parts: loop {
        match rest {
            Conditions::Empty => return Ok(()),
            Conditions::More(part, more) => {
                push_offsets(part, out)?;
                rest = more;
            }
        }
    }
}
