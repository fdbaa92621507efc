ghost use Rattle.std.specs.Prelude.{◌≡◌, ◌^◌, ◌-◌, min, length};
ghost use Rattle.wt_ast.specs.Tree.{condition_tree, conditions_tree};
ghost use Rattle.wt_ast.specs.Conjuncts as spec;
ghost use Rattle.wt_ast.specs.Conjuncts.{conjuncts_of, IsNoAnd};

use crate::tree::{CondKind, Condition, Conditions};

impl Condition {
    /// The number of conjuncts: what is left when AND is split at every depth through AND alone. It stands at the greatest
    /// `u32` where it would pass it.
    #[cycle(conjuncts)]
    pub fn conjuncts(&self) -> u32
        ensures count { result ≡ min (2 ^ 32 - 1) (length (spec.conjuncts (condition_tree self.now))) }
        ensures whole { IsNoAnd (condition_tree self.now) → result ≡ 1 }
    {
        match &self.kind {
            CondKind::And(parts) => conjuncts_of(parts),
            _ => 1,
        }
    }
}

#[cycle(conjuncts)]
fn conjuncts_of(parts: &Conditions) -> u32
    ensures { result ≡ min (2 ^ 32 - 1) (length (spec.conjuncts_of (conditions_tree parts.now))) }
{
    let mut count: u32 = 0;
    let mut rest = parts;
    'parts: loop {
        match rest {
            Conditions::Empty => return count,
            Conditions::More(part, more) => {
                count = count.saturating_add(part.conjuncts());
                rest = more;
            }
        }
    }
}
