//! What a rule asks of what was found.
ghost use Rattle.std.specs.Prelude.{◌↔◌, IfOk, IsTrue};
ghost use Rattle.wt_bag.specs.Bags.{Each};
ghost use Rattle.wt_matching.specs.Matching.{AtomKnown};
ghost use Rattle.wt_found.specs.Seen.{assigned_in};
ghost use Rattle.wt_fill.specs.Blanks.{IsBlank};

use crate::given::Given;
use crate::same::is_same;
use std::alloc::Global;
use wt_constraint::Atom;
use wt_plan_facts::Facts;
use wt_value::WantOfMemory;

/// Whether an atom is known.
fn is_known<F: Facts>(
    alloc: Global,
    facts: &F,
    given: &Given,
    atom: Atom,
) -> Result<bool, WantOfMemory>
    requires { IsBlank given.now.blank.now }
    ensures { IfOk result (λ yes. IsTrue yes ↔ AtomKnown (F.tables facts.now) given.now.anchors.now (assigned_in given.now.found.now) atom) }
{
    match atom {
        Atom::RelEq(r, s) => Ok(is_same(given.leaf(r), given.leaf(s))),
        Atom::AttrsEq(a, b) => Ok(*given.list(a) == *given.list(b)),
        Atom::PredEq(p, q) => Ok(given.pred(p).same(given.pred(q))),
        Atom::Unique(a) => facts.known_unique(alloc, given.at_anchor(a), given.list(a)),
        Atom::NotNull(a) => Ok(facts.known_not_null(given.at_anchor(a), given.list(a))),
        Atom::RefAttrs(a, b) => {
            let (plan, target) = (given.at_anchor(a), given.at_anchor(b));
            facts.known_ref(alloc, plan, given.list(a), target, given.list(b))
        }
    }
}

/// Whether each of some atoms is known; they are asked for in their order.
pub fn are_known<F: Facts>(
    alloc: Global,
    facts: &F,
    given: &Given,
    atoms: &[Atom],
) -> Result<bool, WantOfMemory>
    requires blank { IsBlank given.now.blank.now }
    ensures exact { IfOk result (λ yes. IsTrue yes ↔ Each (AtomKnown (F.tables facts.now) given.now.anchors.now (assigned_in given.now.found.now)) atoms.now) }
{
    for atom in atoms {
        if !is_known(alloc, facts, given, *atom)? {
            return Ok(false);
        }
    }
    Ok(true)
}
