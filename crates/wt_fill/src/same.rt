//! Whether two plans are the same.
ghost use Rattle.std.specs.Prelude.{◌≡◌, ◌↔◌, IsTrue};
ghost use Rattle.wt_plan.specs.Tree.{plan_tree};

use wt_plan::Plan;

/// Whether both are the same plan.
pub fn is_same(one: &Plan, other: &Plan) -> bool
    ensures { IsTrue result ↔ (plan_tree one.now ≡ plan_tree other.now) }
{
    match one {
        Plan::Table(t, w) => match other {
            Plan::Table(u, x) => *t == *u && *w == *x,
            _ => false,
        },
        Plan::Proj(a, p) => match other {
            Plan::Proj(b, q) => *a == *b && is_same(p, q),
            _ => false,
        },
        Plan::Filter(f, a, p) => match other {
            Plan::Filter(g, b, q) => *a == *b && f.same(g) && is_same(p, q),
            _ => false,
        },
        Plan::InnerJoin(a, b, p, q) => match other {
            Plan::InnerJoin(c, d, r, s) => *a == *c && *b == *d && is_same(p, r) && is_same(q, s),
            _ => false,
        },
        Plan::LeftJoin(a, b, p, q) => match other {
            Plan::LeftJoin(c, d, r, s) => *a == *c && *b == *d && is_same(p, r) && is_same(q, s),
            _ => false,
        },
        Plan::InSub(a, p, q) => match other {
            Plan::InSub(b, r, s) => *a == *b && is_same(p, r) && is_same(q, s),
            _ => false,
        },
        Plan::Dedup(p) => match other {
            Plan::Dedup(q) => is_same(p, q),
            _ => false,
        },
    }
}
