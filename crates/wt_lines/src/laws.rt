//! What the query that is printed has in common with its statement, each a function with an empty body: its contract is the law.
ghost use Rattle.std.specs.Prelude.{List};
ghost use Rattle.wt_chains.specs.Chains.{AreLawful, AreSound};
ghost use Rattle.wt_lines.specs.Laws.{HasNoMatchLeft, IsOne, KeepsNames, KeepsRows, Stays};
ghost use Rattle.wt_rule.specs.declared.Rule.{Rule};

/// A law: with rules that hold, it has the statement's rows on every database that satisfies the schema, each as often.
pub fn rewritten_queries_keep_rows()
    ensures { (rules : List Rule) → AreLawful rules → AreSound rules → KeepsRows rules }
{}

/// A law: it has the statement's output names.
pub fn rewritten_queries_keep_names()
    ensures { (rules : List Rule) → KeepsNames rules }
{}

/// A law: it is accepted as well, and rewritten as itself.
pub fn rewritten_queries_stay()
    ensures { (rules : List Rule) → Stays rules }
{}

/// A law: no rule has a match at any node of its plan.
pub fn rewritten_queries_have_no_match()
    ensures { (rules : List Rule) → HasNoMatchLeft rules }
{}

/// A law: there is one.
pub fn rewritten_queries_are_one()
    ensures { (rules : List Rule) → AreLawful rules → IsOne rules }
{}
