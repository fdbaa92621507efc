//! At which nodes of a statement's plan a rule has a match.
ghost use Rattle.std.specs.Prelude.{IfOk};
ghost use Rattle.wt_symbol.specs.Sides.{pair_of};
ghost use Rattle.wt_symbol.specs.Lawful as pairs;
ghost use Rattle.wt_ast.specs.Tree.{query_tree};
ghost use Rattle.wt_ast.specs.Lawful.{IsLawful};
ghost use Rattle.wt_plan.specs.Tree.{plan_tree};
ghost use Rattle.wt_plan.specs.WellFormed.{Narrow};

use std::alloc::{AllocError, Global};
use std::test::Fail;
use wt_ast::Query;
use wt_build::plan_of;
use wt_ddl::read_schema;
use wt_match::match_at;
use wt_parse::{QueryError, read_queries};
use wt_plan::Plan;
use wt_props::Known;
use wt_rule::Rule;
use wt_rule_line::read_line;
use wt_rule_text::Version;
use wt_schema::Schema;

static SCHEMA: &str =
    "CREATE TABLE cust (id INTEGER PRIMARY KEY, name TEXT, age INTEGER); CREATE TABLE o (id INTEGER PRIMARY KEY, c INTEGER REFERENCES cust (id), d INTEGER NOT NULL REFERENCES cust (id), k INTEGER UNIQUE);";

// The nodes, from 0 in preorder, at which a rule matches; the rule; the statement. In order: a reference without NULL, once and
// twice, and one that may be NULL; a key, what is no key, and a column of the operand that falls away; equal predicates and others;
// a predicate that comes to columns of its kind, and of another one; a list that finds its column, and one that finds none; a plan that
// stays as wide, and one that would not.
static MATCHES: &str =
    "1: LeftJoin<a0@r0,a1@r1>(r0,r1) => InnerJoin<a0,a1>(r0,r1) | NotNull(r0,a0) RefAttrs(r0,a0,r1,a1): SELECT o.id FROM o LEFT JOIN cust ON o.d = cust.id
12: LeftJoin<a0@r0,a1@r1>(r0,r1) => InnerJoin<a0,a1>(r0,r1) | NotNull(r0,a0) RefAttrs(r0,a0,r1,a1): SELECT o.id FROM o LEFT JOIN cust ON o.d = cust.id LEFT JOIN cust AS x ON o.d = x.id
-: LeftJoin<a0@r0,a1@r1>(r0,r1) => InnerJoin<a0,a1>(r0,r1) | NotNull(r0,a0) RefAttrs(r0,a0,r1,a1): SELECT o.id FROM o LEFT JOIN cust ON o.c = cust.id
0: Proj<a0@r0>(LeftJoin<a1@r0,a2@r1>(r0,r1)) => Proj<a0>(r0) | Unique(r1,a2): SELECT o.id FROM o LEFT JOIN cust ON o.c = cust.id
-: Proj<a0@r0>(LeftJoin<a1@r0,a2@r1>(r0,r1)) => Proj<a0>(r0) | Unique(r1,a2): SELECT o.id FROM o LEFT JOIN cust ON o.c = cust.age
-: Proj<a0@r0>(LeftJoin<a1@r0,a2@r1>(r0,r1)) => Proj<a0>(r0) | Unique(r1,a2): SELECT cust.id FROM o LEFT JOIN cust ON o.c = cust.id
1: Filter<p0,a0@r0>(Filter<p1,a1@r0>(r0)) => Filter<p0,a0>(r0) | AttrsEq(a0,a1) PredEq(p0,p1): SELECT id FROM o WHERE k = 1 AND k = 1
-: Filter<p0,a0@r0>(Filter<p1,a1@r0>(r0)) => Filter<p0,a0>(r0) | AttrsEq(a0,a1) PredEq(p0,p1): SELECT id FROM o WHERE k = 1 AND k = 2
-: Filter<p0,a0@r0>(Filter<p1,a1@r0>(r0)) => Filter<p0,a0>(r0) | AttrsEq(a0,a1) PredEq(p0,p1): SELECT id FROM o WHERE k = 1 AND c = 1
1: Filter<p0,a0@r0>(Filter<p1,a1@r0>(r0)) => Filter<p0,a1>(r0) | -: SELECT id FROM cust WHERE id = 1 AND age = 2
-: Filter<p0,a0@r0>(Filter<p1,a1@r0>(r0)) => Filter<p0,a1>(r0) | -: SELECT id FROM cust WHERE id = 1 AND name = 'n'
1: LeftJoin<a0@r0,a1@r1>(r0,r1) => r0 | -: SELECT o.id FROM o LEFT JOIN cust ON o.c = cust.id
-: LeftJoin<a0@r0,a1@r1>(r0,r1) => r0 | -: SELECT cust.id FROM o LEFT JOIN cust ON o.c = cust.id
0: Proj<a0@r0>(LeftJoin<a1@r0,a2@r1>(r0,r1)) => Proj<a1>(r0) | -: SELECT o.id FROM o LEFT JOIN cust ON o.c = cust.id
-: Proj<a0@r0>(LeftJoin<a1@r0,a2@r1>(r0,r1)) => Proj<a1>(r0) | -: SELECT o.id, o.k FROM o LEFT JOIN cust ON o.c = cust.id";

// The first statement of a text.
fn first(alloc: Global, text: &str) -> Result<Box<Query>, QueryError>
    ensures { IfOk result (λ q. IsLawful (query_tree q.value)) }
{
    match read_queries(alloc, text.as_bytes()) {
        Err(_) => Err(QueryError::Memory),
        Ok(queries) => {
            if queries.count() == 0 {
                Err(QueryError::Memory)
            } else {
                queries.get(alloc, 0)
            }
        }
    }
}

// The plan of a query. Want of memory stands for a query that is refused.
#[tactic(auto, using(crate::proofs::Small::few_items))]
fn query_plan(alloc: Global, schema: &Schema, query: &Query) -> Result<Plan, AllocError>
    requires { IsLawful (query_tree query.now) }
    ensures { IfOk result (λ plan. Narrow (plan_tree plan)) }
{
    match plan_of(alloc, schema, query) {
        Ok(named) => Ok(named.plan),
        Err(_) => Err(AllocError),
    }
}

// The plan of a statement.
fn plan(alloc: Global, schema: &Schema, text: &str) -> Result<Plan, AllocError>
    ensures { IfOk result (λ plan. Narrow (plan_tree plan)) }
{
    match first(alloc, text) {
        Err(_) => Err(AllocError),
        Ok(query) => query_plan(alloc, schema, &query),
    }
}

// The rule of a line.
fn rule(alloc: Global, line: &str) -> Result<Rule, AllocError>
    ensures { IfOk result (λ rule. pairs.IsLawful (pair_of rule.pair)) }
{
    match read_line(alloc, line.as_bytes(), Version::One) {
        Ok(rule) => Ok(rule),
        Err(_) => Err(AllocError),
    }
}

// Whether the digit of a node stands in a text.
fn names(nodes: &str, node: u32) -> bool {
    nodes
        .as_bytes()
        .iter()
        .any(|digit| u32::from(*digit) == node.saturating_add(48))
}

// Whether a rule matches at these nodes of a plan alone.
fn matches_at(
    alloc: Global,
    schema: &Schema,
    rule: &Rule,
    plan: &Plan,
    nodes: &str,
) -> Result<bool, AllocError>
    requires lawful { pairs.IsLawful (pair_of rule.now.pair) }
    requires narrow { Narrow (plan_tree plan.now) }
{
    let facts = Known::new(schema);
    for node in 0..plan.node_count() {
        if match_at(alloc, &facts, rule, plan, node)?.is_some() != names(nodes, node) {
            return Ok(false);
        }
    }
    Ok(true)
}

// Whether the rule of a row matches at the row's nodes alone.
fn holds(alloc: Global, schema: &Schema, row: &str) -> Result<bool, AllocError> {
    let Some((nodes, rest)) = row.split_once(": ") else {
        return Err(AllocError);
    };
    let Some((line, statement)) = rest.split_once(": ") else {
        return Err(AllocError);
    };
    let rule = rule(alloc, line)?;
    matches_at(
        alloc,
        schema,
        &rule,
        &plan(alloc, schema, statement)?,
        nodes,
    )
}

#[test]
fn rules_match_where_they_may_be_applied(rt: HostRuntime) -> Result<(), Fail> {
    let schema = read_schema(rt.alloc(), SCHEMA.as_bytes())?;
    for row in MATCHES.lines() {
        assert!(rt; holds(rt.alloc(), &schema, row)?, "{row}");
    }
    Ok(())
}
