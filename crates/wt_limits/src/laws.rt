//! What the reader's limits say of a query.
ghost use Rattle.std.specs.Prelude.{◌≤◌};
ghost use Rattle.wt_ast.specs.Tree.{QueryTree};
ghost use Rattle.wt_ast.specs.Lawful.{IsLawful};
ghost use Rattle.wt_query_bounds.specs.Bounds.{items_in, conjuncts_in};

/// A law: a lawful query, as each is that was read, has at most 256 FROM items and at most 256 conjuncts, those of all queries
/// inside counted.
pub fn lawful_queries_are_small()
    ensures items { (q : QueryTree) → IsLawful q → items_in q ≤ 256 }
    ensures conjuncts { (q : QueryTree) → IsLawful q → conjuncts_in q ≤ 256 }
{}
