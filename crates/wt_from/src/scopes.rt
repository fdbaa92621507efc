//! The columns in scope of a part of a FROM clause.
ghost use Rattle.std.specs.Prelude.{◌≤◌, take, drop, length};
ghost use Rattle.wt_clause.specs.Items.{IsPart};

use wt_resolve::Scope;

/// The scopes of two operands, the left one of so many items and columns.
pub fn split<'a>(scope: &Scope<'a>, items: usize, columns: usize) -> (Scope<'a>, Scope<'a>)
    requires items { items ≤ length scope.now.items.now }
    requires columns { columns ≤ length scope.now.kinds.now }
    ensures left { IsPart scope.now (take items scope.now.items.now) (take columns scope.now.kinds.now) result.0 }
    ensures right { IsPart scope.now (drop items scope.now.items.now) (drop columns scope.now.kinds.now) result.1 }
{
    let before = Scope {
        schema: scope.schema,
        outer: scope.outer,
        items: &scope.items[..items],
        kinds: &scope.kinds[..columns],
    };
    let behind = Scope {
        schema: scope.schema,
        outer: scope.outer,
        items: &scope.items[items..],
        kinds: &scope.kinds[columns..],
    };
    (before, behind)
}
