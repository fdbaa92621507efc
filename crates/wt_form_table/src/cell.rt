//! Entries of a table of forms.
ghost use Rattle.std.specs.Prelude.{◌≡◌};
ghost use Rattle.wt_form_table.specs.Entries.{columns_of, value_of};

use wt_form::Expr;
use wt_symbol::PartCols;

/// Columns of a part, as an entry has them.
#[derive(Clone, Copy, Debug, PartialEq, Eq, Hash)]
pub enum Columns {
    Whole,
    List(u8),
}

/// An expression, as an entry has it.
#[derive(Clone, Copy, Debug, PartialEq, Eq, Hash)]
pub enum Value {
    Of(u32, u32, Columns),
    Null(u8, Columns),
}

/// A condition, expressions and forms by their numbers.
#[derive(Clone, Copy, Debug, PartialEq, Eq, Hash)]
pub enum Test {
    Pred(u8, usize),
    Join(usize, usize),
    In(usize, usize),
    NotIn(usize, usize),
}

/// The first element of another list: a part of a head, a range over a leaf or over the form of a
/// number, or a piece by the number of its expression.
#[derive(Clone, Copy, Debug, PartialEq, Eq, Hash)]
pub enum Front {
    Part(u8, Columns),
    Leaf(u8),
    Distinct(usize),
    Piece(usize),
}

/// A form or a list, what it has by numbers.
#[derive(Clone, Copy, Debug, PartialEq, Eq, Hash)]
pub enum Entry {
    /// The end of each list.
    End,
    /// A head and terms.
    Form(usize, usize),
    /// The ranges, conditions and pieces of a term, and the terms after it.
    Term(usize, usize, usize, usize),
    /// The first element of a list, and the list after it.
    Then(usize, usize),
}

pub(crate) fn part_columns(cols: PartCols) -> Columns
    ensures { result ≡ columns_of cols }
{
    match cols {
        PartCols::Whole => Columns::Whole,
        PartCols::List(a) => Columns::List(a),
    }
}

pub(crate) fn expr_value(x: Expr) -> Value
    ensures { result ≡ value_of x }
{
    match x {
        Expr::Of(v, i, cols) => Value::Of(v, i, part_columns(cols)),
        Expr::Null(r, cols) => Value::Null(r, part_columns(cols)),
    }
}
