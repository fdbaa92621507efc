ghost use Rattle.std.specs.Prelude.{◌≡◌, IfOk};
ghost use Rattle.wt_ast.specs.Tree.{condition_tree, condition_trees, conditions_tree};

use std::alloc::{AllocError, Global};
use wt_value::{Name, Names, Seq, Value, Values};

/// A column by its name, or by the alias of its FROM item and its name. `at` is the offset of the first of them.
#[derive(Clone, Debug, PartialEq, Eq, Drop)]
pub struct ColumnName {
    pub table: Option<Name>,
    pub name: Name,
    pub at: u32,
}

/// Columns in order.
pub type ColumnNames = Seq<ColumnName>;

/// One item of a SELECT list: `*`, `alias.*`, or a column with the name after AS, if one is written.
#[derive(Clone, Debug, PartialEq, Eq, Drop)]
pub enum Item {
    Star {
        at: u32,
    },
    AllOf {
        alias: Name,
        at: u32,
    },
    Column {
        column: ColumnName,
        output: Option<Name>,
    },
}

/// A SELECT list.
pub type Items = Seq<Item>;

/// How two operands are compared: `=`, `<>` or `!=`, `<`, `<=`, `>`, `>=`.
#[derive(Clone, Copy, Debug, PartialEq, Eq)]
pub enum CmpWord {
    Eq,
    Ne,
    Lt,
    Le,
    Gt,
    Ge,
}

/// An operand of a comparison: a column, or a number or text with the offset of its first token.
#[derive(Clone, Debug, PartialEq, Eq, Drop)]
pub enum Scalar {
    Column(ColumnName),
    Literal(Value, u32),
}

/// A query: `SELECT [DISTINCT] items FROM from [WHERE filter]`.
#[cycle(tree)]
#[derive(Drop)]
pub struct Query {
    pub distinct: bool,
    pub items: Items,
    pub from: FromPart,
    pub filter: Option<Condition>,
}

/// What stands behind FROM: a table, a query in parentheses, two such parts that are joined, or a list with commas, whose
/// left operand is the list before its last comma. Parentheses round a join leave no trace.
///
/// `at` is the offset of a table's name and of a query's opening parenthesis; `alias_at` that of the alias, or of the
/// table's name where no alias is written; `on_at` that of ON, and `comma_at` that of the comma.
#[cycle(tree)]
pub enum FromPart {
    Table {
        name: Name,
        alias: Option<Name>,
        at: u32,
        alias_at: u32,
    },
    Derived {
        query: Box<Query>,
        alias: Name,
        columns: Option<Names>,
        at: u32,
        alias_at: u32,
    },
    Inner {
        left: Box<FromPart>,
        right: Box<FromPart>,
        on: Condition,
        on_at: u32,
    },
    Left {
        left: Box<FromPart>,
        right: Box<FromPart>,
        on: Condition,
        on_at: u32,
    },
    Right {
        left: Box<FromPart>,
        right: Box<FromPart>,
        on: Condition,
        on_at: u32,
    },
    Comma {
        left: Box<FromPart>,
        right: Box<FromPart>,
        comma_at: u32,
    },
}

/// A condition, with the offset of its first token. Parentheses that open a nested condition leave no trace and are not
/// counted.
#[cycle(tree)]
#[derive(Drop)]
pub struct Condition {
    pub at: u32,
    pub kind: CondKind,
}

/// The kinds of conditions. The offset is that of the comparison, of IN or of BETWEEN.
#[cycle(tree)]
#[derive(Drop)]
pub enum CondKind {
    Compare(CmpWord, Scalar, Scalar, u32),
    IsNull(ColumnName),
    IsNotNull(ColumnName),
    InList(ColumnName, Values, u32),
    InQuery(ColumnNames, Box<Query>, u32),
    And(Conditions),
    Or(Conditions),
    Not(Box<Condition>),
}

/// Conditions in order: none, or a first one and the others.
#[cycle(tree)]
pub enum Conditions {
    Empty,
    More(Box<Condition>, Box<Conditions>),
}

// A run of AND or OR has thousands of parts, and a FROM clause thousands of joins or commas, each in the left operand of the next:
// both are dropped by a loop, which takes no stack for them.
impl Drop for Conditions {
    #[cycle(tree)]
    fn drop(mut self) {
        loop {
            match self {
                Conditions::Empty => return,
                Conditions::More(_, rest) => self = Box::into_inner(rest),
            }
        }
    }
}

impl Drop for FromPart {
    #[cycle(tree)]
    fn drop(mut self) {
        loop {
            match self {
                FromPart::Table {
                    name: _,
                    alias: _,
                    at: _,
                    alias_at: _,
                } => return,
                FromPart::Derived {
                    query: _,
                    alias: _,
                    columns: _,
                    at: _,
                    alias_at: _,
                } => return,
                FromPart::Inner {
                    left,
                    right: _,
                    on: _,
                    on_at: _,
                } => self = Box::into_inner(left),
                FromPart::Left {
                    left,
                    right: _,
                    on: _,
                    on_at: _,
                } => self = Box::into_inner(left),
                FromPart::Right {
                    left,
                    right: _,
                    on: _,
                    on_at: _,
                } => self = Box::into_inner(left),
                FromPart::Comma {
                    left,
                    right: _,
                    comma_at: _,
                } => self = Box::into_inner(left),
            }
        }
    }
}

impl Conditions {
    /// These conditions as a list. It is built from the last one back.
    pub fn from_vec(alloc: Global, mut parts: Vec<Condition>) -> Result<Conditions, AllocError>
        ensures { IfOk result (λ list. conditions_tree list ≡ condition_trees parts.items) }
    {
        let mut list = Conditions::Empty;
        'parts: while let Some(part) = parts.pop() {
            list = Conditions::More(Box::new(alloc, part)?, Box::new(alloc, list)?);
        }
        Ok(list)
    }
}
