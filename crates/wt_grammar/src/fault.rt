/// Why a statement is refused.
#[derive(Clone, Copy, Debug, PartialEq, Eq)]
pub enum QueryFault {
    /// A token that the grammar does not have there, for no other reason that has a name.
    Syntax,
    /// The statement begins with another word than SELECT.
    NotSelect,
    With,
    GroupBy,
    Having,
    /// UNION, INTERSECT or EXCEPT.
    SetOperation,
    OrderBy,
    /// LIMIT, OFFSET or FETCH.
    Limit,
    Window,
    Exists,
    /// `NOT IN` before a query.
    NotInSubquery,
    /// `x IN (query)` below OR or NOT.
    InUnderOr,
    /// A query as an operand or an item.
    Subquery,
    Arithmetic,
    /// A name that is called.
    Function,
    /// LIKE, ILIKE or SIMILAR.
    Like,
    Case,
    /// CAST or `::`.
    Cast,
    /// `?`, `$` or `:`.
    Parameter,
    /// NULL, TRUE or FALSE as an operand, or a literal in the SELECT list.
    Literal,
    FullJoin,
    CrossJoin,
    NaturalJoin,
    Using,
    /// A comma inside parentheses round a join.
    CommaJoin,
    /// More than 32 open parentheses and pending NOTs.
    TooDeep,
    /// More than 256 FROM items, or more than 256 conjuncts.
    TooMany,
    /// More than 65,536 bytes.
    TooLong,
}
