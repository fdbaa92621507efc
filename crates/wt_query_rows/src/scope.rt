use wt_value::Name;

/// A column in scope: the alias of its FROM item, and its name.
#[derive(Clone, Debug, PartialEq, Eq, Drop)]
pub struct ScopeColumn {
    pub alias: Name,
    pub name: Name,
}
