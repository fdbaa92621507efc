//! The names of the three files of `rewrite`.

/// The names of the files of rules, of the schema and of the statements.
#[derive(Clone, Copy, Debug)]
pub struct Names<'a> {
    pub rules: &'a str,
    pub schema: &'a str,
    pub queries: &'a str,
}
