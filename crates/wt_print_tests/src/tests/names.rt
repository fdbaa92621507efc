//! Names in quotes and without them, and texts.
use super::first_other;

// Statements, and the lines that they are printed as.
const ROWS: &[(&str, &str)] = &[
    ("SELECT \"a\".\"x_1\" FROM \"a\"", "SELECT a.x_1 FROM a;"),
    (
        "SELECT \"A\".\"x y\" FROM \"A\"",
        "SELECT \"A\".\"x y\" FROM \"A\";",
    ),
    (
        "SELECT \"select\".\"Select\" FROM \"select\"",
        "SELECT \"select\".\"Select\" FROM \"select\";",
    ),
    (
        "SELECT \"1a\", \"_1\", \"a-b\" FROM \"window\" \"with\"",
        "SELECT \"1a\", _1, \"a-b\" FROM \"window\" AS \"with\";",
    ),
    (
        "SELECT \"a\"\"b\" FROM \"\"\"\"",
        "SELECT \"a\"\"b\" FROM \"\"\"\";",
    ),
    (
        "SELECT \"a\nb\" AS \"é\" FROM t",
        "SELECT \"a\nb\" AS \"é\" FROM t;",
    ),
    (
        "SELECT x FROM (SELECT y FROM t) \"D\" (\"table\", \"b\")",
        "SELECT x FROM (SELECT y FROM t) AS \"D\" (\"table\", b);",
    ),
    ("SELECT \"T\".* FROM \"T\"", "SELECT \"T\".* FROM \"T\";"),
    (
        "SELECT x FROM t WHERE x = 'it''s'",
        "SELECT x FROM t WHERE x = 'it''s';",
    ),
    (
        "SELECT x FROM t WHERE x = '' AND y = '''' AND z = 'a\nb'",
        "SELECT x FROM t WHERE x = '' AND y = '''' AND z = 'a\nb';",
    ),
    (
        "SELECT x FROM t WHERE x IN ('é;', '--', '\"')",
        "SELECT x FROM t WHERE x IN ('é;', '--', '\"');",
    ),
];

#[test]
fn names_and_texts_are_printed(rt: HostRuntime) {
    assert_eq!(rt; first_other(rt.alloc(), ROWS), None);
}
