//! Each form of query, of FROM and of condition.
use super::{first_changed, first_other};

// Lines as they are printed.
const LINES: &[&str] = &[
    "SELECT q0.w AS w FROM a AS q0 LEFT JOIN b AS q1 ON q0.x = q1.x AND q1.y = 1 WHERE q0.w > 0 AND q1.z = 2;",
    "SELECT * FROM o AS q0 INNER JOIN cust AS q1 ON q0.d = q1.id;",
    "SELECT q0.c0 AS x FROM (SELECT q1.k, q1.c FROM o AS q1) AS q0 (c0, c1) WHERE q0.c1 = 7;",
    "SELECT * FROM (SELECT * FROM cust AS q1) AS q0 (i, j);",
    "SELECT q0.a AS a FROM t AS q0 WHERE q0.a = 9223372036854775807;",
    "SELECT q0.a AS a FROM t AS q0 WHERE q0.a = -9223372036854775808;",
    "SELECT q0.a AS a FROM t AS q0 WHERE q0.a = 1;",
    "SELECT q0.id AS id, q1.name AS name FROM o AS q0 INNER JOIN cust AS q1 ON q0.c = q1.id WHERE q0.k = 1;",
    "SELECT q1.id AS id, q1.c AS c, q0.name AS name FROM cust AS q0 LEFT JOIN o AS q1 ON q0.id = q1.c;",
    "SELECT DISTINCT q0.k AS k FROM o AS q0;",
    "SELECT * FROM a INNER JOIN (b LEFT JOIN c ON b.x = c.x) ON a.x = b.x;",
    "SELECT * FROM (SELECT DISTINCT a.x FROM a INNER JOIN b ON a.x = b.x WHERE a.y IS NULL) AS d LEFT JOIN c ON d.x = c.x;",
    "SELECT * FROM a RIGHT JOIN b ON a.x = b.x, (SELECT * FROM c) AS d (x), e AS f WHERE d.x = a.x AND f.x = b.x;",
    "SELECT a.x FROM a WHERE a.x IN (SELECT b.x FROM b WHERE (b.y, b.z) IN (SELECT * FROM c));",
    "SELECT a.x FROM a LEFT JOIN b ON a.x = b.x AND b.y IN (SELECT c.y FROM c) AND (b.z = 1 OR b.z = 2);",
    "SELECT a.x FROM a WHERE (a.x = 1 OR a.y = 2);",
    "SELECT a.x FROM a WHERE (a.x = 1 OR (a.y = 2 AND a.z = 3) OR (NOT a.z = 4));",
    "SELECT a.x FROM a WHERE NOT a.x = 1 AND (a.y = 2 OR a.z = 3) AND NOT (NOT a.z = 4);",
    "SELECT a.x FROM a WHERE NOT (a.x = 1 AND (a.y = 2 OR (NOT (a.z = 3 OR a.z = 4))));",
    "SELECT a.x FROM a WHERE a.x IN (1, -2, 'three') AND NOT a.y IN (4);",
    "SELECT a.x FROM a WHERE 1 < a.x AND a.y <> 'b' AND a.z IS NOT NULL AND a.z <= a.y AND a.x >= 0;",
];

#[test]
fn printed_lines_are_printed_to_themselves(rt: HostRuntime) {
    assert_eq!(rt; first_changed(rt.alloc(), LINES), None);
}

// Statements, and the lines that they are printed as.
const ROWS: &[(&str, &str)] = &[
    ("select all A.X from A", "SELECT a.x FROM a;"),
    (
        "SELECT a.x y, a.z AS \"Z\" FROM a b",
        "SELECT a.x AS y, a.z AS \"Z\" FROM a AS b;",
    ),
    (
        "SELECT a.* FROM a JOIN (b) ON a.x = b.x",
        "SELECT a.* FROM a INNER JOIN b ON a.x = b.x;",
    ),
    (
        "SELECT x FROM (a LEFT OUTER JOIN b ON a.x=b.x) JOIN (c JOIN d ON c.x=d.x) ON a.x=c.x",
        "SELECT x FROM a LEFT JOIN b ON a.x = b.x INNER JOIN (c INNER JOIN d ON c.x = d.x) ON a.x = c.x;",
    ),
    (
        "SELECT x FROM (SELECT y FROM a) b (x) WHERE x BETWEEN 1 AND 2 OR x NOT BETWEEN 3 AND 4",
        "SELECT x FROM (SELECT y FROM a) AS b (x) WHERE ((x >= 1 AND x <= 2) OR (NOT (x >= 3 AND x <= 4)));",
    ),
    (
        "SELECT x FROM a WHERE x != - 5 AND ((y = 1) AND z = 'a') AND x NOT IN (1)",
        "SELECT x FROM a WHERE x <> -5 AND (y = 1 AND z = 'a') AND NOT x IN (1);",
    ),
    (
        "SELECT x FROM a /* b */ WHERE (x) IN (SELECT y FROM b) -- c",
        "SELECT x FROM a WHERE x IN (SELECT y FROM b);",
    ),
    (
        "SELECT x FROM a WHERE ((((((((((((((((((((((((((((((((x = 1))))))))))))))))))))))))))))))))",
        "SELECT x FROM a WHERE x = 1;",
    ),
];

#[test]
fn statements_are_printed(rt: HostRuntime) {
    assert_eq!(rt; first_other(rt.alloc(), ROWS), None);
}
