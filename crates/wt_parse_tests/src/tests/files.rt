//! Files as lists of statements, and numbers at the ends of their range.

use crate::tests::refusal;
use std::test::Fail;
use wt_lex::LexFault;
use wt_parse::{QueryError, QueryFault, read_queries};

#[test]
fn files_fall_into_statements(rt: HostRuntime) -> Result<(), Fail> {
    let alloc = rt.alloc();
    let five = b"SELECT o.id FROM o ORDER BY o.id;
SELECT o.id FROM o WHERE o.c NOT IN (SELECT cust.id FROM cust);
SELECT o.id FROM o WHERE EXISTS (SELECT cust.id FROM cust);
SELECT o.id FROM o WHERE o.k = 1 OR o.c IN (SELECT cust.id FROM cust);
SELECT o.k FROM o;
";
    for (n, wanted) in [
        (0, Some(QueryError::Refused(QueryFault::OrderBy, 19))),
        (1, Some(QueryError::Refused(QueryFault::NotInSubquery, 63))),
        (2, Some(QueryError::Refused(QueryFault::Exists, 123))),
        (3, Some(QueryError::Refused(QueryFault::InUnderOr, 198))),
        (4, None),
    ] {
        assert_eq!(rt; refusal(alloc, five, n), wanted, "at {n}");
    }
    for (text, wanted) in [
        ("", 0),
        (";; /* ; */ ;", 0),
        ("SELECT a FROM o", 1),
        ("; SELECT a FROM o;;SELECT ';' FROM o; -- ;\n ;", 2),
    ] {
        assert_eq!(rt;
            read_queries(alloc, text.as_bytes()).map(|q| q.count()),
            Ok(wanted),
            "in {text}"
        );
    }
    assert_eq!(rt;
        refusal(alloc, b"'", 0),
        Some(QueryError::Lex(LexFault::OpenQuote, 0))
    );
    assert_eq!(rt;
        refusal(alloc, &[255], 0),
        Some(QueryError::Lex(LexFault::NotText, 0))
    );
    assert_eq!(rt;
        refusal(alloc, b"SELECT a FROM o; SELECT 1.5", 1),
        Some(QueryError::Lex(LexFault::BadCharacter, 25))
    );
    Ok(())
}

#[test]
fn numbers_are_in_range(rt: HostRuntime) {
    let alloc = rt.alloc();
    let out_of_range = Some(QueryError::Lex(LexFault::NumberRange, 30));
    for (text, wanted) in [
        ("SELECT t.a FROM t WHERE t.a = 9223372036854775807;", None),
        ("SELECT t.a FROM t WHERE t.a = -9223372036854775808;", None),
        (
            "SELECT t.a FROM t WHERE t.a = 9223372036854775808;",
            out_of_range,
        ),
        (
            "SELECT t.a FROM t WHERE t.a = 9223372036854775809 ORDER BY t.a;",
            out_of_range,
        ),
        (
            "SELECT t.a FROM t WHERE a IN (9223372036854775808, 1);",
            out_of_range,
        ),
        (
            "SELECT t.a FROM t WHERE a IN (-9223372036854775808, 1);",
            None,
        ),
    ] {
        assert_eq!(rt; refusal(alloc, text.as_bytes(), 0), wanted, "in {text}");
    }
}
