//! Where a schema's first fault stands, and which it is.

use std::alloc::Global;
use wt_ddl::{DdlError, DdlFault, read_schema};
use wt_lex::LexFault;

static ROWS: [(&str, DdlFault, u32); 38] = [
    (
        "CREATE TABLE t (a INTEGER CHECK (a > 0));",
        DdlFault::UnsupportedClause,
        26,
    ),
    (
        "CREATE INDEX i ON t (a);",
        DdlFault::UnsupportedStatement,
        0,
    ),
    (
        "CREATE TABLE a (x INTEGER REFERENCES b (y)); CREATE TABLE b (y INTEGER);",
        DdlFault::ReferenceNotKey,
        37,
    ),
    ("CREATE TABLE t (a INT(11))", DdlFault::Syntax, 21),
    ("CREATE TABLE", DdlFault::Syntax, 12),
    ("CREATE TABLE t (a INT,)", DdlFault::Syntax, 22),
    ("CREATE TABLE t (a CHARACTER(4))", DdlFault::Syntax, 27),
    (
        "CREATE TABLE t (a INT NOT DEFERRABLE)",
        DdlFault::Syntax,
        26,
    ),
    (
        "CREATE TABLE t (UNIQUE (a) DEFERRABLE, a INT)",
        DdlFault::Syntax,
        27,
    ),
    (
        "CREATE TABLE t (a INT, CONSTRAINT c DEFERRABLE)",
        DdlFault::Syntax,
        36,
    ),
    (
        "CREATE TABLE t (a INT PRIMARY x, b INT PRIMARY KEY)",
        DdlFault::Syntax,
        30,
    ),
    ("CREATE", DdlFault::UnsupportedStatement, 0),
    (
        "; ( CREATE TABLE t (a INT)",
        DdlFault::UnsupportedStatement,
        2,
    ),
    ("CREATE TABLE t (a NOT NULL)", DdlFault::UnsupportedType, 18),
    (
        "CREATE TABLE t (a DECIMAL(4, 2))",
        DdlFault::UnsupportedType,
        18,
    ),
    (
        "CREATE TABLE t (a INT DEFAULT 1)",
        DdlFault::UnsupportedClause,
        22,
    ),
    (
        "CREATE TABLE t (a INT, CHECK (a > 0))",
        DdlFault::UnsupportedClause,
        23,
    ),
    (
        "CREATE TABLE t (a INT, CONSTRAINT c CHECK (a > 0))",
        DdlFault::UnsupportedClause,
        36,
    ),
    (
        "CREATE TABLE t (a INT REFERENCES t ON DELETE SET DEFAULT)",
        DdlFault::UnsupportedClause,
        49,
    ),
    (
        "CREATE TABLE t (a INT REFERENCES t MATCH FULL)",
        DdlFault::UnsupportedClause,
        41,
    ),
    (
        "CREATE TABLE t (a INT, FOREIGN KEY (a) REFERENCES t NOT DEFERRABLE)",
        DdlFault::UnsupportedClause,
        52,
    ),
    (
        "CREATE TABLE t (a INT); CREATE TABLE T (b INT);",
        DdlFault::DuplicateTable,
        37,
    ),
    (
        "CREATE TABLE \"t\" (a INT); CREATE TABLE u (b INT); CREATE TABLE t",
        DdlFault::DuplicateTable,
        63,
    ),
    (
        "CREATE TABLE t (a INT, b INT, A",
        DdlFault::DuplicateColumn,
        30,
    ),
    (
        "CREATE TABLE t (a INT, UNIQUE (a, a))",
        DdlFault::DuplicateColumn,
        34,
    ),
    (
        "CREATE TABLE t (a INT, UNIQUE (b), FOREIGN KEY (c) REFERENCES t)",
        DdlFault::UnknownColumn,
        31,
    ),
    (
        "CREATE TABLE t (a INT UNIQUE); CREATE TABLE u (b INT REFERENCES t (c))",
        DdlFault::UnknownColumn,
        67,
    ),
    (
        "CREATE TABLE t (a INT REFERENCES u)",
        DdlFault::UnknownTable,
        33,
    ),
    (
        "CREATE TABLE t (a INT REFERENCES t (a)); CREATE TABLE u (b INT REFERENCES v (w))",
        DdlFault::ReferenceNotKey,
        33,
    ),
    (
        "CREATE TABLE t (a INT UNIQUE REFERENCES t (a)); CREATE TABLE u (b INT REFERENCES v (w))",
        DdlFault::UnknownTable,
        81,
    ),
    (
        "CREATE TABLE t (a INT PRIMARY KEY PRIMARY KEY)",
        DdlFault::SecondPrimaryKey,
        34,
    ),
    (
        "CREATE TABLE t (a INT PRIMARY KEY, PRIMARY KEY (z))",
        DdlFault::SecondPrimaryKey,
        35,
    ),
    (
        "CREATE TABLE t (a INT REFERENCES t)",
        DdlFault::ReferenceNotKey,
        33,
    ),
    (
        "CREATE TABLE t (a INT PRIMARY KEY, b INT, FOREIGN KEY (a, b) REFERENCES t (a, a))",
        DdlFault::ReferenceNotKey,
        72,
    ),
    (
        "CREATE TABLE t (a INT PRIMARY KEY, b TEXT REFERENCES t)",
        DdlFault::ReferenceTypes,
        53,
    ),
    (
        "CREATE TABLE t (a INT, b TEXT, UNIQUE (a, b), FOREIGN KEY (b, a) REFERENCES t (a, b))",
        DdlFault::ReferenceTypes,
        76,
    ),
    (
        "CREATE TABLE t (a INT PRIMARY KEY, b INT, FOREIGN KEY (a, b) REFERENCES t)",
        DdlFault::ReferenceWidth,
        72,
    ),
    (
        "CREATE TABLE t (a INT PRIMARY KEY, b INT REFERENCES t (a, z))",
        DdlFault::ReferenceWidth,
        52,
    ),
];

static TOKENS: [(&str, LexFault, u32); 4] = [
    ("CREATE INDEX i; #", LexFault::BadCharacter, 16),
    (
        "CREATE TABLE t (a VARCHAR(9223372036854775808))",
        LexFault::NumberRange,
        26,
    ),
    (
        "CREATE TABLE t (a VARCHAR(99999999999999999999), # INT)",
        LexFault::NumberRange,
        26,
    ),
    ("#'", LexFault::OpenQuote, 1),
];

fn error_of(alloc: Global, text: &str) -> Option<DdlError> {
    match read_schema(alloc, text.as_bytes()) {
        Err(error) => Some(error),
        Ok(_) => None,
    }
}

#[test]
fn faults_stand_at_their_words(rt: HostRuntime) {
    for (text, fault, at) in ROWS {
        assert!(rt;
            error_of(rt.alloc(), text) == Some(DdlError::Fault(fault, at)),
            "in {text}"
        );
    }
}

#[test]
fn tokens_are_refused_first(rt: HostRuntime) {
    for (text, fault, at) in TOKENS {
        assert!(rt;
            error_of(rt.alloc(), text) == Some(DdlError::Lex(fault, at)),
            "in {text}"
        );
    }
}
