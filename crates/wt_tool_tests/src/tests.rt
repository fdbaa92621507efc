//! Runs of `wetune` over files in memory.
use std::alloc::Global;
use std::io;
use std::process::Abort;
use std::sync::Wait;
use std::test::Fail;
use std::thread::Threads;
use wt_io::{CallList, Files, MemFile, MemSink, MemStore, NoGate};
use wt_tool::wetune;
use wt_value::Bytes;

const NO_RULES: &[u8] = b"wetune-rules 1 steps=8\nend 0\n";

const RULES: &[u8] = b"wetune-rules 1 steps=8
Proj<a0@r0>(LeftJoin<a1@r0,a2@r1>(r0,r1)) => Proj<a0>(r0) | Unique(r1,a2)
LeftJoin<a0@r0,a1@r1>(r0,r1) => InnerJoin<a0,a1>(r0,r1) | NotNull(r0,a0) RefAttrs(r0,a0,r1,a1)
Proj<a0@r0>(InnerJoin<a1@r0,a2@r1>(r0,r1)) => Proj<a0>(InSub<a1>(r0,Proj<a2>(r1))) | Unique(r1,a2)
InSub<a0@r0>(r0,Proj<a1@r1>(r1)) => r0 | NotNull(r0,a0) RefAttrs(r0,a0,r1,a1)
Dedup(Proj<a0@r0>(r0)) => Proj<a0>(r0) | Unique(r0,a0) NotNull(r0,a0)
end 5
";

const SCHEMA: &[u8] = b"CREATE TABLE t (a INTEGER, b INTEGER);";

const ORDERS: &[u8] = b"CREATE TABLE cust (id INTEGER PRIMARY KEY, name TEXT);
CREATE TABLE o (id INTEGER PRIMARY KEY, c INTEGER REFERENCES cust (id), d INTEGER NOT NULL REFERENCES cust (id), k INTEGER UNIQUE);
";

const QUERY: &[u8] = b"SELECT t.a, t.b FROM t;";

const TWO_QUERIES: &[u8] = b"SELECT t.a, t.b FROM t;SELECT t.a, t.b FROM t;";

const LINE: &[u8] = b"SELECT q0.a AS a, q0.b AS b FROM t AS q0;\n";

const TWO_LINES: &[u8] =
    b"SELECT q0.a AS a, q0.b AS b FROM t AS q0;\nSELECT q0.a AS a, q0.b AS b FROM t AS q0;\n";

const REFUSED: &[u8] = b"SELECT o.id FROM o ORDER BY o.id;
SELECT o.id FROM o WHERE o.c NOT IN (SELECT cust.id FROM cust);
SELECT o.id FROM o WHERE EXISTS (SELECT cust.id FROM cust);
SELECT o.id FROM o WHERE o.k = 1 OR o.c IN (SELECT cust.id FROM cust);
SELECT o.k FROM o;
";

const REFUSED_LINES: &[u8] = b"-- refused OrderBy at 19
-- refused NotInSubquery at 63
-- refused Exists at 123
-- refused InUnderOr at 198
SELECT q0.k AS k FROM o AS q0;
";

fn file(alloc: Global, name: &str, bytes: &[u8]) -> io::Result<MemFile> {
    Ok(MemFile {
        name: String::from_str(alloc, name)?,
        bytes: Bytes::from_vec(Vec::from_slice(alloc, bytes)?),
    })
}

fn store(alloc: Global, schema: &[u8], queries: &[u8], failing_read: u64) -> io::Result<MemStore> {
    let mut files = Files::new(alloc);
    files.push(file(alloc, "A", NO_RULES)?)?;
    files.push(file(alloc, "R", RULES)?)?;
    files.push(file(alloc, "S", schema)?)?;
    files.push(file(alloc, "Q", queries)?)?;
    Ok(MemStore::new(files, 65_536, calls(alloc, failing_read)?))
}

fn calls(alloc: Global, call: u64) -> io::Result<CallList> {
    let mut calls = CallList::new(alloc);
    calls.push(call)?;
    Ok(calls)
}

fn words(alloc: Global, text: &str) -> io::Result<Vec<String>> {
    let mut words = Vec::new(alloc);
    for word in text.split_whitespace() {
        words.push(String::from_str(alloc, word)?)?;
    }
    Ok(words)
}

/// A run, and what it must answer. A failing call is a number from 1, or 0 for none.
#[derive(Clone, Copy)]
struct Case<'a> {
    words: &'a str,
    schema: &'a [u8],
    queries: &'a [u8],
    failing_read: u64,
    failing_write: u64,
    status: u8,
    written: &'a [u8],
}

fn run<R: Threads + Wait + Sync + Abort + AllocGlobal>(
    rt: &R,
    case: &Case<'_>,
    sink: &mut MemSink,
) -> Result<u8, Fail> {
    let alloc = rt.alloc();
    let words = words(alloc, case.words)?;
    let mut store = store(alloc, case.schema, case.queries, case.failing_read)?;
    Ok(wetune(rt, alloc, &words, &mut store, sink, &NoGate))
}

/// Whether the run has the status and writes the bytes.
fn answers<R: Threads + Wait + Sync + Abort + AllocGlobal>(
    rt: &R,
    case: &Case<'_>,
) -> Result<bool, Fail> {
    let mut sink = MemSink::new(rt.alloc(), 262_144, calls(rt.alloc(), case.failing_write)?)?;
    let status = run(rt, case, &mut sink)?;
    Ok(status == case.status && sink.as_bytes() == case.written)
}

/// Whether these statements, over this schema, have the status and the lines.
fn rewrites<R: Threads + Wait + Sync + Abort + AllocGlobal>(
    rt: &R,
    schema: &[u8],
    queries: &[u8],
    status: u8,
    written: &[u8],
) -> Result<bool, Fail> {
    answers(
        rt,
        &Case {
            words: "rewrite A S Q",
            schema,
            queries,
            failing_read: 0,
            failing_write: 0,
            status,
            written,
        },
    )
}

/// Whether these words, over the files of the first example, have the status and write the bytes.
fn says<R: Threads + Wait + Sync + Abort + AllocGlobal>(
    rt: &R,
    words: &str,
    failing_read: u64,
    failing_write: u64,
    status: u8,
    written: &[u8],
) -> Result<bool, Fail> {
    answers(
        rt,
        &Case {
            words,
            schema: SCHEMA,
            queries: TWO_QUERIES,
            failing_read,
            failing_write,
            status,
            written,
        },
    )
}

#[test]
fn rewrites_statements(rt: HostRuntime) -> Result<(), Fail> {
    for (queries, written) in [
        (QUERY, LINE),
        (b"", b""),
        (b" ;; \n-- nothing\n", b""),
        (b"SELECT t.a, t.b FROM t;SELECT t.a, t.b FROM t;", TWO_LINES),
        (
            b"select T.B from /* a comment */ T",
            b"SELECT q0.b AS b FROM t AS q0;\n",
        ),
        (
            b"SELECT DISTINCT a AS c FROM t WHERE b = 1",
            b"SELECT DISTINCT q0.a AS c FROM t AS q0 WHERE q0.b = 1;\n",
        ),
    ] {
        assert!(rt; rewrites(&rt, SCHEMA, queries, 0, written)?);
    }
    Ok(())
}

/// Whether this statement over the orders' schema is printed so by the five rules.
fn rewrites_by_rules<R: Threads + Wait + Sync + Abort + AllocGlobal>(
    rt: &R,
    schema: &[u8],
    queries: &[u8],
    written: &[u8],
) -> Result<bool, Fail> {
    answers(
        rt,
        &Case {
            words: "rewrite R S Q",
            schema,
            queries,
            failing_read: 0,
            failing_write: 0,
            status: 0,
            written,
        },
    )
}

const ISSUES: &[u8] =
    b"CREATE TABLE \"projects\" (\"id\" BIGINT PRIMARY KEY, \"archived\" INTEGER NOT NULL); CREATE TABLE \"users\" (\"id\" BIGINT PRIMARY KEY); CREATE TABLE \"issues\" (\"id\" BIGINT PRIMARY KEY, \"project_id\" BIGINT NOT NULL REFERENCES \"projects\" (\"id\") ON DELETE CASCADE, \"assignee_id\" BIGINT, \"status\" INTEGER NOT NULL, \"title\" VARCHAR(255) NOT NULL);";

#[test]
fn rewrites_statements_by_rules(rt: HostRuntime) -> Result<(), Fail> {
    for (queries, written) in [
        (
            b"SELECT o.id FROM o LEFT JOIN cust ON o.c = cust.id;".as_slice(),
            b"SELECT q0.id AS id FROM o AS q0;\n".as_slice(),
        ),
        (
            b"SELECT o.id FROM o INNER JOIN cust ON o.c = cust.id;",
            b"SELECT q0.id AS id FROM o AS q0 WHERE q0.c IN (SELECT q1.id FROM cust AS q1);\n",
        ),
        (
            b"SELECT o.id FROM o INNER JOIN cust ON o.c = cust.id WHERE o.c IS NOT NULL;",
            b"SELECT q0.id AS id FROM o AS q0 WHERE q0.c IS NOT NULL;\n",
        ),
        (
            b"SELECT DISTINCT o.k FROM o;",
            b"SELECT DISTINCT q0.k AS k FROM o AS q0;\n",
        ),
        (
            b"SELECT DISTINCT o.id FROM o;",
            b"SELECT q0.id AS id FROM o AS q0;\n",
        ),
        (
            b"SELECT o.id, cust.name FROM o LEFT JOIN cust ON o.d = cust.id;",
            b"SELECT q0.id AS id, q1.name AS name FROM o AS q0 INNER JOIN cust AS q1 ON q0.d = q1.id;\n",
        ),
    ] {
        assert!(rt; rewrites_by_rules(&rt, ORDERS, queries, written)?);
    }
    assert!(rt;
        rewrites_by_rules(
            &rt,
            ISSUES,
            b"SELECT \"issues\".* FROM \"issues\" INNER JOIN \"projects\" ON \"projects\".\"id\" = \"issues\".\"project_id\" LEFT OUTER JOIN \"users\" ON \"users\".\"id\" = \"issues\".\"assignee_id\" WHERE \"issues\".\"status\" IN (1, 2, 5) AND \"projects\".\"archived\" = 0",
            b"SELECT q0.id AS id, q0.project_id AS project_id, q0.assignee_id AS assignee_id, q0.status AS status, q0.title AS title FROM issues AS q0 WHERE q0.status IN (1, 2, 5) AND q0.project_id IN (SELECT q1.id FROM projects AS q1 WHERE q1.archived = 0);\n"
        )?
    );
    Ok(())
}

/// Whether these words answer so over a file Q of these bytes.
fn checks<R: Threads + Wait + Sync + Abort + AllocGlobal>(
    rt: &R,
    words: &str,
    rules: &[u8],
    status: u8,
    written: &[u8],
) -> Result<bool, Fail> {
    answers(
        rt,
        &Case {
            words,
            schema: SCHEMA,
            queries: rules,
            failing_read: 0,
            failing_write: 0,
            status,
            written,
        },
    )
}

#[test]
fn proves_rules_again(rt: HostRuntime) -> Result<(), Fail> {
    for (words, rules, status, written) in [
        ("check R", b"".as_slice(), 0, b"ok 5\n".as_slice()),
        ("check A", b"", 0, b"ok 0\n"),
        ("check Q", b"", 2, b"fault Q line 1 Head\n"),
        (
            "check Q",
            b"wetune-rules 1 steps=17\nend 0\n",
            2,
            b"fault Q line 1 Head\n",
        ),
        (
            "check Q",
            b"wetune-rules 3 steps=8\nend 0\n",
            2,
            b"fault Q line 1 Head\n",
        ),
        (
            "check Q",
            b"wetune-rules 1 steps=8\n",
            2,
            b"fault Q line 2 Count\n",
        ),
        (
            "check Q",
            b"wetune-rules 1 steps=8\nend 0",
            2,
            b"fault Q line 2 Syntax\n",
        ),
        (
            "rewrite Q S Q",
            b"wetune-rules 1 steps=8\nend 1\n",
            2,
            b"fault Q line 2 Count\n",
        ),
        (
            "check Q",
            b"wetune-rules 1 steps=8
Proj<a0@r0>(LeftJoin<a1@r0,a2@r1>(r0,r1)) => Proj<a0>(r0) | Unique(r1,a2)
Dedup(Proj<a0@r0>(r0)) => Proj<a0>(r0) | Unique(r0,a0)
end 2
",
            2,
            b"fault Q line 3 NotProved\n",
        ),
        (
            "check Q",
            b"wetune-rules 2 steps=8\nDedup(Dedup(r0)) => Dedup(r0) | - | 6 3\nend 1\n",
            0,
            b"ok 1\n",
        ),
        (
            "check Q",
            b"wetune-rules 2 steps=8\nDedup(Dedup(r0)) => Dedup(r0) | - | 6 2\nend 1\n",
            2,
            b"fault Q line 2 StatedWeight\n",
        ),
    ] {
        assert!(rt; checks(&rt, words, rules, status, written)?, "{words}");
    }
    Ok(())
}

#[test]
fn tells_what_rules_save(rt: HostRuntime) -> Result<(), Fail> {
    for (words, written) in [
        (
            "demo 0 7",
            b"queries 7 printed 6 refused 1 matches 6 cost 54 -> 34\n".as_slice(),
        ),
        (
            "demo 5 3",
            b"queries 3 printed 2 refused 1 matches 1 cost 17 -> 9\n",
        ),
    ] {
        assert!(rt; says(&rt, words, 0, 0, 0, written)?, "{words}");
    }
    Ok(())
}

#[test]
fn refuses_statements(rt: HostRuntime) -> Result<(), Fail> {
    assert!(rt; rewrites(&rt, ORDERS, REFUSED, 4, REFUSED_LINES)?);
    for (queries, written) in [
        (
            b" SELECT t.c FROM t;".as_slice(),
            b"-- refused UnknownColumn at 8\n".as_slice(),
        ),
        (b"SELECT u.a FROM t;", b"-- refused UnknownColumn at 7\n"),
        (
            b"SELECT t.a FROM t WHERE t.a = 9223372036854775808;",
            b"-- refused NumberRange at 30\n",
        ),
        (b"SELECT t.a, FROM t;", b"-- refused Syntax at 12\n"),
        (b"SELECT t.a FROM", b"-- refused Syntax at 15\n"),
        (
            b"SELECT t.a FROM t WHERE NOT NOT NOT NOT NOT NOT NOT NOT NOT NOT NOT NOT NOT NOT NOT NOT NOT NOT NOT NOT NOT NOT NOT NOT NOT NOT NOT NOT NOT NOT NOT NOT NOT t.a = 1",
            b"-- refused TooDeep at 152\n",
        ),
        (
            b"SELECT t.a FROM t WHERE (((((((((((((((((((((((((((((((((t.a = 1)))))))))))))))))))))))))))))))))",
            b"-- refused TooDeep at 56\n",
        ),
    ] {
        assert!(rt; rewrites(&rt, SCHEMA, queries, 4, written)?);
    }
    Ok(())
}

#[test]
fn refuses_files(rt: HostRuntime) -> Result<(), Fail> {
    assert!(rt; rewrites(&rt, SCHEMA, b"'", 2, b"fault Q offset 0 OpenQuote\n")?);
    assert!(rt; rewrites(&rt, SCHEMA, b"\xff", 2, b"fault Q offset 0 NotText\n")?);
    for (schema, written) in [
        (
            b"CREATE TABLE t (a INTEGER CHECK (a > 0));".as_slice(),
            b"fault S offset 26 UnsupportedClause\n".as_slice(),
        ),
        (
            b"CREATE INDEX i ON t (a);",
            b"fault S offset 0 UnsupportedStatement\n",
        ),
        (
            b"CREATE TABLE t (a INTEGER, a INTEGER);",
            b"fault S offset 27 DuplicateColumn\n",
        ),
        (
            b"CREATE TABLE a (x INTEGER REFERENCES b (y)); CREATE TABLE b (y INTEGER);",
            b"fault S offset 37 ReferenceNotKey\n",
        ),
    ] {
        assert!(rt; rewrites(&rt, schema, QUERY, 2, written)?);
    }
    assert!(rt; says(&rt, "rewrite Q S Q", 0, 0, 2, b"fault Q line 1 Head\n")?);
    Ok(())
}

#[test]
fn stops_at_faults(rt: HostRuntime) -> Result<(), Fail> {
    for (words, failing_read, failing_write, status, written) in [
        ("rewrite A S Q", 4, 0, 3, b"".as_slice()),
        ("rewrite A S missing", 0, 0, 3, b""),
        ("rewrite A S Q", 0, 1, 5, b""),
    ] {
        assert!(rt;
            says(&rt, words, failing_read, failing_write, status, written)?,
            "{words}"
        );
    }
    Ok(())
}

/// A text so many times.
fn repeated(alloc: Global, text: &[u8], times: u32) -> Result<Vec<u8>, Fail> {
    let mut all = Vec::new(alloc);
    for _ in 0..times {
        all.extend_from_slice(text)?;
    }
    Ok(all)
}

/// Whether this many statements, of which the second write fails, leave so many lines with status 5.
fn leaves_lines<R: Threads + Wait + Sync + Abort + AllocGlobal>(
    rt: &R,
    statements: u32,
    lines: u32,
) -> Result<bool, Fail> {
    let queries = repeated(rt.alloc(), b"SELECT t.a, t.b FROM t;", statements)?;
    let written = repeated(rt.alloc(), LINE, lines)?;
    answers(
        rt,
        &Case {
            words: "rewrite A S Q",
            schema: SCHEMA,
            queries: &queries,
            failing_read: 0,
            failing_write: 2,
            status: 5,
            written: &written,
        },
    )
}

#[test]
fn whole_lines_are_put_at_once(rt: HostRuntime) -> Result<(), Fail> {
    // The first write takes the lines of those statements, of 23 bytes each, that begin in the first 131,072 bytes.
    assert!(rt; leaves_lines(&rt, 6400, 5699)?);
    Ok(())
}

const FILTER_RULES: &str =
    "Filter<p0,a0@r0>(Filter<p1,a1@r0>(r0)) => Filter<p0,a0>(r0) | AttrsEq(a0,a1) PredEq(p0,p1) | 2 1
Filter<p0,a0@r0>(Filter<p1,a1@r0>(r0)) => Filter<p0,a1>(r0) | AttrsEq(a0,a1) PredEq(p0,p1) | 2 1
Filter<p0,a0@r0>(Filter<p1,a1@r0>(r0)) => Filter<p1,a0>(r0) | AttrsEq(a0,a1) PredEq(p0,p1) | 2 1
Filter<p0,a0@r0>(Filter<p1,a1@r0>(r0)) => Filter<p1,a1>(r0) | AttrsEq(a0,a1) PredEq(p0,p1) | 2 1
";

const JOIN_RULES: &str =
    "LeftJoin<a0@r0,a1@r1>(r0,r1) => InnerJoin<a0,a1>(r0,r1) | NotNull(r0,a0) RefAttrs(r0,a0,r1,a1) | 7 6
LeftJoin<a0@r0,a1@r1>(r0,r1) => InnerJoin<a0,a1>(r0,r1) | RelEq(r0,r1) AttrsEq(a0,a1) NotNull(r1,a1) RefAttrs(r0,a0,r1,a1) | 7 6
LeftJoin<a0@r0,a1@r1>(r0,r1) => InnerJoin<a1,a0>(r1,r0) | RelEq(r0,r1) AttrsEq(a0,a1) NotNull(r0,a0) RefAttrs(r0,a0,r1,a1) | 7 6
LeftJoin<a0@r0,a1@r1>(r0,r1) => InnerJoin<a1,a0>(r1,r0) | RelEq(r0,r1) AttrsEq(a0,a1) NotNull(r1,a1) RefAttrs(r0,a0,r1,a1) | 7 6
";

const DEDUP_RULE: &str = "Dedup(Dedup(r0)) => Dedup(r0) | - | 6 3\n";

const FOUR_DEDUP_RULES: &str = "Dedup(Dedup(r0)) => Dedup(r0) | - | 6 3
Dedup(Dedup(Dedup(r0))) => Dedup(r0) | - | 9 3
Dedup(Dedup(Dedup(Dedup(r0)))) => Dedup(r0) | - | 12 3
";

const THREE_DEDUP_RULES: &str = "Dedup(Dedup(r0)) => Dedup(r0) | - | 6 3
Dedup(Dedup(Dedup(r0))) => Dedup(r0) | - | 9 3
Dedup(Dedup(Dedup(r0))) => Dedup(Dedup(r0)) | - | 9 6
";

fn discovers<R: Threads + Wait + Sync + Abort + AllocGlobal>(
    rt: &R,
    words: &str,
    filters: &str,
    dedups: &str,
    count: u64,
) -> Result<bool, Fail> {
    let written = format!(in rt.alloc(); "wetune-rules 2 steps=8\n{filters}{dedups}end {count}\n")?;
    says(rt, words, 0, 0, 0, written.as_bytes())
}

#[test]
fn discovers_rules(rt: HostRuntime) -> Result<(), Fail> {
    for (words, filters, dedups, count) in [
        ("discover src=2 dst=1 ops=F", FILTER_RULES, "", 4),
        ("discover src=2 dst=1 ops=D", "", DEDUP_RULE, 1),
        ("discover src=2 dst=1 ops=FD", FILTER_RULES, DEDUP_RULE, 5),
        ("discover src=2 dst=1 ops=DF", FILTER_RULES, DEDUP_RULE, 5),
        ("discover src=3 dst=2 ops=D", "", THREE_DEDUP_RULES, 3),
        (
            "discover ops=D dst=1 src=4 steps=8",
            "",
            FOUR_DEDUP_RULES,
            3,
        ),
        ("discover src=1 dst=0 ops=FD", "", "", 0),
        ("discover src=1 dst=1 ops=PFILSD", JOIN_RULES, "", 4),
    ] {
        assert!(rt; discovers(&rt, words, filters, dedups, count)?, "{words}");
    }
    Ok(())
}

const PROJ_RULES: &str = "Proj<a0@r0>(Proj<a1@r0>(r0)) => Proj<a0>(r0) | - | 2 1
Proj<a0@r0>(Proj<a1@r0>(r0)) => Proj<a1>(r0) | AttrsEq(a0,a1) | 2 1
Proj<a0@r0>(Dedup(r0)) => Proj<a0>(r0) | Unique(r0,a0) NotNull(r0,a0) | 4 1
Dedup(Proj<a0@r0>(r0)) => Proj<a0>(r0) | Unique(r0,a0) NotNull(r0,a0) | 4 1
";

/// The rules of these bounds, found by each of these numbers of workers.
fn any_number_discovers<R: Threads + Wait + Sync + Abort + AllocGlobal>(
    rt: &R,
    bounds: &str,
    rules: &str,
    count: u64,
) -> Result<bool, Fail> {
    for workers in [1, 2, 3, 8, 64] {
        let words = format!(in rt.alloc(); "discover {bounds} workers={workers}")?;
        if !discovers(rt, &words, rules, "", count)? {
            return Ok(false);
        }
    }
    Ok(true)
}

#[test]
fn any_number_of_workers_discovers_the_same(rt: HostRuntime) -> Result<(), Fail> {
    for (bounds, rules, count) in [
        ("src=2 dst=1 ops=D", DEDUP_RULE, 1),
        ("src=2 dst=1 ops=F", FILTER_RULES, 4),
        ("src=1 dst=1 ops=IL", JOIN_RULES, 4),
        ("src=1 dst=0 ops=FD", "", 0),
    ] {
        assert!(rt;
            any_number_discovers(&rt, bounds, rules, count)?,
            "{bounds}"
        );
    }
    let rules = format!(in rt.alloc(); "{PROJ_RULES}{DEDUP_RULE}")?;
    assert!(rt; any_number_discovers(&rt, "src=2 dst=1 ops=PD", &rules, 5)?);
    Ok(())
}

#[test]
fn refuses_words(rt: HostRuntime) -> Result<(), Fail> {
    for (words, written) in [
        ("", b"usage NoCommand\n".as_slice()),
        ("find", b"usage UnknownCommand\n"),
        ("rewrite A S", b"usage WordCount\n"),
        ("rewrite A S Q more", b"usage WordCount\n"),
        ("check", b"usage WordCount\n"),
        ("demo 0", b"usage WordCount\n"),
        ("discover src=5 dst=1 ops=D", b"usage OutOfRange\n"),
        ("discover src=2 ops=D", b"usage MissingKey\n"),
        ("discover src=2 dst=1 ops=DD", b"usage BadOps\n"),
        (
            "discover src=2 dst=1 ops=D workers=0",
            b"usage OutOfRange\n",
        ),
        (
            "discover src=2 dst=1 ops=D workers=65",
            b"usage OutOfRange\n",
        ),
    ] {
        assert!(rt; says(&rt, words, 0, 0, 1, written)?, "{words}");
    }
    Ok(())
}

// A statement of this many bytes: blanks stand before its last word.
fn long_statement(alloc: Global, length: usize) -> io::Result<Vec<u8>> {
    let mut text = Vec::from_slice(alloc, b"SELECT t.a, t.b FROM")?;
    for _ in text.len() + 1..length {
        text.push(b' ')?;
    }
    text.push(b't')?;
    Ok(text)
}

fn keeps_length<R: Threads + Wait + Sync + Abort + AllocGlobal>(
    rt: &R,
    length: usize,
    status: u8,
    written: &[u8],
) -> Result<bool, Fail> {
    let queries = long_statement(rt.alloc(), length)?;
    rewrites(rt, SCHEMA, &queries, status, written)
}

#[test]
fn keeps_limits(rt: HostRuntime) -> Result<(), Fail> {
    assert!(rt; keeps_length(&rt, 65_536, 0, LINE)?);
    assert!(rt; keeps_length(&rt, 65_537, 4, b"-- refused TooLong at 0\n")?);
    assert!(rt; keeps_length(&rt, 16_777_217, 2, b"fault Q offset 16777216 TooLong\n")?);
    Ok(())
}
