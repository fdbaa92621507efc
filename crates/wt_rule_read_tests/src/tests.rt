//! Rule files as text, and what each is read as.
use std::alloc::{AllocError, Global};
use std::test::Fail;
use wt_rule_read::{RuleError, read_rules, rules_name};

/// Whole files: `ok` with the number of rules, or the line and the name of the first fault.
static FILES: [(&str, &str); 24] = [
    ("", "line 1 Head"),
    ("wetune-rules 1 steps=8\nend 0\n", "ok 0"),
    ("wetune-rules 2 steps=16\nend 0\n", "ok 0"),
    ("wetune-rules 1 steps=8\nend 0", "line 2 Syntax"),
    ("wetune-rules 1 steps=8\n", "line 2 Count"),
    ("wetune-rules 1 steps=8", "line 1 Syntax"),
    ("wetune-rules 1 steps=17\nend 0\n", "line 1 Head"),
    ("wetune-rules 1 steps=0\nend 0\n", "line 1 Head"),
    ("wetune-rules 1 steps=08\nend 0\n", "line 1 Head"),
    ("wetune-rules 3 steps=8\nend 0\n", "line 1 Head"),
    ("wetune-rules 1 steps=8 \nend 0\n", "line 1 Head"),
    ("wetune-rules 1 steps=8\nend 1\n", "line 2 Count"),
    ("wetune-rules 1 steps=8\nend 0\n\n", "line 2 Count"),
    ("wetune-rules 1 steps=8\nend 00\n", "line 2 Syntax"),
    ("wetune-rules 1 steps=8\nend x\n", "line 2 Syntax"),
    ("wetune-rules 1 steps=8\nend \n", "line 2 Syntax"),
    ("wetune-rules 1 steps=8\nend\n", "line 2 Syntax"),
    (
        "wetune-rules 1 steps=8\nend 100000000000000000000000000000000000000000\n",
        "line 2 Count",
    ),
    (
        "wetune-rules 1 steps=8
Proj<a0@r0>(LeftJoin<a1@r0,a2@r1>(r0,r1)) => Proj<a0>(r0) | Unique(r1,a2)
LeftJoin<a0@r0,a1@r1>(r0,r1) => InnerJoin<a0,a1>(r0,r1) | NotNull(r0,a0) RefAttrs(r0,a0,r1,a1)
Proj<a0@r0>(InnerJoin<a1@r0,a2@r1>(r0,r1)) => Proj<a0>(InSub<a1>(r0,Proj<a2>(r1))) | Unique(r1,a2)
InSub<a0@r0>(r0,Proj<a1@r1>(r1)) => r0 | NotNull(r0,a0) RefAttrs(r0,a0,r1,a1)
Dedup(Proj<a0@r0>(r0)) => Proj<a0>(r0) | Unique(r0,a0) NotNull(r0,a0)
end 5
",
        "ok 5",
    ),
    (
        "wetune-rules 1 steps=8
Proj<a0@r0>(LeftJoin<a1@r0,a2@r1>(r0,r1)) => Proj<a0>(r0) | Unique(r1,a2)
Dedup(Proj<a0@r0>(r0)) => Proj<a0>(r0) | Unique(r0,a0)
end 2
",
        "line 3 NotProved",
    ),
    (
        "wetune-rules 1 steps=8
Proj<a0@r0>(LeftJoin<a1@r0,a2@r2>(LeftJoin<a3@r0,a4@r1>(r0,r1),r2)) => Proj<a0>(LeftJoin<a1,a4>(r0,r1)) | Unique(r2,a2) Unique(r1,a4)
end 1
",
        "ok 1",
    ),
    (
        "wetune-rules 2 steps=8
Dedup(Dedup(r0)) => Dedup(r0) | - | 6 3
Dedup(Dedup(Dedup(r0))) => Dedup(r0) | - | 9 3
Dedup(Dedup(Dedup(Dedup(r0)))) => Dedup(r0) | - | 12 3
end 3
",
        "ok 3",
    ),
    (
        "wetune-rules 1 steps=8
Dedup(Dedup(r0)) => Dedup(r0) | - | 6 3
end 1
",
        "line 2 Syntax",
    ),
    (
        "wetune-rules 2 steps=8
Dedup(r1) => r0 | - | 3 0
Dedup(r0) => Dedup(r0) | - | 3 3
end 3
",
        "line 2 Symbol",
    ),
];

/// Second lines of a file of version 1 with one rule.
static LINES_ONE: [(&str, &str); 26] = [
    ("Dedup(Dedup(r0)) => Dedup(r0) | -", "ok 1"),
    ("Dedup(r1) => r0 | -", "line 2 Symbol"),
    ("Dedup(r0) => r1 | -", "line 2 Symbol"),
    ("Dedup(r00) => r0 | -", "line 2 Syntax"),
    ("Dedup(r0) => r0 |", "line 2 Syntax"),
    ("Dedup(r0) => r0 | - ", "line 2 Syntax"),
    ("Dedup( r0) => r0 | -", "line 2 Syntax"),
    ("Dedup(r0)=>r0 | -", "line 2 Syntax"),
    ("", "line 2 Syntax"),
    ("r0 => r0 | -", "line 2 Weight"),
    ("Dedup(r0) => Dedup(r0) | -", "line 2 Weight"),
    ("Proj<a0@r0>(Dedup(r0)) => Dedup(r0) | -", "line 2 Root"),
    (
        "Proj<a0@r1>(Dedup(r0)) => Proj<a0>(r0) | -",
        "line 2 Anchor",
    ),
    (
        "Proj<a0@r99999999999999999999999999>(Dedup(r0)) => Proj<a0>(r0) | -",
        "line 2 Anchor",
    ),
    (
        "Proj<a99999999999999999999999999@r0>(Dedup(r0)) => Proj<a0>(r0) | -",
        "line 2 Symbol",
    ),
    (
        "Proj<a0@r0>(Dedup(r0)) => Proj<a0@r0>(r0) | -",
        "line 2 Syntax",
    ),
    ("Proj<a0>(Dedup(r0)) => Proj<a0>(r0) | -", "line 2 Syntax"),
    (
        "InnerJoin<a0@r0,a1@r1>(r0,r1) => InSub<a0>(r0,r0) | -",
        "line 2 Symbol",
    ),
    (
        "Dedup(Dedup(Dedup(Dedup(Dedup(r0))))) => Dedup(r0) | -",
        "line 2 TooLong",
    ),
    (
        "Filter<p0,a0@r0>(Filter<p1,a1@r0>(r0)) => Filter<p0,a0>(r0) | Unique(r0,a0)",
        "line 2 Atom",
    ),
    (
        "Filter<p0,a0@r0>(Filter<p1,a1@r0>(r0)) => Filter<p0,a0>(r0) | PredEq(p0,p1) AttrsEq(a0,a1)",
        "line 2 Order",
    ),
    (
        "Filter<p0,a0@r0>(Filter<p1,a1@r0>(r0)) => Filter<p0,a0>(r0) | AttrsEq(a0,a1) AttrsEq(a0,a1)",
        "line 2 Order",
    ),
    (
        "Filter<p0,a0@r0>(Filter<p1,a1@r0>(r0)) => Filter<p0,a0>(r0) | PredEq(p0,p1) AttrsEq(a1,a0)",
        "line 2 Atom",
    ),
    (
        "Filter<p0,a0@r0>(Filter<p1,a1@r0>(r0)) => Filter<p0,a0>(r0) | AttrsEq(a0,a1) PredEq(p0,p1)",
        "ok 1",
    ),
    (
        "Filter<p0,a0@r0>(Filter<p1,a1@r0>(r0)) => Filter<p0,a0>(r0) | AttrsEq(a0,a1)  PredEq(p0,p1)",
        "line 2 Syntax",
    ),
    ("Dedup(r0) => r0 | -", "line 2 NotProved"),
];

/// Second lines of a file of version 2 with one rule.
static LINES_TWO: [(&str, &str); 7] = [
    ("Dedup(Dedup(r0)) => Dedup(r0) | - | 6 3", "ok 1"),
    ("Dedup(Dedup(r0)) => Dedup(r0) | -", "line 2 Syntax"),
    (
        "Dedup(Dedup(r0)) => Dedup(r0) | - | 6 2",
        "line 2 StatedWeight",
    ),
    (
        "Dedup(Dedup(r0)) => Dedup(r0) | - | 3 6",
        "line 2 StatedWeight",
    ),
    (
        "Dedup(Dedup(r0)) => Dedup(r0) | - | 6 30000000000000000000000000000000000",
        "line 2 StatedWeight",
    ),
    ("Dedup(Dedup(r0)) => Dedup(r0) | - | 6 03", "line 2 Syntax"),
    ("Dedup(r0) => r0 | - | 3 1", "line 2 StatedWeight"),
];

/// What a file is read as, in a few words.
fn told(alloc: Global, text: &str) -> Result<String, AllocError> {
    match read_rules(alloc, text.as_bytes()) {
        Ok(book) => {
            let count = book.rules.len();
            format!(in alloc; "ok {count}")
        }
        Err(RuleError::Fault(fault, line)) => {
            let name = rules_name(fault);
            format!(in alloc; "line {line} {name}")
        }
        Err(RuleError::Memory) => Err(AllocError),
    }
}

fn is_told(alloc: Global, text: &str, expected: &str) -> Result<bool, AllocError> {
    Ok(told(alloc, text)?.as_str() == expected)
}

/// Whether a file with this head, this line and an end line is read so.
fn line_is_told(
    alloc: Global,
    version: u32,
    line: &str,
    expected: &str,
) -> Result<bool, AllocError> {
    let text = format!(in alloc; "wetune-rules {version} steps=8\n{line}\nend 1\n")?;
    is_told(alloc, text.as_str(), expected)
}

/// So many Projs inside one another, numbered in order.
fn projs(alloc: Global, count: u32) -> Result<String, AllocError> {
    let mut line = String::new(alloc);
    for i in 0..count {
        line.push_str(format!(in alloc; "Proj<a{i}@r0>(")?.as_str())?;
    }
    line.push_str("r0")?;
    for _ in 0..count {
        line.push_str(")")?;
    }
    line.push_str(" => Proj<a0>(r0) | -")?;
    Ok(line)
}

fn projs_are_told(alloc: Global, count: u32, expected: &str) -> Result<bool, AllocError> {
    let line = projs(alloc, count)?;
    line_is_told(alloc, 1, line.as_str(), expected)
}

/// A head and so many letters, with an LF behind them or none.
fn letters_are_told(
    alloc: Global,
    count: u32,
    behind: &str,
    expected: &str,
) -> Result<bool, AllocError> {
    let mut text = String::from_str(alloc, "wetune-rules 1 steps=8\n")?;
    for _ in 0..count {
        text.push_str("x")?;
    }
    text.push_str(behind)?;
    is_told(alloc, text.as_str(), expected)
}

#[test]
fn files_are_read(rt: HostRuntime) -> Result<(), Fail> {
    for (text, expected) in &FILES {
        assert!(rt; is_told(rt.alloc(), text, expected)?, "{text}");
    }
    Ok(())
}

#[test]
fn lines_are_read(rt: HostRuntime) -> Result<(), Fail> {
    for (line, expected) in &LINES_ONE {
        assert!(rt; line_is_told(rt.alloc(), 1, line, expected)?, "{line}");
    }
    for (line, expected) in &LINES_TWO {
        assert!(rt; line_is_told(rt.alloc(), 2, line, expected)?, "{line}");
    }
    Ok(())
}

#[test]
fn long_lines_are_refused(rt: HostRuntime) -> Result<(), Fail> {
    assert!(rt; letters_are_told(rt.alloc(), 4096, "\n", "line 2 Syntax")?);
    assert!(rt; letters_are_told(rt.alloc(), 4097, "\n", "line 2 TooLong")?);
    assert!(rt; letters_are_told(rt.alloc(), 4096, "", "line 2 Syntax")?);
    assert!(rt; letters_are_told(rt.alloc(), 4097, "", "line 2 TooLong")?);
    assert!(rt; projs_are_told(rt.alloc(), 260, "line 2 TooLong")?);
    assert!(rt; projs_are_told(rt.alloc(), 2, "ok 1")?);
    Ok(())
}
