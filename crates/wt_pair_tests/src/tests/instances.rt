//! The rows of sides on instances, and when an instance meets a constraint.
use crate::tests::{anchors, lawful, side};
use std::alloc::{AllocError, Global};
use std::test::Fail;
use wt_constraint::{AtomSet, Atoms, atoms_of};
use wt_instance::{
    ColsList, Instance, RowsList, bag, dedup_rows_are_distinct_rows, is_instance, meets,
    rows_have_columns, threads_share_instances,
};
use wt_value::{Cols, Row, Rows, Value};

/// The numbers of a text's digits.
fn digits(alloc: Global, text: &str) -> Result<Cols, AllocError> {
    let mut numbers = Cols::new(alloc);
    for byte in text.bytes() {
        numbers.push(u32::from(byte.saturating_sub(b'0')))?;
    }
    Ok(numbers)
}

/// A row: a digit for each value, and - for NULL.
fn row(alloc: Global, text: &str) -> Result<Row, AllocError> {
    let mut row = Row::new(alloc);
    for byte in text.bytes() {
        if byte == b'-' {
            row.push(Value::Null)?;
        } else {
            row.push(Value::Int(i64::from(byte.saturating_sub(b'0'))))?;
        }
    }
    Ok(row)
}

/// Rows with blanks between them.
fn rows(alloc: Global, text: &str) -> Result<Rows, AllocError> {
    let mut rows = Rows::new(alloc);
    for word in text.split_whitespace() {
        rows.push(row(alloc, word)?)?;
    }
    Ok(rows)
}

/// Lists of rows, each with a bar behind it.
fn tables(alloc: Global, text: &str) -> Result<RowsList, AllocError> {
    let mut tables = RowsList::new(alloc);
    let mut left = text;
    for _ in 0..text.len() {
        if let Some((table, more)) = left.split_once('|') {
            tables.push(rows(alloc, table)?)?;
            left = more;
        }
    }
    Ok(tables)
}

/// Lists of column numbers with blanks between them; a dot is an empty one.
fn lists(alloc: Global, text: &str) -> Result<ColsList, AllocError> {
    let mut lists = ColsList::new(alloc);
    for word in text.split_whitespace() {
        lists.push(digits(alloc, if word == "." { "" } else { word })?)?;
    }
    Ok(lists)
}

/// Widths, tables, lists of numbers, and the rows on which predicates are True.
type Parts = (&'static str, &'static str, &'static str, &'static str);

fn instance(alloc: Global, parts: &Parts) -> Result<Instance, AllocError> {
    Ok(Instance {
        widths: digits(alloc, parts.0)?,
        tables: tables(alloc, parts.1)?,
        lists: lists(alloc, parts.2)?,
        trues: tables(alloc, parts.3)?,
    })
}

fn gives(
    alloc: Global,
    parts: &Parts,
    leaves: &str,
    text: &str,
    expected: &str,
) -> Result<bool, AllocError> {
    let on = instance(alloc, parts)?;
    let found = bag(alloc, &side(alloc, text)?, &anchors(alloc, leaves)?, &on)?;
    Ok(found == rows(alloc, expected)?)
}

/// Lists a0, a2, a4 and a5 are anchored at r0, a1 and a3 at r1; a4 is past the width, a5 has a
/// column twice.
static TWO_TABLES: Parts = ("22", "11 -2 11 -2 3-|15 16 -7 38|", "0 0 10 1 2 00", "1 -|");

static SIDES: [(&str, &str); 14] = [
    ("r0", "11 -2 11 -2 3-"),
    ("r0 P2", "11 2- 11 2- -3"),
    ("r0 P4", "- - - - -"),
    ("r0 P5", "11 -- 11 -- 33"),
    ("r0 F00", "11 -2 11 -2"),
    ("r1 P3 F01", "5 6 7 8"),
    ("r0 D", "11 -2 3-"),
    ("r0 r1 I01", "1115 1116 1115 1116 3-38"),
    ("r0 r1 L01", "1115 1116 -2-- 1115 1116 -2-- 3-38"),
    ("r0 r1 P3 I01", ""),
    ("r0 r1 P3 L01", "11- -2- 11- -2- 3--"),
    ("r0 r1 P1 S0", "11 11 3-"),
    ("r0 r1 S0", ""),
    ("r0 r0 P2 S2", "11 11"),
];

#[test]
fn sides_have_rows(rt: HostRuntime) -> Result<(), Fail> {
    for (text, expected) in &SIDES {
        assert!(rt;
            gives(rt.alloc(), &TWO_TABLES, "010100", text, expected)?,
            "{text}"
        );
    }
    // A LeftJoin with a right row twice, and with a NULL on the left.
    let parts = ("11", "1 -|1 1|", "0 0", "");
    assert!(rt; gives(rt.alloc(), &parts, "01", "r0 r1 L01", "11 11 --")?);
    Ok(())
}

/// The set of the atom that is written so, if it is one of these; the empty set for no text.
fn set_of(alloc: Global, atoms: &Atoms, text: &str) -> Result<Option<AtomSet>, AllocError> {
    if text.is_empty() {
        return Ok(Some(AtomSet(0)));
    }
    for (k, atom) in atoms.as_slice().iter().enumerate() {
        let found = format!(in alloc; "{atom:?}")?;
        if found.as_str() == text && k < 64 {
            return Ok(Some(AtomSet(1 << k)));
        }
    }
    Ok(None)
}

/// Whether an instance of a lawful pair meets the set of one atom or of none; None where it is no lawful
/// pair, no instance of it or no atom.
fn met(alloc: Global, text: &str, parts: &Parts, atom: &str) -> Result<Option<bool>, AllocError> {
    let Some(pair) = lawful(alloc, text)? else {
        return Ok(None);
    };
    let on = instance(alloc, parts)?;
    if !is_instance(alloc, &pair, &on)? {
        return Ok(None);
    }
    let atoms = atoms_of(alloc, &pair)?;
    match set_of(alloc, &atoms, atom)? {
        Some(set) => Ok(Some(meets(&pair, &atoms, set, &on))),
        None => Ok(None),
    }
}

/// Two filters over a join, and the join.
const FILTERS: &str = "r0 r1 I23 F11 F00 | r0 r1 I23 |0001";

/// An atom, widths, leaves, lists, rows on which predicates are True, and whether it holds.
static ATOMS: [(&str, Parts, bool); 19] = [
    ("RelEq(0, 1)", ("11", "1 -|1 -|", "0 0 0 0", "||"), true),
    ("RelEq(0, 1)", ("11", "1 -|- 1|", "0 0 0 0", "||"), false),
    ("RelEq(0, 1)", ("11", "||", "0 0 0 0", "||"), true),
    ("RelEq(0, 1)", ("12", "||", "0 0 0 0", "||"), false),
    ("AttrsEq(0, 1)", ("11", "||", "0 0 0 0", "||"), true),
    ("AttrsEq(0, 1)", ("11", "||", "0 00 0 0", "||"), false),
    ("AttrsEq(0, 2)", ("11", "||", "0 00 0 0", "||"), true),
    ("PredEq(0, 1)", ("11", "||", "0 0 0 0", "1 -|- 1 1|"), true),
    ("PredEq(0, 1)", ("11", "||", "0 0 0 0", "1 -|1|"), false),
    ("PredEq(0, 1)", ("11", "||", "0 0 0 0", "1|1 -|"), false),
    ("Unique(2)", ("11", "- - 1|1 1|", "0 0 0 0", "||"), true),
    ("Unique(2)", ("11", "1 - 1||", "0 0 0 0", "||"), false),
    ("Unique(3)", ("11", "1 1|- 1 -|", "0 0 0 0", "||"), true),
    ("NotNull(2)", ("11", "1 1|-|", "0 0 0 0", "||"), true),
    ("NotNull(2)", ("11", "1 -||", "0 0 0 0", "||"), false),
    ("RefAttrs(2, 3)", ("11", "1 -|2 1|", "0 0 0 0", "||"), true),
    ("RefAttrs(2, 3)", ("11", "1|-|", "0 0 0 0", "||"), false),
    ("RefAttrs(2, 3)", ("11", "1|2|", "0 0 0 0", "||"), false),
    ("RefAttrs(3, 2)", ("11", "1|-|", "0 0 0 0", "||"), true),
];

#[test]
fn atoms_hold_or_not(rt: HostRuntime) -> Result<(), Fail> {
    for (atom, parts, holds) in &ATOMS {
        assert!(rt;
            met(rt.alloc(), FILTERS, parts, atom)? == Some(*holds),
            "{atom}"
        );
        assert!(rt;
            met(rt.alloc(), FILTERS, parts, "")? == Some(true),
            "{atom}"
        );
    }
    Ok(())
}

/// A semijoin over a Filter, with a Proj on the right; a Filter over a Proj.
const PROJ_IN_THE_DESTINATION: &str = "r0 F01 r1 P2 S0 | r0 P1 F00 |001";

/// A Proj of a column that comes through a join from a Proj.
const PROJ_BEHIND_A_JOIN: &str = "r0 r1 P3 L12 P0 | r1 P0 |1011";

static COMING: [(&str, Parts, bool); 9] = [
    (PROJ_IN_THE_DESTINATION, ("22", "||", "0 10 0", "|"), true),
    (PROJ_IN_THE_DESTINATION, ("22", "||", "0 1 0", "|"), false),
    (PROJ_IN_THE_DESTINATION, ("22", "||", "2 2 0", "|"), false),
    (PROJ_IN_THE_DESTINATION, ("22", "||", "0 0 2", "|"), false),
    (PROJ_BEHIND_A_JOIN, ("22", "||", "0 0 1 01", ""), true),
    (PROJ_BEHIND_A_JOIN, ("22", "||", "0 0 1 1", ""), false),
    (PROJ_BEHIND_A_JOIN, ("22", "||", "1 0 0 1", ""), false),
    (PROJ_BEHIND_A_JOIN, ("22", "||", "1 2 1 1", ""), false),
    (PROJ_BEHIND_A_JOIN, ("22", "||", "1 0 1 12", ""), false),
];

#[test]
fn columns_come_from_their_anchor_or_not(rt: HostRuntime) -> Result<(), Fail> {
    for (text, parts, holds) in &COMING {
        assert!(rt; met(rt.alloc(), text, parts, "")? == Some(*holds), "{text}");
    }
    Ok(())
}

static INSTANCES: [(Parts, bool); 8] = [
    (("12", "||", "0 5 00 0", "||"), true),
    (("12", "-|1-|", "0 5 00 0", "-|1-|"), true),
    (("12", "-|1- -|", "0 5 00 0", "||"), false),
    (("1", "||", "0 5 00 0", "||"), false),
    (("12", "|", "0 5 00 0", "||"), false),
    (("12", "||", "0 5 00", "||"), false),
    (("12", "||", "0 . 00 0", "||"), false),
    (("12", "||", "0 5 00 0", "|"), false),
];

fn is_one(alloc: Global, parts: &Parts) -> Result<Option<bool>, AllocError> {
    let Some(pair) = lawful(alloc, FILTERS)? else {
        return Ok(None);
    };
    let on = instance(alloc, parts)?;
    Ok(Some(is_instance(alloc, &pair, &on)?))
}

#[test]
fn instances_have_parts_widths_and_columns(rt: HostRuntime) -> Result<(), Fail> {
    for (i, (parts, is)) in INSTANCES.iter().enumerate() {
        assert!(rt; is_one(rt.alloc(), parts)? == Some(*is), "{i}");
    }
    rows_have_columns();
    dedup_rows_are_distinct_rows();
    threads_share_instances();
    Ok(())
}
