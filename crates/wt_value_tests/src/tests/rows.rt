//! Rows and bags of rows.
use std::alloc::{AllocError, Global};
use std::test::Fail;
use wt_value::{
    Row, Rows, Text, Value, count, distinct, has_no_null_at, is_null_at, matches, matches_at,
    same_bag, same_row,
};

/// A row: a digit for each value, and - for NULL.
fn row(alloc: Global, text: &str) -> Result<Row, AllocError> {
    let mut row = Row::new(alloc);
    for byte in text.bytes() {
        if byte == b'-' {
            row.push(Value::Null)?;
        } else {
            row.push(Value::Int(i64::from(byte.saturating_sub(b'0'))))?;
        }
    }
    Ok(row)
}

/// Rows with blanks between them.
fn rows(alloc: Global, text: &str) -> Result<Rows, AllocError> {
    let mut rows = Rows::new(alloc);
    for word in text.split_whitespace() {
        rows.push(row(alloc, word)?)?;
    }
    Ok(rows)
}

fn are_one_bag(alloc: Global, a: &str, b: &str) -> Result<bool, AllocError> {
    Ok(same_bag(&rows(alloc, a)?, &rows(alloc, b)?))
}

fn firsts_are(alloc: Global, all: &str, firsts: &str) -> Result<bool, AllocError> {
    let kept = distinct(alloc, &rows(alloc, all)?)?;
    let copy = Rows::from_vec(kept.clone()?.into_vec());
    Ok(kept == rows(alloc, firsts)? && copy == kept && copy.len() == kept.len())
}

fn occurs(alloc: Global, all: &str, one: &str) -> Result<u64, AllocError> {
    Ok(count(&rows(alloc, all)?, &row(alloc, one)?))
}

#[test]
fn rows_with_null_form_groups(rt: HostRuntime) -> Result<(), Fail> {
    assert!(rt; firsts_are(rt.alloc(), "- 1 -", "- 1")?);
    assert_eq!(rt; occurs(rt.alloc(), "- 1 -", "-")?, 2);
    assert!(rt; are_one_bag(rt.alloc(), "- 1 -", "- - 1")?);
    assert!(rt; !are_one_bag(rt.alloc(), "- 1 -", "- 1")?);
    Ok(())
}

fn are_the_same(alloc: Global, a: &str, b: &str) -> Result<bool, AllocError> {
    Ok(same_row(&row(alloc, a)?, &row(alloc, b)?))
}

fn are_matching(alloc: Global, a: &str, b: &str) -> Result<bool, AllocError> {
    Ok(matches(&row(alloc, a)?, &row(alloc, b)?))
}

#[test]
fn null_is_the_same_and_matches_nothing(rt: HostRuntime) -> Result<(), Fail> {
    for (a, b, same, matching) in [
        ("1-", "1-", true, false),
        ("12", "12", true, true),
        ("12", "1", false, false),
        ("", "", true, true),
    ] {
        assert_eq!(rt; are_the_same(rt.alloc(), a, b)?, same);
        assert_eq!(rt; are_matching(rt.alloc(), a, b)?, matching);
    }
    Ok(())
}

fn match_at(alloc: Global, text: &str, places: &[u32], others: &[u32]) -> Result<bool, AllocError> {
    let row = row(alloc, text)?;
    Ok(matches_at(&row, places, &row, others))
}

#[test]
fn rows_match_at_places_without_null(rt: HostRuntime) -> Result<(), Fail> {
    assert!(rt; match_at(rt.alloc(), "1-1", &[0, 2], &[2, 0])?);
    assert!(rt; !match_at(rt.alloc(), "1-1", &[1], &[1])?);
    assert!(rt; !match_at(rt.alloc(), "1-1", &[3], &[3])?);
    assert!(rt; !match_at(rt.alloc(), "1-1", &[0], &[0, 2])?);
    Ok(())
}

fn null_stands_at(alloc: Global, text: &str, place: u32) -> Result<(bool, bool), AllocError> {
    let row = row(alloc, text)?;
    Ok((
        is_null_at(row.as_slice(), place),
        has_no_null_at(row.as_slice(), &[0, place]),
    ))
}

#[test]
fn null_stands_past_the_end_too(rt: HostRuntime) -> Result<(), Fail> {
    assert!(rt; null_stands_at(rt.alloc(), "1-1", 1)? == (true, false));
    assert!(rt; null_stands_at(rt.alloc(), "1-1", 2)? == (false, true));
    assert!(rt; null_stands_at(rt.alloc(), "1-1", 3)? == (true, false));
    Ok(())
}

fn length_of_no_text(alloc: Global) -> Result<usize, AllocError> {
    Ok(Text::from_bytes(alloc, b"")?.as_bytes().len())
}

#[test]
fn the_text_of_no_bytes_is_empty(rt: HostRuntime) -> Result<(), Fail> {
    assert_eq!(rt; length_of_no_text(rt.alloc())?, 0);
    Ok(())
}
