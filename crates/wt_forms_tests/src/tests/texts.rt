//! Plans as text.
//!
//! A table is its number and how many columns it has, as `t1/4`. An operator has its columns between `<` and `>`, a join those
//! of its left operand before `=`, and its operands in parentheses. A condition speaks of the places of its list, `c0` being the
//! first one, and the list stands behind `over`. The names of the columns stand in front.

use std::alloc::{AllocError, Global};
use wt_plan::{Named, Plan};
use wt_pred::{Cmp, Operand, Pred, Preds};
use wt_value::{Name, Value};

fn put_bytes(out: &mut String, bytes: &[u8]) -> Result<(), AllocError> {
    for byte in bytes {
        out.push(char::from(*byte))?;
    }
    Ok(())
}

fn put_numbers(alloc: Global, out: &mut String, numbers: &[u32]) -> Result<(), AllocError> {
    let mut before = "";
    for number in numbers {
        out.push_str(&format!(in alloc; "{before}{number}")?)?;
        before = " ";
    }
    Ok(())
}

fn put_value(alloc: Global, out: &mut String, value: &Value) -> Result<(), AllocError> {
    match value {
        Value::Null => out.push_str("NULL"),
        Value::Int(n) => out.push_str(&format!(in alloc; "{n}")?),
        Value::Text(text) => {
            out.push_str("'")?;
            put_bytes(out, text.as_bytes())?;
            out.push_str("'")
        }
    }
}

fn put_operand(alloc: Global, out: &mut String, operand: &Operand) -> Result<(), AllocError> {
    match operand {
        Operand::Column(k) => out.push_str(&format!(in alloc; "c{k}")?),
        Operand::Constant(value) => put_value(alloc, out, value),
    }
}

fn sign(cmp: Cmp) -> &'static str {
    match cmp {
        Cmp::Eq => " = ",
        Cmp::Ne => " <> ",
        Cmp::Lt => " < ",
        Cmp::Le => " <= ",
        Cmp::Gt => " > ",
        Cmp::Ge => " >= ",
    }
}

fn put_member(
    alloc: Global,
    out: &mut String,
    column: u32,
    values: &[Value],
) -> Result<(), AllocError> {
    out.push_str(&format!(in alloc; "c{column} in")?)?;
    for value in values {
        out.push_str(" ")?;
        put_value(alloc, out, value)?;
    }
    Ok(())
}

#[cycle(condition)]
fn put_condition(alloc: Global, out: &mut String, pred: &Pred) -> Result<(), AllocError> {
    match pred {
        Pred::Compare(cmp, a, b) => {
            put_operand(alloc, out, a)?;
            out.push_str(sign(*cmp))?;
            put_operand(alloc, out, b)
        }
        Pred::IsNull(k) => out.push_str(&format!(in alloc; "c{k} is null")?),
        Pred::IsNotNull(k) => out.push_str(&format!(in alloc; "c{k} is not null")?),
        Pred::InList(k, values) => put_member(alloc, out, *k, values.as_slice()),
        Pred::And(parts) => put_parts(alloc, out, "(", " and ", parts),
        Pred::Or(parts) => put_parts(alloc, out, "(", " or ", parts),
        Pred::Not(inner) => {
            out.push_str("not ")?;
            put_condition(alloc, out, inner)
        }
    }
}

#[cycle(condition)]
fn put_parts(
    alloc: Global,
    out: &mut String,
    before: &str,
    word: &str,
    parts: &Preds,
) -> Result<(), AllocError> {
    match parts {
        Preds::Empty => out.push_str(")"),
        Preds::More(part, rest) => {
            out.push_str(before)?;
            put_condition(alloc, out, part)?;
            put_parts(alloc, out, word, word, rest)
        }
    }
}

/// An operator's name, or what stands in its place, with its columns.
fn put_head(alloc: Global, out: &mut String, word: &str, cols: &[u32]) -> Result<(), AllocError> {
    out.push_str(word)?;
    put_numbers(alloc, out, cols)?;
    out.push_str(">(")
}

fn put_join(
    alloc: Global,
    out: &mut String,
    word: &str,
    a: &[u32],
    b: &[u32],
) -> Result<(), AllocError> {
    out.push_str(word)?;
    put_numbers(alloc, out, a)?;
    put_head(alloc, out, " = ", b)
}

fn put_plan(alloc: Global, out: &mut String, plan: &Plan) -> Result<(), AllocError> {
    match plan {
        Plan::Table(number, width) => out.push_str(&format!(in alloc; "t{number}/{width}")?),
        Plan::Proj(cols, operand) => {
            put_head(alloc, out, "Proj<", cols.as_slice())?;
            put_plan(alloc, out, operand)?;
            out.push_str(")")
        }
        Plan::Filter(pred, cols, operand) => {
            out.push_str("Filter<")?;
            put_condition(alloc, out, pred)?;
            put_head(alloc, out, " over ", cols.as_slice())?;
            put_plan(alloc, out, operand)?;
            out.push_str(")")
        }
        Plan::InnerJoin(a, b, left, right) => {
            put_join(alloc, out, "InnerJoin<", a.as_slice(), b.as_slice())?;
            put_plan(alloc, out, left)?;
            out.push_str(", ")?;
            put_plan(alloc, out, right)?;
            out.push_str(")")
        }
        Plan::LeftJoin(a, b, left, right) => {
            put_join(alloc, out, "LeftJoin<", a.as_slice(), b.as_slice())?;
            put_plan(alloc, out, left)?;
            out.push_str(", ")?;
            put_plan(alloc, out, right)?;
            out.push_str(")")
        }
        Plan::InSub(cols, left, right) => {
            put_head(alloc, out, "InSub<", cols.as_slice())?;
            put_plan(alloc, out, left)?;
            out.push_str(", ")?;
            put_plan(alloc, out, right)?;
            out.push_str(")")
        }
        Plan::Dedup(operand) => {
            out.push_str("Dedup(")?;
            put_plan(alloc, out, operand)?;
            out.push_str(")")
        }
    }
}

fn put_names(out: &mut String, names: &[Name]) -> Result<(), AllocError> {
    for name in names {
        put_bytes(out, name.as_bytes())?;
        out.push_str(" ")?;
    }
    Ok(())
}

/// A plan and the names of its columns.
pub fn text(alloc: Global, named: &Named) -> Result<String, AllocError> {
    let mut out = String::new(alloc);
    put_names(&mut out, named.names.as_slice())?;
    out.push_str("| ")?;
    put_plan(alloc, &mut out, &named.plan)?;
    Ok(out)
}
