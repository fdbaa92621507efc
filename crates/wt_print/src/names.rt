//! Names, columns, values and items.
ghost use Rattle.std.specs.Prelude.{◌≡◌, ◌++◌, IfOk};
ghost use Rattle.std.specs.List.{AllByRecursion};
ghost use Rattle.std.specs.Fmt.{signed_decimal};
ghost use Rattle.wt_lex.specs.Spelling as pieces;
ghost use Rattle.wt_spelling.specs.Numbers.{FitsValue, FitsScalar};
ghost use Rattle.wt_spelling.specs.Spelling as spec;

use itoa::Buffer;
use wt_ast::{CmpWord, ColumnName, Item, Scalar};
use wt_lex::is_bare;
use wt_value::{Name, Names, Value, WantOfMemory};

// Adds bytes, each quote among them twice.
fn add_doubled(out: &mut Vec<u8>, quote: u8, mut bytes: &[u8]) -> Result<(), WantOfMemory>
    ensures { IfOk result (λ _. out.new.items ≡ out.old.items ++ pieces.doubled quote bytes.entry.now) }
{
    'bytes: while let [byte, rest @ ..] = bytes {
        if *byte == quote {
            out.push(quote)?;
        }
        out.push(*byte)?;
        bytes = rest;
    }
    Ok(())
}

fn add_quoted(out: &mut Vec<u8>, quote: u8, bytes: &[u8]) -> Result<(), WantOfMemory>
    ensures { IfOk result (λ _. out.new.items ≡ out.old.items ++ pieces.quoted quote bytes.now) }
{
    out.push(quote)?;
    add_doubled(out, quote, bytes)?;
    out.push(quote)?;
    Ok(())
}

pub(crate) fn add_name(out: &mut Vec<u8>, name: &Name) -> Result<(), WantOfMemory>
    ensures { IfOk result (λ _. out.new.items ≡ out.old.items ++ spec.name_text name.now) }
{
    let bytes = name.as_bytes();
    if is_bare(bytes) {
        out.extend_from_slice(bytes)
    } else {
        add_quoted(out, b'"', bytes)
    }
}

// `alias.`, where an alias is written.
fn add_alias(out: &mut Vec<u8>, alias: &Option<Name>) -> Result<(), WantOfMemory>
    ensures { IfOk result (λ _. out.new.items ≡ out.old.items ++ spec.before_dot alias.now) }
{
    match alias {
        None => Ok(()),
        Some(alias) => {
            add_name(out, alias)?;
            out.extend_from_slice(b".")
        }
    }
}

pub(crate) fn add_column(out: &mut Vec<u8>, column: &ColumnName) -> Result<(), WantOfMemory>
    ensures { IfOk result (λ _. out.new.items ≡ out.old.items ++ spec.column_text column.now) }
{
    add_alias(out, &column.table)?;
    add_name(out, &column.name)
}

// ` AS name`, where a name is written.
pub(crate) fn add_as(out: &mut Vec<u8>, name: &Option<Name>) -> Result<(), WantOfMemory>
    ensures { IfOk result (λ _. out.new.items ≡ out.old.items ++ spec.as_text name.now) }
{
    match name {
        None => Ok(()),
        Some(name) => {
            out.extend_from_slice(b" AS ")?;
            add_name(out, name)
        }
    }
}

fn add_number(out: &mut Vec<u8>, n: i64) -> Result<(), WantOfMemory>
    ensures { IfOk result (λ _. out.new.items ≡ out.old.items ++ signed_decimal n) }
{
    let mut buffer = Buffer::new();
    out.extend_from_slice(buffer.format(n).as_bytes())
}

fn add_value(out: &mut Vec<u8>, value: &Value) -> Result<(), WantOfMemory>
    ensures text { IfOk result (λ _. out.new.items ≡ out.old.items ++ spec.value_text value.now) }
    ensures fits { IfOk result (λ _. FitsValue value.now) }
{
    match value {
        Value::Null => out.extend_from_slice(b"NULL"),
        Value::Int(n) => add_number(out, *n),
        Value::Text(text) => add_quoted(out, b'\'', text.as_bytes()),
    }
}

pub(crate) fn add_scalar(out: &mut Vec<u8>, scalar: &Scalar) -> Result<(), WantOfMemory>
    ensures text { IfOk result (λ _. out.new.items ≡ out.old.items ++ spec.scalar_text scalar.now) }
    ensures fits { IfOk result (λ _. FitsScalar scalar.now) }
{
    match scalar {
        Scalar::Column(column) => add_column(out, column),
        Scalar::Literal(value, _) => add_value(out, value),
    }
}

pub(crate) fn add_sign(out: &mut Vec<u8>, sign: CmpWord) -> Result<(), WantOfMemory>
    ensures { IfOk result (λ _. out.new.items ≡ out.old.items ++ spec.sign_text sign) }
{
    out.extend_from_slice(sign_of(sign))
}

fn sign_of(sign: CmpWord) -> &'static [u8]
    ensures { result.now ≡ spec.sign_text sign }
{
    match sign {
        CmpWord::Eq => b" = ",
        CmpWord::Ne => b" <> ",
        CmpWord::Lt => b" < ",
        CmpWord::Le => b" <= ",
        CmpWord::Gt => b" > ",
        CmpWord::Ge => b" >= ",
    }
}

fn add_item(out: &mut Vec<u8>, item: &Item) -> Result<(), WantOfMemory>
    ensures { IfOk result (λ _. out.new.items ≡ out.old.items ++ spec.item_text item.now) }
{
    match item {
        Item::Star { .. } => out.extend_from_slice(b"*"),
        Item::AllOf { alias, .. } => {
            add_name(out, alias)?;
            out.extend_from_slice(b".*")
        }
        Item::Column { column, output } => {
            add_column(out, column)?;
            add_as(out, output)
        }
    }
}

// ---- lists with a comma and a blank between

fn add_other_items(out: &mut Vec<u8>, mut items: &[Item]) -> Result<(), WantOfMemory>
    ensures { IfOk result (λ _. out.new.items ≡ out.old.items ++ spec.others_text spec.item_text items.entry.now) }
{
    'items: while let [item, others @ ..] = items {
        out.extend_from_slice(b", ")?;
        add_item(out, item)?;
        items = others;
    }
    Ok(())
}

pub(crate) fn add_items(out: &mut Vec<u8>, items: &[Item]) -> Result<(), WantOfMemory>
    ensures { IfOk result (λ _. out.new.items ≡ out.old.items ++ spec.listed spec.item_text items.now) }
{
    match items {
        [] => Ok(()),
        [first, others @ ..] => {
            add_item(out, first)?;
            add_other_items(out, others)
        }
    }
}

fn add_other_columns(out: &mut Vec<u8>, mut columns: &[ColumnName]) -> Result<(), WantOfMemory>
    ensures { IfOk result (λ _. out.new.items ≡ out.old.items ++ spec.others_text spec.column_text columns.entry.now) }
{
    'columns: while let [column, others @ ..] = columns {
        out.extend_from_slice(b", ")?;
        add_column(out, column)?;
        columns = others;
    }
    Ok(())
}

fn add_columns(out: &mut Vec<u8>, columns: &[ColumnName]) -> Result<(), WantOfMemory>
    ensures { IfOk result (λ _. out.new.items ≡ out.old.items ++ spec.listed spec.column_text columns.now) }
{
    match columns {
        [] => Ok(()),
        [first, others @ ..] => {
            add_column(out, first)?;
            add_other_columns(out, others)
        }
    }
}

fn is_tuple(columns: &[ColumnName]) -> bool
    ensures { result ≡ spec.is_tuple columns.now }
{
    match columns {
        [_, _, ..] => true,
        _ => false,
    }
}

// The columns before IN: more than one are a tuple, in parentheses.
pub(crate) fn add_tuple(out: &mut Vec<u8>, columns: &[ColumnName]) -> Result<(), WantOfMemory>
    ensures { IfOk result (λ _. out.new.items ≡ out.old.items ++ spec.tuple_text columns.now) }
{
    if !is_tuple(columns) {
        return add_columns(out, columns);
    }
    out.extend_from_slice(b"(")?;
    add_columns(out, columns)?;
    out.extend_from_slice(b")")
}

fn add_other_names(out: &mut Vec<u8>, mut names: &[Name]) -> Result<(), WantOfMemory>
    ensures { IfOk result (λ _. out.new.items ≡ out.old.items ++ spec.others_text spec.name_text names.entry.now) }
{
    'names: while let [name, others @ ..] = names {
        out.extend_from_slice(b", ")?;
        add_name(out, name)?;
        names = others;
    }
    Ok(())
}

fn add_names(out: &mut Vec<u8>, names: &[Name]) -> Result<(), WantOfMemory>
    ensures { IfOk result (λ _. out.new.items ≡ out.old.items ++ spec.listed spec.name_text names.now) }
{
    match names {
        [] => Ok(()),
        [first, others @ ..] => {
            add_name(out, first)?;
            add_other_names(out, others)
        }
    }
}

// ` (names)`, where the columns of a query in FROM are named.
pub(crate) fn add_column_list(out: &mut Vec<u8>, names: &Option<Names>) -> Result<(), WantOfMemory>
    ensures { IfOk result (λ _. out.new.items ≡ out.old.items ++ spec.columns_text names.now) }
{
    match names {
        None => Ok(()),
        Some(names) => {
            out.extend_from_slice(b" (")?;
            add_names(out, names.as_slice())?;
            out.extend_from_slice(b")")
        }
    }
}

fn add_other_values(out: &mut Vec<u8>, mut values: &[Value]) -> Result<(), WantOfMemory>
    ensures text { IfOk result (λ _. out.new.items ≡ out.old.items ++ spec.others_text spec.value_text values.entry.now) }
    ensures fits { IfOk result (λ _. AllByRecursion FitsValue values.entry.now) }
{
    'values: while let [value, others @ ..] = values {
        out.extend_from_slice(b", ")?;
        add_value(out, value)?;
        values = others;
    }
    Ok(())
}

pub(crate) fn add_values(out: &mut Vec<u8>, values: &[Value]) -> Result<(), WantOfMemory>
    ensures text { IfOk result (λ _. out.new.items ≡ out.old.items ++ spec.listed spec.value_text values.now) }
    ensures fits { IfOk result (λ _. AllByRecursion FitsValue values.now) }
{
    match values {
        [] => Ok(()),
        [first, others @ ..] => {
            add_value(out, first)?;
            add_other_values(out, others)
        }
    }
}
