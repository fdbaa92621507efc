//! Values under a choice of the variables.
ghost use Rattle.std.specs.Prelude.{◌≡◌, ◌++◌, [], map, slice_index_or, IfOk, OnOk};
ghost use Rattle.wt_value.specs.declared.value.Value.TheVariants.{Null};
ghost use Rattle.wt_rows.specs.FormRows as spec;
ghost use Rattle.wt_form_rows.specs.Tests.{pieces_behind};

use std::alloc::{AllocError, Global};
use wt_form::Expr;
use wt_instance::Instance;
use wt_symbol::{Part, PartCols};
use wt_value::{Row, Rows, Seq, Value};

/// Values with their column numbers.
pub(crate) type Piece = Seq<(usize, Value)>;

/// The pieces of a row that a variable stands for.
pub(crate) type Pieces = Seq<Piece>;

/// A row of a form: the values of each piece.
pub(crate) type FormRow = Seq<Row>;

pub(crate) type FormRows = Seq<FormRow>;

/// The values of a whole row with their numbers.
pub(crate) fn numbered(alloc: Global, row: &Row) -> Result<Piece, AllocError>
    ensures { IfOk result (λ piece. piece ≡ spec.numbered 0 row.now) }
{
    let mut piece = Piece::new(alloc);
    for (number, value) in row.as_slice().iter().enumerate() {
        piece.push((number, value.clone()?))?;
    }
    Ok(piece)
}

/// Adds the values with these numbers.
fn push_beside(numbers: &[u32], values: &[Value], piece: &mut Piece) -> Result<(), AllocError>
    ensures { OnOk result (piece.new ≡ piece.old ++ spec.beside numbers.now values.now) }
{
    match numbers {
        [] => Ok(()),
        [number, more @ ..] => match values {
            [] => Ok(()),
            [value, rest @ ..] => {
                piece.push((*number as usize, value.clone()?))?;
                push_beside(more, rest, piece)
            }
        },
    }
}

/// The values of a piece with the numbers of a part's columns.
fn label(alloc: Global, instance: &Instance, cols: PartCols, row: &Row) -> Result<Piece, AllocError>
    ensures { IfOk result (λ piece. piece ≡ spec.label instance.now cols row.now) }
{
    match cols {
        PartCols::Whole => numbered(alloc, row),
        PartCols::List(list) => {
            let mut piece = Piece::new(alloc);
            push_beside(instance.numbers(list), row.as_slice(), &mut piece)?;
            Ok(piece)
        }
    }
}

/// Adds the pieces of a row with the numbers of a head's parts.
fn push_labels(
    alloc: Global,
    instance: &Instance,
    head: &[Part],
    row: &[Row],
    pieces: &mut Pieces,
) -> Result<(), AllocError>
    ensures { OnOk result (pieces.new ≡ pieces.old ++ spec.labels instance.now head.now row.now) }
{
    match head {
        [] => Ok(()),
        [part, parts @ ..] => match row {
            [] => Ok(()),
            [values, rest @ ..] => {
                pieces.push(label(alloc, instance, part.cols, values)?)?;
                push_labels(alloc, instance, parts, rest, pieces)
            }
        },
    }
}

/// The pieces of a row with the numbers of a head's parts.
pub(crate) fn labels(
    alloc: Global,
    instance: &Instance,
    head: &[Part],
    row: &FormRow,
) -> Result<Pieces, AllocError>
    ensures { IfOk result (λ pieces. pieces ≡ spec.labels instance.now head.now row.now) }
{
    let mut pieces = Pieces::new(alloc);
    push_labels(alloc, instance, head, row.as_slice(), &mut pieces)?;
    Ok(pieces)
}

/// The value with this number, NULL where the piece does not hold it.
fn number_at(mut piece: &[(usize, Value)], number: usize) -> Result<Value, AllocError>
    ensures { IfOk result (λ value. value ≡ spec.number_at piece.entry.now number) }
{
    'piece: while let [entry, others @ ..] = piece {
        if entry.0 == number {
            return entry.1.clone();
        }
        piece = others;
    }
    Ok(Value::Null)
}

/// The values of a piece.
fn values_in(alloc: Global, piece: &[(usize, Value)]) -> Result<Row, AllocError>
    ensures { IfOk result (λ row. row ≡ spec.values_in piece.now) }
{
    let mut row = Row::new(alloc);
    for entry in piece {
        row.push(entry.1.clone()?)?;
    }
    Ok(row)
}

/// The values of a piece at some numbers.
fn values_at(alloc: Global, piece: &[(usize, Value)], numbers: &[u32]) -> Result<Row, AllocError>
    ensures { IfOk result (λ row. row ≡ map (spec.number_at piece.now) numbers.now) }
{
    let mut row = Row::new(alloc);
    for number in numbers {
        row.push(number_at(piece, *number as usize)?)?;
    }
    Ok(row)
}

/// The values of a piece at the columns of a part.
fn part_values(
    alloc: Global,
    instance: &Instance,
    cols: PartCols,
    piece: &[(usize, Value)],
) -> Result<Row, AllocError>
    ensures { IfOk result (λ row. row ≡ spec.part_values instance.now cols piece.now) }
{
    match cols {
        PartCols::Whole => values_in(alloc, piece),
        PartCols::List(list) => values_at(alloc, piece, instance.numbers(list)),
    }
}

/// As many NULLs as a leaf has columns.
fn nulls(alloc: Global, width: u32) -> Result<Row, AllocError>
    ensures { IfOk result (λ row. row ≡ spec.nulls width) }
{
    let mut row = Row::new(alloc);
    for _number in 0..width {
        row.push(Value::Null)?;
    }
    Ok(row)
}

/// A NULL for each number.
fn nulls_for(alloc: Global, numbers: &[u32]) -> Result<Row, AllocError>
    ensures { IfOk result (λ row. row ≡ map (λ n. Null) numbers.now) }
{
    let mut row = Row::new(alloc);
    for _number in numbers {
        row.push(Value::Null)?;
    }
    Ok(row)
}

/// NULLs for the columns of a leaf or a list.
fn null_values(
    alloc: Global,
    instance: &Instance,
    leaf: u8,
    cols: PartCols,
) -> Result<Row, AllocError>
    ensures { IfOk result (λ row. row ≡ spec.null_values instance.now leaf cols) }
{
    match cols {
        PartCols::Whole => nulls(alloc, instance.width(leaf)),
        PartCols::List(list) => nulls_for(alloc, instance.numbers(list)),
    }
}

/// The pieces that a variable stands for.
fn pieces_at<'a>(env: &[&'a Pieces], variable: usize) -> &'a [Piece]
    ensures { result.now ≡ slice_index_or (map pieces_behind env.now) variable [] }
{
    if variable < env.len() {
        env[variable].as_slice()
    } else {
        &[]
    }
}

fn piece_at(pieces: &[Piece], part: usize) -> &[(usize, Value)]
    ensures { result.now ≡ slice_index_or pieces.now part [] }
{
    if part < pieces.len() {
        pieces[part].as_slice()
    } else {
        &[]
    }
}

/// The values of an expression.
pub(crate) fn values_of(
    alloc: Global,
    instance: &Instance,
    env: &[&Pieces],
    expr: Expr,
) -> Result<Row, AllocError>
    ensures { IfOk result (λ row. row ≡ spec.values_of instance.now (map pieces_behind env.now) expr) }
{
    match expr {
        Expr::Of(variable, part, cols) => {
            let piece = piece_at(pieces_at(env, variable as usize), part as usize);
            part_values(alloc, instance, cols, piece)
        }
        Expr::Null(leaf, cols) => null_values(alloc, instance, leaf, cols),
    }
}

/// The values of each expression.
pub(crate) fn row_of(
    alloc: Global,
    instance: &Instance,
    exprs: &[Expr],
    env: &[&Pieces],
) -> Result<FormRow, AllocError>
    ensures { IfOk result (λ row. row ≡ spec.row_of instance.now exprs.now (map pieces_behind env.now)) }
{
    let mut row = FormRow::new(alloc);
    for expr in exprs {
        row.push(values_of(alloc, instance, env, *expr)?)?;
    }
    Ok(row)
}

/// Adds values at the end.
fn push_values(row: &mut Row, values: &Row) -> Result<(), AllocError>
    ensures { OnOk result (row.new ≡ row.old ++ values.now) }
{
    for value in values.as_slice() {
        row.push(value.clone()?)?;
    }
    Ok(())
}

/// The pieces of a row put together.
fn put_together(alloc: Global, pieces: &FormRow) -> Result<Row, AllocError>
    ensures { IfOk result (λ row. row ≡ spec.put_together pieces.now) }
{
    let mut row = Row::new(alloc);
    for values in pieces.as_slice() {
        push_values(&mut row, values)?;
    }
    Ok(row)
}

/// The pieces of each row put together.
pub(crate) fn plain_rows(alloc: Global, rows: &FormRows) -> Result<Rows, AllocError>
    ensures { IfOk result (λ plain. plain ≡ map spec.put_together rows.now) }
{
    let mut plain = Rows::new(alloc);
    for row in rows.as_slice() {
        plain.push(put_together(alloc, row)?)?;
    }
    Ok(plain)
}
