//! Conditions over the columns of FROM items.
ghost use Rattle.std.specs.Prelude.{◌≡◌, ◌++◌, List, map, IfOk, OnOk};
ghost use Rattle.wt_pred.specs.Tree.{pred_tree, preds_tree};
ghost use Rattle.wt_ast.specs.Tree.{condition_tree, conditions_tree, filter_tree};
ghost use Rattle.std.specs.Prelude.{get_or};
ghost use Rattle.wt_ast.specs.Tree.{compare, all_of, condition_trees};
ghost use Rattle.wt_ast.specs.declared.tree.CmpWord.TheVariants as words;
ghost use Rattle.wt_ast.specs.declared.tree.Scalar.TheVariants as scalars;
ghost use Rattle.wt_blocks.specs.Printed as spec;
ghost use Rattle.wt_tree_parts.specs.Leaves.{scope_of_leaves};

use crate::leaf::{Sight, column_at};
use std::alloc::Global;
use wt_ast::{CmpWord, ColumnName, CondKind, Condition, Conditions, Scalar};
use wt_pred::{Cmp, Operand, Pred, Preds};
use wt_value::WantOfMemory;

fn word_of(sign: Cmp) -> CmpWord
    ensures { result ≡ spec.word_of sign }
{
    match sign {
        Cmp::Eq => CmpWord::Eq,
        Cmp::Ne => CmpWord::Ne,
        Cmp::Lt => CmpWord::Lt,
        Cmp::Le => CmpWord::Le,
        Cmp::Gt => CmpWord::Gt,
        Cmp::Ge => CmpWord::Ge,
    }
}

/// The number at a place of a list, 0 past its end.
fn number_at(cols: &[u32], place: u32) -> u32
    ensures { result ≡ get_or cols.now place 0 }
{
    let place = place as usize;
    if place < cols.len() { cols[place] } else { 0 }
}

/// The column for a place of a list of columns.
fn operand_column(
    alloc: Global,
    sight: &Sight,
    cols: &[u32],
    place: u32,
) -> Result<ColumnName, WantOfMemory>
    ensures { IfOk result (λ c. c ≡ spec.operand_column (scope_of_leaves sight.now.schema.now.tables sight.now.leaves.now) cols.now place) }
{
    column_at(alloc, sight, number_at(cols, place))
}

fn scalar_of(
    alloc: Global,
    sight: &Sight,
    cols: &[u32],
    operand: &Operand,
) -> Result<Scalar, WantOfMemory>
    ensures { IfOk result (λ s. s ≡ spec.scalar_of (scope_of_leaves sight.now.schema.now.tables sight.now.leaves.now) cols.now operand.now) }
{
    match operand {
        Operand::Column(place) => Ok(Scalar::Column(operand_column(alloc, sight, cols, *place)?)),
        Operand::Constant(value) => Ok(Scalar::Literal(value.clone()?, 0)),
    }
}

/// The condition of a predicate over the places of a list of columns.
#[cycle(pred)]
pub fn test(
    alloc: Global,
    sight: &Sight,
    cols: &[u32],
    pred: &Pred,
) -> Result<Condition, WantOfMemory>
    ensures { IfOk result (λ c. condition_tree c ≡ spec.test_tree (scope_of_leaves sight.now.schema.now.tables sight.now.leaves.now) cols.now (pred_tree pred.now)) }
{
    let kind = match pred {
        Pred::Compare(sign, a, b) => {
            let a = scalar_of(alloc, sight, cols, a)?;
            let b = scalar_of(alloc, sight, cols, b)?;
            CondKind::Compare(word_of(*sign), a, b, 0)
        }
        Pred::IsNull(k) => CondKind::IsNull(operand_column(alloc, sight, cols, *k)?),
        Pred::IsNotNull(k) => CondKind::IsNotNull(operand_column(alloc, sight, cols, *k)?),
        Pred::InList(k, values) => {
            let column = operand_column(alloc, sight, cols, *k)?;
            CondKind::InList(column, values.clone()?, 0)
        }
        Pred::And(parts) => CondKind::And(tests(alloc, sight, cols, parts)?),
        Pred::Or(parts) => CondKind::Or(tests(alloc, sight, cols, parts)?),
        Pred::Not(inner) => {
            let inner = test(alloc, sight, cols, inner)?;
            CondKind::Not(Box::new(alloc, inner)?)
        }
    };
    Ok(Condition { at: 0, kind })
}

#[tactic(auto, using(crate::proofs::Views::befores))]
#[cycle(pred)]
fn tests(
    alloc: Global,
    sight: &Sight,
    cols: &[u32],
    parts: &Preds,
) -> Result<Conditions, WantOfMemory>
    ensures { IfOk result (λ cs. conditions_tree cs ≡ spec.test_trees (scope_of_leaves sight.now.schema.now.tables sight.now.leaves.now) cols.now (preds_tree parts.now)) }
{
    let mut built = Vec::new(alloc);
    let mut rest = parts;
    'parts: loop {
        match rest {
            Preds::Empty => return Conditions::from_vec(alloc, built),
            Preds::More(part, more) => {
                built.push(test(alloc, sight, cols, part)?)?;
                rest = more;
            }
        }
    }
}

/// Adds `x = y` for each pair of columns of two operands.
pub fn push_pairs(
    alloc: Global,
    lefts: &Sight,
    rights: &Sight,
    a: &[u32],
    b: &[u32],
    out: &mut Vec<Condition>,
) -> Result<(), WantOfMemory>
    ensures { OnOk result (map condition_tree out.new.items ≡ map condition_tree out.old.items ++ spec.pair_trees (scope_of_leaves lefts.now.schema.now.tables lefts.now.leaves.now) (scope_of_leaves rights.now.schema.now.tables rights.now.leaves.now) a.now b.now) }
{
    let mut a = a;
    let mut b = b;
    'pairs: while let [x, more_lefts @ ..] = a {
        let [y, more_rights @ ..] = b else {
            return Ok(());
        };
        out.push(equality(column_at(alloc, lefts, *x)?, column_at(alloc, rights, *y)?))?;
        a = more_lefts;
        b = more_rights;
    }
    Ok(())
}

fn equality(left: ColumnName, right: ColumnName) -> Condition
    ensures { condition_tree result ≡ compare 0 words.Eq (scalars.Column left) (scalars.Column right) 0 }
{
    Condition {
        at: 0,
        kind: CondKind::Compare(CmpWord::Eq, Scalar::Column(left), Scalar::Column(right), 0),
    }
}

fn and_of(alloc: Global, conditions: Vec<Condition>) -> Result<Condition, WantOfMemory>
    ensures { IfOk result (λ c. condition_tree c ≡ all_of 0 (condition_trees conditions.items)) }
{
    let kind = CondKind::And(Conditions::from_vec(alloc, conditions)?);
    Ok(Condition { at: 0, kind })
}

/// The conditions joined by AND; one alone is itself.
pub fn together(alloc: Global, mut conditions: Vec<Condition>) -> Result<Condition, WantOfMemory>
    ensures { IfOk result (λ c. condition_tree c ≡ spec.together (map condition_tree conditions.items)) }
{
    if conditions.len() != 1 {
        return and_of(alloc, conditions);
    }
    match conditions.pop() {
        Some(one) => Ok(one),
        None => and_of(alloc, conditions),
    }
}

/// What stands behind WHERE.
pub fn where_of(
    alloc: Global,
    conditions: Vec<Condition>,
) -> Result<Option<Condition>, WantOfMemory>
    ensures { IfOk result (λ c. filter_tree c ≡ spec.where_of (map condition_tree conditions.items)) }
{
    if conditions.is_empty() {
        return Ok(None);
    }
    Ok(Some(together(alloc, conditions)?))
}
