//! A condition without a subquery becomes a predicate over places.
ghost use Rattle.std.specs.Prelude.{◌≡◌, ◌<◌, ◌^◌, length, not, get_or, map};
ghost use Rattle.std.specs.List.{list_all};
ghost use Rattle.wt_pred.specs.Tree.{pred_tree, preds_tree};
ghost use Rattle.wt_ast.specs.Tree.{condition_tree, conditions_tree};
ghost use Rattle.wt_query_rows.specs.Rows.{sign_of};
ghost use Rattle.wt_query_plan.specs.Building as spec;
ghost use Rattle.wt_query_plan.specs.Faults as faults;
ghost use Rattle.wt_plan.specs.Regular as regular;
ghost use Rattle.wt_query_plan.specs.Telling.{Tells};
ghost use Rattle.wt_resolve.specs.Scoping.{outside, inside};

use crate::lookup::{Scope, column};
use std::alloc::Global;
use wt_ast::{CmpWord, ColumnName, CondKind, Condition, Conditions, Scalar};
use wt_pred::{Cmp, Operand, Pred, Preds};
use wt_query_plan::{BuildError, BuildFault};
use wt_schema::ColKind;
use wt_value::{Value, Values};

fn sign(word: CmpWord) -> Cmp
    ensures { result ≡ sign_of word }
{
    match word {
        CmpWord::Eq => Cmp::Eq,
        CmpWord::Ne => Cmp::Ne,
        CmpWord::Lt => Cmp::Lt,
        CmpWord::Le => Cmp::Le,
        CmpWord::Gt => Cmp::Gt,
        CmpWord::Ge => Cmp::Ge,
    }
}

fn value_kind(value: &Value) -> ColKind
    ensures { result ≡ regular.value_kind value.now }
{
    match value {
        Value::Text(_) => ColKind::Text,
        Value::Null | Value::Int(_) => ColKind::Int,
    }
}

pub fn same_kind(a: ColKind, b: ColKind) -> bool
    ensures { result ≡ faults.kind_same a b }
{
    match a {
        ColKind::Int => match b {
            ColKind::Int => true,
            ColKind::Text => false,
        },
        ColKind::Text => match b {
            ColKind::Int => false,
            ColKind::Text => true,
        },
    }
}

pub fn kind_at(kinds: &[ColKind], place: u32) -> ColKind
    ensures { result ≡ regular.kind_at kinds.now place }
{
    let place = place as usize;
    if place < kinds.len() {
        kinds[place]
    } else {
        ColKind::Int
    }
}

fn operand_kind(kinds: &[ColKind], operand: &Operand) -> ColKind
    ensures { result ≡ regular.operand_kind kinds.now operand.now }
{
    match operand {
        Operand::Column(place) => kind_at(kinds, *place),
        Operand::Constant(value) => value_kind(value),
    }
}

fn operand(alloc: Global, scope: &Scope, s: &Scalar) -> Result<Operand, BuildError>
    requires narrow { length (inside scope.now) < 2 ^ 32 }
    ensures { Tells (faults.scalar_fault (outside scope.now) (inside scope.now) s.now) (λ o. o ≡ spec.operand_of (inside scope.now) s.now) result }
{
    match s {
        Scalar::Column(c) => Ok(Operand::Column(column(alloc, scope, c)?)),
        Scalar::Literal(value, _) => Ok(Operand::Constant(value.clone()?)),
    }
}

fn comparison(
    alloc: Global,
    scope: &Scope,
    word: CmpWord,
    a: &Scalar,
    b: &Scalar,
    at: u32,
) -> Result<Pred, BuildError>
    requires narrow { length (inside scope.now) < 2 ^ 32 }
    ensures { Tells (faults.compare_fault (outside scope.now) (inside scope.now) scope.now.kinds.now a.now b.now at) (λ p. pred_tree p ≡ spec.compared (inside scope.now) word a.now b.now) result }
{
    let x = operand(alloc, scope, a)?;
    let y = operand(alloc, scope, b)?;
    if !same_kind(operand_kind(scope.kinds, &x), operand_kind(scope.kinds, &y)) {
        return Err(BuildError::Refused(BuildFault::TypeMismatch, at));
    }
    Ok(Pred::Compare(sign(word), x, y))
}

fn list_fits(kind: ColKind, values: &[Value]) -> bool
    ensures { result ≡ list_all (λ v. faults.kind_same kind (regular.value_kind v)) values.now }
{
    values.iter().all(|v| same_kind(kind, value_kind(v)))
}

fn in_list(
    alloc: Global,
    scope: &Scope,
    c: &ColumnName,
    values: &Values,
    at: u32,
) -> Result<Pred, BuildError>
    requires narrow { length (inside scope.now) < 2 ^ 32 }
    ensures { Tells (faults.list_fault (outside scope.now) (inside scope.now) scope.now.kinds.now c.now values.now at) (λ p. pred_tree p ≡ spec.listed_in (inside scope.now) c.now values.now) result }
{
    let place = column(alloc, scope, c)?;
    if !list_fits(kind_at(scope.kinds, place), values.as_slice()) {
        return Err(BuildError::Refused(BuildFault::TypeMismatch, at));
    }
    Ok(Pred::InList(place, values.clone()?))
}

/// The predicate of a condition without a subquery, over the columns in scope.
#[cycle(predicate)]
pub fn predicate(alloc: Global, scope: &Scope, c: &Condition) -> Result<Pred, BuildError>
    requires narrow { length (inside scope.now) < 2 ^ 32 }
    ensures { Tells (faults.test_fault (outside scope.now) (inside scope.now) scope.now.kinds.now (condition_tree c.now)) (λ p. pred_tree p ≡ spec.pred_of (inside scope.now) (condition_tree c.now)) result }
{
    match &c.kind {
        CondKind::Compare(word, a, b, at) => comparison(alloc, scope, *word, a, b, *at),
        CondKind::IsNull(c) => Ok(Pred::IsNull(column(alloc, scope, c)?)),
        CondKind::IsNotNull(c) => Ok(Pred::IsNotNull(column(alloc, scope, c)?)),
        CondKind::InList(c, values, at) => in_list(alloc, scope, c, values, *at),
        CondKind::InQuery(_, _, _) => Ok(Pred::Or(Preds::Empty)),
        CondKind::And(parts) => Ok(Pred::And(predicates(alloc, scope, parts)?)),
        CondKind::Or(parts) => Ok(Pred::Or(predicates(alloc, scope, parts)?)),
        CondKind::Not(inner) => {
            let inner = predicate(alloc, scope, inner)?;
            Ok(Pred::Not(Box::new(alloc, inner)?))
        }
    }
}

#[tactic(auto, using(crate::proofs::Befores::befores))]
#[cycle(predicate)]
fn predicates(alloc: Global, scope: &Scope, parts: &Conditions) -> Result<Preds, BuildError>
    requires narrow { length (inside scope.now) < 2 ^ 32 }
    ensures { Tells (faults.tests_fault (outside scope.now) (inside scope.now) scope.now.kinds.now (conditions_tree parts.now)) (λ ps. preds_tree ps ≡ spec.preds_of (inside scope.now) (conditions_tree parts.now)) result }
{
    let mut built = Vec::new(alloc);
    let mut rest = parts;
    'parts: loop {
        match rest {
            Conditions::Empty => return Ok(Preds::from_vec(alloc, built)?),
            Conditions::More(part, more) => {
                built.push(predicate(alloc, scope, part)?)?;
                rest = more;
            }
        }
    }
}
