//! The tree of a predicate.
ghost use Rattle.std.specs.Prelude.{◌≡◌, ◌↔◌, IfOk, IsTrue};
ghost use Rattle.wt_pred.specs.Tree.{pred_tree, preds_tree, pred_trees};

use std::alloc::Global;
use wt_value::{Value, Values, WantOfMemory, same_row};

/// How two operands are compared: `=`, `<>`, `<`, `<=`, `>`, `>=`.
#[derive(Clone, Copy, Debug, PartialEq, Eq)]
pub enum Cmp {
    Eq,
    Ne,
    Lt,
    Le,
    Gt,
    Ge,
}

/// An operand of a comparison: a column of the row, by its number from 0, or a constant.
#[derive(Clone, Debug, PartialEq, Eq, Drop)]
pub enum Operand {
    Column(u32),
    Constant(Value),
}

/// A predicate over a row.
///
/// In the trees of the layers above an `And` and an `Or` have two or more parts, and an `InList` has
/// one constant or more, none of them NULL. No call here asks for that.
#[cycle(tree)]
#[derive(Drop)]
pub enum Pred {
    Compare(Cmp, Operand, Operand),
    IsNull(u32),
    IsNotNull(u32),
    InList(u32, Values),
    And(Preds),
    Or(Preds),
    Not(Box<Pred>),
}

/// Predicates in order: none, or a first one and the others.
#[cycle(tree)]
pub enum Preds {
    Empty,
    More(Box<Pred>, Box<Preds>),
}

// A run of AND or OR has thousands of parts: it is dropped by a loop, which takes no stack for them.
impl Drop for Preds {
    #[cycle(tree)]
    fn drop(mut self) {
        loop {
            match self {
                Preds::Empty => return,
                Preds::More(_, rest) => self = Box::into_inner(rest),
            }
        }
    }
}

impl Preds {
    /// These predicates as a list. It is built from the last one back.
    pub fn from_vec(alloc: Global, mut parts: Vec<Pred>) -> Result<Preds, WantOfMemory>
        ensures exact { IfOk result (λ list. preds_tree list ≡ pred_trees parts.items) }
    {
        let mut list = Preds::Empty;
        'parts: while let Some(part) = parts.pop() {
            list = Preds::More(Box::new(alloc, part)?, Box::new(alloc, list)?);
        }
        Ok(list)
    }
}

impl Pred {
    /// The same predicate.
    #[tactic(auto, using(crate::proofs::Lists::befores))]
    #[cycle(copy)]
    pub fn copy(&self, alloc: Global) -> Result<Pred, WantOfMemory>
        ensures exact { IfOk result (λ p. pred_tree p ≡ pred_tree self.now) }
    {
        match self {
            Pred::Compare(cmp, a, b) => Ok(Pred::Compare(*cmp, a.clone()?, b.clone()?)),
            Pred::IsNull(column) => Ok(Pred::IsNull(*column)),
            Pred::IsNotNull(column) => Ok(Pred::IsNotNull(*column)),
            Pred::InList(column, values) => Ok(Pred::InList(*column, values.clone()?)),
            Pred::And(parts) => Ok(Pred::And(copy_parts(alloc, parts)?)),
            Pred::Or(parts) => Ok(Pred::Or(copy_parts(alloc, parts)?)),
            Pred::Not(inner) => Ok(Pred::Not(Box::new(alloc, inner.copy(alloc)?)?)),
        }
    }
}

#[tactic(auto, using(crate::proofs::Lists::befores))]
#[cycle(copy)]
fn copy_parts(alloc: Global, parts: &Preds) -> Result<Preds, WantOfMemory>
    ensures { IfOk result (λ list. preds_tree list ≡ preds_tree parts.now) }
{
    let mut copied = Vec::new(alloc);
    let mut rest = parts;
    'parts: loop {
        match rest {
            Preds::Empty => return Preds::from_vec(alloc, copied),
            Preds::More(part, more) => {
                copied.push(part.copy(alloc)?)?;
                rest = more;
            }
        }
    }
}

fn same_operand(a: &Operand, b: &Operand) -> bool
    ensures { IsTrue result ↔ (a.now ≡ b.now) }
{
    a == b
}

impl Pred {
    /// Whether both are the same predicate.
    #[cycle(same)]
    pub fn same(&self, other: &Pred) -> bool
        ensures exact { IsTrue result ↔ (pred_tree self.now ≡ pred_tree other.now) }
    {
        match self {
            Pred::Compare(cmp, a, b) => match other {
                Pred::Compare(their_cmp, c, d) => cmp == their_cmp
                    && same_operand(a, c)
                    && same_operand(b, d),
                _ => false,
            },
            Pred::IsNull(column) => match other {
                Pred::IsNull(theirs) => column == theirs,
                _ => false,
            },
            Pred::IsNotNull(column) => match other {
                Pred::IsNotNull(theirs) => column == theirs,
                _ => false,
            },
            Pred::InList(column, values) => match other {
                Pred::InList(theirs, their_values) => column == theirs
                    && same_row(values, their_values),
                _ => false,
            },
            Pred::And(parts) => match other {
                Pred::And(theirs) => same_parts(parts, theirs),
                _ => false,
            },
            Pred::Or(parts) => match other {
                Pred::Or(theirs) => same_parts(parts, theirs),
                _ => false,
            },
            Pred::Not(inner) => match other {
                Pred::Not(theirs) => inner.same(theirs),
                _ => false,
            },
        }
    }
}

#[cycle(same)]
fn same_parts(parts: &Preds, others: &Preds) -> bool
    ensures { IsTrue result ↔ (preds_tree parts.now ≡ preds_tree others.now) }
{
    let mut rest = parts;
    let mut theirs = others;
    'parts: loop {
        match rest {
            Preds::Empty => match theirs {
                Preds::Empty => return true,
                Preds::More(_, _) => return false,
            },
            Preds::More(part, more) => match theirs {
                Preds::Empty => return false,
                Preds::More(their_part, their_more) => {
                    if !part.same(their_part) {
                        return false;
                    }
                    rest = more;
                    theirs = their_more;
                }
            },
        }
    }
}
