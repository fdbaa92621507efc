//! Forms as values: a head, and terms with ranges, conditions and pieces.
ghost use Rattle.std.specs.Prelude.{◌≡◌, ◌↔◌, IfOk, IsTrue};
ghost use Rattle.wt_form.specs.Views.{terms_seen, ranges_seen, range_seen, conds_seen, cond_seen, form_seen};

use std::alloc::{AllocError, Global};
use wt_symbol::{PartCols, Parts};
use wt_value::Seq;

/// Values under a choice of the variables: columns of a part of a variable, or NULL for each column
/// of a leaf or a list.
#[derive(Clone, Copy, Debug, PartialEq, Eq)]
pub enum Expr {
    Of(u32, u32, PartCols),
    Null(u8, PartCols),
}

/// The expressions of a term's pieces, one for each part of the head.
pub type Exprs = Seq<Expr>;

/// A sum of terms whose rows have the parts of a head.
#[cycle(form)]
#[derive(Debug, Drop)]
pub struct Form {
    pub head: Parts,
    pub terms: Terms,
}

/// Terms in order.
#[cycle(form)]
#[derive(Debug, Drop)]
pub enum Terms {
    Empty,
    More(Box<Term>, Box<Terms>),
}

/// A product of ranges under conditions: a row for each choice of its variables, one to a range, that
/// passes the conditions.
#[cycle(form)]
#[derive(Debug, Drop)]
pub struct Term {
    pub ranges: Ranges,
    pub conds: Conds,
    pub pieces: Exprs,
}

/// Ranges of the variables 0, 1 and so on.
#[cycle(form)]
#[derive(Debug, Drop)]
pub enum Ranges {
    Empty,
    More(FormRange, Box<Ranges>),
}

/// What a variable stands for: a row of a leaf's relation, or one of the distinct rows of a form.
#[cycle(form)]
#[derive(Debug, Drop)]
pub enum FormRange {
    Rel(u8),
    Distinct(Box<Form>),
}

/// Conditions in order.
#[cycle(form)]
#[derive(Debug, Drop)]
pub enum Conds {
    Empty,
    More(Cond, Box<Conds>),
}

/// A predicate is True on the values, two expressions match, or some row of a form or none matches
/// the values.
#[cycle(form)]
#[derive(Debug, Drop)]
pub enum Cond {
    Pred(u8, Expr),
    Join(Expr, Expr),
    In(Expr, Box<Form>),
    NotIn(Expr, Box<Form>),
}

fn copy_pieces(pieces: &Exprs) -> Result<Exprs, AllocError>
    ensures { IfOk result (λ copy. copy ≡ pieces.now) }
{
    pieces.clone()
}

fn copy_head(head: &Parts) -> Result<Parts, AllocError>
    ensures { IfOk result (λ copy. copy ≡ head.now) }
{
    head.clone()
}

fn same_pieces(a: &Exprs, b: &Exprs) -> bool
    ensures { IsTrue result ↔ (a.now ≡ b.now) }
{
    a == b
}

fn same_head(a: &Parts, b: &Parts) -> bool
    ensures { IsTrue result ↔ (a.now ≡ b.now) }
{
    a == b
}

impl Form {
    /// The same, in memory of its own.
    #[cycle(copy)]
    pub fn copy(&self, alloc: Global) -> Result<Form, AllocError>
        ensures { IfOk result (λ g. form_seen g ≡ form_seen self.now) }
    {
        Ok(Form {
            head: copy_head(&self.head)?,
            terms: self.terms.copy(alloc)?,
        })
    }

    /// Whether both are the same as they are written.
    #[cycle(same)]
    pub fn same(&self, other: &Form) -> bool
        ensures { IsTrue result ↔ (form_seen self.now ≡ form_seen other.now) }
    {
        same_head(&self.head, &other.head) && self.terms.same(&other.terms)
    }
}

impl Terms {
    /// The same, in memory of its own.
    #[cycle(copy)]
    pub fn copy(&self, alloc: Global) -> Result<Terms, AllocError>
        ensures { IfOk result (λ g. terms_seen g ≡ terms_seen self.now) }
    {
        match self {
            Terms::Empty => Ok(Terms::Empty),
            Terms::More(term, rest) => {
                let first = Term {
                    ranges: term.ranges.copy(alloc)?,
                    conds: term.conds.copy(alloc)?,
                    pieces: copy_pieces(&term.pieces)?,
                };
                Ok(Terms::More(Box::new(alloc, first)?, Box::new(alloc, rest.copy(alloc)?)?))
            }
        }
    }

    /// Whether both are the same as they are written.
    #[cycle(same)]
    pub fn same(&self, other: &Terms) -> bool
        ensures { IsTrue result ↔ (terms_seen self.now ≡ terms_seen other.now) }
    {
        match self {
            Terms::Empty => match other {
                Terms::Empty => true,
                Terms::More(_, _) => false,
            },
            Terms::More(a, rest) => match other {
                Terms::Empty => false,
                Terms::More(b, others) => {
                    a.ranges.same(&b.ranges)
                        && a.conds.same(&b.conds)
                        && same_pieces(&a.pieces, &b.pieces)
                        && rest.same(others)
                }
            },
        }
    }
}

impl Ranges {
    /// The same, in memory of its own.
    #[cycle(copy)]
    pub fn copy(&self, alloc: Global) -> Result<Ranges, AllocError>
        ensures { IfOk result (λ g. ranges_seen g ≡ ranges_seen self.now) }
    {
        match self {
            Ranges::Empty => Ok(Ranges::Empty),
            Ranges::More(range, rest) => {
                let first = range.copy(alloc)?;
                Ok(Ranges::More(first, Box::new(alloc, rest.copy(alloc)?)?))
            }
        }
    }

    /// Whether both are the same as they are written.
    #[cycle(same)]
    pub fn same(&self, other: &Ranges) -> bool
        ensures { IsTrue result ↔ (ranges_seen self.now ≡ ranges_seen other.now) }
    {
        match self {
            Ranges::Empty => match other {
                Ranges::Empty => true,
                Ranges::More(_, _) => false,
            },
            Ranges::More(a, rest) => match other {
                Ranges::Empty => false,
                Ranges::More(b, others) => a.same(b) && rest.same(others),
            },
        }
    }
}

impl FormRange {
    /// The same, in memory of its own.
    #[cycle(copy)]
    pub fn copy(&self, alloc: Global) -> Result<FormRange, AllocError>
        ensures { IfOk result (λ g. range_seen g ≡ range_seen self.now) }
    {
        match self {
            FormRange::Rel(r) => Ok(FormRange::Rel(*r)),
            FormRange::Distinct(f) => Ok(FormRange::Distinct(Box::new(alloc, f.copy(alloc)?)?)),
        }
    }

    /// Whether both are the same as they are written.
    #[cycle(same)]
    pub fn same(&self, other: &FormRange) -> bool
        ensures { IsTrue result ↔ (range_seen self.now ≡ range_seen other.now) }
    {
        match self {
            FormRange::Rel(r) => match other {
                FormRange::Rel(s) => *r == *s,
                FormRange::Distinct(_) => false,
            },
            FormRange::Distinct(f) => match other {
                FormRange::Rel(_) => false,
                FormRange::Distinct(g) => f.same(g),
            },
        }
    }
}

impl Conds {
    /// The same, in memory of its own.
    #[cycle(copy)]
    pub fn copy(&self, alloc: Global) -> Result<Conds, AllocError>
        ensures { IfOk result (λ g. conds_seen g ≡ conds_seen self.now) }
    {
        match self {
            Conds::Empty => Ok(Conds::Empty),
            Conds::More(c, rest) => {
                let first = c.copy(alloc)?;
                Ok(Conds::More(first, Box::new(alloc, rest.copy(alloc)?)?))
            }
        }
    }

    /// Whether both are the same as they are written.
    #[cycle(same)]
    pub fn same(&self, other: &Conds) -> bool
        ensures { IsTrue result ↔ (conds_seen self.now ≡ conds_seen other.now) }
    {
        match self {
            Conds::Empty => match other {
                Conds::Empty => true,
                Conds::More(_, _) => false,
            },
            Conds::More(a, rest) => match other {
                Conds::Empty => false,
                Conds::More(b, others) => a.same(b) && rest.same(others),
            },
        }
    }
}

impl Cond {
    /// The same, in memory of its own.
    #[cycle(copy)]
    pub fn copy(&self, alloc: Global) -> Result<Cond, AllocError>
        ensures { IfOk result (λ g. cond_seen g ≡ cond_seen self.now) }
    {
        match self {
            Cond::Pred(p, x) => Ok(Cond::Pred(*p, *x)),
            Cond::Join(x, y) => Ok(Cond::Join(*x, *y)),
            Cond::In(x, f) => Ok(Cond::In(*x, Box::new(alloc, f.copy(alloc)?)?)),
            Cond::NotIn(x, f) => Ok(Cond::NotIn(*x, Box::new(alloc, f.copy(alloc)?)?)),
        }
    }

    /// Whether both are the same as they are written.
    #[cycle(same)]
    pub fn same(&self, other: &Cond) -> bool
        ensures { IsTrue result ↔ (cond_seen self.now ≡ cond_seen other.now) }
    {
        match self {
            Cond::Pred(p, x) => match other {
                Cond::Pred(q, y) => *p == *q && *x == *y,
                _ => false,
            },
            Cond::Join(x, y) => match other {
                Cond::Join(v, w) => *x == *v && *y == *w,
                _ => false,
            },
            Cond::In(x, f) => match other {
                Cond::In(y, g) => *x == *y && f.same(g),
                _ => false,
            },
            Cond::NotIn(x, f) => match other {
                Cond::NotIn(y, g) => *x == *y && f.same(g),
                _ => false,
            },
        }
    }
}
