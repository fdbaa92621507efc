//! Two forms of six terms with six variables each, for bench/congruent.
use crate::tests::lawful;
use std::alloc::{AllocError, Global};
use std::test::Fail;
use wt_congruent::congruent;
use wt_constraint::{AtomSet, atoms_of};
use wt_form::{Cond, Conds, Expr, Exprs, Form, FormRange, Ranges, Term, Terms};
use wt_symbol::{PartCols, Parts};

/// The conditions of each term and its pieces.
#[derive(Clone, Copy)]
enum Shape {
    /// A chain of Joins, each variable in a piece.
    Chain,
    /// A chain of Joins, no variable in a piece.
    Unseen,
    /// A chain of Joins that leaps among the variables, one of them in a piece.
    Leaping,
    /// A Join of each variable with the last one, none in a piece.
    Star,
    /// A ring of Joins, no variable in a piece.
    Ring,
    /// No condition and no piece.
    Apart,
    /// A NotIn for each variable, each over another leaf, none in a piece.
    Absent,
}

/// What a form is like: its shape, whether its terms, variables and conditions stand in another order,
/// whether all variables are over one leaf, and whether all terms are over one list.
#[derive(Clone, Copy)]
struct Kind {
    shape: Shape,
    shuffled: bool,
    one_leaf: bool,
    one_list: bool,
}

/// Another order of six.
fn shuffled(n: u8) -> u8 {
    match n {
        0 => 2,
        1 => 5,
        2 => 0,
        3 => 3,
        4 => 1,
        _ => 4,
    }
}

/// The inverse of that order.
fn back(n: u8) -> u8 {
    match n {
        0 => 2,
        1 => 4,
        2 => 0,
        3 => 3,
        4 => 5,
        _ => 1,
    }
}

impl Kind {
    /// The number of the n-th among six.
    fn place(self, n: u8) -> u8 {
        if self.shuffled { shuffled(n) } else { n }
    }

    /// Which one among six has this number.
    fn at(self, n: u8) -> u8 {
        if self.shuffled { back(n) } else { n }
    }

    fn leaf(self, place: u8) -> u8 {
        if self.one_leaf { 0 } else { self.at(place) }
    }

    fn list(self, term: u8) -> u8 {
        if self.one_list { 0 } else { term }
    }
}

fn ranges(alloc: Global, kind: Kind, left: u8) -> Result<Ranges, AllocError> {
    if left == 0 {
        return Ok(Ranges::Empty);
    }
    let leaf = kind.leaf(6u8.saturating_sub(left));
    let rest = ranges(alloc, kind, left - 1)?;
    Ok(Ranges::More(FormRange::Rel(leaf), Box::new(alloc, rest)?))
}

fn column(kind: Kind, variable: u8, list: u8) -> Expr {
    Expr::Of(u32::from(kind.place(variable)), 0, PartCols::List(list))
}

/// The n-th variable of a chain that leaps.
fn leap(n: u8) -> u8 {
    match n {
        0 => 0,
        1 => 3,
        2 => 1,
        3 => 4,
        4 => 2,
        _ => 5,
    }
}

/// The variables of the n-th Join.
fn ends(shape: Shape, n: u8) -> (u8, u8) {
    let next = if n == 5 { 0 } else { n.saturating_add(1) };
    match shape {
        Shape::Star => (n, 5),
        Shape::Leaping => (leap(n), leap(next)),
        _ => (n, next),
    }
}

/// That no row of a leaf matches the variable.
fn absent(alloc: Global, kind: Kind, list: u8, n: u8) -> Result<Cond, AllocError> {
    let f = Form {
        head: Parts::new(alloc),
        terms: one_term(alloc, n)?,
    };
    Ok(Cond::NotIn(column(kind, n, list), Box::new(alloc, f)?))
}

fn cond(alloc: Global, kind: Kind, list: u8, n: u8) -> Result<Cond, AllocError> {
    match kind.shape {
        Shape::Absent => absent(alloc, kind, list, n),
        shape => {
            let (a, b) = ends(shape, n);
            Ok(Cond::Join(column(kind, a, list), column(kind, b, list)))
        }
    }
}

/// The rows of a leaf.
fn one_term(alloc: Global, leaf: u8) -> Result<Terms, AllocError> {
    let mut pieces = Exprs::new(alloc);
    pieces.push(Expr::Of(0, 0, PartCols::Whole))?;
    let term = Term {
        ranges: Ranges::More(FormRange::Rel(leaf), Box::new(alloc, Ranges::Empty)?),
        conds: Conds::Empty,
        pieces,
    };
    Ok(Terms::More(Box::new(alloc, term)?, Box::new(alloc, Terms::Empty)?))
}

/// How many conditions a term has.
fn conds_of(shape: Shape) -> u8 {
    match shape {
        Shape::Ring => 6,
        Shape::Absent => 6,
        Shape::Apart => 0,
        _ => 5,
    }
}

fn conds(alloc: Global, kind: Kind, list: u8, left: u8) -> Result<Conds, AllocError> {
    if left == 0 {
        return Ok(Conds::Empty);
    }
    let all = conds_of(kind.shape);
    let n = if kind.shuffled {
        all.saturating_sub(left)
    } else {
        left - 1
    };
    let first = cond(alloc, kind, list, n)?;
    let rest = conds(alloc, kind, list, left - 1)?;
    Ok(Conds::More(first, Box::new(alloc, rest)?))
}

/// How many variables are in a piece.
fn pieces_of(shape: Shape) -> u8 {
    match shape {
        Shape::Chain => 6,
        Shape::Leaping => 1,
        _ => 0,
    }
}

fn pieces(alloc: Global, kind: Kind) -> Result<Exprs, AllocError> {
    let mut pieces = Exprs::new(alloc);
    for variable in 0..pieces_of(kind.shape) {
        pieces.push(Expr::Of(u32::from(kind.place(variable)), 0, PartCols::Whole))?;
    }
    Ok(pieces)
}

fn term(alloc: Global, kind: Kind, list: u8) -> Result<Term, AllocError> {
    Ok(Term {
        ranges: ranges(alloc, kind, 6)?,
        conds: conds(alloc, kind, list, conds_of(kind.shape))?,
        pieces: pieces(alloc, kind)?,
    })
}

fn terms(alloc: Global, kind: Kind, left: u8) -> Result<Terms, AllocError> {
    if left == 0 {
        return Ok(Terms::Empty);
    }
    let list = kind.list(kind.place(left - 1));
    let first = Box::new(alloc, term(alloc, kind, list)?)?;
    let rest = terms(alloc, kind, left - 1)?;
    Ok(Terms::More(first, Box::new(alloc, rest)?))
}

fn form(alloc: Global, kind: Kind) -> Result<Form, AllocError> {
    Ok(Form {
        head: Parts::new(alloc),
        terms: terms(alloc, kind, 6)?,
    })
}

/// Whether two forms are congruent so many times; None where the pair is not lawful.
fn are_congruent(alloc: Global, a: Kind, b: Kind, times: u32) -> Result<Option<bool>, AllocError> {
    let Some(pair) = lawful(alloc, "r0 D D | r0 D |")? else {
        return Ok(None);
    };
    let atoms = atoms_of(alloc, &pair)?;
    let f = form(alloc, a)?;
    let g = form(alloc, b)?;
    for _ in 0..times {
        if !congruent(alloc, &pair, &atoms, &f, &g, AtomSet(0))? {
            return Ok(Some(false));
        }
    }
    Ok(Some(true))
}

/// Whether a form is congruent to itself in another order, so many times.
fn is_congruent(alloc: Global, kind: Kind, times: u32) -> Result<Option<bool>, AllocError> {
    let other = Kind {
        shuffled: true,
        ..kind
    };
    are_congruent(alloc, kind, other, times)
}

/// All variables over one leaf; each term over its own list.
fn one_leaf(shape: Shape) -> Kind {
    Kind {
        shape,
        shuffled: false,
        one_leaf: true,
        one_list: false,
    }
}

/// All variables over one leaf, and all terms the same.
fn all_one(shape: Shape) -> Kind {
    Kind {
        one_list: true,
        ..one_leaf(shape)
    }
}

#[test]
fn six_leaves(rt: HostRuntime) -> Result<(), Fail> {
    let kind = Kind {
        one_leaf: false,
        ..one_leaf(Shape::Chain)
    };
    assert!(rt; is_congruent(rt.alloc(), kind, 100)? == Some(true));
    Ok(())
}

#[test]
fn one_leaf_chain(rt: HostRuntime) -> Result<(), Fail> {
    assert!(rt; is_congruent(rt.alloc(), one_leaf(Shape::Chain), 100)? == Some(true));
    Ok(())
}

#[test]
fn one_leaf_unseen(rt: HostRuntime) -> Result<(), Fail> {
    assert!(rt; is_congruent(rt.alloc(), one_leaf(Shape::Unseen), 100)? == Some(true));
    Ok(())
}

#[test]
fn one_leaf_unseen_all_one(rt: HostRuntime) -> Result<(), Fail> {
    assert!(rt; is_congruent(rt.alloc(), all_one(Shape::Unseen), 100)? == Some(true));
    Ok(())
}

#[test]
fn one_leaf_leaping(rt: HostRuntime) -> Result<(), Fail> {
    assert!(rt; is_congruent(rt.alloc(), all_one(Shape::Leaping), 100)? == Some(true));
    Ok(())
}

#[test]
fn one_leaf_star(rt: HostRuntime) -> Result<(), Fail> {
    assert!(rt; is_congruent(rt.alloc(), all_one(Shape::Star), 100)? == Some(true));
    Ok(())
}

#[test]
fn one_leaf_ring(rt: HostRuntime) -> Result<(), Fail> {
    assert!(rt; is_congruent(rt.alloc(), all_one(Shape::Ring), 100)? == Some(true));
    Ok(())
}

#[test]
fn one_leaf_apart(rt: HostRuntime) -> Result<(), Fail> {
    assert!(rt; is_congruent(rt.alloc(), all_one(Shape::Apart), 100)? == Some(true));
    Ok(())
}

#[test]
fn one_leaf_absent(rt: HostRuntime) -> Result<(), Fail> {
    assert!(rt; is_congruent(rt.alloc(), all_one(Shape::Absent), 100)? == Some(true));
    Ok(())
}

#[test]
fn one_leaf_near_miss(rt: HostRuntime) -> Result<(), Fail> {
    let alloc = rt.alloc();
    let chain = all_one(Shape::Unseen);
    let star = Kind {
        shuffled: true,
        ..all_one(Shape::Star)
    };
    assert!(rt; are_congruent(alloc, chain, star, 1)? == Some(false));
    Ok(())
}
