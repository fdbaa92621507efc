//! The weight of a form, which every step lowers.
ghost use Rattle.std.specs.Prelude.{◌≡◌, ◌-◌, ◌^◌, ◌<◌, ◌+◌, ◌*◌, min};
ghost use Rattle.wt_form.specs.Weights.{cols_place, expr_place, pieces_place, terms_size, ranges_size, range_size, conds_size, cond_size, terms_place, ranges_place, range_place, conds_place, cond_place, weight_of};
ghost use Rattle.wt_form.specs.Views.{terms_seen, ranges_seen, range_seen, conds_seen, cond_seen, form_seen};

use crate::form::{Cond, Conds, Expr, Form, FormRange, Ranges, Terms};
use wt_symbol::PartCols;

impl Expr {
    /// Its place among expressions: by variable, then by part, then by list, a whole part last.
    fn place(self) -> u64
        ensures { result ≡ expr_place self }
    {
        match self {
            Expr::Of(v, i, PartCols::Whole) => 4096 * u64::from(v) + 64 * u64::from(i) + 63,
            Expr::Of(v, i, PartCols::List(a)) => 4096 * u64::from(v)
                + 64 * u64::from(i)
                + u64::from(a),
            Expr::Null(_, _) => 0,
        }
    }
}

/// The sum of the places, up to the type's greatest number.
fn sum_of_places(pieces: &[Expr]) -> u64
    ensures { result ≡ min (pieces_place pieces.now) (2 ^ 64 - 1) }
{
    match pieces {
        [] => 0,
        [x, rest @ ..] => x.place().saturating_add(sum_of_places(rest)),
    }
}

impl Form {
    /// The two numbers of its weight, the first of which counts more; each up to the type's greatest
    /// number.
    pub fn weight(&self) -> (u64, u64)
        ensures size { result.0 ≡ min (weight_of (form_seen self.now)).0 (2 ^ 64 - 1) }
        ensures place { result.1 ≡ min (weight_of (form_seen self.now)).1 (2 ^ 64 - 1) }
    {
        (self.terms.size(), self.terms.place())
    }
}

impl Terms {
    /// The first number of its weight, up to the type's greatest number.
    #[cycle(size)]
    pub fn size(&self) -> u64
        ensures { result ≡ min (terms_size (terms_seen self.now)) (2 ^ 64 - 1) }
    {
        match self {
            Terms::Empty => 0,
            Terms::More(term, rest) => term
                .ranges
                .size()
                .saturating_add(term.conds.size())
                .saturating_add(rest.size())
                .saturating_add(1),
        }
    }

    #[cycle(place)]
    fn place(&self) -> u64
        ensures { result ≡ min (terms_place (terms_seen self.now)) (2 ^ 64 - 1) }
    {
        match self {
            Terms::Empty => 0,
            Terms::More(term, rest) => term
                .ranges
                .place()
                .saturating_add(term.conds.place())
                .saturating_add(sum_of_places(term.pieces.as_slice()))
                .saturating_add(rest.place()),
        }
    }
}

impl Ranges {
    #[cycle(size)]
    fn size(&self) -> u64
        ensures { result ≡ min (ranges_size (ranges_seen self.now)) (2 ^ 64 - 1) }
    {
        match self {
            Ranges::Empty => 0,
            Ranges::More(range, rest) => range.size().saturating_add(rest.size()),
        }
    }

    #[cycle(place)]
    fn place(&self) -> u64
        ensures { result ≡ min (ranges_place (ranges_seen self.now)) (2 ^ 64 - 1) }
    {
        match self {
            Ranges::Empty => 0,
            Ranges::More(range, rest) => range.place().saturating_add(rest.place()),
        }
    }
}

impl FormRange {
    #[cycle(size)]
    fn size(&self) -> u64
        ensures { result ≡ min (range_size (range_seen self.now)) (2 ^ 64 - 1) }
    {
        match self {
            FormRange::Rel(_) => 2,
            FormRange::Distinct(f) => f.terms.size().saturating_add(1),
        }
    }

    #[cycle(place)]
    fn place(&self) -> u64
        ensures { result ≡ min (range_place (range_seen self.now)) (2 ^ 64 - 1) }
    {
        match self {
            FormRange::Rel(_) => 0,
            FormRange::Distinct(f) => f.terms.place(),
        }
    }
}

impl Conds {
    #[cycle(size)]
    fn size(&self) -> u64
        ensures { result ≡ min (conds_size (conds_seen self.now)) (2 ^ 64 - 1) }
    {
        match self {
            Conds::Empty => 0,
            Conds::More(c, rest) => c.size().saturating_add(rest.size()),
        }
    }

    #[cycle(place)]
    fn place(&self) -> u64
        ensures { result ≡ min (conds_place (conds_seen self.now)) (2 ^ 64 - 1) }
    {
        match self {
            Conds::Empty => 0,
            Conds::More(c, rest) => c.place().saturating_add(rest.place()),
        }
    }
}

impl Cond {
    #[cycle(size)]
    fn size(&self) -> u64
        ensures { result ≡ min (cond_size (cond_seen self.now)) (2 ^ 64 - 1) }
    {
        match self {
            Cond::Pred(_, _) => 1,
            Cond::Join(_, _) => 4,
            Cond::In(_, f) | Cond::NotIn(_, f) => f.terms.size().saturating_add(1),
        }
    }

    #[cycle(place)]
    fn place(&self) -> u64
        ensures { result ≡ min (cond_place (cond_seen self.now)) (2 ^ 64 - 1) }
    {
        match self {
            Cond::Pred(_, x) => x.place(),
            Cond::Join(x, y) => x.place().saturating_add(y.place()),
            Cond::In(x, f) | Cond::NotIn(x, f) => x.place().saturating_add(f.terms.place()),
        }
    }
}
