//! The rule of the deque that the numbers are dealt by, and what each step does to a view.
use crossbeam_deque::protocol::{Join, Outcome, Protocol, Split};
use std::collections::LinkedList;

/// What a pass knows; no value of it is made. `boss` is 1 of the owner's pass, and `away` of a thief's that is out; `pushed` and
/// `out` are the owner's counts of numbers and of thieves; `taken` are the numbers that the holder took.
pub struct Hand {
    pub boss: u64,
    pub away: u64,
    pub pushed: u64,
    pub out: u64,
    pub taken: LinkedList<u32>,
}

/// The rule.
pub struct Deal;

impl Protocol<u32, Hand> for Deal {
    ghost use Rattle.std.specs.Prelude.{[]};
    ghost use Rattle.wt_deal.specs.Dealing.{hand, Dealt};

    ghost holds = { Dealt };

    ghost first = { hand 1 0 0 0 [] };

    ghost guest = { hand 0 0 0 0 [] };
}

/// A thief gets its pass.
pub struct Lends;

impl Split<Hand> for Lends {
    ghost use Rattle.std.specs.Prelude.{[], ◌+◌};
    ghost use Rattle.wt_deal.specs.Dealing.{hand};

    ghost left = { λ v. hand v.boss v.away v.pushed (v.out + 1) v.taken };

    ghost right = { λ v. hand 0 1 0 0 [] };
}

/// A thief's pass is taken back.
pub struct Returns;

impl Join<Hand> for Returns {
    ghost use Rattle.std.specs.Prelude.{[], ◌++◌, ◌-◌};
    ghost use Rattle.wt_deal.specs.Dealing.{hand};

    ghost both = { λ v w. hand v.boss v.away v.pushed (v.out - 1) (v.taken ++ w.taken) };

    ghost spent = { hand 0 0 0 0 [] };
}

/// A number is pushed.
pub struct Pushed;

impl Outcome<u32, Hand> for Pushed {
    ghost use Rattle.std.specs.Prelude.{◌≡◌, ◌+◌};
    ghost use Rattle.wt_deal.specs.Dealing.{hand};

    ghost then = { λ v xs w. w ≡ hand v.boss v.away (v.pushed + 1) v.out v.taken };
}

/// A number is taken, or none was there.
pub struct Taken;

impl Outcome<u32, Hand> for Taken {
    ghost use Rattle.std.specs.Prelude.{◌≡◌, ◌++◌};
    ghost use Rattle.wt_deal.specs.Dealing.{hand, AllTaken, IsOnceEach};

    ghost then = { λ v xs w. (w ≡ hand v.boss v.away v.pushed v.out (v.taken ++ xs)) × IsOnceEach w.taken };

    ghost empty = { λ v. AllTaken v };
}
