//! The dealer and its thieves.
ghost use Rattle.std.specs.Prelude.{◌≡◌, ◌+◌, ◌-◌, [], ◌∷◌, ◌++◌, IfOk, IfSome, OnErr, MatchOption};
ghost use Rattle.wt_deal.specs.Dealing.{dealt, with_one, with_thief, without_thief, IsOnceEach, IsAllDealt};

use crate::rule::{Deal, Hand, Lends, Pushed, Returns, Taken};
use crossbeam_deque::{Pass, Steal, Stealer, Worker};
use std::alloc::{AllocError, Global};
use std::marker::Model;
use std::sync::Wait;

type Owner = Worker<u32, Global, Hand, Deal>;

type Other = Stealer<u32, Global, Hand, Deal>;

/// Deals the numbers below a count. Contracts see which deque it is, the count, how many thieves are out, and the numbers that
/// were taken here or by a thief that has ended.
#[derive(Drop)]
pub struct Dealer {
    owner: Owner,
}

impl Model for Dealer {
    ghost use Rattle.std.specs.Prelude.{◌≡◌};
    ghost use Rattle.crossbeam_deque.specs.Handles.{worker_deque, worker_view, worker_flavor};
    ghost use Rattle.wt_deal.specs.Dealing.{DealerTree};

    ghost Value = { DealerTree };

    ghost view = { λ d. record { deque = worker_deque d.owner; count = (worker_view d.owner).pushed; out = (worker_view d.owner).out; taken = (worker_view d.owner).taken } };

    ghost invariant = { λ d. (worker_flavor d.owner ≡ 0) × ((worker_view d.owner).boss ≡ 1) × ((worker_view d.owner).away ≡ 0) };
}

/// Takes numbers of a dealer in another thread. Contracts see which deque it is, and the numbers that it took.
#[derive(Drop)]
pub struct Thief {
    stealer: Other,
    pass: Pass<u32, Hand>,
}

impl Model for Thief {
    ghost use Rattle.std.specs.Prelude.{◌≡◌};
    ghost use Rattle.crossbeam_deque.specs.Handles.{IsPassOf, stealer_deque};
    ghost use Rattle.crossbeam_deque.specs.Handles as handles;
    ghost use Rattle.wt_deal.specs.Dealing.{ThiefTree};

    ghost Value = { ThiefTree };

    ghost view = { λ t. record { deque = stealer_deque t.stealer; taken = (handles.view t.pass).taken } };

    ghost invariant = { λ t. IsPassOf (stealer_deque t.stealer) t.pass × ((handles.view t.pass).away ≡ 1) × ((handles.view t.pass).boss ≡ 0) };
}

/// A dealer of the numbers below the count; none is taken yet.
pub fn deal(alloc: Global, count: u32) -> Result<Dealer, AllocError>
    ensures { IfOk result (λ d. d ≡ dealt d.deque count) }
{
    let mut owner = Owner::fifo_as(alloc, count as usize)?;
    for n in 0..count {
        owner.push_as::<Pushed>(n).map_err(|_| AllocError)?;
    }
    Ok(Dealer { owner })
}

impl Dealer {
    /// A thief, which took nothing yet.
    pub fn thief(&mut self) -> Result<Thief, AllocError>
        ensures thief { IfOk result (λ t. (t ≡ record { deque = self.old.deque; taken = [] }) × (self.new ≡ with_thief self.old)) }
        ensures same { OnErr result (self.new ≡ self.old) }
    {
        let stealer = self.owner.stealer()?;
        let pass = self.owner.another::<Lends>();
        Ok(Thief { stealer, pass })
    }

    /// The first number that is left. None where none is: then, if no thief is out, each number was taken once.
    pub fn take(&mut self) -> Option<u32>
        ensures taken { MatchOption result (self.new ≡ self.old) (λ n. self.new ≡ with_one self.old n) }
        ensures once { IfSome result (λ n. IsOnceEach self.new.taken) }
        ensures all { MatchOption result (IsAllDealt self.old) (λ n. Unit {0}) }
    {
        self.owner.pop_as::<Taken>()
    }

    /// Ends a thief of this dealer: the numbers that it took count as taken here.
    pub fn end(&mut self, thief: Thief)
        requires { thief.deque ≡ self.old.deque }
        ensures { self.new ≡ without_thief self.old thief.taken }
    {
        let Thief {
            stealer: _stealer,
            pass,
        } = thief;
        self.owner.absorb::<Returns>(pass);
    }
}

impl Thief {
    /// The first number that is left, or none where none is. It tries again while another taker is in its way.
    pub fn take<R: Wait>(&mut self, rt: &R) -> Option<u32>
        ensures taken { MatchOption result (self.new ≡ self.old) (λ n. self.new ≡ record { deque = self.old.deque; taken = self.old.taken ++ n ∷ [] }) }
        ensures once { IfSome result (λ n. IsOnceEach self.new.taken) }
    {
        for _ in rt.forever() {
            match self.stealer.steal_as::<Taken>(&mut self.pass) {
                Steal::Success(n) => return Some(n),
                Steal::Empty => return None,
                Steal::Retry => {}
            }
        }
        unreachable!()
    }
}
