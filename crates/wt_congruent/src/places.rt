//! The places that variables take, one after another, among those that are left.
ghost use Rattle.std.specs.Prelude.{◌≡◌, [], ◌∷◌, ◌++◌, IfOk, OnOk};

use smallvec::SmallVec;
use std::alloc::{AllocError, Global};
use std::marker::Model;

/// A list of places, which takes no memory of its own while it is short.
#[derive(Drop)]
pub struct Places {
    items: SmallVec<usize, 8>,
}

impl Model for Places {
    ghost use Rattle.std.specs.Prelude.{List, ℕ};
    ghost use Rattle.std.specs.Coded.{coded_list, coded_ℕ};

    ghost Value = { List ℕ };

    ghost coded = { coded_list coded_ℕ };

    ghost view = { λ s. s.items.items };
}

impl Places {
    /// No place.
    pub fn new(alloc: Global) -> Places
        ensures { result ≡ [] }
    {
        Places {
            items: SmallVec::new(alloc),
        }
    }

    /// Adds places at the end.
    pub fn extend(&mut self, more: &[usize]) -> Result<(), AllocError>
        ensures { OnOk result (self.new ≡ self.old ++ more.now) }
    {
        self.items.extend_from_slice(more)
    }

    /// Adds a place at the end.
    pub fn push(&mut self, place: usize) -> Result<(), AllocError>
        ensures { OnOk result (self.new ≡ self.old ++ place ∷ []) }
    {
        self.items.push(place)?;
        Ok(())
    }

    /// The places, to read.
    pub fn as_slice(&self) -> &[usize]
        ensures { result.now ≡ self.now }
    {
        self.items.as_slice()
    }
}

/// The places and one more.
pub(crate) fn with_place(alloc: Global, ks: &[usize], j: usize) -> Result<Places, AllocError>
    ensures { IfOk result (λ longer. longer ≡ ks.now ++ j ∷ []) }
{
    let mut longer = Places::new(alloc);
    longer.extend(ks)?;
    longer.push(j)?;
    Ok(longer)
}
