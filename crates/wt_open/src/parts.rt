//! The ranges of a term where one of its variables is opened.
ghost use Rattle.std.specs.Prelude.{◌≡◌, ◌+◌, ◌<◌, map, drop, length, IfOk};
ghost use Rattle.wt_form.specs.Parts.{ranges_append};
ghost use Rattle.wt_form.specs.Views.{ranges_seen};
ghost use Rattle.wt_congruent.specs.Refs.{range_behind};
ghost use Rattle.wt_places.specs.Lists.{ranges_from};
ghost use Rattle.wt_open.specs.Opens.{opened_ranges};

use std::alloc::{AllocError, Global};
use wt_form::{FormRange, Ranges};
use wt_places::{range_before, ranges_from};
use wt_symbol::Parts;

/// The ranges past a place of a list.
pub fn past<'a, 'b>(refs: &'b [&'a FormRange], j: usize) -> &'b [&'a FormRange]
    requires { j < length refs.now }
    ensures { result.now ≡ drop (j + 1) refs.now }
{
    &refs[j + 1..]
}

pub fn copied_head(head: &Parts) -> Result<Parts, AllocError>
    ensures { IfOk result (λ copy. copy ≡ head.now) }
{
    head.clone()
}

/// Some ranges and then others.
fn ranges_then(alloc: Global, first: &Ranges, rest: Ranges) -> Result<Ranges, AllocError>
    ensures { IfOk result (λ rs. ranges_seen rs ≡ ranges_append (ranges_seen first.now) (ranges_seen rest)) }
{
    match first {
        Ranges::Empty => Ok(rest),
        Ranges::More(range, more) => {
            let tail = ranges_then(alloc, more, rest)?;
            range_before(alloc, range.copy(alloc)?, tail)
        }
    }
}

/// The ranges of a list and then others.
fn list_then(alloc: Global, refs: &[&FormRange], rest: Ranges) -> Result<Ranges, AllocError>
    ensures { IfOk result (λ rs. ranges_seen rs ≡ ranges_append (ranges_from (map range_behind refs.now)) (ranges_seen rest)) }
{
    match refs {
        [] => Ok(rest),
        [range, more @ ..] => {
            let tail = list_then(alloc, more, rest)?;
            range_before(alloc, range.copy(alloc)?, tail)
        }
    }
}

/// The ranges with those of a term in the place between.
pub fn opened_ranges(
    alloc: Global,
    before: &[&FormRange],
    inner: &Ranges,
    after: &[&FormRange],
) -> Result<Ranges, AllocError>
    ensures { IfOk result (λ rs. ranges_seen rs ≡ opened_ranges (map range_behind before.now) (ranges_seen inner.now) (map range_behind after.now)) }
{
    let last = ranges_from(alloc, after)?;
    let rest = ranges_then(alloc, inner, last)?;
    list_then(alloc, before, rest)
}
