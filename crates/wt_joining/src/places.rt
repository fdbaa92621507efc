//! The conditions past a place.
ghost use Rattle.std.specs.Prelude.{◌≡◌, ◌<◌, ◌+◌, drop, length};

use wt_form::Cond;

/// The conditions past a place of a list.
pub fn past<'a, 'b>(refs: &'b [&'a Cond], j: usize) -> &'b [&'a Cond]
    requires { j < length refs.now }
    ensures { result.now ≡ drop (j + 1) refs.now }
{
    &refs[j + 1..]
}
