//! The names that a query tree gives: q0, q1, .. for FROM items, c0, c1, .. for the columns of derived tables.
ghost use Rattle.std.specs.Prelude.{◌≡◌, ◌≤◌, ◌++◌, codes, length, map, IfOk};
ghost use Rattle.std.specs.Fmt.{decimal};
ghost use Rattle.wt_blocks.specs.Printed as spec;

use arrayvec::ArrayString;
use itoa::Buffer;
use std::alloc::Global;
use wt_value::{Name, Names, WantOfMemory};

// How long a letter with a number behind it may be, in bytes.
const LONGEST: usize = 24;

/// A letter and a number behind it.
fn numbered(alloc: Global, letter: &str, number: u64) -> Result<Name, WantOfMemory>
    requires { length letter.now ≤ 4 }
    ensures { IfOk result (λ name. name ≡ letter.now ++ decimal number) }
{
    let mut digits = Buffer::new();
    let mut text = ArrayString::<LONGEST>::new();
    text.push_str(letter);
    text.push_str(digits.format(number));
    Name::from_bytes(alloc, text.as_bytes())
}

pub fn alias_of(alloc: Global, number: u64) -> Result<Name, WantOfMemory>
    ensures { IfOk result (λ name. name ≡ spec.alias_of number) }
{
    numbered(alloc, "q", number)
}

pub fn place_name(alloc: Global, place: u32) -> Result<Name, WantOfMemory>
    ensures { IfOk result (λ name. name ≡ spec.place_name place) }
{
    numbered(alloc, "c", place as u64)
}

/// The names of so many columns.
pub fn place_names(alloc: Global, width: u32) -> Result<Names, WantOfMemory>
    ensures { IfOk result (λ names. names ≡ spec.place_names width) }
{
    let mut names = Names::new(alloc);
    let mut place: u32 = 0;
    'places: while place < width {
        names.push(place_name(alloc, place)?)?;
        place += 1;
    }
    Ok(names)
}
