//! Values, rows and lists of rows, with the comparisons that bags of rows rest on.
#![tactic(auto)]

ghost use Rattle.std.specs.Prelude.{◌↔◌, List};
ghost use Rattle.wt_bag.specs.Bags.{SameSums};
ghost use Rattle.wt_value.specs.Values.{Tuple, IsOneBag};

mod picked;
mod row;
mod seq;
mod text;
mod value;

pub use picked::{has_no_null_at, is_null_at, matches_at};
pub use row::{Row, Rows, Values, count, distinct, matches, same_bag, same_row};
pub use seq::{Bytes, Cols, Seq};
pub use std::alloc::AllocError as WantOfMemory;
pub use text::{Name, Names, Text};
pub use value::{Truth, Value};

fn may_be_shared<T: Send + Sync>() {}

/// A law: two lists of rows are one bag exactly where every sum over their rows is equal.
pub fn one_bag_is_equal_sums()
    ensures { (xs ys : List Tuple) → (IsOneBag xs ys ↔ SameSums xs ys) }
{}

/// A statement to the compiler: threads may share these types, and hand them over.
pub fn threads_share_values() {
    may_be_shared::<Cols>();
    may_be_shared::<Bytes>();
    may_be_shared::<Names>();
    may_be_shared::<Rows>();
    may_be_shared::<Truth>();
}
