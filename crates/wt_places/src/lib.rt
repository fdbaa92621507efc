//! Parts of forms taken out of their places, and put back into them.
#![tactic(auto)]

mod lists;
mod put;

pub use lists::{conds_from, itself, push_term, push_without, ranges_from, terms_from};
pub use put::{
    append, cond_before, distinct_rows, in_rows, not_in_rows, put_after, put_before, put_cond,
    put_cond_first, put_conds, put_distinct, put_in, put_not_in, put_range, put_range_first,
    put_ranges, range_before, term_before,
};
pub use std::alloc::AllocError as WantOfMemory;
