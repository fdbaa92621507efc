//! Whether two forms are congruent under a set.
#![tactic(auto)]

mod early;
mod exprs;
mod places;
mod prints;
mod refs;
mod same;
mod search;

pub use exprs::{is_place, same_cols, same_expr, same_head, same_part, same_pieces};
pub use places::Places;
pub use refs::{cond_refs, range_refs, term_refs, without};
pub use same::{pairings, same_cond, same_conds, same_range, same_term, same_terms};
pub use search::{congruent, congruent_with};
