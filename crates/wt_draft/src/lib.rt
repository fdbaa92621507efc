//! Plans put together from parts of other plans, which they borrow: such a draft is looked at like a plan, and copied once it is sure.
#![tactic(auto)]

mod any;
mod draft;

pub use any::{AnyPlan, Root};
pub use draft::{Draft, Places};
