//! Forms by number: equal forms have one number, and a nested form stands as the number of its own entry.
#![tactic(auto)]

mod cell;
mod laws;
mod table;

pub use cell::{Columns, Entry, Front, Test, Value};
pub use laws::{numbers_stay, one_form_a_number, one_number_a_form};
pub use table::FormTable;
