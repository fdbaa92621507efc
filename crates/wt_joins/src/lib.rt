//! The operands of FROM: their plans with the places of their columns, joins of them, comma lists, and what stands above.
#![tactic(auto)]

mod commas;
mod part;
mod starts;
mod whole;

pub use commas::{Comma, CommaList, commas_told, freed, joined_list};
pub use part::{Part, inner_part, left_part, outer_told, paired, right_part};
pub use starts::offsets;
pub use whole::{assembled, has_right, is_sole_star};
