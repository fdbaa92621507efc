//! The form of a rule's line: its sides, its atoms and the weights that it states, with numbers of any size.
#![tactic(auto)]

mod atom;
mod parsed;
mod rule;
mod scan;
mod side;

pub use parsed::{
    Binary, LineError, Listed, ParsedAtom, ParsedAtoms, ParsedRule, ParsedSide, Unary, Version,
    Weights,
};
pub use rule::{a_line_has_one_rule, parse_rule};
pub use scan::{after, number};
