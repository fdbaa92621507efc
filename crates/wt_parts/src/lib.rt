//! The parts of a statement that hold no query, read from the front of its tokens: names, columns, literals, operands, items,
//! lists, what follows an operand, the words of a join. Each function reads what the definition of its name reads.
#![tactic(auto)]

pub mod comparisons;
pub mod lists;
pub mod parts;
pub mod sources;
