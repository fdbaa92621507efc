//! What a rule's line says.
use std::alloc::{AllocError, AllocFailed};
use wt_value::Seq;

/// The version of a rule file. In the second each line states the weights of its sides.
#[derive(Clone, Copy, Debug, PartialEq, Eq)]
pub enum Version {
    One,
    Two,
}

/// A list symbol, with its anchor where it has one.
#[derive(Clone, Copy, Debug, PartialEq, Eq)]
pub struct Listed {
    pub list: u64,
    pub anchor: Option<u64>,
}

/// An operator of one operand, with its symbols.
#[derive(Clone, Copy, Debug, PartialEq, Eq)]
pub enum Unary {
    Proj(Listed),
    Filter(u64, Listed),
    Dedup,
}

/// An operator of two operands, with its symbols.
#[derive(Clone, Copy, Debug, PartialEq, Eq)]
pub enum Binary {
    InnerJoin(Listed, Listed),
    LeftJoin(Listed, Listed),
    InSub(Listed),
}

/// A side: an input by its leaf, or an operator with its operands.
#[derive(Debug, Drop)]
pub enum ParsedSide {
    Input(u64),
    One(Unary, Box<ParsedSide>),
    Two(Binary, Box<ParsedSide>, Box<ParsedSide>),
}

/// An atom with all numbers that its text has, in their order.
#[derive(Clone, Copy, Debug, PartialEq, Eq)]
pub enum ParsedAtom {
    RelEq(u64, u64),
    AttrsEq(u64, u64),
    PredEq(u64, u64),
    Unique(u64, u64),
    NotNull(u64, u64),
    RefAttrs(u64, u64, u64, u64),
}

/// Atoms in the order of the line.
pub type ParsedAtoms = Seq<ParsedAtom>;

/// The weights that a line states of its sides.
#[derive(Clone, Copy, Debug, PartialEq, Eq)]
pub struct Weights {
    pub source: u64,
    pub dest: u64,
}

/// A rule as its line has it.
#[derive(Debug, Drop)]
pub struct ParsedRule {
    pub source: ParsedSide,
    pub dest: ParsedSide,
    pub atoms: ParsedAtoms,
    pub weights: Option<Weights>,
}

/// Why a line is not read: it has not the form of a rule's line, or memory was refused.
#[derive(Clone, Copy, Debug, PartialEq, Eq)]
pub enum LineError {
    Syntax,
    Memory,
}

impl From<AllocError> for LineError {
    ghost use Rattle.std.specs.Prelude.{◌≡◌};
    ghost use Rattle.wt_rule_text.specs.declared.parsed.LineError.TheVariants.{Memory};

    ghost from_gives = { λ _ e. e ≡ Memory };

    fn from(_error: AllocError) -> LineError {
        LineError::Memory
    }
}

impl<T: Drop> From<AllocFailed<T>> for LineError {
    ghost use Rattle.std.specs.Prelude.{◌≡◌};
    ghost use Rattle.wt_rule_text.specs.declared.parsed.LineError.TheVariants.{Memory};

    ghost from_gives = { λ _ e. e ≡ Memory };

    fn from(_error: AllocFailed<T>) -> LineError {
        LineError::Memory
    }
}
