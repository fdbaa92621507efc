//! Why a rule file is refused.
use std::alloc::{AllocError, AllocFailed};
use wt_rule_text::LineError;

/// The fault of a rule file, at one of its lines.
#[derive(Clone, Copy, Debug, PartialEq, Eq)]
pub enum RuleFault {
    /// The first line is no head of a rule file.
    Head,
    /// A line has not the form of a rule's line in the file's version, or no LF ends it.
    Syntax,
    /// The source's symbols are not numbered from 0 in preorder, a symbol of the destination is not
    /// one of the source, or a leaf stands twice in the destination.
    Symbol,
    /// A line, a side or the file is too long.
    TooLong,
    /// The anchor of a list cannot be seen where the list stands.
    Anchor,
    /// The destination does not weigh less than the source.
    Weight,
    /// One side has a Proj at its root, and the other has none.
    Root,
    /// An atom is none of the pair.
    Atom,
    /// The atoms do not stand in their order.
    Order,
    /// A weight that the line states is not that of its side.
    StatedWeight,
    /// The rule is not proved within the steps of the head.
    NotProved,
    /// The last line is missing, has another number of rules, or more follows.
    Count,
}

/// Why a line gives no rule: a fault, or memory was refused.
#[derive(Clone, Copy, Debug, PartialEq, Eq)]
pub enum RuleLineError {
    Fault(RuleFault),
    Memory,
}

impl From<AllocError> for RuleLineError {
    ghost use Rattle.std.specs.Prelude.{◌≡◌};
    ghost use Rattle.wt_rule_line.specs.declared.fault.RuleLineError.TheVariants.{Memory};

    ghost from_gives = { λ _ e. e ≡ Memory };

    fn from(_error: AllocError) -> RuleLineError {
        RuleLineError::Memory
    }
}

impl<T: Drop> From<AllocFailed<T>> for RuleLineError {
    ghost use Rattle.std.specs.Prelude.{◌≡◌};
    ghost use Rattle.wt_rule_line.specs.declared.fault.RuleLineError.TheVariants.{Memory};

    ghost from_gives = { λ _ e. e ≡ Memory };

    fn from(_error: AllocFailed<T>) -> RuleLineError {
        RuleLineError::Memory
    }
}
