//! Why a rule file is refused.
use std::alloc::{AllocError, AllocFailed};
use wt_rule_line::RuleFault;

/// Why a rule file gives no rules: a fault with the number of its line, from 1, or memory was refused.
#[derive(Clone, Copy, Debug, PartialEq, Eq)]
pub enum RuleError {
    Fault(RuleFault, u32),
    Memory,
}

impl From<AllocError> for RuleError {
    ghost use Rattle.std.specs.Prelude.{◌≡◌};
    ghost use Rattle.wt_rule_file.specs.declared.fault.RuleError.TheVariants.{Memory};

    ghost from_gives = { λ _ e. e ≡ Memory };

    fn from(_error: AllocError) -> RuleError {
        RuleError::Memory
    }
}

impl<T: Drop> From<AllocFailed<T>> for RuleError {
    ghost use Rattle.std.specs.Prelude.{◌≡◌};
    ghost use Rattle.wt_rule_file.specs.declared.fault.RuleError.TheVariants.{Memory};

    ghost from_gives = { λ _ e. e ≡ Memory };

    fn from(_error: AllocFailed<T>) -> RuleError {
        RuleError::Memory
    }
}
