use std::alloc::{AllocError, AllocFailed};

/// Why a query has no plan.
#[derive(Clone, Copy, Debug, PartialEq, Eq)]
pub enum BuildFault {
    UnknownTable,
    DuplicateAlias,
    ColumnListWidth,
    UnknownColumn,
    CorrelatedColumn,
    AmbiguousColumn,
    TypeMismatch,
    ConditionWithoutColumn,
    InWidth,
    OnLeftCondition,
    OnMixedCondition,
    NoJoinEquality,
    TooWide,
}

/// The answers of a call that may refuse a query: the fault with the offset of its token, or want of memory.
#[derive(Clone, Copy, Debug, PartialEq, Eq)]
pub enum BuildError {
    Refused(BuildFault, u32),
    Memory,
}

impl From<AllocError> for BuildError {
    ghost use Rattle.std.specs.Prelude.{◌≡◌};
    ghost use Rattle.wt_query_plan.specs.declared.fault.BuildError.TheVariants.{Memory};

    ghost from_gives = { λ _ e. e ≡ Memory };

    fn from(_: AllocError) -> BuildError {
        BuildError::Memory
    }
}

impl<T: Drop> From<AllocFailed<T>> for BuildError {
    ghost use Rattle.std.specs.Prelude.{◌≡◌};
    ghost use Rattle.wt_query_plan.specs.declared.fault.BuildError.TheVariants.{Memory};

    ghost from_gives = { λ _ e. e ≡ Memory };

    fn from(_: AllocFailed<T>) -> BuildError {
        BuildError::Memory
    }
}
