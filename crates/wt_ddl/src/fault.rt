use std::alloc::{AllocError, AllocFailed};
use thiserror::Error;
use wt_lex::LexFault;

/// Why a schema is refused.
#[derive(Clone, Copy, Debug, PartialEq, Eq)]
pub enum DdlFault {
    /// A token with which no statement goes on, or the text's end where one is not done.
    Syntax,
    /// Another statement than CREATE TABLE.
    UnsupportedStatement,
    /// Another word as a type.
    UnsupportedType,
    /// CHECK, SET DEFAULT, or another word where a rule or an option may stand.
    UnsupportedClause,
    /// A second table of one name.
    DuplicateTable,
    /// A second column of one name, in a table or in a column list.
    DuplicateColumn,
    /// A reference to a table that is nowhere created.
    UnknownTable,
    /// A column in a list that its table does not have.
    UnknownColumn,
    /// A second PRIMARY KEY of one table.
    SecondPrimaryKey,
    /// A reference whose target columns are no key, or without columns to a table without a primary key.
    ReferenceNotKey,
    /// A reference between columns of different kinds.
    ReferenceTypes,
    /// A reference with more or fewer columns than its target has.
    ReferenceWidth,
    /// The 65th column of a table.
    TooManyColumns,
    /// The 257th table.
    TooManyTables,
}

/// A schema's first fault with its offset, or want of memory.
#[derive(Clone, Copy, Debug, PartialEq, Eq, Error)]
pub enum DdlError {
    #[error("fault {0:?} at byte {1}")]
    Fault(DdlFault, u32),
    #[error("fault {0:?} at byte {1}")]
    Lex(LexFault, u32),
    #[error("out of memory")]
    Memory,
}

impl From<AllocError> for DdlError {
    ghost use Rattle.std.specs.Prelude.{◌≡◌};
    ghost use Rattle.wt_ddl.specs.declared.fault.DdlError.TheVariants.{Memory};

    ghost from_gives = { λ _ e. e ≡ Memory };

    fn from(_error: AllocError) -> DdlError {
        DdlError::Memory
    }
}

impl<T: Drop> From<AllocFailed<T>> for DdlError {
    ghost use Rattle.std.specs.Prelude.{◌≡◌};
    ghost use Rattle.wt_ddl.specs.declared.fault.DdlError.TheVariants.{Memory};

    ghost from_gives = { λ _ e. e ≡ Memory };

    fn from(_error: AllocFailed<T>) -> DdlError {
        DdlError::Memory
    }
}
