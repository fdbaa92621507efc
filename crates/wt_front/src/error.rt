use std::alloc::{AllocError, AllocFailed};
use thiserror::Error;
use wt_grammar::QueryFault;
use wt_lex::LexFault;

/// Why a statement has no tree: it is refused, or one of its tokens is, each with an offset; or want of memory.
#[derive(Clone, Copy, Debug, PartialEq, Eq, Error)]
pub enum QueryError {
    #[error("refused {0:?} at byte {1}")]
    Refused(QueryFault, u32),
    #[error("fault {0:?} at byte {1}")]
    Lex(LexFault, u32),
    #[error("out of memory")]
    Memory,
}

impl From<AllocError> for QueryError {
    ghost use Rattle.std.specs.Prelude.{◌≡◌};
    ghost use Rattle.wt_front.specs.declared.error.QueryError.TheVariants.{Memory};

    ghost from_gives = { λ _ e. e ≡ Memory };

    fn from(_error: AllocError) -> QueryError {
        QueryError::Memory
    }
}

impl<T: Drop> From<AllocFailed<T>> for QueryError {
    ghost use Rattle.std.specs.Prelude.{◌≡◌};
    ghost use Rattle.wt_front.specs.declared.error.QueryError.TheVariants.{Memory};

    ghost from_gives = { λ _ e. e ≡ Memory };

    fn from(_error: AllocFailed<T>) -> QueryError {
        QueryError::Memory
    }
}
