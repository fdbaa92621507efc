use std::alloc::{AllocError, AllocFailed};
use thiserror::Error;

/// Why a text has no tokens, or why one of its tokens is odd.
#[derive(Clone, Copy, Debug, PartialEq, Eq)]
pub enum LexFault {
    /// A byte that does not go on with UTF-8.
    NotText,
    /// A byte that begins no token, or an empty quoted name.
    BadCharacter,
    /// A quote or a comment that is not closed.
    OpenQuote,
    /// A number greater than 9223372036854775808.
    NumberRange,
    /// More than 16,777,216 bytes.
    TooLong,
}

/// The symbols `( ) , . ; * = <> != < <= > >= + - / % || :: : ? $`, in this order.
#[derive(Clone, Copy, Debug, PartialEq, Eq)]
pub enum Sym {
    Open,
    Close,
    Comma,
    Dot,
    Semi,
    Star,
    Eq,
    NotEq,
    BangEq,
    Lt,
    Le,
    Gt,
    Ge,
    Plus,
    Minus,
    Slash,
    Percent,
    Bars,
    ColonColon,
    Colon,
    Question,
    Dollar,
}

/// A bare word, a name in double quotes, a whole number, a text in single quotes, a symbol, or a token that is refused
/// wherever it stands.
#[derive(Clone, Copy, Debug, PartialEq, Eq)]
pub enum TokenKind {
    Word,
    Quoted,
    Number(u64),
    Text,
    Symbol(Sym),
    Odd(LexFault),
}

/// A token and its place: the bytes from `start` to before `end`.
#[derive(Clone, Copy, Debug, PartialEq, Eq)]
pub struct Token {
    pub kind: TokenKind,
    pub start: u32,
    pub end: u32,
}

/// Why a whole text has no tokens, with the offset of the fault; or want of memory.
#[derive(Clone, Copy, Debug, PartialEq, Eq, Error)]
pub enum LexError {
    #[error("fault {0:?} at byte {1}")]
    Fault(LexFault, u32),
    #[error("out of memory")]
    Memory,
}

impl From<AllocError> for LexError {
    ghost use Rattle.std.specs.Prelude.{◌≡◌};
    ghost use Rattle.wt_lex.specs.declared.token.LexError.TheVariants.{Memory};

    ghost from_gives = { λ _ e. e ≡ Memory };

    fn from(_error: AllocError) -> LexError {
        LexError::Memory
    }
}

impl<T: Drop> From<AllocFailed<T>> for LexError {
    ghost use Rattle.std.specs.Prelude.{◌≡◌};
    ghost use Rattle.wt_lex.specs.declared.token.LexError.TheVariants.{Memory};

    ghost from_gives = { λ _ e. e ≡ Memory };

    fn from(_error: AllocFailed<T>) -> LexError {
        LexError::Memory
    }
}
