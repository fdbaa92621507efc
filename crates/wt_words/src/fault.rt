//! Why words are no command.
use thiserror::Error;

/// Why words are no command.
#[derive(Clone, Copy, Debug, PartialEq, Eq, Error)]
pub enum UsageFault {
    /// There are no words.
    #[error("NoCommand")]
    NoCommand,
    /// The first word is no command.
    #[error("UnknownCommand")]
    UnknownCommand,
    /// The command has another number of words, or a file has no name.
    #[error("WordCount")]
    WordCount,
    /// A word is not `key=value` with a key of `discover`.
    #[error("UnknownKey")]
    UnknownKey,
    /// A key stands twice.
    #[error("RepeatedKey")]
    RepeatedKey,
    /// A number has another character than a digit, or a leading zero, or no digit.
    #[error("BadNumber")]
    BadNumber,
    /// A number is past its limits.
    #[error("OutOfRange")]
    OutOfRange,
    /// The letters of the operators are not one to six different ones of PFILSD.
    #[error("BadOps")]
    BadOps,
    /// A size or the operators are not given.
    #[error("MissingKey")]
    MissingKey,
}
