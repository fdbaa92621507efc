//! Cuts SQL text into tokens, each with its kind and its place.
#![tactic(auto)]

mod front;
mod laws;
mod names;
mod token;
mod tokens;
mod words;

pub use laws::{
    bare_names_come_back, numbers_come_back, pieces_come_back, quoted_names_come_back,
    texts_come_back, tokens_are_spelled, what_is_open_is_refused, what_is_spelled_is_cut,
};
pub use names::{is_word, name_of, text_of};
pub use token::{LexError, LexFault, Sym, Token, TokenKind};
pub use tokens::{Tokens, lex};
pub use words::{Word, is_bare, is_reserved, keyword};

fn may_be_shared<T: Send + Sync>() {}

/// A statement to the compiler: threads may share the tokens of a text, and hand them over.
pub fn threads_share_tokens() {
    may_be_shared::<Tokens<'static>>();
}
