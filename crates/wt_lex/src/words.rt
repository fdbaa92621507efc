//! The reserved words, and the names that are written without quotes.
ghost use Rattle.std.specs.Prelude.{◌≡◌, true, Some};
ghost use Rattle.std.specs.List.{find, list_all, list_any};
ghost use Rattle.std.specs.Str.{bytes_eq};
ghost use Rattle.wt_lex.specs.Names as names;
ghost use Rattle.wt_lex.specs.Words as spec;

use crate::names::{is_folded, spelled};
use crate::token::{Token, TokenKind};

/// The reserved words, which are names only in quotes.
#[derive(Clone, Copy, Debug, PartialEq, Eq)]
pub enum Word {
    All,
    And,
    As,
    Between,
    Case,
    Cast,
    Check,
    Constraint,
    Create,
    Cross,
    Default,
    Distinct,
    Except,
    Exists,
    False,
    Fetch,
    Foreign,
    From,
    Full,
    Group,
    Having,
    Ilike,
    In,
    Inner,
    Intersect,
    Is,
    Join,
    Left,
    Like,
    Limit,
    Natural,
    Not,
    Null,
    Offset,
    On,
    Or,
    Order,
    Outer,
    Primary,
    References,
    Right,
    Select,
    Similar,
    Table,
    True,
    Union,
    Unique,
    Using,
    Where,
    Window,
    With,
}

impl Word {
    /// How a reserved word is spelled, in lower case.
    pub fn spelling(self) -> &'static [u8]
        ensures { result.now ≡ spec.spelling self }
    {
        match self {
            Word::All => b"all",
            Word::And => b"and",
            Word::As => b"as",
            Word::Between => b"between",
            Word::Case => b"case",
            Word::Cast => b"cast",
            Word::Check => b"check",
            Word::Constraint => b"constraint",
            Word::Create => b"create",
            Word::Cross => b"cross",
            Word::Default => b"default",
            Word::Distinct => b"distinct",
            Word::Except => b"except",
            Word::Exists => b"exists",
            Word::False => b"false",
            Word::Fetch => b"fetch",
            Word::Foreign => b"foreign",
            Word::From => b"from",
            Word::Full => b"full",
            Word::Group => b"group",
            Word::Having => b"having",
            Word::Ilike => b"ilike",
            Word::In => b"in",
            Word::Inner => b"inner",
            Word::Intersect => b"intersect",
            Word::Is => b"is",
            Word::Join => b"join",
            Word::Left => b"left",
            Word::Like => b"like",
            Word::Limit => b"limit",
            Word::Natural => b"natural",
            Word::Not => b"not",
            Word::Null => b"null",
            Word::Offset => b"offset",
            Word::On => b"on",
            Word::Or => b"or",
            Word::Order => b"order",
            Word::Outer => b"outer",
            Word::Primary => b"primary",
            Word::References => b"references",
            Word::Right => b"right",
            Word::Select => b"select",
            Word::Similar => b"similar",
            Word::Table => b"table",
            Word::True => b"true",
            Word::Union => b"union",
            Word::Unique => b"unique",
            Word::Using => b"using",
            Word::Where => b"where",
            Word::Window => b"window",
            Word::With => b"with",
        }
    }
}

// The reserved words that begin with a letter, given in lower case.
fn words_from(letter: u8) -> &'static [Word]
    ensures { result.now ≡ spec.words_from letter }
{
    match letter {
        b'a' => &[Word::All, Word::And, Word::As],
        b'b' => &[Word::Between],
        b'c' => &[
            Word::Case,
            Word::Cast,
            Word::Check,
            Word::Constraint,
            Word::Create,
            Word::Cross,
        ],
        b'd' => &[Word::Default, Word::Distinct],
        b'e' => &[Word::Except, Word::Exists],
        b'f' => &[
            Word::False,
            Word::Fetch,
            Word::Foreign,
            Word::From,
            Word::Full,
        ],
        b'g' => &[Word::Group],
        b'h' => &[Word::Having],
        b'i' => &[
            Word::Ilike,
            Word::In,
            Word::Inner,
            Word::Intersect,
            Word::Is,
        ],
        b'j' => &[Word::Join],
        b'l' => &[Word::Left, Word::Like, Word::Limit],
        b'n' => &[Word::Natural, Word::Not, Word::Null],
        b'o' => &[Word::Offset, Word::On, Word::Or, Word::Order, Word::Outer],
        b'p' => &[Word::Primary],
        b'r' => &[Word::References, Word::Right],
        b's' => &[Word::Select, Word::Similar],
        b't' => &[Word::Table, Word::True],
        b'u' => &[Word::Union, Word::Unique, Word::Using],
        b'w' => &[Word::Where, Word::Window, Word::With],
        _ => &[],
    }
}

/// Whether a word, given in lower case, is reserved: such a word is a name only in quotes.
pub fn is_reserved(word: &[u8]) -> bool
    ensures value { result ≡ spec.is_reserved word.now }
    // No reserved word is left out.
    ensures each { (w : Word) → spec.spelling w ≡ word.now → result ≡ true }
{
    match word {
        [first, ..] => is_among(word, words_from(*first)),
        [] => false,
    }
}

fn is_among(word: &[u8], words: &[Word]) -> bool
    ensures { result ≡ list_any (λ other. bytes_eq (spec.spelling other) word.now) words.now }
{
    words.iter().any(|other| other.spelling() == word)
}

/// The reserved word that a token is, whatever the case of its letters.
pub fn keyword(bytes: &[u8], token: &Token) -> Option<Word>
    ensures value { result ≡ names.keyword bytes.now token.now }
    // A token that is a reserved word is that one.
    ensures each { (w : Word) → names.is_word bytes.now token.now (spec.spelling w) ≡ true → result ≡ Some w }
{
    let token = *token;
    match token.kind {
        TokenKind::Word => keyword_of(spelled(bytes, token)),
        _ => None,
    }
}

fn keyword_of(spelled: &[u8]) -> Option<Word>
    ensures { result ≡ find (λ w. names.is_folded spelled.now (spec.spelling w)) spec.all_words }
{
    match spelled {
        [first, ..] => keyword_among(spelled, words_from(first.to_ascii_lowercase())),
        [] => None,
    }
}

fn keyword_among(spelled: &[u8], words: &[Word]) -> Option<Word>
    ensures { result ≡ find (λ w. names.is_folded spelled.now (spec.spelling w)) words.now }
{
    words
        .iter()
        .copied()
        .find(|word| is_folded(spelled, word.spelling()))
}

fn begins_bare(byte: u8) -> bool
    ensures { result ≡ spec.begins_bare byte }
{
    byte.is_ascii_lowercase() || byte == b'_'
}

fn goes_on_bare(byte: u8) -> bool
    ensures { result ≡ spec.goes_on_bare byte }
{
    begins_bare(byte) || byte.is_ascii_digit()
}

fn all_go_on_bare(bytes: &[u8]) -> bool
    ensures { result ≡ list_all spec.goes_on_bare bytes.now }
{
    bytes.iter().all(|byte| goes_on_bare(*byte))
}

fn is_lower_word(bytes: &[u8]) -> bool
    ensures { result ≡ spec.is_lower_word bytes.now }
{
    match bytes {
        [first, others @ ..] => begins_bare(*first) && all_go_on_bare(others),
        [] => false,
    }
}

/// Whether a name may be written without quotes: a lower-case word that is not reserved.
pub fn is_bare(name: &[u8]) -> bool
    ensures { result ≡ spec.is_bare name.now }
{
    is_lower_word(name) && !is_reserved(name)
}
