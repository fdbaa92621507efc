//! The names and texts that tokens stand for, and the names that need no quotes.

use std::alloc::{AllocError, Global};
use std::test::Fail;
use wt_lex::{Token, TokenKind, Word, is_bare, is_reserved, is_word, keyword, name_of, text_of};

// A token and what it stands for.
static STANDS: [(&str, TokenKind, &str); 7] = [
    ("AbC", TokenKind::Word, "abc"),
    ("_9Z", TokenKind::Word, "_9z"),
    ("\"AbC\"", TokenKind::Quoted, "AbC"),
    ("\"A\"\"b\"", TokenKind::Quoted, "A\"b"),
    ("'c''d'", TokenKind::Text, "c'd"),
    ("''", TokenKind::Text, ""),
    ("\"\"\"\"", TokenKind::Quoted, "\""),
];

fn token_of(text: &str, kind: TokenKind) -> Token {
    Token {
        kind,
        start: 0,
        end: u32::try_from(text.len()).unwrap_or(0),
    }
}

fn stands_for(
    alloc: Global,
    text: &str,
    kind: TokenKind,
    wanted: &str,
) -> Result<bool, AllocError> {
    let token = token_of(text, kind);
    match kind {
        TokenKind::Text => {
            Ok(text_of(alloc, text.as_bytes(), &token)?.as_bytes() == wanted.as_bytes())
        }
        _ => Ok(name_of(alloc, text.as_bytes(), &token)?.as_bytes() == wanted.as_bytes()),
    }
}

#[test]
fn words_and_quotes_stand_for_names(rt: HostRuntime) -> Result<(), Fail> {
    for (text, kind, wanted) in STANDS {
        assert!(rt; stands_for(rt.alloc(), text, kind, wanted)?, "{text}");
    }
    Ok(())
}

// A spelling, the reserved word that a word so spelled is, and whether it may stand for a name as it is.
static WORDS: [(&str, Option<Word>, bool); 10] = [
    ("all", Some(Word::All), false),
    ("WITH", Some(Word::With), false),
    ("wIndow", Some(Word::Window), false),
    ("window", Some(Word::Window), false),
    ("window_", None, true),
    ("update", None, true),
    ("Update", None, false),
    ("_a9", None, true),
    ("a$", None, false),
    ("9a", None, false),
];

#[test]
fn reserved_words_are_no_bare_names(rt: HostRuntime) {
    for (text, word, bare) in WORDS {
        let bytes = text.as_bytes();
        assert!(rt;
            keyword(bytes, &token_of(text, TokenKind::Word)) == word,
            "{text}"
        );
        assert!(rt;
            keyword(bytes, &token_of(text, TokenKind::Quoted)) == None,
            "{text}"
        );
        assert!(rt; is_bare(bytes) == bare, "{text}");
    }
    assert!(rt; is_reserved(b"all") && !is_reserved(b"ALL") && !is_reserved(b"update"));
    assert!(rt; is_word(b"Key", &token_of("Key", TokenKind::Word), b"key"));
    assert!(rt; !is_word(b"Key", &token_of("Key", TokenKind::Quoted), b"key"));
    assert!(rt; !is_bare(b""));
}
