//! How texts fall into tokens.

use std::alloc::{AllocError, Global};
use std::test::Fail;
use wt_lex::{LexError, LexFault, Sym, Token, TokenKind, lex};

// A text, and each of its tokens.
struct Row {
    text: &'static str,
    tokens: &'static [(TokenKind, u32, u32)],
}

static ROWS: [Row; 13] = [
    Row {
        text: "1.5",
        tokens: &[
            (TokenKind::Number(1), 0, 1),
            (TokenKind::Odd(LexFault::BadCharacter), 1, 2),
            (TokenKind::Number(5), 2, 3),
        ],
    },
    Row {
        text: "a_1 -- b\r c\nD",
        tokens: &[(TokenKind::Word, 0, 3), (TokenKind::Word, 12, 13)],
    },
    Row {
        text: "a/* /* */b\r\n",
        tokens: &[(TokenKind::Word, 0, 1), (TokenKind::Word, 9, 10)],
    },
    Row {
        text: "'it''s'\"a\"\"b\"",
        tokens: &[(TokenKind::Text, 0, 7), (TokenKind::Quoted, 7, 13)],
    },
    Row {
        text: "12x\"\"''",
        tokens: &[
            (TokenKind::Number(12), 0, 2),
            (TokenKind::Odd(LexFault::BadCharacter), 2, 3),
            (TokenKind::Odd(LexFault::BadCharacter), 3, 5),
            (TokenKind::Text, 5, 7),
        ],
    },
    Row {
        text: "\u{e9}-",
        tokens: &[
            (TokenKind::Odd(LexFault::BadCharacter), 0, 1),
            (TokenKind::Odd(LexFault::BadCharacter), 1, 2),
            (TokenKind::Symbol(Sym::Minus), 2, 3),
        ],
    },
    Row {
        text: "007 4294967296 00004294967297",
        tokens: &[
            (TokenKind::Number(7), 0, 3),
            (TokenKind::Number(4_294_967_296), 4, 14),
            (TokenKind::Number(4_294_967_297), 15, 29),
        ],
    },
    Row {
        text: "0 9223372036854775807 0000000000009223372036854775808",
        tokens: &[
            (TokenKind::Number(0), 0, 1),
            (TokenKind::Number(9_223_372_036_854_775_807), 2, 21),
            (TokenKind::Number(9_223_372_036_854_775_808), 22, 53),
        ],
    },
    Row {
        text: "9223372036854775809",
        tokens: &[(TokenKind::Odd(LexFault::NumberRange), 0, 19)],
    },
    Row {
        text: "4294967296x 4294967297",
        tokens: &[
            (TokenKind::Number(4_294_967_296), 0, 10),
            (TokenKind::Odd(LexFault::BadCharacter), 10, 11),
            (TokenKind::Number(4_294_967_297), 12, 22),
        ],
    },
    Row {
        text: "(),.;*=+-/%?$",
        tokens: &[
            (TokenKind::Symbol(Sym::Open), 0, 1),
            (TokenKind::Symbol(Sym::Close), 1, 2),
            (TokenKind::Symbol(Sym::Comma), 2, 3),
            (TokenKind::Symbol(Sym::Dot), 3, 4),
            (TokenKind::Symbol(Sym::Semi), 4, 5),
            (TokenKind::Symbol(Sym::Star), 5, 6),
            (TokenKind::Symbol(Sym::Eq), 6, 7),
            (TokenKind::Symbol(Sym::Plus), 7, 8),
            (TokenKind::Symbol(Sym::Minus), 8, 9),
            (TokenKind::Symbol(Sym::Slash), 9, 10),
            (TokenKind::Symbol(Sym::Percent), 10, 11),
            (TokenKind::Symbol(Sym::Question), 11, 12),
            (TokenKind::Symbol(Sym::Dollar), 12, 13),
        ],
    },
    Row {
        text: "<><=< >=>!=||:::",
        tokens: &[
            (TokenKind::Symbol(Sym::NotEq), 0, 2),
            (TokenKind::Symbol(Sym::Le), 2, 4),
            (TokenKind::Symbol(Sym::Lt), 4, 5),
            (TokenKind::Symbol(Sym::Ge), 6, 8),
            (TokenKind::Symbol(Sym::Gt), 8, 9),
            (TokenKind::Symbol(Sym::BangEq), 9, 11),
            (TokenKind::Symbol(Sym::Bars), 11, 13),
            (TokenKind::Symbol(Sym::ColonColon), 13, 15),
            (TokenKind::Symbol(Sym::Colon), 15, 16),
        ],
    },
    Row {
        text: " \t-- nothing",
        tokens: &[],
    },
];

fn falls_into(alloc: Global, text: &str, wanted: &[(TokenKind, u32, u32)]) -> bool {
    match lex(alloc, text.as_bytes()) {
        Err(_) => false,
        Ok(tokens) => {
            let mut same = tokens.len() == wanted.len();
            for (i, (kind, start, end)) in wanted.iter().enumerate() {
                let token = Token {
                    kind: *kind,
                    start: *start,
                    end: *end,
                };
                same = same && i < tokens.len() && tokens.get(i) == token;
            }
            same
        }
    }
}

#[test]
fn texts_fall_into_tokens(rt: HostRuntime) {
    for row in ROWS.iter() {
        assert!(rt;
            falls_into(rt.alloc(), row.text, row.tokens),
            "{}",
            row.text
        );
    }
}

fn fault_of(alloc: Global, bytes: &[u8]) -> Option<LexError> {
    match lex(alloc, bytes) {
        Err(error) => Some(error),
        Ok(_) => None,
    }
}

#[test]
fn whole_texts_are_refused_in_order(rt: HostRuntime) {
    let rows: [(&[u8], LexFault, u32); 4] = [
        (b"a '", LexFault::OpenQuote, 2),
        (b"/*/", LexFault::OpenQuote, 0),
        (b"a \"b\"\"", LexFault::OpenQuote, 2),
        (b"' a\xc3(", LexFault::NotText, 3),
    ];
    for (bytes, fault, at) in rows {
        assert!(rt; fault_of(rt.alloc(), bytes) == Some(LexError::Fault(fault, at)));
    }
}

// The fault of so many spaces before a byte that is no text.
fn fault_behind(alloc: Global, spaces: usize, odd: bool) -> Result<Option<LexError>, AllocError> {
    let mut bytes = Vec::new(alloc);
    bytes.resize(spaces, b' ')?;
    if odd {
        bytes.push(0xff)?;
    }
    Ok(fault_of(alloc, &bytes))
}

#[test]
fn long_texts_are_refused_first(rt: HostRuntime) -> Result<(), Fail> {
    let long = LexError::Fault(LexFault::TooLong, 16_777_216);
    assert!(rt; fault_behind(rt.alloc(), 16_777_216, false)? == None);
    assert!(rt; fault_behind(rt.alloc(), 16_777_216, true)? == Some(long));
    Ok(())
}
