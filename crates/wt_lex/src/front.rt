ghost use Rattle.std.specs.Prelude.{◌≡◌, ◌≢◌, ℕ, ◌+◌, ◌-◌, ◌*◌, ◌<◌, ◌≤◌, ◌^◌, min, length, slice_index, true, false, IfSome};
ghost use Rattle.std.specs.Char.{is_ascii_digit};
ghost use Rattle.wt_lex.specs.Fronts as spec;

use crate::token::{LexFault, Sym, TokenKind};

/// What stands at the front of a text, and how many bytes it takes.
#[derive(Clone, Copy, Debug)]
pub(crate) enum Front {
    /// A blank or a comment.
    Gap(usize),
    /// A token.
    Item(TokenKind, usize),
    /// A number, and directly behind it a byte that spoils it.
    Spoiled(TokenKind, usize),
    /// A quote or a comment that is not closed.
    Unclosed,
}

#[derive(Clone, Copy, Debug)]
enum Class {
    Word,
    Digit,
    Line,
    NoStar,
}

fn is_in(class: Class, byte: u8) -> bool
    ensures { result ≡ spec.is_in class byte }
{
    match class {
        Class::Word => byte.is_ascii_alphanumeric() || byte == b'_',
        Class::Digit => byte.is_ascii_digit(),
        Class::Line => byte != b'\n',
        Class::NoStar => byte != b'*',
    }
}

fn is_blank(byte: u8) -> bool
    ensures { result ≡ spec.is_blank byte }
{
    byte == b' ' || byte == b'\t' || byte == b'\n' || byte == b'\r'
}

// How many bytes at the front are of the class.
fn run(class: Class, text: &[u8]) -> usize
    ensures value { result ≡ spec.run class text.now }
    ensures within { result ≤ length text.now }
{
    let mut n = 0;
    'bytes: while n < text.len() && is_in(class, text[n]) {
        n += 1;
    }
    n
}

// One digit more. What passes the greatest number stays one above it.
fn add_digit(n: u64, digit: u8) -> u64
    requires { n ≤ spec.past_most }
    ensures within { result ≤ spec.past_most }
    ensures value { (m : ℕ) → n ≡ min spec.past_most m → result ≡ min spec.past_most (10 * m + (digit - 48)) }
{
    if n > 922_337_203_685_477_580 {
        return 9_223_372_036_854_775_809;
    }
    let next = 10 * n + digit.saturating_sub(b'0') as u64;
    if next > 9_223_372_036_854_775_808 {
        return 9_223_372_036_854_775_809;
    }
    next
}

#[tactic(auto, using(crate::proofs::Numbers::value_next))]
fn number_of(digits: &[u8]) -> u64
    ensures { result ≡ min spec.past_most (spec.value digits.now) }
{
    let mut n: u64 = 0;
    for digit in digits {
        n = add_digit(n, *digit);
    }
    n
}

pub(crate) fn number_kind(digits: &[u8]) -> TokenKind
    ensures { result ≡ spec.number_kind digits.now }
{
    let n = number_of(digits);
    if n > 9_223_372_036_854_775_808 {
        TokenKind::Odd(LexFault::NumberRange)
    } else {
        TokenKind::Number(n)
    }
}

// The byte at a place, 0 past the end.
fn byte_at(text: &[u8], at: usize) -> u8
    ensures value { result ≡ slice_index text.now at }
    ensures within { result ≢ 0 → at < length text.now }
{
    if at < text.len() { text[at] } else { 0 }
}

fn spoils(byte: u8) -> bool
    ensures value { result ≡ spec.spoils byte }
    ensures not_zero { result ≡ true → byte ≢ 0 }
{
    byte.is_ascii_alphabetic() || byte == b'_' || byte == b'.'
}

fn number(text: &[u8]) -> Front
    requires { is_ascii_digit (slice_index text.now 0) ≡ true }
    ensures value { result ≡ spec.number text.now }
    ensures within { (1 ≤ spec.len_of result) × (spec.len_of result ≤ length text.now) }
    ensures digits { spec.HasDigits result }
{
    let n = run(Class::Digit, text);
    let kind = number_kind(&text[..n]);
    if spoils(byte_at(text, n)) {
        Front::Spoiled(kind, n)
    } else {
        Front::Item(kind, n)
    }
}

// The length of a quoted item, its quotes counted, from the bytes behind its first quote.
fn closing(quote: u8, mut text: &[u8]) -> Option<usize>
    requires { length text.now < 2 ^ 63 }
    ensures value { result ≡ spec.closing quote false 1 text.entry.now }
    ensures within { IfSome result (λ end. (1 ≤ end) × (end ≤ length text.entry.now + 1)) }
{
    let mut seen = false;
    let mut at = 1;
    'bytes: while let [byte, rest @ ..] = text {
        if seen && *byte != quote {
            return Some(at);
        }
        seen = *byte == quote && !seen;
        at += 1;
        text = rest;
    }
    if seen { Some(at) } else { None }
}

// The length of a comment, from the bytes behind its first two.
fn comment_end(text: &[u8]) -> Option<usize>
    requires { length text.now < 2 ^ 63 }
    ensures value { result ≡ spec.comment_end false 2 text.now }
    ensures within { IfSome result (λ end. (1 ≤ end) × (end ≤ length text.now + 2)) }
{
    let mut at = run(Class::NoStar, text);
    'stars: while at < text.len() {
        if byte_at(text, at + 1) == b'/' {
            return Some(at + 4);
        }
        at += 1 + run(Class::NoStar, &text[at + 1..]);
    }
    None
}

fn long_symbol(byte: u8, next: u8) -> Option<Sym>
    ensures value { result ≡ spec.long_symbol byte next }
    ensures within { IfSome result (λ _. next ≢ 0) }
{
    match (byte, next) {
        (b'<', b'>') => Some(Sym::NotEq),
        (b'!', b'=') => Some(Sym::BangEq),
        (b'<', b'=') => Some(Sym::Le),
        (b'>', b'=') => Some(Sym::Ge),
        (b'|', b'|') => Some(Sym::Bars),
        (b':', b':') => Some(Sym::ColonColon),
        _ => None,
    }
}

fn short_symbol(byte: u8) -> Option<Sym>
    ensures { result ≡ spec.short_symbol byte }
{
    match byte {
        b'(' => Some(Sym::Open),
        b')' => Some(Sym::Close),
        b',' => Some(Sym::Comma),
        b'.' => Some(Sym::Dot),
        b';' => Some(Sym::Semi),
        b'*' => Some(Sym::Star),
        b'=' => Some(Sym::Eq),
        b'<' => Some(Sym::Lt),
        b'>' => Some(Sym::Gt),
        b'+' => Some(Sym::Plus),
        b'-' => Some(Sym::Minus),
        b'/' => Some(Sym::Slash),
        b'%' => Some(Sym::Percent),
        b':' => Some(Sym::Colon),
        b'?' => Some(Sym::Question),
        b'$' => Some(Sym::Dollar),
        _ => None,
    }
}

fn symbol(byte: u8, next: u8) -> Front
    ensures value { result ≡ spec.symbol byte next }
    ensures within { (1 ≤ spec.len_of result) × (spec.len_of result ≤ 2) × (next ≡ 0 → spec.len_of result ≡ 1) }
    ensures digits { spec.HasDigits result }
{
    if let Some(sym) = long_symbol(byte, next) {
        return Front::Item(TokenKind::Symbol(sym), 2);
    }
    match short_symbol(byte) {
        Some(sym) => Front::Item(TokenKind::Symbol(sym), 1),
        None => Front::Item(TokenKind::Odd(LexFault::BadCharacter), 1),
    }
}

fn text(end: Option<usize>) -> Front
    ensures value { result ≡ spec.closed_text end }
    ensures digits { spec.HasDigits result }
{
    match end {
        None => Front::Unclosed,
        Some(n) => Front::Item(TokenKind::Text, n),
    }
}

fn name(end: Option<usize>) -> Front
    ensures value { result ≡ spec.closed_name end }
    ensures digits { spec.HasDigits result }
{
    match end {
        None => Front::Unclosed,
        Some(2) => Front::Item(TokenKind::Odd(LexFault::BadCharacter), 2),
        Some(n) => Front::Item(TokenKind::Quoted, n),
    }
}

fn comment(end: Option<usize>) -> Front
    ensures value { result ≡ spec.closed_comment end }
    ensures digits { spec.HasDigits result }
{
    match end {
        None => Front::Unclosed,
        Some(n) => Front::Gap(n),
    }
}

fn mark(text: &[u8]) -> Front
    requires { 0 < length text.now }
    ensures value { result ≡ spec.mark text.now }
    ensures within { (1 ≤ spec.len_of result) × (spec.len_of result ≤ length text.now) }
    ensures digits { spec.HasDigits result }
{
    let byte = text[0];
    let next = byte_at(text, 1);
    if byte == b'-' && next == b'-' {
        return Front::Gap(2 + run(Class::Line, &text[2..]));
    }
    if byte == b'/' && next == b'*' {
        return comment(comment_end(&text[2..]));
    }
    symbol(byte, next)
}

#[tactic(auto, unfolding(crate::specs::Fronts::front))]
pub(crate) fn at_front(bytes: &[u8]) -> Front
    requires { 0 < length bytes.now }
    ensures value { result ≡ spec.front bytes.now }
    ensures within { (1 ≤ spec.len_of result) × (spec.len_of result ≤ length bytes.now) }
    ensures digits { spec.HasDigits result }
{
    let byte = bytes[0];
    if is_blank(byte) {
        Front::Gap(1)
    } else if byte.is_ascii_alphabetic() || byte == b'_' {
        Front::Item(TokenKind::Word, run(Class::Word, bytes))
    } else if byte.is_ascii_digit() {
        number(bytes)
    } else if byte == b'"' {
        name(closing(byte, &bytes[1..]))
    } else if byte == b'\'' {
        text(closing(byte, &bytes[1..]))
    } else {
        mark(bytes)
    }
}
