//! Words and numbers of a line, by their places.
ghost use Rattle.std.specs.Prelude.{◌≡◌, ◌≤◌, ◌+◌, ◌-◌, ◌*◌, ◌^◌, min, length, take, drop};
ghost use Rattle.wt_rule_text.specs.Numbers as numbers;
ghost use Rattle.wt_rule_text.specs.Reading as spec;

/// What is left of a line at a place.
fn rest(line: &[u8], at: usize) -> &[u8]
    ensures { result.now ≡ drop at line.now }
{
    &line[at.min(line.len())..]
}

/// The place behind a word, if the word stands here.
pub fn after(line: &[u8], at: usize, word: &str) -> Option<usize>
    ensures { result ≡ spec.after line.now at word.now }
{
    if rest(line, at).starts_with(word.as_bytes()) {
        Some(at + word.len())
    } else {
        None
    }
}

/// How many digits a text begins with.
fn leading_digits(text: &[u8]) -> usize
    ensures { result ≡ spec.leading text.now }
{
    for (i, byte) in text.iter().enumerate() {
        if !byte.is_ascii_digit() {
            return i;
        }
    }
    text.len()
}

/// Whether there are digits, and no zero before others.
fn is_plain(digits: &[u8]) -> bool
    ensures { result ≡ numbers.is_plain digits.now }
{
    match digits {
        [] => false,
        [b'0', _, ..] => false,
        _ => true,
    }
}

/// The number that digits write, as far as the type goes.
fn value(digits: &[u8]) -> u64
    ensures { result ≡ numbers.value digits.now }
{
    let mut value = 0u64;
    for digit in digits {
        value = value
            .saturating_mul(10)
            .saturating_add(u64::from(digit.saturating_sub(b'0')));
    }
    value
}

/// The number that stands here, with the place behind its last digit.
pub fn number(line: &[u8], at: usize) -> Option<(u64, usize)>
    ensures { result ≡ spec.number line.now at }
{
    let text = rest(line, at);
    let count = leading_digits(text);
    let digits = &text[..count];
    if !is_plain(digits) {
        return None;
    }
    Some((value(digits), at + count))
}

/// The number of a symbol with this letter that stands here, with the place behind it.
pub(crate) fn symbol(line: &[u8], at: usize, letter: &str) -> Option<(u64, usize)>
    ensures { result ≡ spec.symbol letter.now line.now at }
{
    let at = after(line, at, letter)?;
    number(line, at)
}
