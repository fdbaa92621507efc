//! The words `key=value` of `discover`.
ghost use Rattle.std.specs.Prelude.{◌≡◌, ◌+◌, ◌-◌, ◌*◌, ◌^◌, ◌<◌, ◌≤◌, ◌==◌, length, true, is_some, map, string_bytes, IfOk};
ghost use Rattle.std.specs.List.{list_all, list_any};
ghost use Rattle.wt_words.specs.Settings as spec;

use crate::fault::UsageFault;
use wt_template::Ops;

/// A key of `discover`.
#[derive(Clone, Copy, Debug, PartialEq, Eq)]
pub(crate) enum Key {
    Src,
    Dst,
    Ops,
    Depth,
    Steps,
    Workers,
}

/// What the keys so far have as their values.
#[derive(Clone, Copy, Debug)]
pub(crate) struct Settings {
    pub(crate) src: Option<u32>,
    pub(crate) dst: Option<u32>,
    pub(crate) ops: Option<Ops>,
    pub(crate) depth: Option<u32>,
    pub(crate) steps: Option<u32>,
    pub(crate) workers: Option<u32>,
}

impl Settings {
    /// No key yet.
    pub(crate) fn none() -> Settings
        ensures none { result ≡ spec.no_settings }
        ensures limited { spec.AreLimited result }
    {
        Settings {
            src: None,
            dst: None,
            ops: None,
            depth: None,
            steps: None,
            workers: None,
        }
    }

    fn has_key(&self, key: Key) -> bool
        ensures { result ≡ spec.has_key key self.now }
    {
        match key {
            Key::Src => self.src.is_some(),
            Key::Dst => self.dst.is_some(),
            Key::Ops => self.ops.is_some(),
            Key::Depth => self.depth.is_some(),
            Key::Steps => self.steps.is_some(),
            Key::Workers => self.workers.is_some(),
        }
    }
}

fn is_digit(byte: u8) -> bool
    ensures { result ≡ spec.is_digit byte }
{
    48 <= byte && byte <= 57
}

fn are_digits(word: &[u8]) -> bool
    ensures { result ≡ list_all spec.is_digit word.now }
{
    word.iter().all(|byte| is_digit(*byte))
}

fn is_number(word: &[u8]) -> bool
    ensures { result ≡ spec.is_number word.now }
{
    match word {
        [] => false,
        [first, others @ ..] => are_digits(word) && (*first != b'0' || others.is_empty()),
    }
}

/// The value of at most ten digits.
fn value(word: &[u8]) -> u64
    requires digits { list_all spec.is_digit word.now ≡ true }
    requires few { length word.now ≤ 10 }
    ensures value { result ≡ spec.value word.now }
    ensures small { result < 10 ^ length word.now }
{
    match word {
        [] => 0,
        [first, others @ ..] => {
            u64::from(first - b'0') * 10u64.pow(others.len() as u32) + value(others)
        }
    }
}

/// A number of a range.
pub(crate) fn number(word: &str, low: u32, high: u32) -> Result<u32, UsageFault>
    ensures number { result ≡ spec.number low high word.now }
    ensures low { IfOk result (λ n. low ≤ n) }
    ensures high { IfOk result (λ n. n ≤ high) }
{
    let word = word.as_bytes();
    if !is_number(word) {
        return Err(UsageFault::BadNumber);
    }
    if word.len() > 10 {
        return Err(UsageFault::OutOfRange);
    }
    let value = value(word);
    if u64::from(low) <= value && value <= u64::from(high) {
        Ok(value as u32)
    } else {
        Err(UsageFault::OutOfRange)
    }
}

fn has(letter: u8, word: &[u8]) -> bool
    ensures { result ≡ spec.has letter word.now }
{
    word.iter().any(|byte| *byte == letter)
}

fn is_letter(byte: u8) -> bool
    ensures { result ≡ spec.is_letter byte }
{
    has(byte, b"PFILSD")
}

fn are_letters(word: &[u8]) -> bool
    ensures { result ≡ list_all spec.is_letter word.now }
{
    word.iter().all(|byte| is_letter(*byte))
}

fn are_different(mut word: &[u8]) -> bool
    ensures { result ≡ spec.are_different word.entry.now }
{
    'letters: while let [first, others @ ..] = word {
        if has(*first, others) {
            return false;
        }
        word = others;
    }
    true
}

fn flag(word: &[u8], letter: u8, bit: u8) -> u8
    ensures { result ≡ spec.flag word.now letter bit }
{
    if has(letter, word) { bit } else { 0 }
}

fn ops_of(word: &[u8]) -> Ops
    ensures { result ≡ spec.ops_of word.now }
{
    Ops(
        flag(word, b'P', 1)
            | flag(word, b'F', 2)
            | flag(word, b'I', 4)
            | flag(word, b'L', 8)
            | flag(word, b'S', 16)
            | flag(word, b'D', 32),
    )
}

fn letters(word: &str) -> Result<Ops, UsageFault>
    ensures { result ≡ spec.letters word.now }
{
    let word = word.as_bytes();
    if !word.is_empty() && are_letters(word) && are_different(word) {
        Ok(ops_of(word))
    } else {
        Err(UsageFault::BadOps)
    }
}

fn key_of(name: &str) -> Option<Key>
    ensures { result ≡ spec.key_of name.now }
{
    if name == "src" {
        Some(Key::Src)
    } else if name == "dst" {
        Some(Key::Dst)
    } else if name == "ops" {
        Some(Key::Ops)
    } else if name == "depth" {
        Some(Key::Depth)
    } else if name == "steps" {
        Some(Key::Steps)
    } else if name == "workers" {
        Some(Key::Workers)
    } else {
        None
    }
}

fn with_value(settings: &Settings, key: Key, word: &str) -> Result<Settings, UsageFault>
    requires { spec.AreLimited settings.now }
    ensures with { result ≡ spec.with_value key word.now settings.now }
    ensures limited { IfOk result spec.AreLimited }
{
    let Settings {
        src,
        dst,
        ops,
        depth,
        steps,
        workers,
    } = *settings;
    match key {
        Key::Src => Ok(Settings {
            src: Some(number(word, 1, 4)?),
            dst,
            ops,
            depth,
            steps,
            workers,
        }),
        Key::Dst => Ok(Settings {
            src,
            dst: Some(number(word, 0, 4)?),
            ops,
            depth,
            steps,
            workers,
        }),
        Key::Ops => Ok(Settings {
            src,
            dst,
            ops: Some(letters(word)?),
            depth,
            steps,
            workers,
        }),
        Key::Depth => Ok(Settings {
            src,
            dst,
            ops,
            depth: Some(number(word, 0, 64)?),
            steps,
            workers,
        }),
        Key::Steps => Ok(Settings {
            src,
            dst,
            ops,
            depth,
            steps: Some(number(word, 1, 16)?),
            workers,
        }),
        Key::Workers => Ok(Settings {
            src,
            dst,
            ops,
            depth,
            steps,
            workers: Some(number(word, 1, 64)?),
        }),
    }
}

fn keyed(settings: &Settings, key: Option<Key>, word: &str) -> Result<Settings, UsageFault>
    requires { spec.AreLimited settings.now }
    ensures with { result ≡ spec.keyed settings.now key word.now }
    ensures limited { IfOk result spec.AreLimited }
{
    match key {
        None => Err(UsageFault::UnknownKey),
        Some(key) if settings.has_key(key) => Err(UsageFault::RepeatedKey),
        Some(key) => with_value(settings, key, word),
    }
}

fn setting(settings: &Settings, word: &str) -> Result<Settings, UsageFault>
    requires { spec.AreLimited settings.now }
    ensures with { result ≡ spec.setting settings.now word.now }
    ensures limited { IfOk result spec.AreLimited }
{
    match word.split_once('=') {
        None => Err(UsageFault::UnknownKey),
        Some((name, value)) => keyed(settings, key_of(name), value),
    }
}

/// The settings that the words give, which are taken from left to right.
pub(crate) fn settings_from(mut words: &[String]) -> Result<Settings, UsageFault>
    ensures all { result ≡ spec.settings_from spec.no_settings (map string_bytes words.entry.now) }
    ensures limited { IfOk result spec.AreLimited }
{
    let mut settings = Settings::none();
    'words: while let [word, others @ ..] = words {
        settings = setting(&settings, word)?;
        words = others;
    }
    Ok(settings)
}
