//! The lines of a file, by their places.
ghost use Rattle.std.specs.Prelude.{◌≡◌, ◌+◌, length, drop, MatchOption, []};
ghost use Rattle.wt_rule_file.specs.Files.{lines_of};
ghost use Rattle.wt_rule_file.specs.Reading.{until_lf, IsLineAt};

/// A line: the places of its end and of the next line, and whether an LF ends it.
#[derive(Clone, Copy)]
pub(crate) struct LineAt {
    pub(crate) end: usize,
    pub(crate) next: usize,
    pub(crate) ended: bool,
}

/// How many bytes stand before the first LF, or at all.
fn line_length(text: &[u8]) -> usize
    ensures { result ≡ until_lf text.now }
{
    for (i, byte) in text.iter().enumerate() {
        if *byte == b'\n' {
            return i;
        }
    }
    text.len()
}

/// What is left of the bytes at a place.
fn rest(bytes: &[u8], at: usize) -> &[u8]
    ensures { result.now ≡ drop at bytes.now }
{
    &bytes[at.min(bytes.len())..]
}

/// The line that begins at a place, if anything is left there.
pub(crate) fn line_at(bytes: &[u8], at: usize) -> Option<LineAt>
    ensures { MatchOption result (lines_of (drop at bytes.now) ≡ []) (λ line. IsLineAt bytes.now at line) }
{
    let rest = rest(bytes, at);
    if rest.is_empty() {
        return None;
    }
    let length = line_length(rest);
    let end = at + length;
    if length < rest.len() {
        Some(LineAt {
            end,
            next: end + 1,
            ended: true,
        })
    } else {
        Some(LineAt {
            end,
            next: end,
            ended: false,
        })
    }
}
