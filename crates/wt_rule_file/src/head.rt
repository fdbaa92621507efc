//! The head of a rule file.
ghost use Rattle.std.specs.Prelude.{◌≡◌, ℕ, MatchOption, length};
ghost use Rattle.wt_rule_text.specs.declared.parsed.Version.{Version as Versions};
ghost use Rattle.wt_rule_file.specs.Files.{IsHead};
ghost use Rattle.wt_rule_file.specs.Reading as spec;

use wt_rule_text::{Version, after, number};

/// The version of a file, and the bound on steps that its rules are proved within.
#[derive(Clone, Copy)]
pub(crate) struct Head {
    pub(crate) version: Version,
    pub(crate) steps: u32,
}

/// The number that ends a line from a place on.
pub(crate) fn last_number(text: &[u8], at: usize) -> Option<u64>
    ensures { result ≡ spec.last_number text.now at }
{
    let (n, end) = number(text, at)?;
    if end == text.len() { Some(n) } else { None }
}

fn steps_at(text: &[u8], at: usize) -> Option<u32>
    ensures { result ≡ spec.steps_at text.now at }
{
    let steps = last_number(text, at)?;
    if 1 <= steps && steps <= 16 {
        Some(steps as u32)
    } else {
        None
    }
}

/// What a head line says.
fn stated_head(text: &[u8]) -> Option<Head>
    ensures { result ≡ spec.stated_head text.now }
{
    if let Some(at) = after(text, 0, "wetune-rules 1 steps=") {
        let steps = steps_at(text, at)?;
        return Some(Head {
            version: Version::One,
            steps,
        });
    }
    let at = after(text, 0, "wetune-rules 2 steps=")?;
    let steps = steps_at(text, at)?;
    Some(Head {
        version: Version::Two,
        steps,
    })
}

/// Reads a head line, which stands without its LF.
pub(crate) fn read_head(text: &[u8]) -> Option<Head>
    ensures { MatchOption result ((version : Versions) (steps : ℕ) → IsHead version steps text.now → ⊥) (λ head. IsHead head.version head.steps text.now) }
{
    stated_head(text)
}
