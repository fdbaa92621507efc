//! The last line of a rule file.
ghost use Rattle.std.specs.Prelude.{◌≡◌, ◌≢◌, ◌≤◌, ◌↔◌, ◌⊎◌, ℕ, List, [], ◌∷◌, length, codes, IsTrue, MatchOption, true, false};
ghost use Rattle.wt_rule_text.specs.declared.parsed.Version.{Version};
ghost use Rattle.wt_rule_file.specs.Files.{Line, Ends, StatesCount};
ghost use Rattle.wt_rule_file.specs.Reading as spec;
ghost use Rattle.wt_rule_file.specs.Reading.{EndsFile};

use crate::head::last_number;
use wt_rule_line::RuleFault;
use wt_rule_text::after;

/// Whether a line is an end line.
pub(crate) fn is_end(text: &[u8]) -> bool
    ensures { IsTrue result ↔ Ends text.now }
{
    after(text, 0, "end ").is_some()
}

fn end_number(text: &[u8]) -> Option<u64>
    ensures { result ≡ spec.end_number text.now }
{
    let at = after(text, 0, "end ")?;
    last_number(text, at)
}

/// The number that an end line states.
fn stated_count(text: &[u8]) -> Option<u64>
    ensures { MatchOption result ((m : ℕ) → StatesCount m text.now → ⊥) (λ m. StatesCount m text.now) }
{
    end_number(text)
}

/// The fault of an end line behind so many rules, if it has one.
pub(crate) fn end_fault(text: &[u8], ended: bool, more: bool, count: usize) -> Option<RuleFault>
    ensures { EndsFile text.now ended more count result }
{
    if !ended {
        return Some(RuleFault::Syntax);
    }
    let Some(stated) = stated_count(text) else {
        return Some(RuleFault::Syntax);
    };
    if stated != count as u64 {
        return Some(RuleFault::Count);
    }
    if more {
        return Some(RuleFault::Count);
    }
    None
}
