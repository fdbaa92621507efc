//! Runs of rules that have one source: a plan is walked once for each.
ghost use Rattle.std.specs.Prelude.{◌≡◌, ◌<◌, ◌↔◌, length, IfOk, IsTrue};
ghost use Rattle.wt_rewrite.specs.Runs.{SameSource, IsRun, AreRuns};

use std::alloc::Global;
use wt_rule::Rule;
use wt_value::WantOfMemory;

/// The rules from a number on and before another one; they have one source.
#[derive(Clone, Copy, Debug, PartialEq, Eq)]
pub struct Run {
    pub start: usize,
    pub end: usize,
}

/// Whether the rules have one source, with the same anchors.
fn has_source(rule: &Rule, first: &Rule) -> bool
    ensures { IsTrue result ↔ SameSource rule.now first.now }
{
    rule.pair.source.same(&first.pair.source) && rule.pair.anchors == first.pair.anchors
}

/// The end of the run that begins at a rule.
fn run_end(rules: &[Rule], start: usize) -> usize
    requires { start < length rules.now }
    ensures { IsRun rules.now start result }
{
    let mut end = start + 1;
    'rules: while end < rules.len() {
        if !has_source(&rules[end], &rules[start]) {
            return end;
        }
        end += 1;
    }
    end
}

/// The runs of a list of rules.
pub(crate) fn runs_of(alloc: Global, rules: &[Rule]) -> Result<Vec<Run>, WantOfMemory>
    ensures { IfOk result (λ runs. AreRuns rules.now 0 runs.items) }
{
    let mut runs = Vec::new(alloc);
    let mut start = 0;
    'rules: while start < rules.len() {
        let end = run_end(rules, start);
        runs.push(Run { start, end })?;
        start = end;
    }
    Ok(runs)
}
