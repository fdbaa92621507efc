//! A FROM clause as a chain of joins and commas, each in the left operand of the next.
ghost use Rattle.std.specs.Prelude.{◌≡◌, ◌<◌, ◌++◌, IfOk, IfSome, IfNone};
ghost use Rattle.wt_ast.specs.declared.tree.FromPart.{size-FromPart};
ghost use Rattle.wt_ast.specs.Tree.{from_tree};
ghost use Rattle.wt_print.specs.Links.{link_text, links_text, LinkFits, LinksFit, AreWithin};
ghost use Rattle.wt_spelling.specs.Numbers.{FitsFrom};
ghost use Rattle.wt_spelling.specs.Spelling as spec;

use std::alloc::Global;
use wt_ast::FromPart;
use wt_value::WantOfMemory;

// The left operand, where the part is a join or a comma.
pub(crate) fn left_of(part: &FromPart) -> Option<&FromPart>
    ensures smaller { IfSome result (λ left. size-FromPart left.now < size-FromPart part.now) }
    ensures text { IfSome result (λ left. spec.from_text (from_tree part.now) ≡ spec.from_text (from_tree left.now) ++ link_text (from_tree part.now)) }
    ensures fits { IfSome result (λ left. FitsFrom (from_tree left.now) → LinkFits (from_tree part.now) → FitsFrom (from_tree part.now)) }
    ensures whole { IfNone result (spec.from_text (from_tree part.now) ≡ link_text (from_tree part.now)) }
    ensures whole_fits { IfNone result (LinkFits (from_tree part.now) → FitsFrom (from_tree part.now)) }
{
    match part {
        FromPart::Table { .. } | FromPart::Derived { .. } => None,
        FromPart::Inner { left, .. } => Some(left),
        FromPart::Left { left, .. } => Some(left),
        FromPart::Right { left, .. } => Some(left),
        FromPart::Comma { left, .. } => Some(left),
    }
}

/// The joins and commas of a FROM clause from the last one back, and behind them its first part.
pub(crate) fn links<'a>(
    alloc: Global,
    from: &'a FromPart,
) -> Result<Vec<&'a FromPart>, WantOfMemory>
    ensures within { IfOk result (λ parts. AreWithin (size-FromPart from.now) parts.items) }
    ensures text { IfOk result (λ parts. links_text parts.items ≡ spec.from_text (from_tree from.now)) }
    ensures fits { IfOk result (λ parts. LinksFit parts.items → FitsFrom (from_tree from.now)) }
{
    let mut parts = Vec::new(alloc);
    let mut part = from;
    'left: loop {
        parts.push(part)?;
        match left_of(part) {
            Some(left) => part = left,
            None => return Ok(parts),
        }
    }
}
