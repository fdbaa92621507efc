//! The text of a query.
#![tactic(auto)]

ghost use Rattle.std.specs.Prelude.{◌≡◌, IfOk};
ghost use Rattle.wt_ast.specs.Lawful.{IsFormed};
ghost use Rattle.wt_ast.specs.Tree.{query_tree};
ghost use Rattle.wt_spelling.specs.ReadingBack.{IsWithin, ReadsAs};
ghost use Rattle.wt_spelling.specs.Spelling.{statement_text};

mod links;
mod names;
mod queries;

use std::alloc::Global;
use wt_ast::Query;
use wt_spelling::texts_read_back;
use wt_value::{Bytes, WantOfMemory};

// The room that a text begins with, in bytes: most need no more.
const SHORT_LINE: usize = 128;

/// The one text of a query, which ends in `;` and has no line end of its own.
pub fn print_query(alloc: Global, query: &Query) -> Result<Bytes, WantOfMemory>
    ensures exact { IfOk result (λ line. line ≡ statement_text (query_tree query.now)) }
    // Reading the text gives the same tree, offsets apart, wherever it is within the limits of a statement.
    ensures reads_back { IfOk result (λ line. IsFormed (query_tree query.now) → IsWithin line (query_tree query.now) → ReadsAs line (query_tree query.now)) }
{
    texts_read_back();
    let mut out = Vec::with_capacity(alloc, SHORT_LINE)?;
    queries::add_query(alloc, &mut out, query)?;
    out.extend_from_slice(b";")?;
    Ok(Bytes::from_vec(out))
}
