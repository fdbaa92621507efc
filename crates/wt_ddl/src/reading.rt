//! Reads a whole schema.
ghost use Rattle.std.specs.Prelude.{◌≡◌, map, Ok, IfOk};
ghost use Rattle.wt_lex.specs.Tokens.{lexed};
ghost use Rattle.wt_ddl.specs.Grammar.{IsText};
ghost use Rattle.wt_ddl.specs.Reading.{statements as statements_of};
ghost use Rattle.wt_ddl.specs.Schemas as spec;
ghost use Rattle.wt_ddl.specs.Giving as giving;
ghost use Rattle.wt_reading.specs.Lexemes.{lexeme};

use crate::fault::DdlError;
use crate::linking::linked_tables;
use crate::rest::{Rest, Text};
use crate::statements::statements;
use std::alloc::Global;
use wt_lex::{LexError, TokenKind, Tokens, lex};
use wt_schema::{Schema, Tables};

/// The schema of a text of CREATE TABLE statements, or its first fault with its offset: the faults of tokens come first,
/// then those that reading from left to right meets, then those of references.
pub fn read_schema(alloc: Global, bytes: &[u8]) -> Result<Schema, DdlError>
    ensures exact { spec.Reads result (spec.schema_of bytes.now) }

    // What is read is a sentence of the grammar, of these tables.
    ensures sentence { IfOk result (λ schema. IsText bytes.now schema.tables) }
{
    let tokens = tokens_of(alloc, bytes)?;
    if let Some(error) = first_odd(&tokens) {
        return Err(error);
    }
    let tables = tables_of(alloc, bytes, &tokens)?;
    Ok(Schema { tables })
}

fn tokens_of<'a>(alloc: Global, bytes: &'a [u8]) -> Result<Tokens<'a>, DdlError>
    ensures { giving.Lexes result (lexed bytes.now) }
{
    match lex(alloc, bytes) {
        Ok(tokens) => Ok(tokens),
        Err(LexError::Fault(fault, at)) => Err(DdlError::Lex(fault, at)),
        Err(LexError::Memory) => Err(DdlError::Memory),
    }
}

// The first token that is refused wherever it stands.
fn first_odd(tokens: &Tokens) -> Option<DdlError>
    ensures { giving.IsFault result (spec.first_odd tokens.now) }
{
    let mut i = 0;
    'tokens: while i < tokens.len() {
        let token = tokens.get(i);
        if let TokenKind::Odd(fault) = token.kind {
            return Some(DdlError::Lex(fault, token.start));
        }
        i += 1;
    }
    None
}

fn tables_of(alloc: Global, bytes: &[u8], tokens: &Tokens) -> Result<Tables, DdlError>
    requires { lexed bytes.now ≡ Ok tokens.now }
    ensures { giving.Agrees result (spec.linked_up (statements_of bytes.now (map (lexeme bytes.now) tokens.now))) }
{
    let text = Text::new(bytes);
    let (tables, _) = statements(alloc, &text, &Rest::new(bytes, tokens))?;
    linked_tables(alloc, tables)
}
