//! The laws that the grammar of schemas has with their reading: what the grammar derives is read. A law is the contract of a
//! function that does nothing.
#![tactic(auto)]

ghost use Rattle.std.specs.Prelude.{◌≡◌, ℕ, List, true, IfErr};
ghost use Rattle.wt_schema.specs.declared.schema.Table.{Table};
ghost use Rattle.wt_ddl.specs.Grammar.{IsSentence, IsText};
ghost use Rattle.wt_ddl.specs.Schemas.{schema_of};
ghost use Rattle.wt_ddl_sentence.specs.Faults.{is_of_names, IsOrNames};

/// Every sentence of the grammar is read, or refused for its names and their numbers. So a text that is refused for its
/// grammar is no sentence of it.
pub fn every_sentence_is_read_or_refused_for_names()
    ensures { (bytes : List ℕ) → IsSentence bytes → IfErr (schema_of bytes) (λ e. is_of_names e.0 ≡ true) }
{}

/// A sentence of some tables is read as these, or refused for names that stand twice or for how many they are. So no text
/// is read as other tables than those of its sentence.
pub fn every_sentence_of_tables_is_read_as_them()
    ensures { (bytes : List ℕ) (tables : List Table) → IsText bytes tables → IsOrNames tables (schema_of bytes) }
{}
