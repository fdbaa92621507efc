//! The grammar of statements as a relation, and the laws that tie reading from left to right to it. A law is the contract
//! of a function that does nothing.
#![tactic(auto)]

ghost use Rattle.std.specs.Prelude.{◌≡◌, ℕ, List, length, map, slice_get, Ok, Some};
ghost use Rattle.wt_lex.specs.declared.token.Token.{Token};
ghost use Rattle.wt_ast.specs.Tree.{QueryTree};
ghost use Rattle.wt_reading.specs.Lexemes.{lexeme};
ghost use Rattle.wt_reading.specs.Lexemes.{Tokens};
ghost use Rattle.wt_grammar.specs.Reading.{statement};
ghost use Rattle.wt_ast.specs.Lawful.{IsLawful};
ghost use Rattle.wt_grammar.specs.Statements.{File, Statement, answer, file_of};
ghost use Rattle.wt_sentence.specs.Grammar.{IsStatement};

/// What is read of a statement's tokens is a sentence of the grammar, with its value, and all of them.
pub fn what_is_read_is_a_sentence()
    ensures { (end : ℕ) (bytes : List ℕ) (tokens : List Token) (q : QueryTree) (n : ℕ) → statement end bytes (map (lexeme bytes) tokens) ≡ Ok (q, n)
        → IsStatement end bytes q (map (lexeme bytes) tokens) }
{}

/// Every sentence of the grammar is read, with its value, and whole. So no tokens are sentences with two values.
pub fn every_sentence_is_read()
    ensures { (end : ℕ) (bytes : List ℕ) (q : QueryTree) (ts : Tokens) → IsStatement end bytes q ts → statement end bytes ts ≡ Ok (q, length ts) }
{}

/// What a statement of a file is read to is a lawful tree.
pub fn a_statement_that_is_read_is_lawful()
    ensures { (bytes : List ℕ) (file : File) (n : ℕ) (s : Statement) (q : QueryTree) → file_of bytes ≡ Ok file → slice_get file.statements n ≡ Some s
        → answer file.bytes s ≡ Ok q → IsLawful q }
{}
