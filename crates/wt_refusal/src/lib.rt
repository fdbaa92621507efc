//! Where a statement's refusal stands among the sentences of the grammar. A law is the contract of a function that does
//! nothing.
#![tactic(auto)]

ghost use Rattle.std.specs.Prelude.{◌≡◌, ℕ, List, true, map, slice_get, Some, Ok, Err};
ghost use Rattle.wt_lex.specs.Sound.{InOrder};
ghost use Rattle.wt_reading.specs.Lexemes.{Tokens};
ghost use Rattle.wt_grammar.specs.Reading.{Refusal, refused, statement};
ghost use Rattle.wt_grammar.specs.Statements.{File, Statement, answer, file_of};
ghost use Rattle.wt_reading.specs.Lexemes.{lexeme};
ghost use Rattle.wt_grammar.specs.declared.fault.QueryFault.{QueryFault};
ghost use Rattle.wt_viable.specs.Sentences.{Parts};
ghost use Rattle.wt_refusal.specs.Refused.{Ends, StandsAt, is_of_grammar};

/// With the token of a refusal no sentence of the grammar goes on: the tokens before it and it begin none.
pub fn no_sentence_goes_on_with_a_refusal()
    ensures { (end : ℕ) (bytes : List ℕ) (ts : Tokens) (why : Refusal) (at : ℕ) → statement end bytes ts ≡ Err (why, at)
        → Parts end bytes (Ends end bytes why) ts at }
{}

/// Of tokens that stand in order, as those of a text do, a refusal's place is where both hold.
pub fn where_a_refusal_stands()
    ensures { (end : ℕ) (bytes : List ℕ) (ts : Tokens) (why : Refusal) (at : ℕ) → InOrder 0 end (map (λ t. t.token) ts)
        → statement end bytes ts ≡ Err (why, at) → StandsAt end bytes why ts at }
{}

/// A statement of a file that its grammar refuses is refused there.
pub fn where_a_statement_of_a_file_is_refused()
    ensures { (bytes : List ℕ) (file : File) (n : ℕ) (s : Statement) (f : QueryFault) (at : ℕ) → file_of bytes ≡ Ok file
        → slice_get file.statements n ≡ Some s → is_of_grammar f ≡ true → answer bytes s ≡ Err (refused f, at)
        → StandsAt s.end bytes (refused f) (map (lexeme bytes) s.tokens) at }
{}
