//! The tokens before a refusal are a viable prefix of the grammar. A law is the contract of a function that does nothing.
#![tactic(auto)]

ghost use Rattle.std.specs.Prelude.{◌≡◌, ℕ, List, Err};
ghost use Rattle.wt_reading.specs.Lexemes.{Tokens};
ghost use Rattle.wt_grammar.specs.Reading.{Refusal, statement};
ghost use Rattle.wt_viable.specs.Sentences.{BeginsSome, Parts};

/// The tokens before a refusal begin a sentence of the grammar.
pub fn what_stands_before_a_refusal_begins_a_sentence()
    ensures { (end : ℕ) (bytes : List ℕ) (ts : Tokens) (why : Refusal) (at : ℕ) → statement end bytes ts ≡ Err (why, at)
        → Parts end bytes (λ before behind. BeginsSome end bytes before) ts at }
{}
