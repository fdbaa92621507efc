//! The laws that tie cutting a text into tokens to how tokens are spelled. A law is the contract of a function that does
//! nothing.
ghost use Rattle.std.specs.Prelude.{◌≡◌, ◌++◌, ◌-◌, ◌<◌, ◌≤◌, ◌^◌, ℕ, List, [], length, decimal, true, None, Ok, Err};
ghost use Rattle.std.specs.Char.{is_ascii_digit};
ghost use Rattle.std.specs.Str.{IsUtf8};
ghost use Rattle.wt_lex.specs.declared.token.LexFault.TheVariants.{OpenQuote};
ghost use Rattle.wt_lex.specs.declared.token.Token.{Token};
ghost use Rattle.wt_lex.specs.declared.token.TokenKind.TheVariants.{Word, Quoted, Number, Text};
ghost use Rattle.wt_lex.specs.Fronts.{spoils};
ghost use Rattle.wt_lex.specs.Names.{name_bytes, text_bytes, keyword};
ghost use Rattle.wt_lex.specs.Spelling.{Piece, FallsInto, Joined, IsOpen, IsItem, EndsBefore, goes_on_word, quoted, token, tokens_at, all_written};
ghost use Rattle.wt_lex.specs.Tokens.{lexed};
ghost use Rattle.wt_lex.specs.Words.{is_bare};

/// A text that has tokens falls into gaps and tokens as they are spelled, and these are its tokens.
pub fn tokens_are_spelled()
    ensures { (bytes : List ℕ) (ts : List Token) → lexed bytes ≡ Ok ts → (ps : List Piece) × FallsInto ps [] bytes × (ts ≡ tokens_at 0 ps) }
{}

/// A text that falls into gaps and tokens as they are spelled has these tokens and no others.
pub fn what_is_spelled_is_cut()
    ensures { (bytes : List ℕ) (ps : List Piece) → length bytes ≤ 2 ^ 24 → IsUtf8 bytes → FallsInto ps [] bytes → lexed bytes ≡ Ok (tokens_at 0 ps) }
{}

/// A text that falls into gaps and tokens up to a quote or comment that is not closed is refused there, and only such a
/// text is refused for that.
pub fn what_is_open_is_refused()
    ensures refused { (bytes : List ℕ) (left : List ℕ) (ps : List Piece) → length bytes ≤ 2 ^ 24 → IsUtf8 bytes → FallsInto ps left bytes → IsOpen left
        → lexed bytes ≡ Err (OpenQuote, length bytes - length left) }
    ensures open { (bytes : List ℕ) (at : ℕ) → lexed bytes ≡ Err (OpenQuote, at)
        → (ps : List Piece) × (left : List ℕ) × FallsInto ps left bytes × IsOpen left × (at ≡ length bytes - length left) }
{}

/// Pieces each of which may stand before the next are what they fall into, when they are written one behind another.
pub fn pieces_come_back()
    ensures { (ps : List Piece) → Joined ps → FallsInto ps [] (all_written ps) }
{}

/// A name that may be written without quotes is a word where nothing goes on with it, stands for itself, and is no
/// reserved word.
pub fn bare_names_come_back()
    ensures word { (name : List ℕ) (rest : List ℕ) → is_bare name ≡ true → EndsBefore goes_on_word rest → IsItem Word name rest }
    ensures name { (before : List ℕ) (name : List ℕ) (rest : List ℕ) → is_bare name ≡ true
        → name_bytes (before ++ (name ++ rest)) (token Word (length before) (length name)) ≡ name }
    ensures free { (before : List ℕ) (name : List ℕ) (rest : List ℕ) → is_bare name ≡ true
        → keyword (before ++ (name ++ rest)) (token Word (length before) (length name)) ≡ None }
{}

/// A name in quotes stands for what was quoted.
pub fn quoted_names_come_back()
    ensures { (before : List ℕ) (name : List ℕ) (rest : List ℕ)
        → name_bytes (before ++ (quoted 34 name ++ rest)) (token Quoted (length before) (length (quoted 34 name))) ≡ name }
{}

/// A text in quotes has the content that was quoted.
pub fn texts_come_back()
    ensures { (before : List ℕ) (text : List ℕ) (rest : List ℕ)
        → text_bytes (before ++ (quoted 39 text ++ rest)) (token Text (length before) (length (quoted 39 text))) ≡ text }
{}

/// A number is its decimal, where nothing stands behind that goes on with it or spoils it.
pub fn numbers_come_back()
    ensures { (n : ℕ) (rest : List ℕ) → n ≤ 2 ^ 63 → EndsBefore is_ascii_digit rest → EndsBefore spoils rest → IsItem (Number n) (decimal n) rest }
{}
