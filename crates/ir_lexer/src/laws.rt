//! Laws of tokens. Each is the contract of a function that does nothing.
ghost use Rattle.std.specs.Prelude.{◌≡◌, ◌⊎◌, ℕ, List, IsTrue};
ghost use Rattle.ir_lexer.specs.declared.token.Kind.{Kind};
ghost use Rattle.ir_lexer.specs.declared.token.Token.{Token};
ghost use Rattle.ir_lexer.specs.Spelled.{is_spelled};
ghost use Rattle.ir_lexer.specs.Tokens.{Tokens, IsBadByte, texts_of};
ghost use Rattle.ir_lexer.specs.Written.{Part, bytes_of, spellings_of, IsReadable};

/// A text has one list of tokens at most.
pub fn tokens_are_one()
    ensures { (bytes : List ℕ) (ts us : List Token) → Tokens bytes ts → Tokens bytes us → ts ≡ us }
{}

/// A text has one bad byte at most.
pub fn bad_byte_is_one()
    ensures { (bytes : List ℕ) (at other : ℕ) → IsBadByte bytes at → IsBadByte bytes other → at ≡ other }
{}

/// A text has tokens or a bad byte, and never both.
pub fn tokens_or_bad_byte()
    ensures one { (bytes : List ℕ) → ((ts : List Token) × Tokens bytes ts) ⊎ ((at : ℕ) × IsBadByte bytes at) }
    ensures never_both { (bytes : List ℕ) (ts : List Token) (at : ℕ) → Tokens bytes ts → IsBadByte bytes at → ⊥ }
{}

/// No bytes are tokens of two kinds.
pub fn kinds_are_apart()
    ensures { (kind other : Kind) (text : List ℕ) → IsTrue (is_spelled kind text) → IsTrue (is_spelled other text) → kind ≡ other }
{}

/// A text that is written token by token, with an end behind each, has these tokens.
pub fn written_is_read()
    ensures { (parts : List Part) → IsReadable parts →
        (ts : List Token) × Tokens (bytes_of parts) ts × (texts_of (bytes_of parts) ts ≡ spellings_of parts) }
{}
