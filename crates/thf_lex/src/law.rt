//! A law about the tokens of bytes.
ghost use Rattle.std.specs.Prelude.{◌≡◌, ℕ, List};
ghost use Rattle.thf_grammar.specs.declared.token.Token.{Token};
ghost use Rattle.thf_grammar.specs.Reading.{AreTokens};

/// Bytes have one list of tokens.
pub fn one_reading()
    ensures { (bytes : List ℕ) (one other : List Token) → AreTokens bytes one → AreTokens bytes other → one ≡ other }
{}
