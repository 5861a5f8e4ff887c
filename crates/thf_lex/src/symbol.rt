//! Symbols.
ghost use Rattle.std.specs.Prelude.{◌≡◌, ◌↔◌, ℕ, ◌<◌, ◌≤◌, [], ◌∷◌, length, take, IsTrue};
ghost use Rattle.thf_grammar.specs.Texts.{is_symbol};
ghost use Rattle.thf_lex.specs.Internal.Symbols.{BeginsWithSymbol};

/// How many bytes the longest symbol at the front takes, or 0 where there is none.
pub fn symbol_len(bytes: &[u8]) -> usize
    ensures within { result ≤ length bytes.now }
    ensures symbol { 0 < result → IsTrue (is_symbol (take result bytes.now)) }
    ensures longest { (m : ℕ) → m ≤ length bytes.now → IsTrue (is_symbol (take m bytes.now)) → m ≤ result }
{
    if begins_with_triple(bytes) {
        3
    } else if begins_with_pair(bytes) {
        2
    } else if begins_with_single(bytes) {
        1
    } else {
        0
    }
}

fn begins_with_triple(bytes: &[u8]) -> bool
    ensures { IsTrue result ↔ BeginsWithSymbol 3 bytes.now }
{
    match bytes {
        [a, b, c, ..] => is_triple(*a, *b, *c),
        _ => false,
    }
}

fn begins_with_pair(bytes: &[u8]) -> bool
    ensures { IsTrue result ↔ BeginsWithSymbol 2 bytes.now }
{
    match bytes {
        [a, b, ..] => is_pair(*a, *b),
        _ => false,
    }
}

fn begins_with_single(bytes: &[u8]) -> bool
    ensures { IsTrue result ↔ BeginsWithSymbol 1 bytes.now }
{
    match bytes {
        [a, ..] => is_single(*a),
        _ => false,
    }
}

fn is_triple(a: u8, b: u8, c: u8) -> bool
    ensures { result ≡ is_symbol (a ∷ b ∷ c ∷ []) }
{
    matches!((a, b, c), (b'<', b'=' | b'~', b'>'))
}

fn is_pair(a: u8, b: u8) -> bool
    ensures { result ≡ is_symbol (a ∷ b ∷ []) }
{
    matches!(
        (a, b),
        (b'=', b'>')
            | (b'<', b'=')
            | (b'~', b'|' | b'&')
            | (b'!', b'=' | b'!')
            | (b'?', b'?')
            | (b'@', b'+' | b'-')
    )
}

fn is_single(a: u8) -> bool
    ensures { result ≡ is_symbol (a ∷ []) }
{
    matches!(
        a,
        b'(' | b')'
            | b'['
            | b']'
            | b','
            | b'.'
            | b':'
            | b'>'
            | b'~'
            | b'&'
            | b'|'
            | b'='
            | b'!'
            | b'?'
            | b'^'
            | b'@'
    )
}
