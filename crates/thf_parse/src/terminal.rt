//! The terminals of tokens.
ghost use Rattle.std.specs.Prelude.{◌≡◌, [], ◌∷◌};
ghost use Rattle.thf_grammar.specs.Terminals as spec;

use thf_grammar::{Binder, Conn, Mark, Terminal, TokenKind};

/// The terminal of a token with this kind and text.
pub fn terminal_of(kind: TokenKind, text: &[u8]) -> Terminal
    ensures { result ≡ spec.of_kind kind text.now }
{
    match kind {
        TokenKind::Lower => Terminal::Lower,
        TokenKind::Upper => Terminal::Upper,
        TokenKind::Quoted => Terminal::Quoted,
        TokenKind::Integer => Terminal::Integer,
        TokenKind::Distinct => Terminal::Distinct,
        TokenKind::Dollar => dollar_word(text),
        TokenKind::Symbol => symbol(text),
        TokenKind::End => Terminal::End,
        TokenKind::Bad => Terminal::Other,
    }
}

fn dollar_word(text: &[u8]) -> Terminal
    ensures { result ≡ spec.dollar_word text.now }
{
    if text == b"$i".as_slice() || text == b"$iType".as_slice() {
        Terminal::Indiv
    } else if text == b"$o".as_slice() || text == b"$oType".as_slice() {
        Terminal::Form
    } else if text == b"$tType".as_slice() {
        Terminal::TypeOfTypes
    } else if text == b"$true".as_slice() {
        Terminal::Truth(true)
    } else if text == b"$false".as_slice() {
        Terminal::Truth(false)
    } else {
        Terminal::Other
    }
}

fn symbol(text: &[u8]) -> Terminal
    ensures { result ≡ spec.symbol text.now }
{
    match text {
        [a] => single(*a),
        [a, b] => pair(*a, *b),
        [a, b, c] => triple(*a, *b, *c),
        _ => Terminal::Other,
    }
}

fn single(a: u8) -> Terminal
    ensures { result ≡ spec.single a }
{
    match a {
        b'(' => Terminal::Mark(Mark::Open),
        b')' => Terminal::Mark(Mark::Close),
        b'[' => Terminal::Mark(Mark::OpenList),
        b']' => Terminal::Mark(Mark::CloseList),
        b',' => Terminal::Mark(Mark::Comma),
        b'.' => Terminal::Mark(Mark::Stop),
        b':' => Terminal::Mark(Mark::Colon),
        b'>' => Terminal::Mark(Mark::Arrow),
        b'@' => Terminal::Mark(Mark::At),
        b'~' => Terminal::Conn(Conn::Not),
        b'&' => Terminal::Conn(Conn::And),
        b'|' => Terminal::Conn(Conn::Or),
        b'=' => Terminal::Equality(true),
        b'!' => Terminal::Binder(Binder::All),
        b'?' => Terminal::Binder(Binder::Exists),
        b'^' => Terminal::Binder(Binder::Lam),
        _ => Terminal::Other,
    }
}

fn pair(a: u8, b: u8) -> Terminal
    ensures { result ≡ spec.pair a b }
{
    match (a, b) {
        (b'=', b'>') => Terminal::Conn(Conn::Imp),
        (b'<', b'=') => Terminal::Conn(Conn::If),
        (b'~', b'|') => Terminal::Conn(Conn::Nor),
        (b'~', b'&') => Terminal::Conn(Conn::Nand),
        (b'!', b'=') => Terminal::Equality(false),
        (b'!', b'!') => Terminal::Quant(true),
        (b'?', b'?') => Terminal::Quant(false),
        (b'@', b'+') => Terminal::Binder(Binder::Choice),
        (b'@', b'-') => Terminal::Binder(Binder::Desc),
        _ => Terminal::Other,
    }
}

fn triple(a: u8, b: u8, c: u8) -> Terminal
    ensures { result ≡ spec.triple a b c }
{
    match (a, b, c) {
        (b'<', b'=', b'>') => Terminal::Conn(Conn::Iff),
        (b'<', b'~', b'>') => Terminal::Conn(Conn::Xor),
        _ => Terminal::Other,
    }
}
