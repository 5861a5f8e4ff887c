//! Quoted names and distinct objects.
ghost use Rattle.std.specs.Prelude.{◌≡◌, ◌≢◌, ℕ, ◌<◌, ◌≤◌, length, take, slice_index, IfSome, IfNone};
ghost use Rattle.thf_grammar.specs.Bytes.{backslash};
ghost use Rattle.thf_grammar.specs.Texts.{IsQuotedBy};

use crate::bytes::{is_escaped, is_plain};

/// How many bytes the text between two quotes takes, the quotes among them, if it has a character,
/// holds nothing but characters and is closed.
pub fn quoted_len(bytes: &[u8], quote: u8) -> Option<usize>
    requires some { 0 < length bytes.now }
    requires opened { slice_index bytes.now 0 ≡ quote }
    requires apart { quote ≢ backslash }
    ensures within { IfSome result (λ n. n ≤ length bytes.now) }
    ensures quoted { IfSome result (λ n. IsQuotedBy quote (take n bytes.now)) }
    ensures longest { IfSome result (λ n. (m : ℕ) → m ≤ length bytes.now → IsQuotedBy quote (take m bytes.now) → m ≤ n) }
    ensures none { IfNone result ((m : ℕ) → IsQuotedBy quote (take m bytes.now) → ⊥) }
{
    let mut at = 1;
    while at < bytes.len() {
        let byte = bytes[at];
        if byte == quote {
            return if at == 1 { None } else { Some(at + 1) };
        }
        if is_plain(quote, byte) {
            at += 1;
        } else if byte == b'\\' && at + 1 < bytes.len() && is_escaped(quote, bytes[at + 1]) {
            at += 2;
        } else {
            return None;
        }
    }
    None
}
