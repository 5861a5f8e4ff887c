//! Comments in `/*` and `*/`.
ghost use Rattle.std.specs.Prelude.{◌≡◌, ℕ, ◌≤◌, length, take, IfSome, IfNone};
ghost use Rattle.thf_grammar.specs.Texts.{IsBlockComment};

/// How many bytes the comment at the front takes, if it is closed.
pub fn block_comment_len(bytes: &[u8]) -> Option<usize>
    ensures within { IfSome result (λ n. n ≤ length bytes.now) }
    ensures comment { IfSome result (λ n. IsBlockComment (take n bytes.now)) }
    ensures none { IfNone result ((m : ℕ) → IsBlockComment (take m bytes.now) → ⊥) }
{
    if !bytes.starts_with(b"/*") {
        return None;
    }
    for at in 2..bytes.len() - 1 {
        if bytes[at] == b'*' && bytes[at + 1] == b'/' {
            return Some(at + 2);
        }
    }
    None
}
