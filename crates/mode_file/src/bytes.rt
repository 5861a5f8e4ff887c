//! Bytes by lines and by prefixes.
ghost use Rattle.std.specs.Prelude.{◌≡◌, ◌<◌, ◌≤◌, [], ◌∷◌, length, IfSome, IfNone};
ghost use Rattle.outside.specs.Lines.{lines_of};
ghost use Rattle.outside.specs.Fronts.{front, behind_front};
ghost use Rattle.mode_file.specs.Lines.{IsCutBefore};
ghost use Rattle.mode_file.specs.Internal.Fronts.{is_in};

/// A kind of bytes.
#[derive(Clone, Copy)]
pub(crate) enum ByteClass {
    /// All but line feeds.
    InLine,
    /// All but spaces, tabs and carriage returns.
    InWord,
    Space,
    Digit,
}

impl ByteClass {
    fn has(self, byte: u8) -> bool
        ensures { result ≡ is_in self byte }
    {
        match self {
            ByteClass::InLine => byte != b'\n',
            ByteClass::InWord => byte != b' ' && byte != b'\t' && byte != b'\r',
            ByteClass::Space => byte == b' ',
            ByteClass::Digit => byte.is_ascii_digit(),
        }
    }
}

/// A prefix of bytes, and what follows it.
#[derive(Clone, Copy, Drop)]
pub struct Split<'a> {
    pub front: &'a [u8],
    pub rest: &'a [u8],
}

/// The longest prefix whose bytes are all of a kind.
pub(crate) fn split_front(class: ByteClass, bytes: &[u8]) -> Split<'_>
    ensures front { result.front.now ≡ front (is_in class) bytes.now }
    ensures rest { result.rest.now ≡ behind_front (is_in class) bytes.now }
    ensures length { length result.rest.now ≤ length bytes.now }
{
    let mut end = 0;
    while end < bytes.len() && class.has(bytes[end]) {
        end += 1;
    }
    Split {
        front: &bytes[..end],
        rest: &bytes[end..],
    }
}

/// The first line, and what follows it.
pub fn next_line(bytes: &[u8]) -> Option<Split<'_>>
    ensures line { IfSome result (λ r. lines_of bytes.now ≡ r.front.now ∷ lines_of r.rest.now) }
    ensures cut { IfSome result (λ r. IsCutBefore bytes.now r.rest.now) }
    ensures shorter { IfSome result (λ r. length r.rest.now < length bytes.now) }
    ensures none { IfNone result (bytes.now ≡ []) }
{
    if bytes.is_empty() {
        return None;
    }
    let split = split_front(ByteClass::InLine, bytes);
    match split.rest {
        [] => Some(split),
        [_, rest @ ..] => Some(Split {
            front: split.front,
            rest,
        }),
    }
}
