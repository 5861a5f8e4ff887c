//! The heads that fill holes, and their numbers.
ghost use Rattle.std.specs.Prelude.{◌≡◌, ◌<◌, ◌+◌, ◌*◌};
ghost use Rattle.stt_core.specs.View.{the_head};
ghost use Rattle.prover_state.specs.Internal.HeadNumbers.{head_numbered, IsHeadNumber};
ghost use Rattle.prover_state.specs.Internal.Heads.{the_hole_head};

use stt_core::{Head, Ty};

/// A head that fits a hole of some base type: a variable, a name, a witness, or a constant of the logic, where the quantifiers, the
/// equalities and the choices are those of base types.
#[derive(Clone, Copy, PartialEq, Eq)]
pub enum HoleHead {
    Bound(u32),
    Name(u32),
    Wit(u32),
    All(u32),
    Eq(u32),
    Choice(u32),
    False,
    Not,
    Imp,
}

/// How many kinds of heads there are.
const KINDS: usize = 9;

/// The head.
pub fn head_of(head: HoleHead) -> Head
    ensures { the_head result ≡ the_hole_head head }
{
    match head {
        HoleHead::Bound(k) => Head::Bound(k),
        HoleHead::Name(k) => Head::Name(k),
        HoleHead::Wit(k) => Head::Wit(k),
        HoleHead::All(b) => Head::All(Ty::Base(b)),
        HoleHead::Eq(b) => Head::Eq(Ty::Base(b)),
        HoleHead::Choice(b) => Head::Choice(Ty::Base(b)),
        HoleHead::False => Head::False,
        HoleHead::Not => Head::Not,
        HoleHead::Imp => Head::Imp,
    }
}

/// The number of the head of a kind.
fn number_of_kind(kind: usize, k: u32) -> usize
    requires { kind < 9 }
    ensures number { result ≡ k * 9 + kind }
    ensures within { IsHeadNumber result }
{
    k as usize * KINDS + kind
}

/// The place of a head in the list of all heads, in which the kinds take turns.
pub fn number_of(head: HoleHead) -> usize
    ensures head { head_numbered result ≡ the_hole_head head }
    ensures number { IsHeadNumber result }
{
    match head {
        HoleHead::Bound(k) => number_of_kind(0, k),
        HoleHead::Name(k) => number_of_kind(1, k),
        HoleHead::Wit(k) => number_of_kind(2, k),
        HoleHead::All(b) => number_of_kind(3, b),
        HoleHead::Eq(b) => number_of_kind(4, b),
        HoleHead::Choice(b) => number_of_kind(5, b),
        HoleHead::False => number_of_kind(6, 0),
        HoleHead::Not => number_of_kind(7, 0),
        HoleHead::Imp => number_of_kind(8, 0),
    }
}

/// The head at a place of the list of all heads.
pub fn numbered_head(h: usize) -> HoleHead
    requires { IsHeadNumber h }
    ensures { the_hole_head result ≡ head_numbered h }
{
    let k = (h / KINDS) as u32;
    match h % KINDS {
        0 => HoleHead::Bound(k),
        1 => HoleHead::Name(k),
        2 => HoleHead::Wit(k),
        3 => HoleHead::All(k),
        4 => HoleHead::Eq(k),
        5 => HoleHead::Choice(k),
        6 => HoleHead::False,
        7 => HoleHead::Not,
        _ => HoleHead::Imp,
    }
}
