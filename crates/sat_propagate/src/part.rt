//! Whether the literals of a clause are among those of another one.
ghost use Rattle.std.specs.Prelude.{◌≡◌, ◌≤◌, ◌⊎◌, IsTrue, false, length};
ghost use Rattle.sat_base.specs.declared.literal.SatLit.{SatLit};
ghost use Rattle.sat_base.specs.Literal.{holds};
ghost use Rattle.sat_laws.specs.Internal.Complete.{IsClausePart};

use crate::packed::Packed;

/// Whether the literals of a clause are among those of another one that has more.
pub fn is_proper_part(part: &[Packed], clause: &[Packed]) -> bool
    ensures among { IsTrue result → IsClausePart part.now clause.now }
    ensures more { IsTrue result → (l : SatLit) × IsTrue (holds clause.now l) × (holds part.now l ≡ false) }
    ensures longer { result ≡ false → IsClausePart part.now clause.now
        → (length clause.now ≤ length part.now) ⊎ IsClausePart clause.now part.now }
{
    part.len() < clause.len() && are_among(part, clause) && !are_among(clause, part)
}

/// Whether the literals of a clause are among those of another one.
fn are_among(some: &[Packed], clause: &[Packed]) -> bool
    ensures among { IsTrue result → IsClausePart some.now clause.now }
    ensures more { result ≡ false → (l : SatLit) × IsTrue (holds some.now l) × (holds clause.now l ≡ false) }
{
    for literal in some {
        if !is_among(*literal, clause) {
            return false;
        }
    }
    true
}

fn is_among(literal: Packed, clause: &[Packed]) -> bool
    ensures { result ≡ holds clause.now literal }
{
    for other in clause {
        if literal.is(*other) {
            return true;
        }
    }
    false
}
