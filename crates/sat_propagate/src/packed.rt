//! Literals in four bytes.
ghost use Rattle.std.specs.Prelude.{◌≡◌, ◌<◌, ◌+◌, ◌*◌, ◌^◌, IfOk};
ghost use Rattle.sat_base.specs.Literal.{negated, same_literal};
ghost use Rattle.sat_laws.specs.Internal.Packing.{packed};

use sat_base::{SatLit, Var};
use std::alloc::AllocError;
use std::marker::Model;

/// A literal in four bytes: twice its variable's number, and one more where it is positive.
#[derive(Clone, Copy)]
pub struct Packed {
    code: u32,
}

impl Model for Packed {
    ghost use Rattle.std.proofs.Common.{ap};
    ghost use Rattle.sat_base.specs.declared.literal.SatLit.{SatLit};
    ghost use Rattle.sat_laws.specs.Internal.Packing.{packed, unpacked};
    ghost use Rattle.sat_laws.proofs.PackingLaws.{packed-unpacked};

    ghost Value = { SatLit };

    ghost view = { λ p. unpacked p.code };

    ghost inverse = { λ l. record { code = packed l } };

    ghost inverse_ok = { λ p _. ap (λ n. record { code = n }) (packed-unpacked p.code) };
}

// Variables from this number on have no packed literals.
const VARIABLES: usize = 1 << 31;

impl Packed {
    /// The literal in four bytes. There is no room for variables from 2^31 on.
    pub fn of(literal: SatLit) -> Result<Packed, AllocError>
        ensures { IfOk result (λ packed. packed ≡ literal) }
    {
        if literal.var.0 >= VARIABLES {
            return Err(AllocError);
        }
        let sign = if literal.positive { 1 } else { 0 };
        Ok(Packed {
            code: literal.var.0 as u32 * 2 + sign,
        })
    }

    /// The literal.
    pub fn literal(self) -> SatLit
        ensures { result ≡ self }
    {
        SatLit {
            var: Var((self.code / 2) as usize),
            positive: self.code % 2 == 1,
        }
    }

    /// Whether two literals are one.
    pub fn is(self, other: Packed) -> bool
        ensures { result ≡ same_literal self other }
    {
        self.code == other.code
    }

    /// The literal as a number.
    pub fn number(self) -> usize
        ensures { result ≡ packed self }
    {
        self.code as usize
    }

    /// The literal on the same variable with the other sign.
    pub fn negated(self) -> Packed
        ensures { result ≡ negated self }
    {
        let sign = self.code % 2;
        Packed {
            code: self.code - sign + (1 - sign),
        }
    }
}

/// The number of a literal as it is packed.
pub fn number_of(literal: SatLit) -> usize
    requires { literal.var.0 * 2 + 1 < 2 ^ 64 }
    ensures { result ≡ packed literal }
{
    if literal.positive {
        literal.var.0 * 2 + 1
    } else {
        literal.var.0 * 2
    }
}

/// A number in four bytes.
pub fn narrow(n: usize) -> Result<u32, AllocError>
    ensures { IfOk result (λ m. m ≡ n) }
{
    if n > u32::MAX as usize {
        return Err(AllocError);
    }
    Ok(n as u32)
}
