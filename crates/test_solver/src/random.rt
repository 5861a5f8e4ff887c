//! Pseudo-random numbers and clauses.
ghost use Rattle.std.specs.Prelude.{◌<◌};

use sat_base::{Clause, SatLit, Var};
use std::alloc::{AllocError, Global};

/// Pseudo-random numbers by a linear congruence (Knuth, The Art of Computer Programming, volume 2).
#[derive(Debug, Drop)]
pub struct Random {
    pub state: u64,
}

impl Random {
    pub fn below(&mut self, limit: u64) -> u64
        requires { 0 < limit }
        ensures { result < limit }
    {
        let next = self
            .state
            .wrapping_mul(6_364_136_223_846_793_005)
            .wrapping_add(1_442_695_040_888_963_407);
        self.state = next;
        (next >> 33) % limit
    }
}

pub fn literal(var: usize, positive: bool) -> SatLit {
    SatLit {
        var: Var(var),
        positive,
    }
}

/// A clause of one to four literals over so many variables, each of them there once at most.
pub fn random_clause(
    alloc: Global,
    random: &mut Random,
    variables: usize,
) -> Result<Clause, AllocError>
    requires { 0 < variables }
{
    let mut clause = Clause::new(alloc);
    for _ in 0..1 + random.below(4) {
        let var = random.below(variables as u64) as usize;
        if !clause.iter().any(|l| l.var.0 == var) {
            clause.push(literal(var, random.below(2) == 0))?;
        }
    }
    Ok(clause)
}
