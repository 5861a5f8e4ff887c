//! Variables and literals.
ghost use Rattle.std.specs.Prelude.{◌≡◌};

/// A propositional variable, by its number from 0.
#[derive(Clone, Copy, Default, PartialEq, Eq, PartialOrd, Ord, Hash)]
pub struct Var(pub usize);

/// A variable or its negation.
#[derive(Clone, Copy, Default, PartialEq, Eq, PartialOrd, Ord, Hash)]
pub struct SatLit {
    pub var: Var,
    pub positive: bool,
}

impl SatLit {
    ghost use Rattle.sat_base.specs.Literal.{negated};

    /// The literal on the same variable with the other sign.
    pub fn negated(self) -> Self
        ensures { result ≡ negated self }
    {
        SatLit {
            var: self.var,
            positive: !self.positive,
        }
    }
}
