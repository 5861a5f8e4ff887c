//! Whether the two sides of a problem's conjecture are convertible.

ghost use Rattle.std.specs.Prelude.{◌≡◌, IfOk, option_map};
ghost use Rattle.stt_core.specs.View.{the_term};
ghost use Rattle.stt_core.specs.TypedProblem.{IsTyped};
ghost use Rattle.conv_laws.specs.Sides.{AreSidesOf};
ghost use Rattle.conv_laws.specs.Internal.Equation.{sides_of};

use crate::conversion::convertible;
use std::alloc::{AllocError, Global};
use stt_core::{Problem, Term};

/// What is said of the two sides of a conjecture.
#[derive(Clone, Copy, PartialEq, Eq)]
pub enum Sides {
    /// They are convertible.
    Same,
    /// They aren't.
    Different,
    /// There is no conjecture, or it is no equation.
    NoEquation,
}

/// An equation between terms.
#[derive(Drop)]
struct Equation<'a> {
    left: &'a Term,
    right: &'a Term,
}

/// The sides of a term that is an equation.
fn as_equation(term: &Term) -> Option<Equation>
    ensures { option_map (λ e. (the_term e.left.now, the_term e.right.now)) result ≡ sides_of (the_term term.now) }
{
    match term {
        Term::App(front, right) => match &**front {
            Term::App(equality, left) => match &**equality {
                Term::Eq(_) => Some(Equation {
                    left: &**left,
                    right: &**right,
                }),
                _ => None,
            },
            _ => None,
        },
        _ => None,
    }
}

/// Whether the two sides of a typed problem's conjecture are convertible.
pub fn compare_sides(alloc: Global, problem: &Problem) -> Result<Sides, AllocError>
    requires { IsTyped problem.now }
    ensures { IfOk result (λ sides. AreSidesOf problem.now sides) }
{
    match &problem.conjecture {
        None => Ok(Sides::NoEquation),
        Some(conjecture) => match as_equation(conjecture) {
            None => Ok(Sides::NoEquation),
            Some(equation) => {
                let sig = &problem.signature;
                if convertible(alloc, sig, equation.left, equation.right)? {
                    Ok(Sides::Same)
                } else {
                    Ok(Sides::Different)
                }
            }
        },
    }
}
