//! The connective at a formula's head.

ghost use Rattle.std.specs.Prelude.{◌≡◌};
ghost use Rattle.stt_core.specs.View.{the_head};
ghost use Rattle.tableau_calculus.specs.Shape.{HasShape};
ghost use Rattle.tableau_calculus.specs.Internal.Heads.{connective_of};

use stt_core::{Head, Nf};

/// A connective of the calculus.
#[derive(Clone, Copy, PartialEq, Eq)]
pub enum Connective {
    False,
    Not,
    Imp,
}

/// A canonical term by the connective at its head, with the connective's arguments.
#[derive(Drop)]
pub enum Shape<'a> {
    False,
    Not(&'a Nf),
    Imp(&'a Nf, &'a Nf),
    Other,
}

fn head_connective(head: &Head) -> Option<Connective>
    ensures { result ≡ connective_of (the_head head.now) }
{
    match head {
        Head::Bound(_) => None,
        Head::Name(_) => None,
        Head::Wit(_) => None,
        Head::False => Some(Connective::False),
        Head::Not => Some(Connective::Not),
        Head::Imp => Some(Connective::Imp),
        Head::All(_) => None,
        Head::Eq(_) => None,
        Head::Choice(_) => None,
        Head::Desc(_) => None,
    }
}

/// The shape of a canonical term.
pub fn shape_of(nf: &Nf) -> Shape<'_>
    ensures { HasShape result nf.now }
{
    if nf.binders.len() > 0 {
        return Shape::Other;
    }
    match head_connective(&nf.head) {
        Some(Connective::False) => {
            if nf.args.len() == 0 {
                Shape::False
            } else {
                Shape::Other
            }
        }
        Some(Connective::Not) => {
            if nf.args.len() == 1 {
                Shape::Not(nf.args.at(0))
            } else {
                Shape::Other
            }
        }
        Some(Connective::Imp) => {
            if nf.args.len() == 2 {
                Shape::Imp(nf.args.at(0), nf.args.at(1))
            } else {
                Shape::Other
            }
        }
        None => Shape::Other,
    }
}
