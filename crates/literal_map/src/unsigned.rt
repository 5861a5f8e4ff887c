//! The atom and the sign of a formula.
ghost use Rattle.std.specs.Prelude.{◌≡◌, ◌↔◌, ◌<◌, length, false, IsTrue};
ghost use Rattle.tableau_calculus.specs.Literals.{as_literal, is_negated};
ghost use Rattle.term_bank.specs.Terms.{term_at};
ghost use Rattle.term_bank.specs.NodeView.{the_shape};
ghost use Rattle.stt_core.specs.Lambda.{constant, negation};
ghost use Rattle.stt_core.specs.View.{the_head};
ghost use Rattle.literal_map.specs.Internal.Denied.{IsDenied, IsOnly};

use stt_core::Head;
use term_bank::{Bank, Id, Ids, Node};

/// A formula that isn't a negation, by its number, with a sign.
#[derive(Clone, Copy, PartialEq, Eq)]
pub struct SignedAtom {
    pub atom: Id,
    pub positive: bool,
}

fn is_negation(head: &Head) -> bool
    ensures { IsTrue result ↔ (the_head head.now ≡ constant negation) }
{
    match head {
        Head::Not => true,
        Head::Bound(_) => false,
        Head::Name(_) => false,
        Head::Wit(_) => false,
        Head::False => false,
        Head::Imp => false,
        Head::All(_) => false,
        Head::Eq(_) => false,
        Head::Choice(_) => false,
        Head::Desc(_) => false,
    }
}

/// The number of a list that has no other one.
fn only_one(ids: &Ids) -> Option<Id>
    ensures { IsOnly ids.now result }
{
    if ids.len() == 1 {
        Some(ids.at(0))
    } else {
        None
    }
}

/// The formula that the node negates, where it is a negation.
fn negated(node: &Node) -> Option<Id>
    ensures { IsDenied (the_shape node.now) result }
{
    match node {
        Node::App { head, args } => {
            if is_negation(head) {
                only_one(args)
            } else {
                None
            }
        }
        Node::Lam { ty: _, body: _ } => None,
    }
}

/// The formula without its outer negations, each of which changes the sign. There may be as many of them as there is memory for.
pub fn atom_of(bank: &Bank, formula: Id) -> SignedAtom
    requires { formula < length bank.now.terms }
    ensures literal { record { positive = result.positive; atom = term_at bank.now.terms result.atom } ≡ as_literal
        (term_at bank.now.terms formula) }
    ensures within { result.atom < length bank.now.terms }
    ensures unsigned { is_negated (term_at bank.now.terms result.atom) ≡ false }
{
    let mut atom = formula;
    let mut positive = true;
    while let Some(inner) = negated(bank.node(atom)) {
        atom = inner;
        positive = !positive;
    }
    SignedAtom { atom, positive }
}
