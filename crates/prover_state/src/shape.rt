//! The shapes of formulas of a bank.
ghost use Rattle.std.specs.Prelude.{◌≡◌, ◌<◌, length, is_some, option_map};
ghost use Rattle.stt_core.specs.View.{the_head, the_type};
ghost use Rattle.tableau_calculus.specs.Internal.Heads.{equality_of, quantified_by};
ghost use Rattle.term_bank.specs.Terms.{term_at};
ghost use Rattle.search_spec.specs.Partners.{has_equal_sides};
ghost use Rattle.prover_state.specs.Internal.Shapes.{quantified_type};

use stt_core::{Head, Ty};
use term_bank::{Bank, Id, Node, equal_ids_for_equal_terms};

fn quantifier_type(head: &Head) -> Option<&Ty>
    ensures { option_map (λ ty. the_type ty.now) result ≡ quantified_by (the_head head.now) }
{
    match head {
        Head::Bound(_) => None,
        Head::Name(_) => None,
        Head::Wit(_) => None,
        Head::False => None,
        Head::Not => None,
        Head::Imp => None,
        Head::All(ty) => Some(ty),
        Head::Eq(_) => None,
        Head::Choice(_) => None,
        Head::Desc(_) => None,
    }
}

fn is_equality(head: &Head) -> bool
    ensures { result ≡ is_some (equality_of (the_head head.now)) }
{
    match head {
        Head::Bound(_) => false,
        Head::Name(_) => false,
        Head::Wit(_) => false,
        Head::False => false,
        Head::Not => false,
        Head::Imp => false,
        Head::All(_) => false,
        Head::Eq(_) => true,
        Head::Choice(_) => false,
        Head::Desc(_) => false,
    }
}

/// The type over which a formula ranges, where it is quantified.
pub fn quantified_type(bank: &Bank, id: Id) -> Option<&Ty>
    requires { id < length bank.now.terms }
    ensures { option_map (λ ty. the_type ty.now) result ≡ quantified_type (term_at bank.now.terms id) }
{
    match bank.node(id) {
        Node::App { head, args } => {
            if args.len() != 1 {
                return None;
            }
            quantifier_type(head)
        }
        Node::Lam { ty: _, body: _ } => None,
    }
}

/// Whether a formula is an equation with equal sides.
pub fn has_equal_sides(bank: &Bank, id: Id) -> bool
    requires { id < length bank.now.terms }
    ensures { result ≡ has_equal_sides (term_at bank.now.terms id) }
{
    equal_ids_for_equal_terms(bank);
    match bank.node(id) {
        Node::App { head, args } => {
            if args.len() != 2 {
                return false;
            }
            if !is_equality(head) {
                return false;
            }
            args.at(0) == args.at(1)
        }
        Node::Lam { ty: _, body: _ } => false,
    }
}
