//! Default terms, and the heads that choose a value.
ghost use Rattle.std.specs.Prelude.{◌≡◌, ◌<◌, length};
ghost use Rattle.stt_core.specs.View.{the_type, the_head};
ghost use Rattle.term_bank.specs.Terms.{term_at};
ghost use Rattle.search_spec.specs.Defaults.{is_value_type, is_value_choice, is_falsehood, holds_of_nothing, is_default_term};

use stt_core::{Head, Ty};
use term_bank::{Bank, Id, Node};

/// Whether a type is a base type other than that of formulas.
fn is_value_type(ty: &Ty) -> bool
    ensures { result ≡ is_value_type (the_type ty.now) }
{
    match ty {
        Ty::Base(n) => *n > 0,
        Ty::Arrow(_, _) => false,
    }
}

/// Whether a head is the choice on a base type other than that of formulas.
pub fn is_value_choice(head: &Head) -> bool
    ensures { result ≡ is_value_choice (the_head head.now) }
{
    match head {
        Head::Bound(_) => false,
        Head::Name(_) => false,
        Head::Wit(_) => false,
        Head::False => false,
        Head::Not => false,
        Head::Imp => false,
        Head::All(_) => false,
        Head::Eq(_) => false,
        Head::Choice(ty) => is_value_type(ty),
        Head::Desc(_) => false,
    }
}

/// Whether a head is falsity.
fn is_falsity(head: &Head) -> bool
    ensures { result ≡ is_falsehood (the_head head.now) }
{
    match head {
        Head::Bound(_) => false,
        Head::Name(_) => false,
        Head::Wit(_) => false,
        Head::False => true,
        Head::Not => false,
        Head::Imp => false,
        Head::All(_) => false,
        Head::Eq(_) => false,
        Head::Choice(_) => false,
        Head::Desc(_) => false,
    }
}

/// Whether a term is falsity.
fn is_falsehood(bank: &Bank, id: Id) -> bool
    requires { id < length bank.now.terms }
    ensures { result ≡ is_falsehood (term_at bank.now.terms id) }
{
    match bank.node(id) {
        Node::App { head, args } => {
            if args.len() != 0 {
                return false;
            }
            is_falsity(head)
        }
        Node::Lam { ty: _, body: _ } => false,
    }
}

/// Whether a term is a predicate that holds of nothing.
fn holds_of_nothing(bank: &Bank, id: Id) -> bool
    requires { id < length bank.now.terms }
    ensures { result ≡ holds_of_nothing (term_at bank.now.terms id) }
{
    match bank.node(id) {
        Node::App { head: _, args: _ } => false,
        Node::Lam { ty: _, body } => is_falsehood(bank, *body),
    }
}

/// Whether a term is the default one of its type.
pub fn is_default_term(bank: &Bank, id: Id) -> bool
    requires { id < length bank.now.terms }
    ensures { result ≡ is_default_term (term_at bank.now.terms id) }
{
    match bank.node(id) {
        Node::App { head, args } => {
            if args.len() != 1 {
                return false;
            }
            if !is_value_choice(head) {
                return false;
            }
            holds_of_nothing(bank, args.at(0))
        }
        Node::Lam { ty: _, body: _ } => false,
    }
}
