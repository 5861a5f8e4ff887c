//! The parts of formulas of a bank.
ghost use Rattle.std.specs.Prelude.{◌≡◌, ◌<◌, ◌↔◌, length, IsTrue, Some, option_map};
ghost use Rattle.stt_core.specs.Lambda.{constant, falsity, implication};
ghost use Rattle.stt_core.specs.View.{the_head, the_type};
ghost use Rattle.tableau_calculus.specs.Internal.Heads.{equality_of, quantified_by};
ghost use Rattle.term_bank.specs.Terms.{term_at};
ghost use Rattle.tableau_rules.specs.Internal.Parts.{IsSpineOf, IsImplicationOf, IsEquationOf, IsQuantifiedOf};

use stt_core::{Head, Ty};
use term_bank::{Bank, Id, Ids, Node};

/// A head and its arguments.
#[derive(Drop)]
pub(crate) struct Spine<'a> {
    pub head: &'a Head,
    pub args: &'a Ids,
}

/// The sides of an implication.
#[derive(Clone, Copy)]
pub struct Sides {
    pub left: Id,
    pub right: Id,
}

/// An equation: the type of its sides, and the sides.
#[derive(Drop)]
pub(crate) struct Equation<'a> {
    pub ty: &'a Ty,
    pub left: Id,
    pub right: Id,
}

/// A quantified formula: the type that it ranges over, and the predicate that holds everywhere.
#[derive(Drop)]
pub(crate) struct Quantified<'a> {
    pub ty: &'a Ty,
    pub predicate: Id,
}

/// The head and the arguments of a term that isn't a function.
pub(crate) fn spine_of(bank: &Bank, id: Id) -> Option<Spine<'_>>
    requires { id < length bank.now.terms }
    ensures { IsSpineOf bank.now (term_at bank.now.terms id) result }
{
    match bank.node(id) {
        Node::App { head, args } => Some(Spine { head, args }),
        Node::Lam { ty: _, body: _ } => None,
    }
}

fn is_falsity_head(head: &Head) -> bool
    ensures { IsTrue result ↔ (the_head head.now ≡ constant falsity) }
{
    match head {
        Head::False => true,
        Head::Bound(_) => false,
        Head::Name(_) => false,
        Head::Wit(_) => false,
        Head::Not => false,
        Head::Imp => false,
        Head::All(_) => false,
        Head::Eq(_) => false,
        Head::Choice(_) => false,
        Head::Desc(_) => false,
    }
}

fn is_implication_head(head: &Head) -> bool
    ensures { IsTrue result ↔ (the_head head.now ≡ constant implication) }
{
    match head {
        Head::Imp => true,
        Head::Bound(_) => false,
        Head::Name(_) => false,
        Head::Wit(_) => false,
        Head::False => false,
        Head::Not => false,
        Head::All(_) => false,
        Head::Eq(_) => false,
        Head::Choice(_) => false,
        Head::Desc(_) => false,
    }
}

fn equality_type(head: &Head) -> Option<&Ty>
    ensures { option_map (λ ty. the_type ty.now) result ≡ equality_of (the_head head.now) }
{
    match head {
        Head::Bound(_) => None,
        Head::Name(_) => None,
        Head::Wit(_) => None,
        Head::False => None,
        Head::Not => None,
        Head::Imp => None,
        Head::All(_) => None,
        Head::Eq(ty) => Some(ty),
        Head::Choice(_) => None,
        Head::Desc(_) => None,
    }
}

fn quantifier_type(head: &Head) -> Option<&Ty>
    ensures { option_map (λ ty. the_type ty.now) result ≡ quantified_by (the_head head.now) }
{
    match head {
        Head::Bound(_) => None,
        Head::Name(_) => None,
        Head::Wit(_) => None,
        Head::False => None,
        Head::Not => None,
        Head::Imp => None,
        Head::All(ty) => Some(ty),
        Head::Eq(_) => None,
        Head::Choice(_) => None,
        Head::Desc(_) => None,
    }
}

/// Whether the term is falsity.
pub fn is_falsity(bank: &Bank, id: Id) -> bool
    requires { id < length bank.now.terms }
    ensures { IsTrue result ↔ (term_at bank.now.terms id ≡ constant falsity) }
{
    match spine_of(bank, id) {
        Some(spine) => {
            if spine.args.len() == 0 {
                is_falsity_head(spine.head)
            } else {
                false
            }
        }
        None => false,
    }
}

/// The sides of the term, where it is an implication.
pub fn implication_of(bank: &Bank, id: Id) -> Option<Sides>
    requires { id < length bank.now.terms }
    ensures { IsImplicationOf bank.now (term_at bank.now.terms id) result }
{
    match spine_of(bank, id) {
        Some(spine) => {
            if spine.args.len() != 2 {
                return None;
            }
            if is_implication_head(spine.head) {
                Some(Sides {
                    left: spine.args.at(0),
                    right: spine.args.at(1),
                })
            } else {
                None
            }
        }
        None => None,
    }
}

/// The parts of the term, where it is an equation.
pub(crate) fn equation_of(bank: &Bank, id: Id) -> Option<Equation<'_>>
    requires { id < length bank.now.terms }
    ensures { IsEquationOf bank.now (term_at bank.now.terms id) result }
{
    match spine_of(bank, id) {
        Some(spine) => {
            if spine.args.len() != 2 {
                return None;
            }
            match equality_type(spine.head) {
                Some(ty) => Some(Equation {
                    ty,
                    left: spine.args.at(0),
                    right: spine.args.at(1),
                }),
                None => None,
            }
        }
        None => None,
    }
}

/// The parts of the term, where it is a quantified formula.
pub(crate) fn quantified_of(bank: &Bank, id: Id) -> Option<Quantified<'_>>
    requires { id < length bank.now.terms }
    ensures { IsQuantifiedOf bank.now (term_at bank.now.terms id) result }
{
    match spine_of(bank, id) {
        Some(spine) => {
            if spine.args.len() != 1 {
                return None;
            }
            match quantifier_type(spine.head) {
                Some(ty) => Some(Quantified {
                    ty,
                    predicate: spine.args.at(0),
                }),
                None => None,
            }
        }
        None => None,
    }
}
