//! The shapes of atoms.
ghost use Rattle.std.specs.Prelude.{◌≡◌, ◌<◌, List, length};
ghost use Rattle.stt_core.specs.Lambda.{Lambda, applied};
ghost use Rattle.stt_core.specs.View.{the_head, the_type};
ghost use Rattle.term_bank.specs.Terms.{term_at};
ghost use Rattle.prover_state.specs.Internal.Names.{IsNumberIn, IsPlace};
ghost use Rattle.prover_state.specs.Internal.Standing.{IsBasis};
ghost use Rattle.prover_state.specs.Internal.Advancing.{the_literal, the_atom};
ghost use Rattle.prover_search.specs.Internal.Working.{denies_itself, equation_shape, shape_of};

use prover_state::{Basis, has_equal_sides};
use sat_base::SatLit;
use stt_core::{Head, Ty};
use term_bank::{Bank, Id, Node};

/// What is done for a literal depends on the shape of its atom: an equation between formulas, between functions or between terms of
/// another base type, whose number is given, a claim that a predicate holds everywhere, or another formula.
#[derive(Clone, Copy)]
pub(crate) enum Shape {
    FormulaEquation,
    FunctionEquation,
    BaseEquation(u32),
    Quantified,
    Other,
}

/// The shape of an equation between terms of a type.
fn equation_shape(ty: &Ty) -> Shape
    ensures { result ≡ equation_shape (the_type ty.now) }
{
    match ty {
        Ty::Base(n) => {
            if *n == 0 {
                Shape::FormulaEquation
            } else {
                Shape::BaseEquation(*n)
            }
        }
        Ty::Arrow(_, _) => Shape::FunctionEquation,
    }
}

/// The shape of a head with so many arguments.
fn shape_with(head: &Head, count: usize) -> Shape
    ensures { (ts : List Lambda) → length ts ≡ count → result ≡ shape_of (applied (the_head head.now) ts) }
{
    match head {
        Head::Bound(_) => Shape::Other,
        Head::Name(_) => Shape::Other,
        Head::Wit(_) => Shape::Other,
        Head::False => Shape::Other,
        Head::Not => Shape::Other,
        Head::Imp => Shape::Other,
        Head::All(_) => {
            if count == 1 {
                Shape::Quantified
            } else {
                Shape::Other
            }
        }
        Head::Eq(ty) => {
            if count == 2 {
                equation_shape(ty)
            } else {
                Shape::Other
            }
        }
        Head::Choice(_) => Shape::Other,
        Head::Desc(_) => Shape::Other,
    }
}

/// The shape of a formula.
pub(crate) fn shape_of(bank: &Bank, id: Id) -> Shape
    requires { id < length bank.now.terms }
    ensures { result ≡ shape_of (term_at bank.now.terms id) }
{
    match bank.node(id) {
        Node::App { head, args } => shape_with(head, args.len()),
        Node::Lam { ty: _, body: _ } => Shape::Other,
    }
}

/// The atom of a literal.
pub(crate) fn atom_of(basis: &Basis, lit: SatLit) -> Id
    requires basis { IsBasis basis.now }
    requires number { IsNumberIn basis.now.lits lit }
    ensures place { IsPlace basis.now.bank.terms result }
    ensures atom { term_at basis.now.bank.terms result ≡ the_atom basis.now lit }
{
    basis.lits.formula_of(lit)
}

/// Whether a literal denies that a term equals itself.
pub(crate) fn denies_itself(basis: &Basis, lit: SatLit) -> bool
    requires basis { IsBasis basis.now }
    requires number { IsNumberIn basis.now.lits lit }
    ensures { result ≡ denies_itself (the_literal basis.now lit) }
{
    if lit.positive {
        return false;
    }
    has_equal_sides(&basis.bank, atom_of(basis, lit))
}
