//! The sides of equations as terms for instances.
ghost use Rattle.std.specs.Prelude.{◌≡◌, ◌<◌, length, option_map, IfOk, OnOk};
ghost use Rattle.stt_core.specs.SimpleType.{SimpleType};
ghost use Rattle.stt_core.specs.Lambda.{Lambda, eq};
ghost use Rattle.stt_core.specs.View.{the_head, the_type};
ghost use Rattle.tableau_calculus.specs.Internal.Heads.{equality_of};
ghost use Rattle.term_bank.specs.Terms.{term_at};
ghost use Rattle.search_spec.specs.Offers.{offered_sides};
ghost use Rattle.search_spec.specs.Spine.{head_of};
ghost use Rattle.search_spec.specs.Terms.{with_term, with_terms};
ghost use Rattle.prover_state.specs.Lasting.{lasting};
ghost use Rattle.prover_state.specs.Internal.Names.{IsNumberIn, IsPlace};
ghost use Rattle.prover_state.specs.Internal.Pending.{equation_type};
ghost use Rattle.prover_state.specs.Internal.Standing.{IsBasis, IsRightState};
ghost use Rattle.prover_state.specs.Internal.Advancing.{the_atom, state_in, StaysRight};
ghost use Rattle.prover_search.specs.Internal.Working.{shape_of, IsEquated};
ghost use Rattle.prover_search.specs.declared.shape.Shape.TheVariants.{FunctionEquation};

use crate::shape::atom_of;
use command_queue::Weigher;
use prover_state::{Basis, Core, Waiting, part_of};
use sat_base::SatLit;
use std::alloc::{AllocError, Global};
use stt_core::{Head, Ty};
use term_bank::{Bank, Id, Node};

/// The sides of an equation.
#[derive(Clone, Copy)]
pub(crate) struct Sides {
    pub left: Id,
    pub right: Id,
}

/// The sides of an equation.
pub(crate) fn sides_of(basis: &Basis, lit: SatLit) -> Sides
    requires basis { IsBasis basis.now }
    requires number { IsNumberIn basis.now.lits lit }
    requires equation { IsEquated (the_atom basis.now lit) }
    ensures left { IsPlace basis.now.bank.terms result.left }
    ensures right { IsPlace basis.now.bank.terms result.right }
    ensures equation { let t = the_atom basis.now lit in t ≡ eq (equation_type t) (term_at basis.now.bank.terms result.left)
        (term_at basis.now.bank.terms result.right) }
{
    let atom = atom_of(basis, lit);
    Sides {
        left: part_of(&basis.bank, atom, 0),
        right: part_of(&basis.bank, atom, 1),
    }
}

/// Two terms of a type are for instances.
pub(crate) fn add_terms<W: Weigher<Waiting>>(
    core: &mut Core<W>,
    ty: &Ty,
    sides: Sides,
) -> Result<(), AllocError>
    requires right { IsRightState core.old.tables core.old.plan }
    requires left_place { IsPlace core.old.tables.basis.bank.terms sides.left }
    requires right_place { IsPlace core.old.tables.basis.bank.terms sides.right }
    ensures state { OnOk result (let mode = core.old.plan.rule.mode in let a = the_type ty.now in
        state_in core.new
        ≡ with_term mode a (term_at core.old.tables.basis.bank.terms sides.right) (with_term mode a (term_at core.old.tables.basis.bank.terms sides.left) (state_in core.old))) }
    ensures stays { OnOk result (StaysRight core.old core.new) }
    ensures tables { OnOk result (core.new.tables ≡ record core.old.tables { terms = core.new.tables.terms }) }
    ensures lasts { lasting core.new.tables ≡ lasting core.old.tables }
{
    core.add_term(ty, sides.left)?;
    core.add_term(ty, sides.right)?;
    Ok(())
}

fn equality_type(head: &Head) -> Option<&Ty>
    ensures { option_map (λ ty. the_type ty.now) result ≡ equality_of (the_head head.now) }
{
    match head {
        Head::Bound(_) => None,
        Head::Name(_) => None,
        Head::Wit(_) => None,
        Head::False => None,
        Head::Not => None,
        Head::Imp => None,
        Head::All(_) => None,
        Head::Eq(ty) => Some(ty),
        Head::Choice(_) => None,
        Head::Desc(_) => None,
    }
}

/// The type of the sides of an equation.
fn equated_type(bank: &Bank, id: Id) -> Option<&Ty>
    requires { id < length bank.now.terms }
    ensures { option_map (λ ty. the_type ty.now) result ≡ equality_of (head_of (term_at bank.now.terms id)) }
{
    match bank.node(id) {
        Node::App { head, args: _ } => equality_type(head),
        Node::Lam { ty: _, body: _ } => None,
    }
}

/// The type of the sides of an equation between functions.
fn type_of_sides(alloc: Global, basis: &Basis, lit: SatLit) -> Result<Ty, AllocError>
    requires basis { IsBasis basis.now }
    requires number { IsNumberIn basis.now.lits lit }
    requires shape { shape_of (the_atom basis.now lit) ≡ FunctionEquation }
    ensures { IfOk result (λ ty. the_type ty ≡ equation_type (the_atom basis.now lit)) }
{
    match equated_type(&basis.bank, atom_of(basis, lit)) {
        Some(ty) => Ok(ty.try_clone(alloc)?),
        None => unreachable!(),
    }
}

/// The sides of a negated equation between functions are terms, where they are offered.
pub(crate) fn offer_sides<W: Weigher<Waiting>>(
    core: &mut Core<W>,
    lit: SatLit,
) -> Result<(), AllocError>
    requires right { IsRightState core.old.tables core.old.plan }
    requires number { IsNumberIn core.old.tables.basis.lits lit }
    requires shape { shape_of (the_atom core.old.tables.basis lit) ≡ FunctionEquation }
    ensures state { OnOk result ((a : SimpleType) (s t : Lambda) → the_atom core.old.tables.basis lit ≡ eq a s t
        → (let mode = core.old.plan.rule.mode in state_in core.new ≡ with_terms mode a (offered_sides mode s t) (state_in core.old))) }
    ensures stays { OnOk result (StaysRight core.old core.new) }
    ensures tables { OnOk result (core.new.tables ≡ record core.old.tables { terms = core.new.tables.terms }) }
    ensures lasts { lasting core.new.tables ≡ lasting core.old.tables }
{
    if core.plan.mode().terms == 0 {
        return Ok(());
    }
    let ty = type_of_sides(core.tables.alloc, &core.tables.basis, lit)?;
    let sides = sides_of(&core.tables.basis, lit);
    add_terms(core, &ty, sides)?;
    Ok(())
}
