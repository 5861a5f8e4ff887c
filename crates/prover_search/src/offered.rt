//! Which heads are offered to holes, by the literals of a start.
ghost use Rattle.std.specs.Prelude.{◌≡◌, ◌<◌, length, map, filter, IfOk};
ghost use Rattle.std.specs.List.{All};
ghost use Rattle.tableau_calculus.specs.Start.{without_repeats};
ghost use Rattle.term_bank.specs.Terms.{term_at};
ghost use Rattle.search_spec.specs.Offers.{offered_heads};
ghost use Rattle.search_spec.specs.Shallow.{is_shallow_literal};
ghost use Rattle.head_offers.specs.Offering.{the_offers};
ghost use Rattle.prover_state.specs.Internal.Names.{IsNumberIn};
ghost use Rattle.prover_state.specs.Internal.Standing.{without_witnesses, IsBasis};
ghost use Rattle.prover_state.specs.Internal.Advancing.{the_literal};

use head_offers::{Offers, offered_heads};
use mode_file::Mode;
use prover_state::{Basis, DEPTH};
use sat_base::SatLit;
use std::alloc::{AllocError, Global};
use term_bank::Id;

/// The atoms of the literals that aren't too deep.
fn shallow_atoms(alloc: Global, basis: &Basis, start: &[SatLit]) -> Result<Vec<Id>, AllocError>
    requires basis { IsBasis basis.now }
    requires numbers { All (IsNumberIn basis.now.lits) start.now }
    ensures within { IfOk result (λ atoms. All (λ id. id < length basis.now.bank.terms) atoms.items) }
    ensures atoms { IfOk result (λ atoms. map (term_at basis.now.bank.terms) atoms.items ≡ map (λ l. l.atom)
        (filter is_shallow_literal (map (the_literal basis.now) start.now))) }
{
    let mut atoms = Vec::new(alloc);
    for i in 0..start.len() {
        let atom = basis.lits.formula_of(start[i]);
        if basis.bank.depth(atom) <= DEPTH {
            atoms.push(atom)?;
        }
    }
    Ok(atoms)
}

/// What a mode offers to holes, where a run starts from these literals.
pub(crate) fn start_offers(
    alloc: Global,
    mode: &Mode,
    basis: &Basis,
    start: &[SatLit],
) -> Result<Offers, AllocError>
    requires basis { IsBasis basis.now }
    requires numbers { All (IsNumberIn basis.now.lits) start.now }
    ensures { IfOk result (λ offers. the_offers offers ≡ offered_heads mode.now (without_witnesses basis.now.bank)
        (filter is_shallow_literal (without_repeats (map (the_literal basis.now) start.now)))) }
{
    let atoms = shallow_atoms(alloc, basis, start)?;
    offered_heads(alloc, mode, &basis.bank, atoms.as_slice())
}
