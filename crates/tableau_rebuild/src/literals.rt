//! Literals and branches, by numbers and as terms.
ghost use Rattle.std.specs.Prelude.{◌≡◌, ◌<◌, [], ◌∷◌, ◌++◌, length, map, IfOk, OnOk, All};
ghost use Rattle.sat_base.specs.Literal.{negated, IsOver};
ghost use Rattle.search_spec.specs.Numbered.{literal_at};
ghost use Rattle.literal_map.specs.Atoms.{IsAtom};
ghost use Rattle.rebuild_spec.specs.Input.{literals_of};
ghost use Rattle.rebuild_spec.specs.Stands.{place_in};
ghost use Rattle.tableau_rebuild.specs.Tables.{atoms_at};
ghost use Rattle.refute_share.specs.KnownTerms.{KnowsTerms};
ghost use Rattle.tableau_rebuild.specs.Pools.{IsMadePool};

use crate::pool::Pool;
use literal_map::LitTable;
use refute_share::{SharedLit, SharedLits, TermPool};
use sat_base::{Clause, SatLit};
use std::alloc::{AllocError, Global};
use term_bank::Bank;

/// The place of a literal in a branch.
pub fn position(branch: &[SatLit], literal: SatLit) -> usize
    ensures { result ≡ place_in branch.now literal }
{
    for i in 0..branch.len() {
        if branch[i] == literal {
            return i;
        }
    }
    branch.len()
}

/// The negations of literals.
pub(crate) fn negations(alloc: Global, literals: &[SatLit]) -> Result<Clause, AllocError>
    ensures { IfOk result (λ clause. clause ≡ map negated literals.now) }
{
    let mut clause = Clause::new(alloc);
    for i in 0..literals.len() {
        clause.push(literals[i].negated())?;
    }
    Ok(clause)
}

/// The literal that a number with a sign stands for.
pub(crate) fn lit_of(
    bank: &Bank,
    atoms: &LitTable,
    literal: SatLit,
    terms: &mut TermPool,
) -> Result<SharedLit, AllocError>
    requires atoms { All (IsAtom bank.now) atoms.now }
    requires within { literal.var.0 < length atoms.now }
    requires known { KnowsTerms bank.now.terms terms.old }
    ensures known { OnOk result (KnowsTerms bank.now.terms terms.new) }
    ensures literal { IfOk result (λ l. l ≡ literal_at (atoms_at bank.now.terms atoms.now) literal) }
{
    let atom = terms.share(bank, atoms.formula_of(literal))?;
    Ok(SharedLit {
        positive: literal.positive,
        atom,
    })
}

/// The literals of a branch, each made once for all branches.
pub fn lits_of(
    alloc: Global,
    bank: &Bank,
    atoms: &LitTable,
    branch: &[SatLit],
    pool: &mut Pool,
) -> Result<SharedLits, AllocError>
    requires atoms { All (IsAtom bank.now) atoms.now }
    requires within { IsOver (length atoms.now) branch.now }
    requires made { IsMadePool bank.now.terms atoms.now pool.old }
    ensures made { OnOk result (IsMadePool bank.now.terms atoms.now pool.new) }
    ensures literals { IfOk result (λ ls. ls ≡ literals_of (atoms_at bank.now.terms atoms.now) branch.now) }
{
    let mut lits = SharedLits::new(alloc);
    lits.reserve_exact(branch.len())?;
    for i in 0..branch.len() {
        pool.push_to(bank, atoms, branch[i], &mut lits)?;
    }
    Ok(lits)
}
