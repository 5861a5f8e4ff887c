//! The clauses of an instance.
ghost use Rattle.std.specs.Prelude.{◌≡◌, ◌++◌, [], ◌∷◌, OnOk, IfOk};
ghost use Rattle.std.specs.List.{flat_map};
ghost use Rattle.search_spec.specs.Clauses.{is_tautology, clause_of, instance_clauses};
ghost use Rattle.tableau_calculus.specs.Kinds.{has, added};
ghost use Rattle.search_spec.specs.Numbered.{numbers};
ghost use Rattle.tableau_clauses.specs.Internal.Chosen.{clauses_from, choices_after};

use literal_map::{Instance, LitList};
use sat_base::{Clause, SatLit};
use std::alloc::{AllocError, Global};

/// Whether the literal is in the list.
fn holds(lits: &[SatLit], lit: SatLit) -> bool
    ensures { result ≡ has numbers lits.now lit }
{
    for i in 0..lits.len() {
        if lits[i] == lit {
            return true;
        }
    }
    false
}

/// Whether the clause holds a literal and its negation.
fn is_tautology(clause: &Clause) -> bool
    ensures { result ≡ is_tautology numbers clause.now }
{
    for i in 0..clause.len() {
        if holds(clause.as_slice(), clause.as_slice()[i].negated()) {
            return true;
        }
    }
    false
}

/// Adds the literal, where it isn't in the clause yet.
fn add_literal(clause: &mut Clause, lit: SatLit) -> Result<(), AllocError>
    ensures { OnOk result (clause.new ≡ added numbers clause.old (lit ∷ [])) }
{
    if !holds(clause.as_slice(), lit) {
        clause.push(lit)?;
    }
    Ok(())
}

/// The negated principals and what is chosen, without repeats.
fn clause_from(
    alloc: Global,
    principals: &[SatLit],
    chosen: &[SatLit],
) -> Result<Clause, AllocError>
    ensures { IfOk result (λ c. c ≡ clause_of numbers principals.now chosen.now) }
{
    let mut clause = Clause::new(alloc);
    for i in 0..principals.len() {
        add_literal(&mut clause, principals[i].negated())?;
    }
    for i in 0..chosen.len() {
        add_literal(&mut clause, chosen[i])?;
    }
    Ok(clause)
}

/// Adds the clause of a choice, unless it is a tautology.
fn add_choice(
    alloc: Global,
    principals: &[SatLit],
    chosen: &[SatLit],
    found: &mut Vec<Clause>,
) -> Result<(), AllocError>
    ensures { OnOk result (found.new.items ≡ found.old.items ++ clauses_from principals.now (chosen.now ∷ [])) }
{
    let clause = clause_from(alloc, principals, chosen)?;
    if !is_tautology(&clause) {
        found.push(clause)?;
    }
    Ok(())
}

/// Adds the clauses of all choices that begin with what is chosen and go on with the alternatives.
#[cycle(choices)]
fn add_choices(
    alloc: Global,
    principals: &[SatLit],
    chosen: &mut Vec<SatLit>,
    alternatives: &[LitList],
    found: &mut Vec<Clause>,
) -> Result<(), AllocError>
    ensures found { OnOk result (found.new.items ≡ found.old.items ++ clauses_from principals.now
        (choices_after chosen.old.items alternatives.now)) }
    ensures chosen { OnOk result (chosen.new.items ≡ chosen.old.items) }
{
    match alternatives.split_first() {
        None => Ok(add_choice(alloc, principals, chosen.as_slice(), found)?),
        Some((first, others)) => Ok(add_each(
            alloc,
            principals,
            chosen,
            first.as_slice(),
            others,
            found,
        )?),
    }
}

/// The same, where the next choice is one of these literals.
#[cycle(choices)]
fn add_each(
    alloc: Global,
    principals: &[SatLit],
    chosen: &mut Vec<SatLit>,
    lits: &[SatLit],
    others: &[LitList],
    found: &mut Vec<Clause>,
) -> Result<(), AllocError>
    ensures found { OnOk result (found.new.items ≡ found.old.items ++ clauses_from principals.now
        (flat_map (λ l. choices_after (chosen.old.items ++ l ∷ []) others.now) lits.now)) }
    ensures chosen { OnOk result (chosen.new.items ≡ chosen.old.items) }
{
    match lits.split_first() {
        None => Ok(()),
        Some((lit, rest)) => {
            chosen.push(*lit)?;
            add_choices(alloc, principals, chosen, others, found)?;
            chosen.pop();
            Ok(add_each(alloc, principals, chosen, rest, others, found)?)
        }
    }
}

/// The clauses of an instance: no tautologies, and in each no literal twice.
pub(crate) fn clauses_of(alloc: Global, instance: &Instance) -> Result<Vec<Clause>, AllocError>
    ensures { IfOk result (λ cs. cs.items ≡ instance_clauses numbers instance.now.principals instance.now.alternatives) }
{
    let mut chosen = Vec::new(alloc);
    let mut found = Vec::new(alloc);
    add_choices(
        alloc,
        instance.principals.as_slice(),
        &mut chosen,
        instance.alternatives.as_slice(),
        &mut found,
    )?;
    Ok(found)
}
