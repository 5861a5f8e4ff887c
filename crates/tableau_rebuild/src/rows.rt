//! The rows of a refutation.
ghost use Rattle.std.specs.Prelude.{◌≡◌, ◌<◌, ◌≤◌, ◌^◌, length, take, IfOk, OnOk, All};
ghost use Rattle.stt_core.specs.View.{the_type};
ghost use Rattle.term_bank.specs.Terms.{term_at};
ghost use Rattle.refute_share.specs.KnownTerms.{KnowsTerms};
ghost use Rattle.witness_names.specs.Rows.{binder_of, row_of, rows_of};

use refute_share::{SharedRow, SharedRows, TermPool};
use std::alloc::{AllocError, Global};
use stt_core::Ty;
use term_bank::{Bank, Id, Node};
use witness_names::Witnesses;

/// The argument type of a predicate, as its binder says.
fn binder(alloc: Global, bank: &Bank, id: Id) -> Result<Ty, AllocError>
    requires { id < length bank.now.terms }
    ensures { IfOk result (λ ty. the_type ty ≡ binder_of (term_at bank.now.terms id)) }
{
    match bank.node(id) {
        Node::Lam { ty, .. } => Ok(ty.try_clone(alloc)?),
        Node::App { .. } => Ok(Ty::Base(0)),
    }
}

/// The row of a predicate.
fn row(alloc: Global, bank: &Bank, id: Id, terms: &mut TermPool) -> Result<SharedRow, AllocError>
    requires within { id < length bank.now.terms }
    requires known { KnowsTerms bank.now.terms terms.old }
    ensures known { OnOk result (KnowsTerms bank.now.terms terms.new) }
    ensures row { IfOk result (λ row. row ≡ row_of (term_at bank.now.terms id)) }
{
    let ty = binder(alloc, bank, id)?;
    let predicate = terms.share(bank, id)?;
    Ok(SharedRow { ty, predicate })
}

/// So many rows of a witness table, from its first one on, or all where there are fewer.
pub fn write_rows(
    alloc: Global,
    bank: &Bank,
    witnesses: &Witnesses,
    count: usize,
) -> Result<SharedRows, AllocError>
    requires { All (λ id. id < length bank.now.terms) witnesses.now }
    ensures rows { IfOk result (λ rows. rows ≡ take count (rows_of bank.now.terms witnesses.now)) }
    ensures few { IfOk result (λ rows. length rows ≤ 2 ^ 32) }
{
    let mut terms = TermPool::new(alloc);
    let mut rows = SharedRows::new(alloc);
    for w in 0..count.min(witnesses.len() as usize) {
        let row = row(alloc, bank, witnesses.predicate(w as u32), &mut terms)?;
        rows.push(row)?;
    }
    Ok(rows)
}
