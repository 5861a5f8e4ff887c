//! The normal forms of a problem's formulas, worked out over shared terms.

ghost use Rattle.std.specs.Prelude.{◌≡◌, ◌<◌, [], length, map, IfOk};
ghost use Rattle.stt_core.specs.View.{the_term};
ghost use Rattle.stt_core.specs.Declarations.{scope_of};
ghost use Rattle.stt_core.specs.TypedProblem.{IsFormula, AreFormulas, IsTyped};
ghost use Rattle.normal_forms.specs.Normal.{normal_form};
ghost use Rattle.term_bank.specs.Content.{content_scope};
ghost use Rattle.term_bank.specs.Terms.{term_at};
ghost use Rattle.bank_normal.specs.Right.{IsRightNormaliser};
ghost use Rattle.finite_models.specs.Symbols.{normal_formulas};

use bank_normal::Normaliser;
use std::alloc::{AllocError, Global};
use stt_core::{Nf, Nfs, Problem, Term, Terms};
use term_bank::{Bank, Id, Node};

/// How deep a normal form nests at most: calls nest as deep.
const MAX_DEPTH: usize = 4096;

/// How many nodes the normal forms have together at most, as trees.
const MAX_NODES: usize = 4_194_304;

/// Takes the nodes of a term off the room, as far as it lasts, and tells whether it does.
fn take_room(bank: &Bank, id: Id, room: &mut usize) -> bool
    requires { id < length bank.now.terms }
{
    if *room == 0 {
        return false;
    }
    *room -= 1;
    match bank.node(id) {
        Node::Lam { body, .. } => take_room(bank, *body, room),
        Node::App { args, .. } => {
            for i in 0..args.len() {
                if !take_room(bank, args.at(i), room) {
                    return false;
                }
            }
            true
        }
    }
}

/// The term as a tree, where it isn't too large.
fn tree_of(bank: &Bank, id: Id, room: &mut usize) -> Result<Nf, AllocError>
    requires { id < length bank.now.terms }
    ensures { IfOk result (λ nf. nf ≡ term_at bank.now.terms id) }
{
    if bank.depth(id) > MAX_DEPTH {
        return Err(AllocError);
    }
    if !take_room(bank, id, room) {
        return Err(AllocError);
    }
    bank.export(id)
}

/// The normal form of a formula.
fn form_of(
    bank: &mut Bank,
    normaliser: &mut Normaliser,
    formula: &Term,
    room: &mut usize,
) -> Result<Nf, AllocError>
    requires formula { IsFormula (content_scope bank.old) (the_term formula.now) }
    requires right { IsRightNormaliser normaliser.old bank.old }
    ensures form { IfOk result (λ nf. nf ≡ normal_form (content_scope bank.old) [] (the_term formula.now)) }
    ensures scope { content_scope bank.new ≡ content_scope bank.old }
    ensures right { IsRightNormaliser normaliser.new bank.new }
{
    let id = normaliser.normalise(bank, formula)?;
    tree_of(bank, id, room)
}

/// The normal forms of the assumed formulas.
fn assumed_forms(
    alloc: Global,
    bank: &mut Bank,
    normaliser: &mut Normaliser,
    assumed: &Terms,
    room: &mut usize,
) -> Result<Nfs, AllocError>
    requires assumed { AreFormulas (content_scope bank.old) assumed.now }
    requires right { IsRightNormaliser normaliser.old bank.old }
    ensures forms { IfOk result (λ ts. ts ≡ map (normal_form (content_scope bank.old) []) assumed.now) }
    ensures scope { content_scope bank.new ≡ content_scope bank.old }
    ensures right { IsRightNormaliser normaliser.new bank.new }
{
    let mut forms = Nfs::new(alloc);
    for i in 0..assumed.len() {
        let form = form_of(bank, normaliser, assumed.at(i), room)?;
        forms.push(form)?;
    }
    Ok(forms)
}

/// The normal forms of a problem's formulas, over a bank that declares what the problem does.
fn forms_over(
    alloc: Global,
    bank: &mut Bank,
    normaliser: &mut Normaliser,
    problem: &Problem,
) -> Result<Nfs, AllocError>
    requires typed { IsTyped problem.now }
    requires scope { content_scope bank.old ≡ scope_of problem.now.declared }
    requires right { IsRightNormaliser normaliser.old bank.old }
    ensures { IfOk result (λ ts. ts ≡ normal_formulas problem.now) }
{
    let mut room = MAX_NODES;
    let mut forms = assumed_forms(alloc, bank, normaliser, &problem.assumed, &mut room)?;
    match &problem.conjecture {
        None => Ok(forms),
        Some(conjecture) => {
            let form = form_of(bank, normaliser, conjecture, &mut room)?;
            forms.push(form)?;
            Ok(forms)
        }
    }
}

/// The normal forms of a problem's formulas.
pub(crate) fn formulas_of(alloc: Global, problem: &Problem) -> Result<Nfs, AllocError>
    requires { IsTyped problem.now }
    ensures { IfOk result (λ ts. ts ≡ normal_formulas problem.now) }
{
    let sig = problem.signature.try_clone(alloc)?;
    let mut bank = Bank::new(alloc, sig);
    let mut normaliser = Normaliser::new(alloc);
    let forms = forms_over(alloc, &mut bank, &mut normaliser, problem);
    drop(normaliser);
    drop(bank);
    forms
}
