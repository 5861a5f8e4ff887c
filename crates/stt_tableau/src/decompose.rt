//! Names, witnesses, choices and descriptions with arguments, and the rules that compare their arguments.

ghost use Rattle.std.specs.Prelude.{◌≡◌, ◌↔◌, ◌++◌, [], ◌∷◌, List, drop, IfOk, IsTrue};
ghost use Rattle.stt_core.specs.View.{the_head, the_type};
ghost use Rattle.stt_core.specs.ScopeView.{the_scope};
ghost use Rattle.tableau_calculus.specs.Witnesses.{Row};
ghost use Rattle.tableau_calculus.specs.Rules.{differ_each};
ghost use Rattle.tableau_calculus.specs.Internal.Heads.{IsDecomposedHead};
ghost use Rattle.stt_tableau.specs.Internal.Parts.{IsSpine};
ghost use Rattle.tableau_calculus.specs.Checks.{FindsInstance};
ghost use Rattle.stt_tableau.specs.Internal.Instances.{IsSpineAt, ArgumentsDiffer, SpinesDiffer};
ghost use Rattle.tableau_calculus.specs.declared.rule_use.RuleUse.TheVariants.{AtOne, AtTwo};
ghost use Rattle.tableau_calculus.specs.declared.rule_use.OnePlace.TheVariants.{Dec};
ghost use Rattle.tableau_calculus.specs.declared.rule_use.TwoPlaces.TheVariants.{Mat};

use crate::alternatives::{Alternatives, alone};
use crate::equation::{differ, equation_at, is_plain_base};
use std::alloc::{AllocError, Global};
use stt_core::{Context, Declared, Head, Nf, Nfs, Signature, Ty, Types, head_type};
use tableau_calculus::Lits;

/// A name, a witness, a choice or a description, with its arguments, of which there is one at least.
#[derive(Drop)]
pub struct Spine<'a> {
    pub head: &'a Head,
    pub args: &'a Nfs,
}

fn is_decomposed(head: &Head) -> bool
    ensures { IsTrue result ↔ IsDecomposedHead (the_head head.now) }
{
    match head {
        Head::Bound(_) => false,
        Head::Name(_) => true,
        Head::Wit(_) => true,
        Head::False => false,
        Head::Not => false,
        Head::Imp => false,
        Head::All(_) => false,
        Head::Eq(_) => false,
        Head::Choice(_) => true,
        Head::Desc(_) => true,
    }
}

/// The head and the arguments of a term, where it is a name, a witness, a choice or a description with arguments.
fn spine_of(nf: &Nf) -> Option<Spine<'_>>
    ensures { IsSpine nf.now result }
{
    if nf.binders.len() > 0 {
        return None;
    }
    if nf.args.len() == 0 {
        return None;
    }
    if is_decomposed(&nf.head) {
        Some(Spine {
            head: &nf.head,
            args: &nf.args,
        })
    } else {
        None
    }
}

/// The same of the literal of this sign at a place.
fn spine_at(branch: &Lits, i: usize, positive: bool) -> Option<Spine<'_>>
    ensures { IsSpineAt branch.now i positive result }
{
    match branch.get(i) {
        Some(lit) => {
            if lit.positive == positive {
                spine_of(&lit.atom)
            } else {
                None
            }
        }
        None => None,
    }
}

/// The alternatives that are there, and for each argument from place `i` on, of a function of this type, one that they differ there.
fn differences(
    alloc: Global,
    ty: &Ty,
    ss: &Nfs,
    ts: &Nfs,
    i: usize,
    done: Alternatives,
) -> Result<Alternatives, AllocError>
    ensures { IfOk result (λ a. a ≡ done ++ differ_each (the_type ty.now) (drop i ss.now) (drop i ts.now)) }
{
    if i >= ss.len() {
        return Ok(done);
    }
    if i >= ts.len() {
        return Ok(done);
    }
    match ty {
        Ty::Arrow(argument, rest) => {
            let mut done = done;
            let lit = differ(alloc, argument, ss.at(i), ts.at(i))?;
            done.push(alone(alloc, lit)?)?;
            Ok(differences(alloc, rest, ss, ts, i + 1, done)?)
        }
        Ty::Base(_) => Ok(done),
    }
}

/// The alternatives for the arguments of one head, or none where it has no type.
fn arguments_differ(
    alloc: Global,
    sig: &Signature,
    types: &Types,
    head: &Head,
    ss: &Nfs,
    ts: &Nfs,
) -> Result<Option<Alternatives>, AllocError>
    ensures { IfOk result (ArgumentsDiffer (the_scope sig.now types.now) (the_head head.now) ss.now ts.now) }
{
    let declared = Declared { sig, wits: types };
    match head_type(alloc, &declared, &Context::Empty, head)? {
        Some(ty) => Ok(Some(differences(alloc, &ty, ss, ts, 0, Alternatives::new(alloc))?)),
        None => Ok(None),
    }
}

/// The alternatives for two terms, or none where they have no such head or two.
fn spines_differ(
    alloc: Global,
    sig: &Signature,
    types: &Types,
    left: Option<Spine>,
    right: Option<Spine>,
) -> Result<Option<Alternatives>, AllocError>
    ensures { IfOk result (SpinesDiffer (the_scope sig.now types.now) left.entry right.entry) }
{
    match left {
        Some(left) => match right {
            Some(right) => {
                if left.head.same(right.head) {
                    Ok(arguments_differ(alloc, sig, types, left.head, left.args, right.args)?)
                } else {
                    Ok(None)
                }
            }
            None => Ok(None),
        },
        None => Ok(None),
    }
}

pub fn mat_instance(
    alloc: Global,
    sig: &Signature,
    types: &Types,
    branch: &Lits,
    i: usize,
    j: usize,
) -> Result<Option<Alternatives>, AllocError>
    ensures { IfOk result (λ a. (rows : List Row) → FindsInstance (the_scope sig.now types.now) rows branch.now (AtTwo Mat i j) a) }
{
    let left = spine_at(branch, i, true);
    let right = spine_at(branch, j, false);
    Ok(spines_differ(alloc, sig, types, left, right)?)
}

pub fn dec_instance(
    alloc: Global,
    sig: &Signature,
    types: &Types,
    branch: &Lits,
    i: usize,
) -> Result<Option<Alternatives>, AllocError>
    ensures { IfOk result (λ a. (rows : List Row) → FindsInstance (the_scope sig.now types.now) rows branch.now (AtOne Dec i) a) }
{
    match equation_at(branch, i, false) {
        Some(equation) => {
            if is_plain_base(equation.ty) {
                let left = spine_of(equation.left);
                let right = spine_of(equation.right);
                Ok(spines_differ(alloc, sig, types, left, right)?)
            } else {
                Ok(None)
            }
        }
        None => Ok(None),
    }
}
