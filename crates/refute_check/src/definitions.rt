//! The names of a text's definitions, compared with those of the definitions that are taken.

ghost use Rattle.std.specs.Prelude.{◌≡◌, ℕ, ◌+◌, ◌^◌, ◌<◌, ◌≤◌, ◌↔◌, Some, map, length, slice_get, IsTrue, OnOk, IfErr, IfSome, IfNone};
ghost use Rattle.std.specs.List.{AllByRecursion};
ghost use Rattle.stt_core.specs.TypedProblem.{IsTyped};
ghost use Rattle.tableau_calculus.specs.declared.refutation.Why.TheVariants.{Defs};
ghost use Rattle.refute_print.specs.Named.{names_of, name_numbered};
ghost use Rattle.refute_print.specs.TextView.{IsNumberedText};
ghost use Rattle.refute_check.specs.Acceptance.{taken_texts, DifferFirst};
ghost use Rattle.refute_check.specs.Refusal.{IfLine};

use crate::refusal::CheckRefused;
use delta_defs::{NameIds, taken};
use refute_print::{RefutationText, TextNames};
use std::alloc::Global;
use stt_core::{Problem, Signature};
use tableau_calculus::Why;

/// The name of the constant at a place of the list.
fn taken_name<'a>(sig: &'a Signature, taken: &NameIds, i: usize) -> &'a [u8]
    requires declared { AllByRecursion (λ k. k < length sig.now.consts) taken.now }
    requires there { i < length taken.now }
    ensures { slice_get (map (name_numbered (names_of sig.now.bases sig.now.consts).constants) taken.now) i ≡ Some result.now }
{
    sig.consts.name_at(taken.at(i) as usize)
}

/// Whether a place of the list has a constant of this name.
fn has_at(sig: &Signature, taken: &NameIds, i: usize, name: &[u8]) -> bool
    requires { AllByRecursion (λ k. k < length sig.now.consts) taken.now }
    ensures { IsTrue result ↔ (slice_get (map (name_numbered (names_of sig.now.bases sig.now.consts).constants) taken.now) i ≡ Some
        name.now) }
{
    if i < taken.len() {
        taken_name(sig, taken, i) == name
    } else {
        false
    }
}

/// The first place at which names differ from those of constants.
fn first_other(names: &TextNames, sig: &Signature, taken: &NameIds) -> Option<usize>
    requires { AllByRecursion (λ k. k < length sig.now.consts) taken.now }
    ensures other { IfSome result
        (DifferFirst names.now (map (name_numbered (names_of sig.now.bases sig.now.consts).constants) taken.now)) }
    ensures within { IfSome result (λ place. place ≤ length names.now) }
    ensures same { IfNone result (names.now ≡ map (name_numbered (names_of sig.now.bases sig.now.consts).constants) taken.now) }
{
    for i in 0..names.len() {
        if !has_at(sig, taken, i, names.at(i)) {
            return Some(i);
        }
    }
    if names.len() == taken.len() {
        None
    } else {
        Some(names.len())
    }
}

/// Refuses the first line at which the names of a text aren't those of the definitions that are taken.
pub(crate) fn check_definitions(
    alloc: Global,
    problem: &Problem,
    text: &RefutationText,
) -> Result<(), CheckRefused>
    requires problem { IsTyped problem.now }
    requires numbered { IsNumberedText text.now }
    requires room { text.now.first < 2 ^ 64 }
    ensures named { OnOk result (text.now.names ≡ taken_texts problem.now) }
    ensures refused { IfErr result (λ e. IfLine e (λ line why.
        (why ≡ Defs) × (place : ℕ) × DifferFirst text.now.names (taken_texts problem.now) place × (line + length text.now.names ≡ text.now.first + place))) }
{
    let taken = taken(alloc, problem)?;
    match first_other(&text.names, &problem.signature, &taken) {
        None => Ok(()),
        Some(place) => Err(CheckRefused::Line {
            line: text.names_at + place,
            why: Why::Defs,
        }),
    }
}
