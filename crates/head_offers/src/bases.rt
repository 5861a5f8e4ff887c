//! The base types in the types of constants at the heads of terms.
ghost use Rattle.std.specs.Prelude.{◌≡◌, ◌<◌, ◌||◌, ℕ, length, map, option_map, IfOk};
ghost use Rattle.std.specs.List.{All};
ghost use Rattle.stt_core.specs.View.{the_type, the_head};
ghost use Rattle.term_bank.specs.Terms.{term_at};
ghost use Rattle.search_spec.specs.Offers.{has_base, is_over};
ghost use Rattle.head_offers.specs.Internal.Marks.{is_flagged};
ghost use Rattle.head_offers.specs.Internal.Passing.{head_passes, any_passes, ranged_in, has_base_if_any};

use crate::marks::mark;
use crate::names::name_of;
use std::alloc::{AllocError, Global};
use stt_core::{Head, Ty};
use term_bank::{Bank, Id, Node};

/// Marks the base types in a type.
fn mark_bases(flags: &mut Vec<bool>, ty: &Ty)
    ensures length { length flags.new.items ≡ length flags.old.items }
    ensures flags { (n : ℕ) → n < length flags.old.items → is_flagged flags.new.items n
        ≡ (is_flagged flags.old.items n || has_base n (the_type ty.now)) }
{
    match ty {
        Ty::Base(n) => mark(flags, *n as usize),
        Ty::Arrow(a, b) => {
            mark_bases(flags, a);
            mark_bases(flags, b);
        }
    }
}

/// The type over which a head of the logic's own is one.
fn ranged_type(head: &Head) -> Option<&Ty>
    ensures { option_map (λ ty. the_type ty.now) result ≡ ranged_in (the_head head.now) }
{
    match head {
        Head::Bound(_) => None,
        Head::Name(_) => None,
        Head::Wit(_) => None,
        Head::False => None,
        Head::Not => None,
        Head::Imp => None,
        Head::All(ty) => Some(ty),
        Head::Eq(ty) => Some(ty),
        Head::Choice(ty) => Some(ty),
        Head::Desc(ty) => Some(ty),
    }
}

/// The type of a constant at the head of a term, as far as its base types are looked at.
fn type_at(bank: &Bank, id: Id) -> Option<&Ty>
    requires { id < length bank.now.terms }
    ensures { (n : ℕ) → head_passes (is_over (map (λ c. c.type) bank.now.consts) n) (term_at bank.now.terms id) ≡ has_base_if_any n
        (option_map (λ ty. the_type ty.now) result) }
{
    match bank.node(id) {
        Node::Lam { ty: _, body: _ } => None,
        Node::App { head, args: _ } => match name_of(head) {
            Some(k) => bank.sig().consts.type_of(k as usize),
            None => ranged_type(head),
        },
    }
}

/// Marks the base types in the type of the constant at the head of a term.
fn mark_at(flags: &mut Vec<bool>, bank: &Bank, id: Id)
    requires { id < length bank.now.terms }
    ensures length { length flags.new.items ≡ length flags.old.items }
    ensures flags { (n : ℕ) → n < length flags.old.items → is_flagged flags.new.items n
        ≡ (is_flagged flags.old.items n || head_passes (is_over (map (λ c. c.type) bank.now.consts) n) (term_at bank.now.terms id)) }
{
    match type_at(bank, id) {
        Some(ty) => mark_bases(flags, ty),
        None => {}
    }
}

/// For each of so many base types whether it occurs in the type of a constant at the head of one of these terms.
pub(crate) fn bases_at_heads(
    alloc: Global,
    bank: &Bank,
    found: &[Id],
    count: usize,
) -> Result<Vec<bool>, AllocError>
    requires within { All (λ id. id < length bank.now.terms) found.now }
    ensures length { IfOk result (λ flags. length flags.items ≡ count) }
    ensures flags { (n : ℕ) → n < count → IfOk result (λ flags. is_flagged flags.items n ≡ any_passes bank.now.terms
        (is_over (map (λ c. c.type) bank.now.consts) n) found.now) }
{
    let mut flags = vec![in alloc; false; count]?;
    for i in 0..found.len() {
        mark_at(&mut flags, bank, found[i]);
    }
    Ok(flags)
}
