//! The names at the heads of terms.
ghost use Rattle.std.specs.Prelude.{◌≡◌, ◌<◌, ◌||◌, ℕ, length, IfOk};
ghost use Rattle.std.specs.List.{All};
ghost use Rattle.stt_core.specs.View.{the_head};
ghost use Rattle.term_bank.specs.Terms.{term_at};
ghost use Rattle.search_spec.specs.Offers.{is_name};
ghost use Rattle.head_offers.specs.Internal.Marks.{is_flagged};
ghost use Rattle.head_offers.specs.Internal.Passing.{head_passes, any_passes, name_number, is_number};

use crate::marks::mark;
use std::alloc::{AllocError, Global};
use stt_core::Head;
use term_bank::{Bank, Id, Node};

/// The name that a head is, where it is one.
pub(crate) fn name_of(head: &Head) -> Option<u32>
    ensures { result ≡ name_number (the_head head.now) }
{
    match head {
        Head::Bound(_) => None,
        Head::Name(k) => Some(*k),
        Head::Wit(_) => None,
        Head::False => None,
        Head::Not => None,
        Head::Imp => None,
        Head::All(_) => None,
        Head::Eq(_) => None,
        Head::Choice(_) => None,
        Head::Desc(_) => None,
    }
}

/// The name at the head of a term, where there is one.
fn name_at(bank: &Bank, id: Id) -> Option<u32>
    requires { id < length bank.now.terms }
    ensures { (k : ℕ) → head_passes (is_name k) (term_at bank.now.terms id) ≡ is_number k result }
{
    match bank.node(id) {
        Node::Lam { ty: _, body: _ } => None,
        Node::App { head, args: _ } => name_of(head),
    }
}

/// Marks a name, where there is one.
fn mark_name(flags: &mut Vec<bool>, name: Option<u32>)
    ensures length { length flags.new.items ≡ length flags.old.items }
    ensures flags { (k : ℕ) → k < length flags.old.items → is_flagged flags.new.items k
        ≡ (is_flagged flags.old.items k || is_number k name) }
{
    match name {
        Some(k) => mark(flags, k as usize),
        None => {}
    }
}

/// For each of so many names whether it is the head of one of these terms.
pub(crate) fn names_at_heads(
    alloc: Global,
    bank: &Bank,
    found: &[Id],
    count: usize,
) -> Result<Vec<bool>, AllocError>
    requires within { All (λ id. id < length bank.now.terms) found.now }
    ensures length { IfOk result (λ flags. length flags.items ≡ count) }
    ensures flags { (k : ℕ) → k < count → IfOk result (λ flags. is_flagged flags.items k ≡ any_passes bank.now.terms (is_name k)
        found.now) }
{
    let mut flags = vec![in alloc; false; count]?;
    for i in 0..found.len() {
        let name = name_at(bank, found[i]);
        mark_name(&mut flags, name);
    }
    Ok(flags)
}
