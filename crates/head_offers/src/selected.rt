//! Choices and descriptions at the heads of terms.
ghost use Rattle.std.specs.Prelude.{◌≡◌, ◌<◌, length};
ghost use Rattle.std.specs.List.{All};
ghost use Rattle.stt_core.specs.View.{the_head};
ghost use Rattle.term_bank.specs.Terms.{term_at};
ghost use Rattle.search_spec.specs.Offers.{is_selection};
ghost use Rattle.head_offers.specs.Internal.Passing.{head_passes, any_passes};

use stt_core::Head;
use term_bank::{Bank, Id, Node};

fn selects(head: &Head) -> bool
    ensures { result ≡ head_passes is_selection (the_head head.now) }
{
    match head {
        Head::Bound(_) => false,
        Head::Name(_) => false,
        Head::Wit(_) => false,
        Head::False => false,
        Head::Not => false,
        Head::Imp => false,
        Head::All(_) => false,
        Head::Eq(_) => false,
        Head::Choice(_) => true,
        Head::Desc(_) => true,
    }
}

/// Whether the head of a term is a choice or a description.
fn selects_at(bank: &Bank, id: Id) -> bool
    requires { id < length bank.now.terms }
    ensures { result ≡ head_passes is_selection (term_at bank.now.terms id) }
{
    match bank.node(id) {
        Node::Lam { ty: _, body: _ } => false,
        Node::App { head, args: _ } => selects(head),
    }
}

/// Whether the head of one of these terms is a choice or a description.
pub(crate) fn selects_at_heads(bank: &Bank, found: &[Id]) -> bool
    requires within { All (λ id. id < length bank.now.terms) found.now }
    ensures { result ≡ any_passes bank.now.terms is_selection found.now }
{
    let mut some = false;
    for i in 0..found.len() {
        some |= selects_at(bank, found[i]);
    }
    some
}
