//! What a term chooses or describes by at its head, and the parts of terms.
ghost use Rattle.std.specs.Prelude.{◌≡◌, ◌<◌, true, List, length, Some, slice_get};
ghost use Rattle.stt_core.specs.Lambda.{Lambda};
ghost use Rattle.stt_core.specs.View.{the_head};
ghost use Rattle.term_bank.specs.Terms.{term_at};
ghost use Rattle.search_spec.specs.Closed.{is_closed};
ghost use Rattle.search_spec.specs.Selections.{selection_by};
ghost use Rattle.prover_state.specs.Internal.Selecting.{term_parts, head_selection, IsSelectedIn};

use stt_core::Head;
use term_bank::{Bank, Id, Node};

/// A predicate by which a term chooses or describes a value, where there is one.
#[derive(Clone, Copy, PartialEq, Eq)]
pub(crate) enum Selected {
    Chosen(Id),
    Described(Id),
    Nothing,
}

/// What a head does with a closed predicate.
fn selected_by(head: &Head, f: Id) -> Selected
    ensures { (terms : List Lambda) → f < length terms → is_closed (term_at terms f) ≡ true
        → IsSelectedIn terms (selection_by (the_head head.now) (term_at terms f)) result }
{
    match head {
        Head::Bound(_) => Selected::Nothing,
        Head::Name(_) => Selected::Nothing,
        Head::Wit(_) => Selected::Nothing,
        Head::False => Selected::Nothing,
        Head::Not => Selected::Nothing,
        Head::Imp => Selected::Nothing,
        Head::All(_) => Selected::Nothing,
        Head::Eq(_) => Selected::Nothing,
        Head::Choice(_) => Selected::Chosen(f),
        Head::Desc(_) => Selected::Described(f),
    }
}

/// The predicate by which a term chooses or describes at its head, where it is closed.
pub(crate) fn selection_of(bank: &Bank, id: Id) -> Selected
    requires { id < length bank.now.terms }
    ensures { IsSelectedIn bank.now.terms (head_selection (term_at bank.now.terms id)) result }
{
    match bank.node(id) {
        Node::App { head, args } => {
            if args.len() == 0 {
                return Selected::Nothing;
            }
            let f = args.at(0);
            if !bank.is_closed(f) {
                return Selected::Nothing;
            }
            selected_by(head, f)
        }
        Node::Lam { ty: _, body: _ } => Selected::Nothing,
    }
}

/// How many parts a term has.
pub(crate) fn count_parts(bank: &Bank, id: Id) -> usize
    requires { id < length bank.now.terms }
    ensures { result ≡ length (term_parts (term_at bank.now.terms id)) }
{
    match bank.node(id) {
        Node::App { head: _, args } => args.len(),
        Node::Lam { ty: _, body: _ } => 1,
    }
}

/// A part of a term. It has a smaller number.
pub fn part_of(bank: &Bank, id: Id, i: usize) -> Id
    requires number { id < length bank.now.terms }
    requires within { i < length (term_parts (term_at bank.now.terms id)) }
    ensures smaller { result < id }
    ensures part { slice_get (term_parts (term_at bank.now.terms id)) i ≡ Some (term_at bank.now.terms result) }
{
    match bank.node(id) {
        Node::App { head: _, args } => args.at(i),
        Node::Lam { ty: _, body } => *body,
    }
}
