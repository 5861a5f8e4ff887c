//! Heads with arguments that are compared.
ghost use Rattle.std.specs.Prelude.{◌≡◌, ◌<◌, ◌&&◌, true, length};
ghost use Rattle.stt_core.specs.View.{the_head};
ghost use Rattle.term_bank.specs.Terms.{term_at};
ghost use Rattle.search_spec.specs.Spine.{has_compared_head, is_spine, same_head};

use stt_core::Head;
use term_bank::{Bank, Id, Node};

/// Whether the arguments of a head are compared.
fn is_compared(head: &Head) -> bool
    ensures { result ≡ has_compared_head (the_head head.now) }
{
    match head {
        Head::Bound(_) => false,
        Head::Name(_) => true,
        Head::Wit(_) => true,
        Head::False => false,
        Head::Not => false,
        Head::Imp => false,
        Head::All(_) => false,
        Head::Eq(_) => false,
        Head::Choice(_) => true,
        Head::Desc(_) => true,
    }
}

/// Whether a term is a compared head with arguments.
pub(crate) fn is_spine(bank: &Bank, id: Id) -> bool
    requires { id < length bank.now.terms }
    ensures { result ≡ is_spine (term_at bank.now.terms id) }
{
    match bank.node(id) {
        Node::App { head, args } => {
            if args.len() == 0 {
                false
            } else {
                is_compared(head)
            }
        }
        Node::Lam { ty: _, body: _ } => false,
    }
}

/// Whether a term has the head of another one, which is a compared head with arguments.
fn has_its_head(bank: &Bank, s: Id, t: Id) -> bool
    requires s { s < length bank.now.terms }
    requires t { t < length bank.now.terms }
    requires spine { is_spine (term_at bank.now.terms s) ≡ true }
    ensures { result ≡ same_head (term_at bank.now.terms s) (term_at bank.now.terms t) }
{
    match bank.node(s) {
        Node::App { head, args: _ } => match bank.node(t) {
            Node::App {
                head: other,
                args: _,
            } => head.same(other),
            Node::Lam { ty: _, body: _ } => false,
        },
        Node::Lam { ty: _, body: _ } => unreachable!(),
    }
}

/// Whether two terms have one compared head with arguments.
pub(crate) fn share_spine(bank: &Bank, s: Id, t: Id) -> bool
    requires s { s < length bank.now.terms }
    requires t { t < length bank.now.terms }
    ensures { result ≡ (is_spine (term_at bank.now.terms s) && same_head (term_at bank.now.terms s) (term_at bank.now.terms t)) }
{
    if is_spine(bank, s) {
        has_its_head(bank, s, t)
    } else {
        false
    }
}
