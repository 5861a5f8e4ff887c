//! Whether two canonical terms are the same.

ghost use Rattle.std.specs.Prelude.{◌≡◌, IsTrue, ◌↔◌};
ghost use Rattle.stt_core.specs.View.{the_head};

use crate::nf::{Head, Nf};
use crate::ty::Types;

fn types_same(a: &Types, b: &Types) -> bool
    ensures { IsTrue result ↔ a.now ≡ b.now }
{
    if a.len() != b.len() {
        return false;
    }
    for i in 0..a.len() {
        if !a.at(i).same(b.at(i)) {
            return false;
        }
    }
    true
}

/// Whether the two terms are the same.
pub fn same_nf(a: &Nf, b: &Nf) -> bool
    ensures { IsTrue result ↔ a.now ≡ b.now }
{
    if !types_same(&a.binders, &b.binders)
        || !a.head.same(&b.head)
        || a.args.len() != b.args.len()
    {
        return false;
    }
    for i in 0..a.args.len() {
        if !same_nf(a.args.at(i), b.args.at(i)) {
            return false;
        }
    }
    true
}

impl Head {
    /// Whether the two heads are the same.
    pub fn same(&self, other: &Head) -> bool
        ensures { IsTrue result ↔ the_head self.now ≡ the_head other.now }
    {
        match (self, other) {
            (Head::Bound(j), Head::Bound(k)) => *j == *k,
            (Head::Name(j), Head::Name(k)) => *j == *k,
            (Head::Wit(j), Head::Wit(k)) => *j == *k,
            (Head::False, Head::False) => true,
            (Head::Not, Head::Not) => true,
            (Head::Imp, Head::Imp) => true,
            (Head::All(a), Head::All(b)) => a.same(b),
            (Head::Eq(a), Head::Eq(b)) => a.same(b),
            (Head::Choice(a), Head::Choice(b)) => a.same(b),
            (Head::Desc(a), Head::Desc(b)) => a.same(b),
            _ => false,
        }
    }
}
