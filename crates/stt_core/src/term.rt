//! Terms.

use crate::ty::Ty;

/// A term, which may have a type or none. A bound variable counts the binders between it and its own; a name is a place among the
/// constants of a signature, a witness a row of a witness table.
#[derive(Drop)]
pub enum Term {
    Bound(u32),
    Name(u32),
    Wit(u32),
    False,
    Not,
    Imp,
    All(Ty),
    Eq(Ty),
    Choice(Ty),
    Desc(Ty),
    Lam(Ty, Box<Term>),
    App(Box<Term>, Box<Term>),
}
