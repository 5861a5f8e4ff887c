//! Nodes as keys: whether two nodes are the same, and what of them is hashed.

ghost use Rattle.std.specs.Prelude.{◌≡◌, fold};
ghost use Rattle.std.specs.Cmp.Lexicographic.{pointwise};
ghost use Rattle.stt_core.specs.View.{the_type, the_head};
ghost use Rattle.term_bank.specs.Shape.{spine, same_shape};
ghost use Rattle.term_bank.specs.Internal.ShapeHash.{stirred, mixed, type_number, head_number, head_writes, shape_number, shape_writes};
ghost use Rattle.term_bank.specs.NodeView.{the_shape};
ghost use Rattle.term_bank.specs.Internal.ShapeLaws.{node_partial_laws, node_laws, node_respects};

use crate::node::{Id, Ids, Node};
use std::hash::{Hash, Hasher};
use stt_core::{Head, Ty};

fn same_spine(h: &Head, us: &Ids, k: &Head, vs: &Ids) -> bool
    ensures { result ≡ same_shape (spine (the_head h.now) us.now) (spine (the_head k.now) vs.now) }
{
    if h.same(k) {
        us.as_slice() == vs.as_slice()
    } else {
        false
    }
}

impl PartialEq for Node {
    ghost eq = { λ a b. same_shape (the_shape a) (the_shape b) };

    ghost laws = { node_partial_laws };

    fn eq(&self, other: &Node) -> bool {
        match (self, other) {
            (Node::Lam { ty: a, body: i }, Node::Lam { ty: b, body: j }) => a.same(b) && *i == *j,
            (Node::App { head: h, args: us }, Node::App { head: k, args: vs }) => {
                same_spine(h, us, k, vs)
            }
            (Node::Lam { ty: _, body: _ }, Node::App { head: _, args: _ }) => false,
            (Node::App { head: _, args: _ }, Node::Lam { ty: _, body: _ }) => false,
        }
    }
}

impl Eq for Node {
    ghost laws = { node_laws };
}

fn stirred(z: u64) -> u64
    ensures { result ≡ stirred z }
{
    z.wrapping_mul(z.wrapping_mul(2).wrapping_add(1))
}

// The odd number next to 2^64 over the golden ratio.
const MULTIPLIER: u64 = 11_400_714_819_323_198_485;

/// A number of 64 bits from two others.
fn mixed(x: u64, y: u64) -> u64
    ensures { result ≡ mixed x y }
{
    stirred(x.wrapping_mul(MULTIPLIER).wrapping_add(y).wrapping_add(1))
}

/// A number of 64 bits for a type, so that a hasher takes in one number and not the whole type.
fn type_number(ty: &Ty) -> u64
    ensures { result ≡ type_number (the_type ty.now) }
{
    match ty {
        Ty::Base(n) => mixed(0, u64::from(*n)),
        Ty::Arrow(a, b) => mixed(type_number(a), type_number(b)),
    }
}

/// A number of 64 bits for a head.
fn head_number(head: &Head) -> u64
    ensures { result ≡ head_number (the_head head.now) }
{
    match head {
        Head::Bound(k) => mixed(9, u64::from(*k)),
        Head::Name(k) => mixed(0, u64::from(*k)),
        Head::Wit(k) => mixed(1, u64::from(*k)),
        Head::False => 2,
        Head::Not => 3,
        Head::Imp => 4,
        Head::All(a) => mixed(5, type_number(a)),
        Head::Eq(a) => mixed(6, type_number(a)),
        Head::Choice(a) => mixed(7, type_number(a)),
        Head::Desc(a) => mixed(8, type_number(a)),
    }
}

/// A number of 64 bits for a head, which has the first one, with arguments.
fn spine_number(head: u64, args: &[Id]) -> u64
    ensures { result ≡ fold mixed head args.now }
{
    let mut number = head;
    for i in 0..args.len() {
        number = mixed(number, u64::from(args[i]));
    }
    number
}

/// A number of 64 bits for a node.
fn node_number(node: &Node) -> u64
    ensures { result ≡ shape_number (the_shape node.now) }
{
    match node {
        Node::Lam { ty, body } => mixed(mixed(10, type_number(ty)), u64::from(*body)),
        Node::App { head, args } => spine_number(head_number(head), args.as_slice()),
    }
}

/// Feeds a hasher with a head.
pub fn hash_head<H: Hasher>(head: &Head, state: &mut H)
    ensures { state.new ≡ fold H.write state.old (head_writes (the_head head.now)) }
{
    state.write_u64(head_number(head));
}

impl Hash for Node {
    ghost hash_input = { λ n. shape_writes (the_shape n) };

    ghost respects_eq = { node_respects };

    fn hash<H: Hasher>(&self, state: &mut H) {
        state.write_u64(node_number(self));
    }
}
