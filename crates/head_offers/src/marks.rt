//! Marks, a truth value for each number below some one.
ghost use Rattle.std.specs.Prelude.{◌≡◌, ◌<◌, length, slice_set};
ghost use Rattle.std.specs.List.{All};
ghost use Rattle.term_bank.specs.NodeView.{the_shape};
ghost use Rattle.head_offers.specs.Internal.Marks.{with_mark, with_marks, parts_of};

use term_bank::{Id, Node};

/// Marks a number, where it is small enough.
pub(crate) fn mark(marks: &mut Vec<bool>, i: usize)
    ensures { marks.new.items ≡ with_mark i marks.old.items }
{
    if i < marks.len() {
        marks[i] = true;
    }
}

/// Marks numbers.
pub(crate) fn mark_all(marks: &mut Vec<bool>, ids: &[Id])
    ensures { marks.new.items ≡ with_marks ids.now marks.old.items }
{
    for i in 0..ids.len() {
        mark(marks, ids[i] as usize);
    }
}

/// Marks the terms that a node stands on.
pub(crate) fn mark_parts(marks: &mut Vec<bool>, node: &Node)
    ensures { marks.new.items ≡ with_marks (parts_of (the_shape node.now)) marks.old.items }
{
    match node {
        Node::Lam { ty: _, body } => mark(marks, *body as usize),
        Node::App { head: _, args } => mark_all(marks, args.as_slice()),
    }
}
