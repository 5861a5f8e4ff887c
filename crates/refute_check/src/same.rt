//! Literals of a text that are the same.

ghost use Rattle.std.specs.Prelude.{◌≡◌, IsTrue};
ghost use Rattle.refute_print.specs.View.{the_text_type};
ghost use Rattle.refute_print.specs.TreeView.{the_text_head, the_text_node};

use refute_print::{TextHead, TextLit, TextNode, TextTerm, TextTerms, TextTy};

fn same_type(left: &TextTy, right: &TextTy) -> bool
    ensures { IsTrue result → the_text_type left.now ≡ the_text_type right.now }
{
    match (left, right) {
        (TextTy::Form, TextTy::Form) => true,
        (TextTy::Indiv, TextTy::Indiv) => true,
        (TextTy::Named(a), TextTy::Named(b)) => a.as_slice() == b.as_slice(),
        (TextTy::Arrow(a, b), TextTy::Arrow(c, d)) => same_type(a, c) && same_type(b, d),
        _ => false,
    }
}

fn same_head(left: &TextHead, right: &TextHead) -> bool
    ensures { IsTrue result → the_text_head left.now ≡ the_text_head right.now }
{
    match (left, right) {
        (TextHead::Bound(a), TextHead::Bound(b)) => *a == *b,
        (TextHead::Name(a), TextHead::Name(b)) => a.as_slice() == b.as_slice(),
        (TextHead::Wit(a), TextHead::Wit(b)) => *a == *b,
        (TextHead::False, TextHead::False) => true,
        (TextHead::Not, TextHead::Not) => true,
        (TextHead::Imp, TextHead::Imp) => true,
        (TextHead::All(a), TextHead::All(b)) => same_type(a, b),
        (TextHead::Eq(a), TextHead::Eq(b)) => same_type(a, b),
        (TextHead::Choice(a), TextHead::Choice(b)) => same_type(a, b),
        (TextHead::Desc(a), TextHead::Desc(b)) => same_type(a, b),
        _ => false,
    }
}

#[cycle(same_term)]
fn same_terms(left: &TextTerms, right: &TextTerms) -> bool
    ensures { IsTrue result → left.now ≡ right.now }
{
    if left.len() != right.len() {
        return false;
    }
    for i in 0..left.len() {
        if !same_term(left.at(i), right.at(i)) {
            return false;
        }
    }
    true
}

#[cycle(same_term)]
fn same_term(left: &TextTerm, right: &TextTerm) -> bool
    ensures { IsTrue result → left.now ≡ right.now }
{
    match (&left.node, &right.node) {
        (TextNode::Lam(a, s), TextNode::Lam(b, t)) => same_type(a, b) && same_term(s, t),
        (TextNode::App(f, ss), TextNode::App(g, ts)) => same_head(f, g) && same_terms(ss, ts),
        _ => false,
    }
}

/// Whether the two literals are the same.
pub(crate) fn same_literal(left: &TextLit, right: &TextLit) -> bool
    ensures { IsTrue result → left.now ≡ right.now }
{
    left.positive == right.positive && same_term(&left.atom, &right.atom)
}
