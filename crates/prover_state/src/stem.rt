//! What a partial term grew from.

use crate::head::HoleHead;
use std::rc::Rc;
use stt_core::Ty;

/// A partial term: one hole under the binders of a type, or an earlier partial term with a head in its first hole.
#[derive(Drop)]
pub enum Stem {
    Blank(Rc<Ty>),
    Grown { parent: u32, head: HoleHead },
}
