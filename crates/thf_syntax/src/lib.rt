//! The surface trees of THF: what the grammar reads, with the places of its tokens; and their texts.
#![tactic(auto)]

mod law;
mod slot;
mod write_formula;
mod write_statement;
mod write_types;

pub use law::{read_trees_are_printable, texts_have_their_trees};
pub use thf_grammar::{
    Annotated, Binder, Body, Conn, FileTree, Selected, Selection, Statement, Surface, SurfaceTy,
    SurfaceVar, SurfaceVars,
};
pub use thf_names::{is_lower_word, is_word_byte, write_name};
pub use write_statement::write_surface;
