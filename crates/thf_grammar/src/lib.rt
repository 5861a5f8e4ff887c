//! The grammar of THF files, as definitions: which texts are tokens, and which tokens have which tree. The code has the tokens, the
//! terminals and the trees of which it speaks.
#![tactic(auto)]

mod connective;
mod formula;
mod statement;
mod terminal;
mod token;
mod types;

pub use connective::{Binder, Conn};
pub use formula::Surface;
pub use statement::{Annotated, Body, FileTree, Selected, Selection, Statement};
pub use terminal::{Mark, Terminal};
pub use token::{Token, TokenKind, Tokens};
pub use types::{SurfaceTy, SurfaceVar, SurfaceVars};
