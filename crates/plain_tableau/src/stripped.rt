//! What is left where the cuts are taken away.

use refute_share::{SharedLits, SharedRefutation};

/// A tree without cut as a refutation, with how many nodes it has; the first branch that stays open; or that a tree would have more nodes
/// than these.
#[derive(Drop)]
pub enum Stripped {
    Tree {
        refutation: SharedRefutation,
        nodes: u32,
    },
    Open {
        branch: SharedLits,
    },
    Over {
        nodes: u32,
    },
}
