//! How runs end.

use plain_tableau::Stripped;
use refute_share::SharedRefutation;

/// How a run ends: after so many commands its clauses have no satisfying assignment, as a refutation shows, with what comes of a tree
/// without cut where one is asked for; after so many no command is left; the limit of commands is reached; or the conflicts of the mode are
/// spent, and how many they are.
#[derive(Drop)]
pub enum Ended {
    Proved {
        commands: u32,
        refutation: SharedRefutation,
        tree: Option<Stripped>,
    },
    GaveUp {
        commands: u32,
    },
    CommandLimit {
        commands: u32,
    },
    ConflictLimit {
        conflicts: u64,
    },
}
