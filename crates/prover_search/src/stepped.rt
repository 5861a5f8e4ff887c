//! What a step answers.

/// The clauses are unsatisfiable; or no command is left; or the limit of commands is reached; or the conflicts of the mode are spent, and
/// how many they are; or a command was carried out.
#[derive(Clone, Copy, Debug, PartialEq, Eq)]
pub enum Stepped {
    Closed,
    Empty,
    Limit,
    Spent { conflicts: u64 },
    Went,
}
