//! The limits of what is read beside a problem.

/// How many bytes the text of a refutation, and the file of a mode or of a schedule, have at most.
pub(crate) const MAX_BYTES: usize = 16_777_216;
