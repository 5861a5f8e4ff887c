//! Limits on a problem's files.

/// How many bytes the files of a problem may have together.
pub const MAX_BYTES: usize = 16_777_216;

/// How many files of a problem may be opened. A file that is included twice counts twice.
pub const MAX_FILES: usize = 256;
