// Files by name.
ghost use Rattle.std.specs.Prelude.{◌≡◌, [], ◌∷◌, ◌++◌, OnOk, OnErr, ◌+◌, replicate, length};

use crate::Bytes;
use std::alloc::{AllocError, Global};
use std::marker::Model;

/// A file, and how often a call has failed for its name.
#[derive(Drop)]
pub struct Entry {
    pub name: String,
    pub bytes: Bytes,
    pub faults: u64,
}

/// Files by name, in order. Where a name comes twice, its first file counts.
#[derive(Drop)]
pub struct FileList {
    entries: Vec<Entry>,
}

impl Model for FileList {
    ghost use Rattle.std.specs.Prelude.{◌≡◌, ◌+◌, List, ℕ, length, replicate};

    ghost Value = { List (List ℕ × List ℕ) };

    ghost use Rattle.outside.specs.Entry.{files_of, counts_of};

    ghost view = { λ l. files_of l.entries.items };

    ghost invariant = { λ l. counts_of l.entries.items 0 ≡ replicate (length l.entries.items + 1) 0 };
}

impl FileList {
    ghost use Rattle.outside.specs.Entry.{files_of, counts_of};

    pub fn new(alloc: Global) -> Self
        ensures { result ≡ [] }
    {
        FileList {
            entries: Vec::new(alloc),
        }
    }

    pub fn push(&mut self, name: &str, bytes: &[u8]) -> Result<(), AllocError>
        ensures ok { OnOk result (self.new ≡ self.old ++ (name.now, bytes.now) ∷ []) }
        ensures err { OnErr result (self.new ≡ self.old) }
    {
        let alloc = *self.entries.allocator();
        self.entries.push(Entry {
            name: String::from_str(alloc, name)?,
            bytes: Bytes::from_slice(alloc, bytes)?,
            faults: 0,
        })?;
        Ok(())
    }

    pub(crate) fn into_entries(self) -> Vec<Entry>
        ensures files { files_of result.items ≡ self }
        ensures counts { counts_of result.items 0 ≡ replicate (length self + 1) 0 }
    {
        self.entries
    }
}
