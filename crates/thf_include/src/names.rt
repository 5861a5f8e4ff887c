//! The names of a problem's files.

ghost use Rattle.std.specs.Prelude.{◌≡◌, ◌<◌, [], ◌∷◌, ◌++◌, Some, length, slice_get, OnOk, OnErr};

use outside::Bytes;
use std::alloc::{AllocError, Global};
use std::marker::Model;

/// The names of a problem's files, in the order in which the files are opened.
#[derive(Drop)]
pub struct FileNames {
    items: Vec<Bytes>,
}

impl Model for FileNames {
    ghost use Rattle.std.specs.Prelude.{List, ℕ};

    ghost Value = { List (List ℕ) };

    ghost view = { λ names. names.items.items };
}

impl FileNames {
    pub fn new(alloc: Global) -> Self
        ensures { result ≡ [] }
    {
        FileNames {
            items: Vec::new(alloc),
        }
    }

    pub fn push(&mut self, name: Bytes) -> Result<(), AllocError>
        ensures ok { OnOk result (self.new ≡ self.old ++ name ∷ []) }
        ensures err { OnErr result (self.new ≡ self.old) }
    {
        self.items.push(name)?;
        Ok(())
    }

    pub fn len(&self) -> usize
        ensures { result ≡ length self.now }
    {
        self.items.len()
    }

    /// The name of the file of that number.
    pub fn get(&self, i: usize) -> &[u8]
        requires { i < length self.now }
        ensures { slice_get self.now i ≡ Some result.now }
    {
        self.items[i].as_slice()
    }
}
