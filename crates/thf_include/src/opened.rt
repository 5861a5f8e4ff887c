//! The files that were opened.

ghost use Rattle.std.specs.Prelude.{◌≡◌, ◌+◌, ◌∷◌, [], ◌++◌, ◌≤◌, ◌<◌, List, ℕ, Some, length, slice_get, IsSomeAnd, IfOk, IfErr, OnOk, IsTrue};
ghost use Rattle.outside.specs.Causes.{Rose};
ghost use Rattle.thf_include.specs.Gathering.{file_limit};
ghost use Rattle.outside.specs.Limits.{byte_limit};
ghost use Rattle.thf_include.specs.Answer.{OfFault, IsNoFault};
ghost use Rattle.thf_include.specs.Internal.Opening.{IsReadRefusal};

use crate::limits::{MAX_BYTES, MAX_FILES};
use crate::{FileNames, GatherRefused};
use outside::{Bytes, Files, ReadRefused, read_whole};
use std::alloc::Global;

/// The names of the files that were opened, and how many bytes more the files may have.
#[derive(Drop)]
pub struct Opened {
    pub names: FileNames,
    pub left: usize,
    ghost within: { left ≤ byte_limit },
}

impl Opened {
    pub fn new(alloc: Global) -> Self
        ensures names { result.names ≡ [] }
        ensures left { result.left ≡ byte_limit }
    {
        Opened {
            names: FileNames::new(alloc),
            left: MAX_BYTES,
        }
    }

    /// Opens a file, and reads it whole.
    pub fn read<F: Files>(
        &mut self,
        alloc: Global,
        files: &mut F,
        name: &str,
    ) -> Result<Bytes, GatherRefused>
        requires { length self.old.names < file_limit }
        ensures names { OnOk result (self.new.names ≡ self.old.names ++ name.now ∷ []) }
        ensures left { IfOk result (λ text. self.new.left + length text ≡ self.old.left) }
        ensures told { IfOk result (λ text. IsTrue (F.seen files.old).tells → (F.seen files.old).contents name.now ≡ Some text) }
        ensures refused { IfErr result (IsReadRefusal (F.seen files.old) name.now self.old.names self.new.names self.old.left) }
        ensures fault { IfErr result (OfFault (λ file. IsSomeAnd (slice_get self.new.names file) (λ n.
            Rose (F.faults files.old n) (F.faults files.new n)))) }
        ensures quiet { IfErr result IsNoFault → (other : List ℕ) → F.faults files.new other ≡ F.faults files.old other }

        ensures later { (other : List ℕ) → F.faults files.old other ≤ F.faults files.new other }
        ensures same { F.seen files.new ≡ F.seen files.old }
    {
        let file = self.names.len() as u32;
        self.names.push(Bytes::from_slice(alloc, name.as_bytes())?)?;
        match read_whole(alloc, files, name, self.left) {
            Ok(text) => {
                self.left -= text.len();
                Ok(text)
            }
            Err(ReadRefused::Fault) => Err(GatherRefused::Fault { file }),
            Err(ReadRefused::TooLong) => Err(GatherRefused::TooLong { file }),
            Err(ReadRefused::Memory) => Err(GatherRefused::Memory),
        }
    }
}
