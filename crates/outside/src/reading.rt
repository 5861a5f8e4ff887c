// Reads whole files.
ghost use Rattle.std.specs.Prelude.{◌≡◌, ◌≤◌, ◌<◌, ◌++◌, List, ℕ, Some, length, IfOk, OnOk, IsErrOf, IsTrue};
ghost use Rattle.outside.specs.Causes.{Rose};

use crate::{Bytes, Files};
use std::alloc::Global;
use thiserror::Error;

/// How many bytes are asked for at once, and so read past a limit at most.
const BUFFER: usize = 8192;

/// Why a file was not read whole.
#[derive(Clone, Copy, Debug, PartialEq, Eq, Error)]
pub enum ReadRefused {
    /// A call failed, and the count of the file's name rose.
    #[error("the file can't be read")]
    Fault,
    /// More bytes were read than the limit.
    #[error("the file is too long")]
    TooLong,
    /// There is no memory for the bytes.
    #[error("no memory is left")]
    Memory,
}

/// Reads a whole file of at most `limit` bytes.
pub fn read_whole<F: Files>(
    alloc: Global,
    files: &mut F,
    name: &str,
    limit: usize,
) -> Result<Bytes, ReadRefused>
    ensures whole { IfOk result (λ bytes. IsTrue (F.seen files.old).tells
        → (F.seen files.old).contents name.now ≡ Some bytes) }
    ensures short { IfOk result (λ bytes. length bytes ≤ limit) }
    ensures fault { IsErrOf result ReadRefused.Fault
        → Rose (F.faults files.old name.now) (F.faults files.new name.now) }
    ensures long { IsErrOf result ReadRefused.TooLong → IsTrue (F.seen files.old).tells
        → (bytes : List ℕ) × ((F.seen files.old).contents name.now ≡ Some bytes) × (limit < length bytes) }
    ensures quiet { (IsErrOf result ReadRefused.Fault → ⊥)
        → (other : List ℕ) → F.faults files.new other ≡ F.faults files.old other }

    ensures later { (other : List ℕ) → F.faults files.old other ≤ F.faults files.new other }
    ensures same { F.seen files.new ≡ F.seen files.old }
{
    if files.open_file(name).is_err() {
        return Err(ReadRefused::Fault);
    }
    let mut bytes = Bytes::new(alloc);
    read_rest(files, name, limit, &mut bytes)?;
    Ok(bytes)
}

/// Appends what is left of the current file, which goes by this name.
fn read_rest<F: Files>(
    files: &mut F,
    name: &str,
    limit: usize,
    bytes: &mut Bytes,
) -> Result<(), ReadRefused>
    requires current { IsTrue (F.has_current files.old) }
    requires named { F.goes_by files.old name.now }
    requires short { length bytes.old ≤ limit }
    requires read { IsTrue (F.seen files.old).tells
        → (F.seen files.old).contents name.now ≡ Some (bytes.old ++ F.left files.old) }
    ensures whole { OnOk result (IsTrue (F.seen files.old).tells
        → (F.seen files.old).contents name.now ≡ Some bytes.new) }
    ensures short { OnOk result (length bytes.new ≤ limit) }
    ensures fault { IsErrOf result ReadRefused.Fault
        → Rose (F.faults files.old name.now) (F.faults files.new name.now) }
    ensures long { IsErrOf result ReadRefused.TooLong → IsTrue (F.seen files.old).tells
        → (bytes : List ℕ) × ((F.seen files.old).contents name.now ≡ Some bytes) × (limit < length bytes) }
    ensures quiet { (IsErrOf result ReadRefused.Fault → ⊥)
        → (other : List ℕ) → F.faults files.new other ≡ F.faults files.old other }

    ensures later { (other : List ℕ) → F.faults files.old other ≤ F.faults files.new other }
    ensures same { F.seen files.new ≡ F.seen files.old }
{
    let mut buf = [0; BUFFER];
    loop {
        let Ok(count) = files.read(&mut buf) else {
            return Err(ReadRefused::Fault);
        };
        if count == 0 {
            return Ok(());
        }
        if count > limit - bytes.len() {
            return Err(ReadRefused::TooLong);
        }
        if bytes.extend_from_slice(&buf[..count]).is_err() {
            return Err(ReadRefused::Memory);
        }
    }
}
