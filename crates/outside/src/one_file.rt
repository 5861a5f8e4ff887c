// The same bytes under every name.
ghost use Rattle.std.specs.Prelude.{◌≡◌, ◌≤◌, [], List, ℕ, length, drop, is_some, Some, true, IsTrue};
ghost use Rattle.std.specs.Option.{option_map_or, ForSome};

use crate::in_memory::read_at;
use crate::{Bytes, Failed, Files};

/// Files that have the same bytes under every name. No call fails.
#[derive(Drop)]
pub struct OneFile {
    bytes: Bytes,
    position: Option<usize>,
    ghost within: { ForSome position (λ p. p ≤ length bytes) },
}

impl OneFile {
    pub fn new(bytes: Bytes) -> Self
        ensures told { IsTrue (⟦<OneFile as Files>⟧.seen result).tells }
        ensures contents { (name : List ℕ)
            → (⟦<OneFile as Files>⟧.seen result).contents name ≡ Some bytes }
        ensures faults { (name : List ℕ) → ⟦<OneFile as Files>⟧.faults result name ≡ 0 }
    {
        OneFile {
            bytes,
            position: None,
        }
    }
}

impl Files for OneFile {
    ghost seen = { λ f. record { tells = true; contents = λ name. Some f.bytes } };

    ghost has_current = { λ f. is_some f.position };

    ghost goes_by = { λ f name. Unit {0} };

    ghost left = { λ f. option_map_or (λ p. drop p f.bytes) f.position [] };

    ghost faults = { λ f name. 0 };

    fn open_file(&mut self, _name: &str) -> Result<(), Failed> {
        self.position = Some(0);
        Ok(())
    }

    fn read(&mut self, buf: &mut [u8]) -> Result<usize, Failed> {
        let position = self.position.as_mut().unwrap();
        Ok(read_at(self.bytes.as_slice(), position, buf))
    }
}
