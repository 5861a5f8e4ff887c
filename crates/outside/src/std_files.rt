// The system's files.
ghost use Rattle.std.specs.Prelude.{◌≡◌, ◌≤◌, List, ℕ, [], None, false, IsTrue, OnOk, OnErr};
ghost use Rattle.std.specs.Io.KnownBytes.{ReadConsumes};
ghost use Rattle.std.specs.Io.{ReadsAtMost};
ghost use Rattle.outside.specs.Causes.{next_count};

use crate::{Failed, Files};
use std::io::Read;
use std::{fs, rt};

/// The system's files. A name is a path from the working directory on. They tell nothing of what
/// they contain, and keep one count of faults for all names.
#[derive(Drop)]
pub struct StdFiles<R: rt::Files> {
    rt: R,
    current: Option<R::File>,
    faults: u64,
}

impl<R: rt::Files> StdFiles<R> {
    pub fn new(rt: R) -> Self
        ensures faults { (name : List ℕ) → ⟦<StdFiles<R> as Files>⟧.faults result name ≡ 0 }
    {
        StdFiles {
            rt,
            current: None,
            faults: 0,
        }
    }
}

impl<R: rt::Files> Files for StdFiles<R> {
    ghost use Rattle.outside.specs.StdFiles.{is_reading, fault_count, known_left};

    ghost seen = { λ f. record { tells = false; contents = λ name. None } };

    ghost has_current = { λ f. is_reading f };

    ghost goes_by = { λ f name. Unit {0} };

    ghost left = { λ f. [] };

    ghost faults = { λ f name. fault_count f };

    fn open_file(&mut self, name: &str) -> Result<(), Failed> {
        match fs::open(&self.rt, name) {
            Ok(file) => {
                self.current = Some(file);
                Ok(())
            }
            Err(_) => {
                self.faults = self.faults.saturating_add(1);
                Err(Failed)
            }
        }
    }

    // What std's reader tells of its bytes is handed on.
    fn read(&mut self, buf: &mut [u8]) -> Result<usize, Failed>
        requires current { IsTrue (is_reading self.old) }
        ensures bound { ReadsAtMost result buf.new }
        ensures consumed { ReadConsumes (known_left R.File.remaining self.old)
            (known_left R.File.remaining self.new) result buf.new }
        ensures current { IsTrue (is_reading self.new) }
        ensures uncounted { OnOk result (fault_count self.new ≡ fault_count self.old) }
        ensures counted { OnErr result (fault_count self.new ≡ next_count (fault_count self.old)) }
        ensures later { fault_count self.old ≤ fault_count self.new }
    {
        let file = self.current.as_mut().unwrap();
        match file.read(buf) {
            Ok(count) => Ok(count),
            Err(_) => {
                self.faults = self.faults.saturating_add(1);
                Err(Failed)
            }
        }
    }
}
