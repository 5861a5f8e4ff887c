//! Modes of the search, and the files that state them.
#![tactic(auto)]

ghost use Rattle.std.specs.Prelude.{◌≡◌, ◌≤◌, ◌^◌, length, IfOk, IfErr};
ghost use Rattle.mode_file.specs.Given.{nothing_given, mode_of, IsInRange};
ghost use Rattle.outside.specs.Lines.{lines_of};
ghost use Rattle.mode_file.specs.Grammar.{States};
ghost use Rattle.mode_file.specs.Refusals.{Refuses};

mod bytes;
mod given;
mod keys;
mod law;
mod line;
mod number;
mod refused;

use crate::given::Given;
pub use bytes::{Split, next_line};
pub use law::one_answer;
pub use line::{begins_with_key, says_nothing};
pub use number::{NumberRefused, first_word, read_number};
pub use refused::ModeRefused;

/// What the search is run by: how long each kind of command is put off, and from which moment on; whether terms are offered early; how
/// much longer commands wait that bring in a default; whether partial terms grow only by what occurs in the start; how many commands are
/// carried out at most; and how many conflicts the solver may meet. By clock 0 the moment is the number of the command that is carried
/// out, by clock 1 the moment at which that command was due.
#[derive(Clone, Copy, Debug, PartialEq, Eq)]
pub struct Mode {
    pub process: u32,
    pub mate: u32,
    pub confront: u32,
    pub inst: u32,
    pub choose: u32,
    pub grow: u32,
    pub clock: u32,
    pub terms: u32,
    pub defaults: u32,
    pub names: u32,
    pub commands: u32,
    pub conflicts: u64,
}

impl Mode {
    pub fn standard() -> Mode
        ensures standard { result ≡ mode_of nothing_given }
        ensures in_range { IsInRange result }
    {
        Given::new().mode()
    }
}

/// Reads a mode file.
pub fn read_mode(bytes: &[u8]) -> Result<Mode, ModeRefused>
    requires { length bytes.now ≤ 2 ^ 24 }
    ensures mode { IfOk result (States (lines_of bytes.now)) }
    ensures in_range { IfOk result IsInRange }
    ensures refused { IfErr result (Refuses (lines_of bytes.now)) }
{
    let mut given = Given::new();
    let mut line = 0;
    let mut rest = bytes;
    while let Some(split) = next_line(rest) {
        line += 1;
        rest = split.rest;
        if !says_nothing(split.front) {
            match line::read_line(split.front, &given) {
                Ok(setting) => given.set(setting.key, setting.number),
                Err(cause) => return Err(ModeRefused::at(line, cause)),
            }
        }
    }
    Ok(given.mode())
}
