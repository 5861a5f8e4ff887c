//! The numbers that a mode file gives to keys.
ghost use Rattle.std.specs.Prelude.{◌≡◌, ◌≤◌, is_some};
ghost use Rattle.mode_file.specs.Keys.{greatest};
ghost use Rattle.mode_file.specs.Given.{nothing_given, number_given, with_number, mode_of};

use crate::Mode;
use crate::keys::Key;

/// The numbers that were given so far.
#[derive(Clone, Copy, Drop)]
pub(crate) struct Given {
    process: Option<u32>,
    mate: Option<u32>,
    confront: Option<u32>,
    inst: Option<u32>,
    choose: Option<u32>,
    grow: Option<u32>,
    clock: Option<u32>,
    terms: Option<u32>,
    defaults: Option<u32>,
    names: Option<u32>,
    commands: Option<u32>,
    conflicts: Option<u64>,
}

impl Given {
    pub(crate) fn new() -> Self
        ensures { result ≡ nothing_given }
    {
        Given {
            process: None,
            mate: None,
            confront: None,
            inst: None,
            choose: None,
            grow: None,
            clock: None,
            terms: None,
            defaults: None,
            names: None,
            commands: None,
            conflicts: None,
        }
    }

    /// Whether the key has a number.
    pub(crate) fn has(&self, key: Key) -> bool
        ensures { result ≡ is_some (number_given self.now key) }
    {
        match key {
            Key::Process => self.process.is_some(),
            Key::Mate => self.mate.is_some(),
            Key::Confront => self.confront.is_some(),
            Key::Inst => self.inst.is_some(),
            Key::Choose => self.choose.is_some(),
            Key::Grow => self.grow.is_some(),
            Key::Clock => self.clock.is_some(),
            Key::Terms => self.terms.is_some(),
            Key::Defaults => self.defaults.is_some(),
            Key::Names => self.names.is_some(),
            Key::Commands => self.commands.is_some(),
            Key::Conflicts => self.conflicts.is_some(),
        }
    }

    pub(crate) fn set(&mut self, key: Key, number: u64)
        requires { number ≤ greatest key }
        ensures { self.new ≡ with_number self.old key number }
    {
        match key {
            Key::Process => self.process = Some(number as u32),
            Key::Mate => self.mate = Some(number as u32),
            Key::Confront => self.confront = Some(number as u32),
            Key::Inst => self.inst = Some(number as u32),
            Key::Choose => self.choose = Some(number as u32),
            Key::Grow => self.grow = Some(number as u32),
            Key::Clock => self.clock = Some(number as u32),
            Key::Terms => self.terms = Some(number as u32),
            Key::Defaults => self.defaults = Some(number as u32),
            Key::Names => self.names = Some(number as u32),
            Key::Commands => self.commands = Some(number as u32),
            Key::Conflicts => self.conflicts = Some(number),
        }
    }

    /// The mode of these numbers, with the standard ones for the other keys.
    pub(crate) fn mode(&self) -> Mode
        ensures { result ≡ mode_of self.now }
    {
        Mode {
            process: self.process.unwrap_or(0),
            mate: self.mate.unwrap_or(1),
            confront: self.confront.unwrap_or(1),
            inst: self.inst.unwrap_or(1),
            choose: self.choose.unwrap_or(2),
            grow: self.grow.unwrap_or(4),
            clock: self.clock.unwrap_or(0),
            terms: self.terms.unwrap_or(0),
            defaults: self.defaults.unwrap_or(0),
            names: self.names.unwrap_or(0),
            commands: self.commands.unwrap_or(20_000),
            conflicts: self.conflicts.unwrap_or(1_000_000),
        }
    }
}
