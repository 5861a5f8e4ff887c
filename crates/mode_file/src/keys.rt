//! The keys of a mode.
ghost use Rattle.std.specs.Prelude.{◌≡◌};
ghost use Rattle.mode_file.specs.Keys.{key_name, greatest, key_of};

/// A key of a mode file.
#[derive(Clone, Copy)]
pub(crate) enum Key {
    Process,
    Mate,
    Confront,
    Inst,
    Choose,
    Grow,
    Clock,
    Terms,
    Defaults,
    Names,
    Commands,
    Conflicts,
}

const KEYS: [Key; 12] = [
    Key::Process,
    Key::Mate,
    Key::Confront,
    Key::Inst,
    Key::Choose,
    Key::Grow,
    Key::Clock,
    Key::Terms,
    Key::Defaults,
    Key::Names,
    Key::Commands,
    Key::Conflicts,
];

impl Key {
    fn name(self) -> &'static [u8]
        ensures { result.now ≡ key_name self }
    {
        match self {
            Key::Process => b"process",
            Key::Mate => b"mate",
            Key::Confront => b"confront",
            Key::Inst => b"inst",
            Key::Choose => b"choose",
            Key::Grow => b"grow",
            Key::Clock => b"clock",
            Key::Terms => b"terms",
            Key::Defaults => b"defaults",
            Key::Names => b"names",
            Key::Commands => b"commands",
            Key::Conflicts => b"conflicts",
        }
    }

    /// The greatest number that it takes.
    pub(crate) fn greatest(self) -> u64
        ensures { result ≡ greatest self }
    {
        match self {
            Key::Clock | Key::Terms | Key::Names => 1,
            Key::Commands => 1_000_000,
            Key::Conflicts => 1_000_000_000_000,
            Key::Process
            | Key::Mate
            | Key::Confront
            | Key::Inst
            | Key::Choose
            | Key::Grow
            | Key::Defaults => 1_000,
        }
    }

    /// The key of a name.
    #[tactic(auto, unfolding(crate::specs::Keys::key_of))]
    pub(crate) fn named(name: &[u8]) -> Option<Key>
        ensures { result ≡ key_of name.now }
    {
        KEYS.iter().copied().find(|key| key.name() == name)
    }
}
