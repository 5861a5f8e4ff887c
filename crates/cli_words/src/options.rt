//! The table of the program's options.
ghost use Rattle.std.specs.Prelude.{◌≡◌};
ghost use Rattle.cli_words.specs.Options.{option_name};

/// An option that takes one value. `--same`, which takes none, isn't among them.
#[derive(Clone, Copy, PartialEq, Eq)]
pub(crate) enum OptionName {
    Mode,
    Check,
    Demo,
    Models,
    Schedule,
    Tree,
    Strict,
}

/// The options, in the order in which the usage line has them.
pub(crate) const OPTIONS: [OptionName; 7] = [
    OptionName::Mode,
    OptionName::Check,
    OptionName::Demo,
    OptionName::Models,
    OptionName::Schedule,
    OptionName::Tree,
    OptionName::Strict,
];

/// The option that takes no value.
pub(crate) const SAME: &str = "same";

impl OptionName {
    /// What stands behind the two hyphens.
    pub(crate) fn name(self) -> &'static str
        ensures { result.now ≡ option_name self }
    {
        match self {
            OptionName::Mode => "mode",
            OptionName::Check => "check",
            OptionName::Demo => "demo",
            OptionName::Models => "models",
            OptionName::Schedule => "schedule",
            OptionName::Tree => "tree",
            OptionName::Strict => "strict",
        }
    }
}
