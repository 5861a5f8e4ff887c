//! The one command of the program.
ghost use Rattle.std.specs.Prelude.{◌≡◌, ◌++◌, ℕ, List, map, option_map, string_bytes, codes, true, false, IfOk, IsErrOf, OnOk};
ghost use Rattle.std.specs.Option.{option_to_list};
ghost use Rattle.clap.specs.Words.{app_of, with_rule, first_value, found_of};
ghost use Rattle.cli_words.specs.Line.{option_rule, flag_rule, with_options, bare, line, is_taken, value_in};
ghost use Rattle.cli_words.specs.Options.{options, option_name};
ghost use Rattle.cli_words.specs.Requests.{entries_in, values_in, value, problem, given, given_flag};
ghost use Rattle.cli_words.specs.View.{the_entry};

use crate::WordsRefused;
use crate::entry::Entry;
use crate::options::{OPTIONS, OptionName, SAME};
use clap::error::ErrorKind;
use clap::{Arg, ArgAction, ArgMatches, Command};
use std::alloc::{AllocError, Global};

// The command with one more option, which takes one value.
fn with_option<'a>(
    alloc: Global,
    command: Command<'a>,
    name: &'a str,
) -> Result<Command<'a>, AllocError>
    ensures { IfOk result (λ c. app_of c ≡ with_rule (app_of command.entry) (option_rule name.entry.now)) }
{
    command.arg(Arg::new(alloc, name).long(name))
}

// The command with the options of the table.
fn with_options<'a>(alloc: Global, command: Command<'a>) -> Result<Command<'a>, AllocError>
    ensures { IfOk result (λ c. app_of c ≡ with_options (app_of command.entry) options) }
{
    let mut command = command;
    for option in OPTIONS {
        command = with_option(alloc, command, option.name())?;
    }
    Ok(command)
}

fn command<'a>(alloc: Global) -> Result<Command<'a>, AllocError>
    ensures { IfOk result (λ c. app_of c ≡ line) }
{
    let command = Command::new(alloc, "satallax").no_binary_name(true);
    let command = with_options(alloc, command)?;
    let same = Arg::new(alloc, SAME).long(SAME).action(ArgAction::SetTrue);
    let command = command.arg(same)?;
    command.arg(Arg::new(alloc, "problem"))
}

// What the command finds in the words.
fn matches_in<'a>(alloc: Global, words: &'a [String]) -> Result<ArgMatches<'a>, WordsRefused>
    ensures taken { IfOk result (λ _. is_taken (map string_bytes words.entry.now) ≡ true) }
    ensures values { IfOk result (λ m. (id : List ℕ) → first_value (found_of m) id ≡ value_in (map string_bytes words.entry.now) id) }
    ensures refused { IsErrOf result WordsRefused.Words → is_taken (map string_bytes words.entry.now) ≡ false }
{
    let command = command(alloc)?;
    match command.try_get_matches_from(words) {
        Ok(matches) => Ok(matches),
        Err(error) => match error.kind() {
            ErrorKind::OutOfMemory => Err(WordsRefused::Memory),
            _ => Err(WordsRefused::Words),
        },
    }
}

fn add<'a>(entries: &mut Vec<Entry<'a>>, entry: Option<Entry<'a>>) -> Result<(), AllocError>
    ensures { OnOk result (map the_entry entries.new.items ≡ map the_entry entries.old.items ++ option_to_list
        (option_map the_entry entry.entry)) }
{
    if let Some(entry) = entry {
        entries.push(entry)?;
    }
    Ok(())
}

// The entry of an option, where its value is given.
fn option_entry<'a>(option: OptionName, text: Option<&'a str>) -> Option<Entry<'a>>
    ensures { option_to_list (option_map the_entry result) ≡ given (value option) (option_map (λ v. v.now) text.entry) }
{
    let text = text?;
    Some(Entry::Value(option, text))
}

// The entry of the problem, where it is given.
fn problem_entry<'a>(text: Option<&'a str>) -> Option<Entry<'a>>
    ensures { option_to_list (option_map the_entry result) ≡ given problem (option_map (λ v. v.now) text.entry) }
{
    let text = text?;
    Some(Entry::Problem(text))
}

// The option without a value, where its value is `true`.
fn flag<'a>(value: Option<&str>) -> Option<Entry<'a>>
    ensures { option_to_list (option_map the_entry result) ≡ given_flag (option_map (λ v. v.now) value.entry) }
{
    if value? == "true" {
        Some(Entry::Same)
    } else {
        None
    }
}

/// The entries that the words give, where the command takes the words.
pub(crate) fn entries<'a>(
    alloc: Global,
    words: &'a [String],
) -> Result<Vec<Entry<'a>>, WordsRefused>
    ensures taken { IfOk result (λ _. is_taken (map string_bytes words.entry.now) ≡ true) }
    ensures entries { IfOk result (λ es. map the_entry es.items ≡ entries_in (map string_bytes words.entry.now)) }
    ensures refused { IsErrOf result WordsRefused.Words → is_taken (map string_bytes words.entry.now) ≡ false }
{
    let matches = matches_in(alloc, words)?;
    let mut entries = Vec::new(alloc);
    for option in OPTIONS {
        let text = matches.get_str(option.name());
        add(&mut entries, option_entry(option, text))?;
    }
    add(&mut entries, flag(matches.get_str(SAME)))?;
    add(&mut entries, problem_entry(matches.get_str("problem")))?;
    Ok(entries)
}
