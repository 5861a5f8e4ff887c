//! The table of what words may ask for.
ghost use Rattle.std.specs.Prelude.{◌≡◌, [], ◌∷◌, ◌++◌, map, option_map, Some, None, if◌then◌else◌};
ghost use Rattle.std.specs.Option.{option_to_list};
ghost use Rattle.cli_words.specs.Requests.{asked, naming, models_asked, tree_asked, prove, by_schedule, refutation, generated, sides};
ghost use Rattle.cli_words.specs.Names.{number_to};
ghost use Rattle.cli_words.specs.View.{the_entry, the_request};

use crate::names::{is_file_name, number_to};
use crate::options::OptionName;
use crate::{Asked, Cuts};

/// What the words give: the value of an option, the option without a value, or the problem.
#[derive(Clone, Copy)]
pub(crate) enum Entry<'a> {
    Value(OptionName, &'a str),
    Same,
    Problem(&'a str),
}

/// What is asked for by the entries that the words give.
pub(crate) fn asked<'a>(entries: &[Entry<'a>]) -> Option<Asked<'a>>
    ensures { option_map the_request result ≡ asked (map the_entry entries.now) }
{
    match entries {
        [] => None,
        [only] => alone(*only),
        [first, second] => beside(*first, *second),
        [first, second, third] => both(*first, *second, *third),
        [_, _, _, _, ..] => None,
    }
}

fn alone<'a>(entry: Entry<'a>) -> Option<Asked<'a>>
    ensures { option_map the_request result ≡ asked (the_entry entry.entry ∷ []) }
{
    match entry {
        Entry::Problem(problem) => prove(problem),
        Entry::Value(option, value) => option_alone(option, value),
        Entry::Same => None,
    }
}

fn beside<'a>(first: Entry<'a>, last: Entry<'a>) -> Option<Asked<'a>>
    ensures { option_map the_request result ≡ asked (the_entry first.entry ∷ the_entry last.entry ∷ []) }
{
    match (first, last) {
        (Entry::Value(option, value), Entry::Problem(problem)) => {
            option_with_problem(option, value, problem)
        }
        (Entry::Same, Entry::Problem(problem)) => compare(problem),
        (Entry::Problem(_), Entry::Problem(_)) => None,
        (Entry::Problem(_), Entry::Value(_, _)) => None,
        (Entry::Value(_, _), Entry::Value(_, _)) => None,
        (_, Entry::Same) => None,
        (Entry::Same, Entry::Value(_, _)) => None,
    }
}

fn both<'a>(first: Entry<'a>, second: Entry<'a>, last: Entry<'a>) -> Option<Asked<'a>>
    ensures { option_map the_request result ≡ asked (the_entry first.entry ∷ the_entry second.entry ∷ the_entry last.entry ∷ []) }
{
    let Entry::Value(OptionName::Mode, mode) = first else {
        return None;
    };
    let Entry::Value(OptionName::Tree, nodes) = second else {
        return None;
    };
    match last {
        Entry::Problem(problem) => prove_with_tree(nodes, Some(mode), problem),
        _ => None,
    }
}

// The rows of an option alone.
fn option_alone<'a>(option: OptionName, value: &'a str) -> Option<Asked<'a>>
    ensures { option_map the_request result ≡ asked (the_entry (Entry.Value option value.entry) ∷ []) }
{
    match option {
        OptionName::Demo => demo(value),
        OptionName::Mode
        | OptionName::Check
        | OptionName::Models
        | OptionName::Schedule
        | OptionName::Tree
        | OptionName::Strict => None,
    }
}

// The rows of an option beside PROBLEM.
fn option_with_problem<'a>(
    option: OptionName,
    value: &'a str,
    problem: &'a str,
) -> Option<Asked<'a>>
    ensures { option_map the_request result ≡ asked (the_entry (Entry.Value option value.entry) ∷ the_entry (Entry.Problem problem.entry)
        ∷ []) }
{
    match option {
        OptionName::Mode => prove_with_mode(value, problem),
        OptionName::Check => check(value, problem, Cuts::Allowed),
        OptionName::Strict => check(value, problem, Cuts::Forbidden),
        OptionName::Models => models(value, problem),
        OptionName::Schedule => prove_by_schedule(value, problem),
        OptionName::Tree => prove_with_tree(value, None, problem),
        OptionName::Demo => None,
    }
}

fn prove<'a>(problem: &'a str) -> Option<Asked<'a>>
    ensures { option_map the_request result ≡ naming (problem.entry.now ∷ []) (prove problem.entry.now None None) }
{
    if is_file_name(problem) {
        Some(Asked::Prove {
            problem,
            mode: None,
            nodes: None,
        })
    } else {
        None
    }
}

fn prove_with_mode<'a>(mode: &'a str, problem: &'a str) -> Option<Asked<'a>>
    ensures { option_map the_request result ≡ naming (mode.entry.now ∷ problem.entry.now ∷ [])
        (prove problem.entry.now (Some mode.entry.now) None) }
{
    if is_file_name(mode) && is_file_name(problem) {
        Some(Asked::Prove {
            problem,
            mode: Some(mode),
            nodes: None,
        })
    } else {
        None
    }
}

fn prove_with_tree<'a>(nodes: &str, mode: Option<&'a str>, problem: &'a str) -> Option<Asked<'a>>
    ensures { option_map the_request result
        ≡ tree_asked (number_to 10000 nodes.now) (option_map (λ m. m.now) mode.entry) problem.entry.now }
{
    let nodes = number_to(10_000, nodes)?;
    if !is_file_name(problem) {
        return None;
    }
    if let Some(name) = mode {
        if !is_file_name(name) {
            return None;
        }
    }
    Some(Asked::Prove {
        problem,
        mode,
        nodes: Some(nodes),
    })
}

fn prove_by_schedule<'a>(schedule: &'a str, problem: &'a str) -> Option<Asked<'a>>
    ensures { option_map the_request result ≡ naming (schedule.entry.now ∷ problem.entry.now ∷ [])
        (by_schedule schedule.entry.now problem.entry.now) }
{
    if is_file_name(schedule) && is_file_name(problem) {
        Some(Asked::BySchedule { schedule, problem })
    } else {
        None
    }
}

fn check<'a>(text: &'a str, problem: &'a str, cuts: Cuts) -> Option<Asked<'a>>
    ensures { option_map the_request result
        ≡ naming (text.entry.now ∷ problem.entry.now ∷ []) (refutation cuts text.entry.now problem.entry.now) }
{
    if is_file_name(text) && is_file_name(problem) {
        Some(Asked::Check {
            text,
            problem,
            cuts,
        })
    } else {
        None
    }
}

fn demo<'a>(number: &str) -> Option<Asked<'a>>
    ensures { option_map the_request result ≡ option_map generated (number_to 1000 number.now) }
{
    let n = number_to(1000, number)?;
    Some(Asked::Demo { n })
}

fn models<'a>(upto: &str, problem: &'a str) -> Option<Asked<'a>>
    ensures { option_map the_request result ≡ models_asked (number_to 8 upto.now) problem.entry.now }
{
    let upto = number_to(8, upto)?;
    if is_file_name(problem) {
        Some(Asked::Models { upto, problem })
    } else {
        None
    }
}

fn compare<'a>(problem: &'a str) -> Option<Asked<'a>>
    ensures { option_map the_request result ≡ naming (problem.entry.now ∷ []) (sides problem.entry.now) }
{
    if is_file_name(problem) {
        Some(Asked::Same { problem })
    } else {
        None
    }
}
