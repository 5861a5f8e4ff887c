//! The run of a case.

use crate::case::{Case, Wanted, call_list};
use crate::start::start_text;
use anyhow::bail;
use outside::{CallList, FileList, MemFiles, MemSink};
use satallax_top::{Outcome, Words, satallax};
use std::alloc::Global;
use std::str;

/// Adds the files of a case and the common ones.
fn list_files(list: &mut FileList, common: &Case, case: &Case) -> anyhow::Result<()> {
    case.list_files(list)?;
    common.list_files(list)
}

/// The files of a case and the common ones, of which some calls fail.
fn files(alloc: Global, common: &Case, case: &Case, fails: &[u64]) -> anyhow::Result<MemFiles> {
    let mut list = FileList::new(alloc);
    list_files(&mut list, common, case)?;
    let fails = call_list(alloc, fails)?;
    Ok(MemFiles::new(list, fails))
}

/// A sink with the room of a case, of which some calls fail.
fn sink(alloc: Global, case: &Case, fails: &[u64]) -> anyhow::Result<MemSink> {
    let fails = call_list(alloc, fails)?;
    Ok(MemSink::new(alloc, case.room, fails)?)
}

fn words(alloc: Global, case: &Case) -> anyhow::Result<Words> {
    let mut words = Words::new(alloc);
    for word in &case.words {
        words.push(str::from_utf8(word.as_slice())?)?;
    }
    Ok(words)
}

/// How a call ended, and what it wrote.
#[derive(Drop)]
struct Ended {
    status: u64,
    out: MemSink,
}

impl Ended {
    fn told(&self, alloc: Global) -> anyhow::Result<Option<String>> {
        let status = self.status;
        let shown = String::from_utf8_lossy(alloc, self.out.bytes())?;
        Ok(Some(format!(in alloc; "status {status}\n{shown}")?))
    }
}

fn call(alloc: Global, common: &Case, case: &Case) -> anyhow::Result<Ended> {
    let words = words(alloc, case)?;
    let mut out = sink(alloc, case, &case.writes)?;
    let mut files = files(alloc, common, case, &case.reads)?;
    let ended = satallax(alloc, &words, &mut files, &mut out);
    Ok(Ended {
        status: u64::from(ended.status()),
        out,
    })
}

/// The status and the report, where a call ends otherwise than it is to.
fn call_difference(
    alloc: Global,
    common: &Case,
    case: &Case,
    status: u64,
    is_front: bool,
) -> anyhow::Result<Option<String>> {
    let ended = call(alloc, common, case)?;
    let wrote = ended.out.bytes();
    let text = case.text.as_slice();
    let is_wanted = if is_front {
        wrote.starts_with(text)
    } else {
        wrote == text
    };
    if is_wanted && ended.status == status {
        return Ok(None);
    }
    ended.told(alloc)
}

/// The name under which a report is read again.
const REPORT: &str = "the report";

/// The files of a case and the common ones behind a report.
fn report_files(
    alloc: Global,
    common: &Case,
    case: &Case,
    report: &[u8],
) -> anyhow::Result<MemFiles> {
    let mut list = FileList::new(alloc);
    list.push(REPORT, report)?;
    list_files(&mut list, common, case)?;
    Ok(MemFiles::new(list, CallList::new(alloc)))
}

/// The words that have the report checked for the problem in a file.
fn check_words(alloc: Global, problem: &str) -> anyhow::Result<Words> {
    let mut words = Words::new(alloc);
    for word in ["--check", REPORT, problem] {
        words.push(word)?;
    }
    Ok(words)
}

/// Whether a report holds a refutation that the program accepts for the problem in a file of the case.
fn is_accepted(
    alloc: Global,
    common: &Case,
    case: &Case,
    report: &[u8],
    problem: &str,
) -> anyhow::Result<bool> {
    let words = check_words(alloc, problem)?;
    let mut out = sink(alloc, case, &[])?;
    let mut files = report_files(alloc, common, case, report)?;
    let ended = satallax(alloc, &words, &mut files, &mut out);
    Ok(matches!(ended, Outcome::Accepted))
}

/// The status and the report, where a call doesn't end with a right refutation behind the text.
fn proof_difference(
    alloc: Global,
    common: &Case,
    case: &Case,
    problem: &str,
) -> anyhow::Result<Option<String>> {
    let ended = call(alloc, common, case)?;
    let wrote = ended.out.bytes();
    let is_front = ended.status == 0 && wrote.starts_with(case.text.as_slice());
    if is_front && is_accepted(alloc, common, case, wrote, problem)? {
        return Ok(None);
    }
    ended.told(alloc)
}

/// A line with the text of a start, or with why there is none.
fn start_line(alloc: Global, start: anyhow::Result<String>) -> anyhow::Result<String> {
    match start {
        Ok(text) => Ok(format!(in alloc; "{text}\n")?),
        Err(error) => Ok(format!(in alloc; "{error}\n")?),
    }
}

/// A line with the literals of a problem's start, or with why there are none.
fn start_told(alloc: Global, common: &Case, case: &Case, problem: &str) -> anyhow::Result<String> {
    let mut files = files(alloc, common, case, &[])?;
    let start = start_text(alloc, &mut files, problem);
    drop(files);
    start_line(alloc, start)
}

/// The literals of a problem's start, where they are others than they are to be.
fn start_difference(
    alloc: Global,
    common: &Case,
    case: &Case,
    problem: &str,
) -> anyhow::Result<Option<String>> {
    let told = start_told(alloc, common, case, problem)?;
    if told.as_bytes() == case.text.as_slice() {
        return Ok(None);
    }
    Ok(Some(format!(in alloc; "start\n{told}")?))
}

/// How the case ends, where it ends otherwise than it says.
pub fn difference(alloc: Global, common: &Case, case: &Case) -> anyhow::Result<Option<String>> {
    let told = match &case.wanted {
        Wanted::Report { status } => call_difference(alloc, common, case, *status, false)?,
        Wanted::Front { status } => call_difference(alloc, common, case, *status, true)?,
        Wanted::Proof { problem } => proof_difference(alloc, common, case, problem.as_str())?,
        Wanted::Start { problem } => start_difference(alloc, common, case, problem.as_str())?,
        Wanted::Nothing => bail!("a case says nothing of its end: {}", case.name),
    };
    match told {
        Some(told) => Ok(Some(format!(in alloc; "{}: {told}", case.name)?)),
        None => Ok(None),
    }
}
