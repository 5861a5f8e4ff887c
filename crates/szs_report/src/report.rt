//! The report of an answer: its pieces, and their writing. It takes no memory.

ghost use Rattle.std.specs.Prelude.{◌≡◌, ◌≤◌, ◌++◌, OnOk, OnErr, IsTrue, codes, decimal};
ghost use Rattle.outside.specs.Causes.{Rose};
ghost use Rattle.outside.specs.Prefix.{AppendsProperly};
ghost use Rattle.refute_print.specs.Text.{as_bytes};
ghost use Rattle.szs_report.specs.Internal.Pieces.{piece_bytes};
ghost use Rattle.szs_report.specs.Report.{headed_report, line_report, mode_lines, tree_lines, proof_report, model_report, claim_status, file_name, place_report, refused_report, refused_in, demo_report, line_why, ill_word, include_word, mode_word, schedule_word, why_word, report_of};

use crate::answer::{Answer, Claim, NamedFile, TreeReport};
use crate::causes::{ill_word, include_word, mode_word, schedule_word, why_word};
use crate::outcome::{IncludeWhy, ModeWhy, ScheduleWhy};
use crate::piece::{Piece, Pieces};
use crate::proof_text::ProofText;
use outside::{Bytes, Failed, Sink};
use tableau_calculus::Why;
use type_check::IllWhy;

/// What stands before the name where a model is one in which the conjecture fails.
const COUNTER_MODEL: &[u8] = b"% SZS status CounterSatisfiable for ";

/// What stands before the name where there is no conjecture.
const MODEL: &[u8] = b"% SZS status Satisfiable for ";

/// What stands before a size that has too many candidates for a model.
const TOO_MANY: &[u8] = b"% models too many at size ";

const RESOURCE_OUT: &[u8] = b"% SZS status ResourceOut for ";

const INPUT_ERROR: &[u8] = b"% SZS status InputError for ";

const USAGE: &[u8] =
    b"% usage: satallax [--mode FILE] [--check FILE] [--demo N] [--models K] [--schedule FILE] [--tree N] [--strict FILE] [--same] PROBLEM\n";

/// A report that is a text alone.
fn alone(text: &[u8]) -> Pieces<'_>
    ensures { result ≡ text.now }
{
    Pieces::of(&[Piece::Bytes(text)])
}

/// A report of one line.
fn one_line<'a>(word: &'a [u8], name: &'a [u8]) -> Pieces<'a>
    ensures { result ≡ line_report word.now name.now }
{
    Pieces::of(&[Piece::Bytes(word), Piece::Bytes(name), Piece::Bytes(b"\n")])
}

/// A report of two lines, of which the second ends with a piece.
fn headed<'a>(status: &'a [u8], name: &'a [u8], word: &'a [u8], what: Piece<'a>) -> Pieces<'a>
    ensures { result ≡ headed_report status.now name.now word.now (piece_bytes what.entry) }
{
    Pieces::of(&[
        Piece::Bytes(status),
        Piece::Bytes(name),
        Piece::Bytes(b"\n"),
        Piece::Bytes(word),
        what,
        Piece::Bytes(b"\n"),
    ])
}

/// The report of a search that found nothing.
fn gave_up<'a>(name: &'a [u8], word: &'a [u8], number: u32) -> Pieces<'a>
    ensures { result ≡ headed_report (codes "% SZS status GaveUp for ") name.now word.now (decimal number) }
{
    let number = Piece::Number(u64::from(number));
    headed(b"% SZS status GaveUp for ", name, word, number)
}

/// The report of a limit that is reached.
fn resource_out<'a>(name: &'a [u8], word: &'a [u8], number: u64) -> Pieces<'a>
    ensures { result ≡ headed_report (codes "% SZS status ResourceOut for ") name.now word.now (decimal number) }
{
    headed(RESOURCE_OUT, name, word, Piece::Number(number))
}

/// The report of a whole file.
fn input_error<'a>(name: &'a [u8], word: &'a [u8], file: &'a NamedFile) -> Pieces<'a>
    ensures { result ≡ headed_report (codes "% SZS status InputError for ") name.now word.now (file_name file.now) }
{
    headed(INPUT_ERROR, name, word, Piece::Bytes(file.name()))
}

/// The report of a wrong token of a file.
fn syntax_error<'a>(name: &'a [u8], file: &'a NamedFile, at: u32) -> Pieces<'a>
    ensures { result ≡ headed_report (codes "% SZS status SyntaxError for ") name.now (codes "% syntax ")
        (place_report (file_name file.now) at) }
{
    Pieces::of(&[
        Piece::Bytes(b"% SZS status SyntaxError for "),
        Piece::Bytes(name),
        Piece::Bytes(b"\n% syntax "),
        Piece::Bytes(file.name()),
        Piece::Bytes(b" "),
        Piece::Number(u64::from(at)),
        Piece::Bytes(b"\n"),
    ])
}

/// The report of a place of a file that is refused, and why it is.
fn bad_place<'a>(
    name: &'a [u8],
    word: &'a [u8],
    file: &'a NamedFile,
    at: u32,
    why: Piece<'a>,
) -> Pieces<'a>
    ensures { result ≡ headed_report (codes "% SZS status InputError for ") name.now word.now
        (refused_in (file_name file.now) at (piece_bytes why.entry)) }
{
    Pieces::of(&[
        Piece::Bytes(INPUT_ERROR),
        Piece::Bytes(name),
        Piece::Bytes(b"\n"),
        Piece::Bytes(word),
        Piece::Bytes(file.name()),
        Piece::Bytes(b" "),
        Piece::Number(u64::from(at)),
        Piece::Bytes(b" "),
        why,
        Piece::Bytes(b"\n"),
    ])
}

/// The report of a statement that has no meaning.
fn bad_type<'a>(name: &'a [u8], file: &'a NamedFile, at: u32, why: IllWhy) -> Pieces<'a>
    ensures { result ≡ headed_report (codes "% SZS status InputError for ") name.now (codes "% type ")
        (refused_in (file_name file.now) at (ill_word why)) }
{
    bad_place(name, b"% type ", file, at, Piece::Bytes(ill_word(why)))
}

/// The report of an include that isn't followed.
fn bad_include<'a>(name: &'a [u8], file: &'a NamedFile, at: u32, why: IncludeWhy) -> Pieces<'a>
    ensures { result ≡ headed_report (codes "% SZS status InputError for ") name.now (codes "% include ")
        (refused_in (file_name file.now) at (include_word why)) }
{
    let why = Piece::Bytes(include_word(why));
    bad_place(name, b"% include ", file, at, why)
}

/// The report of a line of a mode's file or of a schedule's that isn't taken, and why.
fn bad_line<'a>(name: &'a [u8], word: &'a [u8], line: u32, why: Piece<'a>) -> Pieces<'a>
    ensures { result ≡ headed_report (codes "% SZS status InputError for ") name.now word.now
        (line_why (decimal line) (piece_bytes why.entry)) }
{
    Pieces::of(&[
        Piece::Bytes(INPUT_ERROR),
        Piece::Bytes(name),
        Piece::Bytes(b"\n"),
        Piece::Bytes(word),
        Piece::Number(u64::from(line)),
        Piece::Bytes(b" "),
        why,
        Piece::Bytes(b"\n"),
    ])
}

/// The report of a line of a mode's file that isn't taken.
fn bad_mode(name: &[u8], line: u32, why: ModeWhy) -> Pieces<'_>
    ensures { result ≡ headed_report (codes "% SZS status InputError for ") name.now (codes "% mode ")
        (line_why (decimal line) (mode_word why)) }
{
    bad_line(name, b"% mode ", line, Piece::Bytes(mode_word(why)))
}

/// The report of a line of a schedule's file that isn't taken.
fn bad_schedule(name: &[u8], line: u32, why: ScheduleWhy) -> Pieces<'_>
    ensures { result ≡ headed_report (codes "% SZS status InputError for ") name.now (codes "% schedule ")
        (line_why (decimal line) (schedule_word why)) }
{
    bad_line(name, b"% schedule ", line, Piece::Bytes(schedule_word(why)))
}

/// The report of a text that is refused at a line.
fn refusal(name: &[u8], line: usize, why: Why) -> Pieces<'_>
    ensures { result ≡ refused_report name.now (decimal line) (why_word why) }
{
    Pieces::of(&[
        Piece::Bytes(b"% refutation refused for "),
        Piece::Bytes(name),
        Piece::Bytes(b" line "),
        Piece::Number(line as u64),
        Piece::Bytes(b" "),
        Piece::Bytes(why_word(why)),
        Piece::Bytes(b"\n"),
    ])
}

/// The head of the report of a proof.
fn claim_status(claim: Claim) -> &'static [u8]
    ensures { result.now ≡ claim_status claim }
{
    match claim {
        Claim::Theorem => b"% SZS status Theorem for ",
        Claim::Unsatisfiable => b"% SZS status Unsatisfiable for ",
    }
}

/// The report of a generated problem that is proved after so many commands.
fn demo<'a>(name: &'a [u8], claim: Claim, commands: u32) -> Pieces<'a>
    ensures { result ≡ demo_report (claim_status claim) name.now (decimal commands) }
{
    Pieces::of(&[
        Piece::Bytes(claim_status(claim)),
        Piece::Bytes(name),
        Piece::Bytes(b"\n% commands "),
        Piece::Number(u64::from(commands)),
        Piece::Bytes(b"\n% refutation accepted for "),
        Piece::Bytes(name),
        Piece::Bytes(b"\n"),
    ])
}

/// The report of a model.
fn model<'a>(status: &'a [u8], name: &'a [u8], size: u32, lines: &'a Bytes) -> Pieces<'a>
    ensures { result ≡ model_report status.now name.now (decimal size) lines.now }
{
    Pieces::of(&[
        Piece::Bytes(status),
        Piece::Bytes(name),
        Piece::Bytes(b"\n% SZS output start FiniteModel for "),
        Piece::Bytes(name),
        Piece::Bytes(b"\nsize "),
        Piece::Number(u64::from(size)),
        Piece::Bytes(b"\n"),
        Piece::Bytes(lines.as_slice()),
        Piece::Bytes(b"% SZS output end FiniteModel for "),
        Piece::Bytes(name),
        Piece::Bytes(b"\n"),
    ])
}

/// The mode that proved the problem, where several take turns, as a line.
fn mode_line(mode: Option<u32>) -> Piece<'static>
    ensures { piece_bytes result ≡ as_bytes (mode_lines mode) }
{
    match mode {
        None => Piece::Bytes(b""),
        Some(number) => Piece::NumberLine(b"% mode ", u64::from(number)),
    }
}

/// What came of a tree, as a line.
fn tree_line(tree: TreeReport) -> Piece<'static>
    ensures { piece_bytes result ≡ as_bytes (tree_lines tree) }
{
    match tree {
        TreeReport::Unasked => Piece::Bytes(b""),
        TreeReport::Tree { nodes } => Piece::NumberLine(b"% tree ", u64::from(nodes)),
        TreeReport::Open => Piece::Bytes(b"% tree open\n"),
        TreeReport::Over { nodes } => Piece::NumberLine(b"% tree over ", u64::from(nodes)),
    }
}

/// The report of a proof.
fn proof<'a>(
    name: &'a [u8],
    claim: Claim,
    commands: u32,
    mode: Option<u32>,
    tree: TreeReport,
    text: &'a ProofText,
) -> Pieces<'a>
    ensures { result ≡ proof_report (claim_status claim) name.now commands mode tree text.now }
{
    Pieces::of(&[
        Piece::Bytes(claim_status(claim)),
        Piece::Bytes(name),
        Piece::Bytes(b"\n% commands "),
        Piece::Number(u64::from(commands)),
        Piece::Bytes(b"\n"),
        mode_line(mode),
        tree_line(tree),
        Piece::Bytes(b"% SZS output start Refutation for "),
        Piece::Bytes(name),
        Piece::Bytes(b"\n"),
        Piece::Text(text),
        Piece::Bytes(b"% SZS output end Refutation for "),
        Piece::Bytes(name),
        Piece::Bytes(b"\n"),
    ])
}

/// The report of an answer for a problem of this name.
fn report_of<'a>(name: &'a [u8], answer: &'a Answer) -> Pieces<'a>
    ensures { result ≡ report_of name.now answer.now }
{
    match answer {
        Answer::Proved {
            claim,
            commands,
            mode,
            tree,
            text,
        } => proof(name, *claim, *commands, *mode, *tree, text),
        Answer::GaveUp { commands } => gave_up(name, b"% commands ", *commands),
        Answer::CommandLimit { commands } => {
            resource_out(name, b"% command limit ", u64::from(*commands))
        }
        Answer::ConflictLimit { conflicts } => resource_out(name, b"% conflict limit ", *conflicts),
        Answer::DemoDone { claim, commands } => demo(name, *claim, *commands),
        Answer::Accepted => one_line(b"% refutation accepted for ", name),
        Answer::Refused { line, why } => refusal(name, *line, *why),
        Answer::CounterSatisfiable { size, lines } => model(COUNTER_MODEL, name, *size, lines),
        Answer::Satisfiable { size, lines } => model(MODEL, name, *size, lines),
        Answer::NoneSmall { upto } => gave_up(name, b"% no model up to ", *upto),
        Answer::ModelsTooMany { size } => resource_out(name, TOO_MANY, u64::from(*size)),
        Answer::Same => one_line(b"% sides convertible for ", name),
        Answer::Different => one_line(b"% sides not convertible for ", name),
        Answer::NoEquation => one_line(b"% no equation for ", name),
        Answer::SyntaxAt { file, at } => syntax_error(name, file, *at),
        Answer::TypeAt { file, at, why } => bad_type(name, file, *at, *why),
        Answer::IncludeAt { file, at, why } => bad_include(name, file, *at, *why),
        Answer::ModeAt { line, why } => bad_mode(name, *line, *why),
        Answer::ScheduleAt { line, why } => bad_schedule(name, *line, *why),
        Answer::Words => alone(USAGE),
        Answer::TooLong { file } => input_error(name, b"% too long ", file),
        Answer::ReadFault { file } => input_error(name, b"% read fault ", file),
        Answer::Memory => headed(RESOURCE_OUT, name, b"% memory", Piece::Bytes(b"")),
        Answer::UnreadWords => alone(b"% memory\n"),
    }
}

/// Writes the report of an answer for a problem of this name.
pub fn write_report<S: Sink>(out: &mut S, name: &[u8], answer: &Answer) -> Result<(), Failed>
    ensures appended { OnOk result (IsTrue (S.tells out.old)
        → S.written out.new ≡ S.written out.old ++ report_of name.now answer.now) }
    ensures failed { OnErr result (IsTrue (S.tells out.old)
        → AppendsProperly (S.written out.old) (S.written out.new) (report_of name.now answer.now)) }
    ensures quiet { OnOk result (S.faults out.new ≡ S.faults out.old) }
    ensures cause { OnErr result (Rose (S.faults out.old) (S.faults out.new)) }
    ensures later { S.faults out.old ≤ S.faults out.new }
    ensures telling { IsTrue (S.tells out.old) → IsTrue (S.tells out.new) }
{
    report_of(name, answer).write_to(out)
}
