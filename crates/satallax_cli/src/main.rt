// Runs the prover on the words of the command line.
#![tactic(auto)]

ghost use Rattle.std.specs.Prelude.{◌≡◌, ◌⊎◌, ◌++◌, [], map, drop, string_bytes, IfOk, IsTrue};
ghost use Rattle.std.specs.Process.{exit_status};
ghost use Rattle.std.specs.Vec.Iter.{into_iter_items};
ghost use Rattle.outside.specs.Causes.{Rose};
ghost use Rattle.outside.specs.Prefix.{AppendsProperly};
ghost use Rattle.szs_report.specs.Status.{status_of};
ghost use Rattle.szs_report.specs.declared.outcome.Outcome.TheVariants.{WriteFault};

use buffered_sink::BufferedSink;
use outside::{Failed, Sink, StdFiles, StdSink};
use satallax_top::{Outcome, Words, satallax};
use std::alloc::{AllocError, Global};
use std::process::ExitCode;
use std::{env, io};

/// The words of the command line aren't text.
const NO_TEXT: u8 = 18;

/// Memory ran out before the call.
const NO_MEMORY: u8 = 30;

/// The words behind the program's own name.
fn words_behind(alloc: Global, args: env::Args) -> Result<Words, AllocError>
    ensures { IfOk result (λ words. words ≡ map string_bytes (drop 1 (into_iter_items args))) }
{
    let mut args = args;
    let mut words = Words::new(alloc);
    let _program = args.next();
    while let Some(word) = args.next() {
        words.push(word.as_str())?;
    }
    Ok(words)
}

fn unread(error: io::Error) -> ExitCode {
    match error.kind() {
        io::ErrorKind::OutOfMemory => ExitCode::from(NO_MEMORY),
        _ => ExitCode::from(NO_TEXT),
    }
}

/// The exit status of a call with this outcome, once its report is handed on: all that was held, and nothing else. Where a write fails, a
/// part of it is.
fn exit_code<S: Sink>(out: &mut BufferedSink<S>, outcome: &Outcome) -> ExitCode
    ensures { ((exit_status result ≡ status_of outcome.now) × (out.new.held ≡ [])
        × (IsTrue (S.tells out.old.sink) → S.written out.new.sink ≡ S.written out.old.sink ++ out.old.held))
        ⊎ ((exit_status result ≡ status_of WriteFault) × Rose (S.faults out.old.sink) (S.faults out.new.sink)
        × (IsTrue (S.tells out.old.sink) → AppendsProperly (S.written out.old.sink) (S.written out.new.sink) out.old.held)) }
{
    match out.flush() {
        Ok(()) => ExitCode::from(outcome.status()),
        Err(Failed) => ExitCode::from(Outcome::WriteFault.status()),
    }
}

fn main(rt: HostRuntime) -> ExitCode {
    let args = match env::args(&rt) {
        Ok(args) => args,
        Err(error) => return unread(error),
    };
    let Ok(words) = words_behind(rt.alloc(), args) else {
        return ExitCode::from(NO_MEMORY);
    };
    let alloc = rt.alloc();
    let mut files = StdFiles::new(&rt);
    let mut out = BufferedSink::new(StdSink::new(io::writer(&rt)));
    let outcome = satallax(alloc, &words, &mut files, &mut out);
    exit_code(&mut out, &outcome)
}
