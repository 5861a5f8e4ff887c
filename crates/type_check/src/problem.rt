//! The reading of a whole problem.

ghost use Rattle.std.specs.Prelude.{◌≡◌, ◌+◌, ◌-◌, ◌<◌, ◌≤◌, ◌^◌, Ok, length, IfOk, IfErr, OnOk};
ghost use Rattle.stt_core.specs.TypedProblem.{IsTyped, NamesDiffer};
ghost use Rattle.thf_include.specs.View.{the_placed, the_statements};
ghost use Rattle.type_check.specs.Checks.{IsIll};
ghost use Rattle.type_check.specs.Internal.ReadingView.{the_reading};
ghost use Rattle.type_check.specs.Statements.{in_file, read_statement, read_statements, problem_of};

use crate::refusal::{Ill, Refusal};
use crate::statements::Reading;
use std::alloc::Global;
use stt_core::Problem;
use thf_include::{Gathered, Placed};

/// Reads a statement of a file.
fn read_placed(alloc: Global, reading: &mut Reading, placed: &Placed) -> Result<(), Ill>
    requires bases { length reading.old.declared.bases < 2 ^ 32 - 2 }
    requires consts { length reading.old.declared.consts < 2 ^ 32 }
    ensures read { OnOk result (in_file placed.now.file (read_statement (the_reading reading.old) (the_placed placed.now).statement) ≡ Ok
        (the_reading reading.new)) }
    ensures ill { IfErr result
        (λ e. IsIll e (in_file placed.now.file (read_statement (the_reading reading.old) (the_placed placed.now).statement))) }
    ensures grows { OnOk result (length reading.new.declared.bases + length reading.new.declared.consts ≤ length reading.old.declared.bases
        + length reading.old.declared.consts + 1) }
{
    match reading.read_statement(alloc, &placed.statement) {
        Ok(()) => Ok(()),
        Err(Refusal::At { at, why }) => Err(Ill::At {
            file: placed.file,
            at,
            why,
        }),
        Err(Refusal::Memory) => Err(Ill::Memory),
    }
}

/// Reads the statements of a problem behind those that were read. Each is let go once it is read, so that its tree and its term are held
/// together.
fn read_all(alloc: Global, reading: &mut Reading, gathered: Gathered) -> Result<(), Ill>
    requires { length reading.old.declared.bases + length reading.old.declared.consts + length gathered < 2 ^ 32 - 2 }
    ensures read { OnOk result (read_statements (the_reading reading.old) (the_statements gathered) ≡ Ok (the_reading reading.new)) }
    ensures ill { IfErr result (λ e. IsIll e (read_statements (the_reading reading.old) (the_statements gathered))) }
    ensures few { OnOk result (length reading.new.declared.bases + length reading.new.declared.consts < 2 ^ 32 - 2) }
{
    for placed in gathered.into_items() {
        read_placed(alloc, reading, &placed)?;
    }
    Ok(())
}

/// Reads the statements of a problem, in their order.
pub fn check(alloc: Global, gathered: Gathered) -> Result<Problem, Ill>
    requires { length gathered < 2 ^ 32 - 2 }
    ensures read { IfOk result (λ p. problem_of (the_statements gathered) ≡ Ok p) }
    ensures ill { IfErr result (λ e. IsIll e (problem_of (the_statements gathered))) }

    // What is read is typed, its names differ, and each assumed formula has a mark.
    ensures typed { IfOk result (λ p. IsTyped p) }
    ensures names { IfOk result (λ p. NamesDiffer p.declared) }
    ensures marked { IfOk result (λ p. length p.marked ≡ length p.assumed) }
    ensures few_bases { IfOk result (λ p. length p.declared.bases < 2 ^ 32 - 2) }
    ensures few_consts { IfOk result (λ p. length p.declared.consts < 2 ^ 32) }
{
    let mut reading = Reading::new(alloc);
    match read_all(alloc, &mut reading, gathered) {
        Ok(()) => Ok(reading.into_problem()),
        Err(ill) => Err(ill),
    }
}
