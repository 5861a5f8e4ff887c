//! A step over right tables.
ghost use Rattle.std.specs.Prelude.{◌≡◌, ◌≢◌, ◌<◌, ◌++◌, ◌^◌, List, [], OnOk, IfOk};
ghost use Rattle.sat_log.specs.declared.log.LogEntry.{LogEntry};
ghost use Rattle.search_spec.specs.State.{moment_by};
ghost use Rattle.search_spec.specs.Unsatisfiable.{Unsatisfiable};
ghost use Rattle.prover_state.specs.Lasting.{declarations_of, lasting};
ghost use Rattle.prover_search.specs.Internal.Running.{start_in, IsRunning};
ghost use Rattle.prover_search.specs.Internal.Answers.{StepGoesOn, AnswersStep};
ghost use Rattle.prover_state.specs.Internal.Advancing.{state_in, setting_in};

use crate::carry::carry_out;
use crate::stepped::Stepped;
use command_queue::Weigher;
use mode_file::Mode;
use prover_state::{Core, Waiting};
use sat_core::Answer;
use std::alloc::AllocError;

/// The moment at which a command is carried out, by the clock, the command's number, and when it was due.
fn moment_of(clock: u32, number: u32, due: u64) -> u32
    requires { due < 2 ^ 32 }
    ensures { result ≡ moment_by clock number due }
{
    if clock == 0 { number } else { due as u32 }
}

/// The next command is carried out.
fn go<W: Weigher<Waiting>>(core: &mut Core<W>, clock: u32, limit: u32) -> Result<(), AllocError>
    requires running { IsRunning core.old.tables core.old.plan }
    requires satisfiable { Unsatisfiable (state_in core.old).clauses → ⊥ }
    requires some { core.old.plan.entries ≢ [] }
    requires clock { clock ≡ core.old.plan.rule.mode.clock }
    requires limit { limit ≡ core.old.plan.rule.mode.commands }
    requires below { core.old.tables.done ≢ limit }
    ensures running { OnOk result (IsRunning core.new.tables core.new.plan) }
    ensures goes_on { OnOk result (StepGoesOn (record { tables = core.old.tables; plan = core.old.plan })
        (record { tables = core.new.tables; plan = core.new.plan })) }
    ensures rule { OnOk result (core.new.plan.rule ≡ core.old.plan.rule) }
    ensures setting { OnOk result (setting_in core.new ≡ setting_in core.old) }
    ensures start { OnOk result (start_in core.new.tables ≡ start_in core.old.tables) }
    ensures lasts { lasting core.new.tables ≡ lasting core.old.tables }
{
    let taken = core.take_next()?;
    core.tables.done += 1;
    core.tables.moment = moment_of(clock, core.tables.done, taken.due);
    carry_out(core, taken.command)?;
    Ok(())
}

/// Asks the solver, and then carries out the next command, where one is left and the limit isn't reached.
pub(crate) fn advance<W: Weigher<Waiting>>(
    core: &mut Core<W>,
    mode: &Mode,
) -> Result<Stepped, AllocError>
    requires running { IsRunning core.old.tables core.old.plan }
    requires mode { core.old.plan.rule.mode ≡ mode.now }
    ensures running { OnOk result (IsRunning core.new.tables core.new.plan) }
    ensures answers { IfOk result (AnswersStep (record { tables = core.old.tables; plan = core.old.plan })
        (record { tables = core.new.tables; plan = core.new.plan })) }
    ensures rule { OnOk result (core.new.plan.rule ≡ core.old.plan.rule) }
    ensures setting { OnOk result (setting_in core.new ≡ setting_in core.old) }
    ensures start { OnOk result (start_in core.new.tables ≡ start_in core.old.tables) }
    ensures declared { declarations_of core.new.tables.basis ≡ declarations_of core.old.tables.basis }
    ensures log { (more : List LogEntry) × (core.new.tables.solver.log ≡ core.old.tables.solver.log ++ more) }
{
    match core.solve(mode.conflicts)? {
        Answer::Unsat => {
            let _log = core.tables.solver.log();
            return Ok(Stepped::Closed);
        }
        Answer::Spent { conflicts } => return Ok(Stepped::Spent { conflicts }),
        Answer::Sat => {}
    }
    if core.plan.is_empty() {
        return Ok(Stepped::Empty);
    }
    if core.tables.done == mode.commands {
        return Ok(Stepped::Limit);
    }
    go(core, mode.clock, mode.commands)?;
    Ok(Stepped::Went)
}
