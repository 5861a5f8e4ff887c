//! Runs, command by command.

ghost use Rattle.std.specs.Prelude.{◌≡◌, ◌+◌, false};
ghost use Rattle.mode_file.specs.Given.{IsInRange};
ghost use Rattle.stt_core.specs.TypedProblem.{IsTyped};
ghost use Rattle.type_bound.specs.Modest.{IsModestProblem};
ghost use Rattle.prover_state.specs.Delays.{delay_by};
ghost use Rattle.prover_search.specs.Internal.Running.{IsUnderWay};

use command_queue::Weigher;
use mode_file::Mode;
use prover_run::delay;
use prover_search::{Command, Search, Stepped, Waiting};
use std::alloc::Global;
use stt_core::Problem;

/// How many commands are told at most.
const MAX_COMMANDS: u32 = 1_000;

/// What there is after a command.
fn state_line<W: Weigher<Waiting>>(alloc: Global, search: &Search<W>) -> anyhow::Result<String> {
    let tables = &search.core.tables;
    Ok(format!(in alloc;
        "\n  {}: {} clauses, {} processed, {} pushed",
        search.commands(),
        tables.steps.len(),
        tables.noted.len(),
        search.core.plan.pushes()
    )?)
}

fn trace_from<W: Weigher<Waiting>>(alloc: Global, search: &mut Search<W>) -> anyhow::Result<String>
    requires { search.old.is_refused ≡ false → IsUnderWay search.old.core.tables search.old.core.plan search.old.mode }
{
    let mut text = String::new(alloc);
    for _i in 0..MAX_COMMANDS {
        match search.step()? {
            Stepped::Went => {
                let line = state_line(alloc, &*search)?;
                text.push_str(line.as_str())?;
            }
            stepped => {
                let line = format!(in alloc; "\n  {stepped:?}")?;
                text.push_str(line.as_str())?;
                return Ok(text);
            }
        }
    }
    Ok(text)
}

fn trace_by<W: Weigher<Waiting>>(
    alloc: Global,
    problem: &Problem,
    mode: &Mode,
    weigher: W,
) -> anyhow::Result<String>
    requires typed { IsTyped problem.now }
    requires modest { IsModestProblem 1024 problem.now }
    requires range { IsInRange mode.now }
    requires callable { W.is_callable weigher }
    requires answers { W.answers weigher (λ waiting now. now + delay_by mode.now waiting.first) }
{
    let mut search = Search::new(alloc, problem, mode, weigher)?;
    let text = trace_from(alloc, &mut search);
    drop(search);
    text
}

/// What there is after each command of the run over a problem, and how the run ends.
pub fn trace(alloc: Global, problem: &Problem, mode: &Mode) -> anyhow::Result<String>
    requires typed { IsTyped problem.now }
    requires modest { IsModestProblem 1024 problem.now }
    requires range { IsInRange mode.now }
{
    let by = *mode;
    trace_by(alloc, problem, mode, |waiting: &Waiting, now: u64| {
        now + delay(&by, &waiting.command()) as u64
    })
}
