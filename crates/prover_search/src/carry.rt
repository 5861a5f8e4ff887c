//! Commands are carried out.
ghost use Rattle.std.specs.Prelude.{◌≡◌, ◌<◌, length, OnOk};
ghost use Rattle.search_spec.specs.Commands.{with_command};
ghost use Rattle.tableau_calculus.specs.Each.{Each};
ghost use Rattle.search_spec.specs.TypedState.{IsTypedSketch, IsTypedCommand};
ghost use Rattle.type_bound.specs.Small.{IsSmallCommand};
ghost use Rattle.prover_state.specs.Lasting.{lasting};
ghost use Rattle.prover_state.specs.Internal.Names.{command_at, IsNumberedCommand};
ghost use Rattle.prover_state.specs.Internal.Standing.{scope_by, sketches_in, naming_in, IsRightState};
ghost use Rattle.prover_state.specs.Internal.Advancing.{state_in, setting_in};
ghost use Rattle.prover_search.specs.Internal.Developing.{Advances};

use crate::instances::{choose, confront, describe, instantiate, mate};
use crate::process::process;
use command_queue::Weigher;
use prover_growth::fill;
use prover_state::{Command, Core, Waiting};
use std::alloc::AllocError;

/// Carries out a command. Fewer witnesses were made than commands were taken, of which this one is the last.
pub(crate) fn carry_out<W: Weigher<Waiting>>(
    core: &mut Core<W>,
    command: Command,
) -> Result<(), AllocError>
    requires right { IsRightState core.old.tables core.old.plan }
    requires numbers { IsNumberedCommand (naming_in core.old.tables) command }
    requires typed { IsTypedCommand (scope_by core.old.tables.basis) (command_at (naming_in core.old.tables) command) }
    requires small { IsSmallCommand (command_at (naming_in core.old.tables) command) }
    requires sketches { Each (IsTypedSketch (scope_by core.old.tables.basis)) (sketches_in core.old.tables) }
    requires few { length core.old.tables.basis.witnesses < core.old.tables.done }
    ensures state { OnOk result (state_in core.new
        ≡ with_command (setting_in core.old) (command_at (naming_in core.old.tables) command) (state_in core.old)) }
    ensures advances { OnOk result (Advances core.old core.new) }
    ensures lasts { lasting core.new.tables ≡ lasting core.old.tables }
{
    let _done = core.tables.done;
    match command {
        Command::Process(lit) => process(core, lit),
        Command::Mate(first, second) => mate(core, first, second),
        Command::Confront(first, second) => confront(core, first, second),
        Command::Inst(lit, id) => instantiate(core, lit, id),
        Command::Grow(parent, head) => {
            fill(core, parent, head)?;
            Ok(())
        }
        Command::Choose(id) => choose(core, id),
        Command::Describe(id) => describe(core, id),
    }
}
