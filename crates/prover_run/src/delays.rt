//! How long commands wait.
ghost use Rattle.std.specs.Prelude.{◌≡◌};
ghost use Rattle.prover_state.specs.Delays.{delay_by};

use mode_file::Mode;
use prover_search::Command;

/// By how many commands a command is put off, counted from its push.
pub fn delay(mode: &Mode, command: &Command) -> u32
    ensures { result ≡ delay_by mode.now command.now }
{
    match command {
        Command::Process(_) => mode.process,
        Command::Mate(_, _) => mode.mate,
        Command::Confront(_, _) => mode.confront,
        Command::Inst(_, _) => mode.inst,
        Command::Grow(_, _) => mode.grow,
        Command::Choose(_) => mode.choose,
        Command::Describe(_) => mode.choose,
    }
}
