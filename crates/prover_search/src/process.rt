//! Literals are processed.
ghost use Rattle.std.specs.Prelude.{◌≡◌, OnOk};
ghost use Rattle.search_spec.specs.Processing.{with_processing};
ghost use Rattle.prover_state.specs.Lasting.{lasting};
ghost use Rattle.prover_state.specs.Internal.Names.{IsNumberIn};
ghost use Rattle.prover_state.specs.Internal.Advancing.{the_literal, state_in, setting_in, IsReadyCore};
ghost use Rattle.prover_search.specs.Internal.Developing.{Advances};

use crate::work::work;
use command_queue::Weigher;
use prover_state::{Core, Waiting};
use sat_base::SatLit;
use std::alloc::AllocError;

/// A literal is processed: what its shape asks for is done, it is noted, and the choices and the descriptions in its atom are taken up.
pub(crate) fn process<W: Weigher<Waiting>>(
    core: &mut Core<W>,
    lit: SatLit,
) -> Result<(), AllocError>
    requires ready { IsReadyCore core.old }
    requires number { IsNumberIn core.old.tables.basis.lits lit }
    ensures state { OnOk result (state_in core.new
        ≡ with_processing (setting_in core.old) (the_literal core.old.tables.basis lit) (state_in core.old)) }
    ensures advances { OnOk result (Advances core.old core.new) }
    ensures lasts { lasting core.new.tables ≡ lasting core.old.tables }
{
    work(core, lit)?;
    core.note_literal(lit)?;
    core.select(lit)?;
    Ok(())
}
