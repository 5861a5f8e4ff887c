//! Which heads are offered to holes.
ghost use Rattle.std.specs.Prelude.{◌≡◌, ◌<◌, ◌+◌, length, map, IfOk};
ghost use Rattle.std.specs.List.{All};
ghost use Rattle.mode_file.specs.declared.Mode.{Mode};
ghost use Rattle.search_spec.specs.Heads.{is_offered};
ghost use Rattle.search_spec.specs.Offers.{offers_unseen};
ghost use Rattle.term_bank.specs.Content.{content_scope};
ghost use Rattle.term_bank.specs.Terms.{term_at};
ghost use Rattle.head_offers.specs.Offering.{the_offers, occurs_among, offered_where};

use crate::bases::bases_at_heads;
use crate::names::names_at_heads;
use crate::reached::reached;
use crate::selected::selects_at_heads;
use mode_file::Mode;
use std::alloc::{AllocError, Global};
use term_bank::{Bank, Id};

/// For each name and for each base type, by its number, whether it is offered to holes; and whether choices are, where other heads fit.
#[derive(Drop)]
pub struct Offers {
    pub names: Vec<bool>,
    pub bases: Vec<bool>,
    pub choices: bool,
}

/// Whether the one with this number is offered.
pub fn is_offered(flags: &[bool], i: usize) -> bool
    ensures { result ≡ is_offered flags.now i }
{
    i < flags.len() && flags[i]
}

/// A number and two. Where it is too great, there is no memory.
fn two_more(n: usize) -> Result<usize, AllocError>
    ensures { IfOk result (λ more. more ≡ n + 2) }
{
    if n > usize::MAX - 2 {
        return Err(AllocError);
    }
    Ok(n + 2)
}

/// What a mode offers, where the start has these terms.
pub fn offered_heads(
    alloc: Global,
    mode: &Mode,
    bank: &Bank,
    start: &[Id],
) -> Result<Offers, AllocError>
    requires within { All (λ id. id < length bank.now.terms) start.now }
    ensures { IfOk result (λ offers. the_offers offers ≡ offered_where mode.now (content_scope bank.now)
        (occurs_among (map (term_at bank.now.terms) start.now))) }
{
    let names = bank.sig().consts.len();
    let bases = two_more(bank.sig().bases.len())?;
    if mode.names == 0 {
        return Ok(Offers {
            names: vec![in alloc; true; names]?,
            bases: vec![in alloc; true; bases]?,
            choices: true,
        });
    }
    let found = reached(alloc, bank, start)?;
    Ok(Offers {
        names: names_at_heads(alloc, bank, found.as_slice(), names)?,
        bases: bases_at_heads(alloc, bank, found.as_slice(), bases)?,
        choices: selects_at_heads(bank, found.as_slice()),
    })
}
