//! Literals of a text that have got their numbers.

ghost use Rattle.std.specs.Prelude.{◌≡◌, Some, IfOk, OnOk, IfSome, option_copied, slice_get};
ghost use Rattle.refute_check.specs.Numbered.{numbered_literal};
ghost use Rattle.refute_check.specs.Internal.Shared.{IsGoodShared, ExtendsShared, NumbersLiteral};
ghost use Rattle.refute_check.specs.Internal.Seen.{IsSeen, IsNoted};
ghost use Rattle.refute_check.specs.declared.shared.Shared.{Shared as TheShared};
ghost use Rattle.refute_print.specs.Named.{Names};

use crate::numbering::Numbering;
use crate::same::same_literal;
use crate::shared::Shared;
use refute_print::TextLit;
use sat_base::SatLit;
use std::alloc::{AllocError, Global};

/// A literal with its number.
#[derive(Clone, Copy, Drop)]
pub(crate) struct Noted<'t> {
    pub lit: &'t TextLit,
    pub number: SatLit,
}

/// Literals with their numbers, at the places to which they were pushed when the text was read.
#[derive(Drop)]
pub(crate) struct Seen<'t> {
    pub items: Vec<Noted<'t>>,
}

/// What is noted at a place.
fn noted_at<'s, 't>(items: &'s [Noted<'t>], place: usize) -> Option<&'s Noted<'t>>
    ensures { option_copied result ≡ slice_get items.now place }
{
    items.get(place)
}

impl<'t> Seen<'t> {
    pub(crate) fn new(alloc: Global) -> Self
        ensures { (names : Names) (s : TheShared) → IsSeen names s result }
    {
        Seen {
            items: Vec::new(alloc),
        }
    }

    /// The number that was noted for the literal at its place.
    fn find(&self, place: usize, lit: &TextLit) -> Option<SatLit>
        ensures { IfSome result (IsNoted self.now lit.now) }
    {
        match noted_at(self.items.as_slice(), place) {
            Some(noted) => {
                if same_literal(noted.lit, lit) {
                    Some(noted.number)
                } else {
                    None
                }
            }
            None => None,
        }
    }

    /// Notes the number of the literal, where its place is the next one.
    fn note(&mut self, place: usize, lit: &'t TextLit, number: SatLit) -> Result<(), AllocError>
        ensures { OnOk result ((names : Names) (s : TheShared) → IsSeen names s self.old
            → NumbersLiteral s (numbered_literal names lit.now) (Some number) → IsSeen names s self.new) }
    {
        if place == self.items.len() {
            self.items.push(Noted { lit, number })?;
        }
        Ok(())
    }
}

impl Shared {
    /// The number of a text's literal, or none where it is none over what is declared. It is looked up where it was noted before.
    pub(crate) fn seen_literal<'t>(
        &mut self,
        alloc: Global,
        numbering: &Numbering<'_>,
        seen: &mut Seen<'t>,
        place: usize,
        lit: &'t TextLit,
    ) -> Result<Option<SatLit>, AllocError>
        requires good { IsGoodShared self.old }
        requires seen { IsSeen numbering.now self.old seen.old }
        ensures number { IfOk result (NumbersLiteral self.new (numbered_literal numbering.now lit.now)) }
        ensures extends { OnOk result (ExtendsShared self.old self.new) }
        ensures good { OnOk result (IsGoodShared self.new) }
        ensures seen { OnOk result (IsSeen numbering.now self.new seen.new) }
    {
        if let Some(number) = seen.find(place, lit) {
            return Ok(Some(number));
        }
        match self.literal(alloc, numbering, lit)? {
            Some(number) => {
                seen.note(place, lit, number)?;
                Ok(Some(number))
            }
            None => Ok(None),
        }
    }
}
