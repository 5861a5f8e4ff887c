//! The numbers of the names that a signature declares.

ghost use Rattle.std.specs.Prelude.{◌≡◌, List, ℕ, IfOk, OnOk, unwrap_or, map};
ghost use Rattle.refute_print.specs.Named.{names_of};
ghost use Rattle.refute_check.specs.Numbered.{name_place};
ghost use Rattle.refute_check.specs.Internal.Places.{noted, noted_next, MapsToPlaces};

use std::alloc::{AllocError, Global};
use std::collections::BTreeMap;
use std::marker::Model;
use stt_core::{Consts, Names, Signature};

/// Notes that the name stands at the place, unless a place of the name is noted already.
fn note<'a>(
    places: &mut BTreeMap<&'a [u8], usize>,
    name: &'a [u8],
    place: usize,
) -> Result<(), AllocError>
    ensures { OnOk result ((other : List ℕ) → noted places.new other ≡ noted_next (noted places.old other) name.now place other) }
{
    if !places.contains_key(name) {
        places.insert(name, place)?;
    }
    Ok(())
}

/// The place that is noted for the name, or else `other`.
fn find(places: &BTreeMap<&[u8], usize>, name: &[u8], other: usize) -> usize
    ensures { result ≡ unwrap_or (noted places.now name.now) other }
{
    places.get(name).copied().unwrap_or(other)
}

/// The first places of base types.
fn base_places(alloc: Global, bases: &Names) -> Result<BTreeMap<&[u8], usize>, AllocError>
    ensures { IfOk result (λ places. MapsToPlaces places bases.now) }
{
    let mut places = BTreeMap::new(alloc);
    for i in 0..bases.len() {
        note(&mut places, bases.at(i), i)?;
    }
    Ok(places)
}

/// The first places of constants.
fn const_places(alloc: Global, consts: &Consts) -> Result<BTreeMap<&[u8], usize>, AllocError>
    ensures { IfOk result (λ places. MapsToPlaces places (map (λ c. c.name) consts.now)) }
{
    let mut places = BTreeMap::new(alloc);
    for i in 0..consts.len() {
        note(&mut places, consts.name_at(i), i)?;
    }
    Ok(places)
}

/// A signature, with the first places of its names in ordered maps. Contracts see the names that it declares.
#[derive(Drop)]
pub(crate) struct Numbering<'a> {
    signature: &'a Signature,
    bases: BTreeMap<&'a [u8], usize>,
    consts: BTreeMap<&'a [u8], usize>,
}

impl<'a> Model for Numbering<'a> {
    ghost use Rattle.std.specs.Prelude.{map};
    ghost use Rattle.refute_print.specs.Named.{Names, names_of};
    ghost use Rattle.refute_check.specs.Internal.Places.{MapsToPlaces};

    ghost Value = { Names };

    ghost view = { λ n. names_of n.signature.now.bases n.signature.now.consts };

    ghost invariant = { λ n. MapsToPlaces n.bases n.signature.now.bases × MapsToPlaces n.consts (map (λ c. c.name) n.signature.now.consts) };
}

impl<'a> Numbering<'a> {
    /// The maps are made once, by one insertion for each name.
    pub(crate) fn new(alloc: Global, signature: &'a Signature) -> Result<Self, AllocError>
        ensures { IfOk result (λ n. n ≡ names_of signature.now.bases signature.now.consts) }
    {
        Ok(Numbering {
            signature,
            bases: base_places(alloc, &signature.bases)?,
            consts: const_places(alloc, &signature.consts)?,
        })
    }

    /// The first place of the name among the base types, or else their number.
    pub(crate) fn base(&self, name: &[u8]) -> usize
        ensures { result ≡ name_place self.now.bases name.now }
    {
        find(&self.bases, name, self.signature.bases.len())
    }

    /// The first place of the name among the constants, or else their number.
    pub(crate) fn constant(&self, name: &[u8]) -> usize
        ensures { result ≡ name_place self.now.constants name.now }
    {
        find(&self.consts, name, self.signature.consts.len())
    }
}
