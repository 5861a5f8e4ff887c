//! Lists of literals in one piece.
ghost use Rattle.std.specs.Prelude.{◌≡◌, ◌<◌, List, [], ◌∷◌, ◌++◌, length, Some, slice_get, IfOk, OnOk, OnErr};
ghost use Rattle.sat_base.specs.declared.literal.SatLit.{SatLit};

use literal_map::LitList;
use sat_base::SatLit;
use sat_propagate::Packed;
use std::alloc::{AllocError, Global};
use std::marker::Model;

/// Where the literals of a list stand.
#[derive(Clone, Copy)]
pub(crate) struct Span {
    pub(crate) start: u32,
    pub(crate) len: u32,
}

/// Lists by their numbers, with their literals one after the other.
#[derive(Drop)]
pub(crate) struct PackedLists {
    spans: Vec<Span>,
    literals: Vec<Packed>,
}

impl Model for PackedLists {
    ghost use Rattle.std.specs.Prelude.{List};
    ghost use Rattle.sat_base.specs.declared.literal.SatLit.{SatLit};
    ghost use Rattle.tableau_clauses.specs.Internal.Spans.{all_spanned, AreSpans};

    ghost Value = { List (List SatLit) };

    ghost view = { λ t. all_spanned t.literals.items t.spans.items };

    ghost invariant = { λ t. AreSpans t.literals.items t.spans.items };
}

/// A number in four bytes. Where it has more, there is no memory.
pub(crate) fn narrow(n: usize) -> Result<u32, AllocError>
    ensures { IfOk result (λ m. m ≡ n) }
{
    if n > u32::MAX as usize {
        return Err(AllocError);
    }
    Ok(n as u32)
}

/// Appends literals to a list.
fn append(literals: &mut Vec<Packed>, list: &[SatLit]) -> Result<(), AllocError>
    ensures ok { OnOk result (literals.new.items ≡ literals.old.items ++ list.now) }
    ensures longer { (rest : List SatLit) × (literals.new.items ≡ literals.old.items ++ rest) }
{
    for literal in list {
        literals.push(Packed::of(*literal)?)?;
    }
    Ok(())
}

impl PackedLists {
    pub(crate) fn new(alloc: Global) -> PackedLists
        ensures { result ≡ [] }
    {
        PackedLists {
            spans: Vec::new(alloc),
            literals: Vec::new(alloc),
        }
    }

    pub(crate) fn len(&self) -> usize
        ensures { result ≡ length self.now }
    {
        self.spans.len()
    }

    /// Appends a list.
    pub(crate) fn push(&mut self, list: &[SatLit]) -> Result<(), AllocError>
        ensures ok { OnOk result (self.new ≡ self.old ++ list.now ∷ []) }
        ensures err { OnErr result (self.new ≡ self.old) }
    {
        let start = narrow(self.literals.len())?;
        let len = narrow(list.len())?;
        append(&mut self.literals, list)?;
        self.spans.push(Span { start, len })?;
        Ok(())
    }

    /// The list with this number.
    fn packed(&self, n: usize) -> &[Packed]
        requires { n < length self.now }
        ensures { slice_get self.now n ≡ Some result.now }
    {
        let span = self.spans[n];
        let start = span.start as usize;
        &self.literals[start..start + span.len as usize]
    }

    /// A copy of the list with this number.
    pub(crate) fn get(&self, alloc: Global, n: usize) -> Result<LitList, AllocError>
        requires { n < length self.now }
        ensures { IfOk result (λ list. slice_get self.now n ≡ Some list) }
    {
        list_of(alloc, self.packed(n))
    }
}

/// The list of these literals.
fn list_of(alloc: Global, literals: &[Packed]) -> Result<LitList, AllocError>
    ensures { IfOk result (λ list. list ≡ literals.now) }
{
    let mut list = LitList::new(alloc);
    for literal in literals {
        list.push(literal.literal())?;
    }
    Ok(list)
}
