//! Branches of numbered literals.

ghost use Rattle.std.specs.Prelude.{◌≡◌, map, OnOk, IfOk, slice_get};
ghost use Rattle.tableau_calculus.specs.Each.{Each};
ghost use Rattle.refute_check.specs.Numbered.{numbered_literal};
ghost use Rattle.refute_check.specs.Internal.Branches.{Represents, AreNumberedBranch};
ghost use Rattle.refute_check.specs.Internal.Seen.{IsSeen};
ghost use Rattle.refute_check.specs.Internal.Shared.{shared_atoms, literal_in, IsGoodShared, IsSharedNumber, ExtendsShared, NumbersBranch};

use crate::branch::Branch;
use crate::numbering::Numbering;
use crate::seen::Seen;
use crate::shared::Shared;
use literal_map::LitList;
use refute_print::TextLits;
use sat_base::SatLit;
use std::alloc::{AllocError, Global};
use term_bank::equal_ids_for_equal_terms;

/// The literal at a place of the list.
pub(crate) fn literal_at(list: &LitList, i: usize) -> Option<SatLit>
    ensures { result ≡ slice_get list.now i }
{
    list.as_slice().get(i).copied()
}

impl Shared {
    /// The literals of a text's branch by number, or none where it is no branch over what is declared.
    pub(crate) fn branch<'t>(
        &mut self,
        alloc: Global,
        numbering: &Numbering<'_>,
        seen: &mut Seen<'t>,
        lits: &'t TextLits,
    ) -> Result<Option<LitList>, AllocError>
        requires good { IsGoodShared self.old }
        requires seen { IsSeen numbering.now self.old seen.old }
        ensures branch { IfOk result (NumbersBranch self.new (map (numbered_literal numbering.now) lits.now)) }
        ensures extends { OnOk result (ExtendsShared self.old self.new) }
        ensures good { OnOk result (IsGoodShared self.new) }
        ensures seen { OnOk result (IsSeen numbering.now self.new seen.new) }
    {
        let mut list = LitList::new(alloc);
        for i in 0..lits.len() {
            let place = lits.pushed_at(i);
            match self.seen_literal(alloc, numbering, seen, place, lits.at(i))? {
                Some(lit) => list.push(lit)?,
                None => return Ok(None),
            }
        }
        Ok(Some(list))
    }

    /// The numbered literals as a set.
    pub(crate) fn set_by(&self, alloc: Global, list: &[SatLit]) -> Result<Branch, AllocError>
        requires good { IsGoodShared self.now }
        requires numbers { Each (IsSharedNumber self.now) list.now }
        ensures set { IfOk result (Represents (shared_atoms self.now) (map (literal_in self.now) list.now)) }
        ensures numbered { OnOk result (AreNumberedBranch (shared_atoms self.now) (map (literal_in self.now) list.now)) }
    {
        equal_ids_for_equal_terms(&self.bank);
        self.lits.atoms_differ();
        let mut set = Branch::new(alloc);
        for i in 0..list.len() {
            let lit = list[i];
            set.insert(lit.positive, lit.var.0)?;
        }
        Ok(set)
    }

    /// The same of a list of literals.
    pub(crate) fn set_of(&self, alloc: Global, list: &LitList) -> Result<Branch, AllocError>
        requires good { IsGoodShared self.now }
        requires numbers { Each (IsSharedNumber self.now) list.now }
        ensures set { IfOk result (Represents (shared_atoms self.now) (map (literal_in self.now) list.now)) }
        ensures numbered { OnOk result (AreNumberedBranch (shared_atoms self.now) (map (literal_in self.now) list.now)) }
    {
        Ok(self.set_by(alloc, list.as_slice())?)
    }
}
