//! The rows of a witness table.

ghost use Rattle.std.specs.Prelude.{◌≡◌, ◌↔◌, ◌<◌, ◌++◌, [], ◌∷◌, length, nat_eq, false, None, IsTrue, OnOk, IfOk};
ghost use Rattle.std.specs.List.{list_any};
ghost use Rattle.stt_core.specs.View.{the_type};
ghost use Rattle.tableau_calculus.specs.Witnesses.{IsTypedRow};
ghost use Rattle.term_bank.specs.Terms.{term_at};
ghost use Rattle.witness_names.specs.Rows.{binder_of, row_of};
ghost use Rattle.tableau_calculus.specs.Internal.Answers.{RowAnswer};
ghost use Rattle.refute_check.specs.Numbered.{numbered_row};
ghost use Rattle.refute_check.specs.Internal.Branches.{Grow};
ghost use Rattle.refute_check.specs.Internal.Shared.{declared_in, shared_atoms, the_rows, IsGoodShared};

use crate::number_line::number_row;
use crate::numbering::Numbering;
use crate::shared::Shared;
use refute_print::TextTerm;
use std::alloc::{AllocError, Global};
use stt_core::Ty;
use tableau_calculus::{Why, WitnessRow, is_typed_row};
use term_bank::{Id, equal_ids_for_equal_terms};

impl Shared {
    fn is_row(&self, alloc: Global, row: &WitnessRow) -> Result<bool, AllocError>
        requires good { IsGoodShared self.now }
        ensures { IfOk result (λ b. IsTrue b ↔ IsTypedRow (declared_in self.now) (the_rows self.now) row.now) }
    {
        Ok(is_typed_row(alloc, self.bank.sig(), &self.types, row)?)
    }

    /// Adds a witness for a predicate that has none. The witness has the type that the predicate takes.
    fn push_row(&mut self, id: Id, ty: Ty) -> Result<(), AllocError>
        requires good { IsGoodShared self.old }
        requires within { id < length self.old.bank.terms }
        requires typed { IsTypedRow (declared_in self.old) (the_rows self.old) (row_of (term_at self.old.bank.terms id)) }
        requires taken { the_type ty ≡ binder_of (term_at self.old.bank.terms id) }
        requires none { list_any (nat_eq id) self.old.witnesses ≡ false }
        ensures rows { OnOk result (the_rows self.new ≡ the_rows self.old ++ row_of (term_at self.old.bank.terms id) ∷ []) }
        ensures atoms { OnOk result (shared_atoms self.new ≡ shared_atoms self.old) }
        ensures declared { OnOk result (declared_in self.new ≡ declared_in self.old) }
        ensures good { OnOk result (IsGoodShared self.new) }
    {
        if self.witnesses.len() >= u32::MAX - 1 {
            return Err(AllocError);
        }
        self.witnesses.fresh(&self.bank, id)?;
        self.bank.add_witness(&ty)?;
        self.types.push(ty)?;
        Ok(())
    }

    /// Adds the witness of a row, whose type is that which its predicate takes, or answers why the row fails.
    fn add_numbered(&mut self, alloc: Global, row: &WitnessRow) -> Result<Option<Why>, AllocError>
        requires good { IsGoodShared self.old }
        requires formed { row.now.type ≡ binder_of row.now.predicate }
        ensures answer { IfOk result (RowAnswer (declared_in self.old) (the_rows self.old) row.now) }
        ensures rows { IfOk result (λ why. why ≡ None → the_rows self.new ≡ the_rows self.old ++ row.now ∷ []) }
        ensures atoms { IfOk result (λ why. why ≡ None → Grow (shared_atoms self.old) (shared_atoms self.new)) }
        ensures declared { IfOk result (λ why. why ≡ None → declared_in self.new ≡ declared_in self.old) }
        ensures good { IfOk result (λ why. why ≡ None → IsGoodShared self.new) }
    {
        if !self.is_row(alloc, row)? {
            return Ok(Some(Why::Typing));
        }
        let id = self.bank.import(&row.predicate)?;
        equal_ids_for_equal_terms(&self.bank);
        if self.witnesses.find(id).is_some() {
            return Ok(Some(Why::Twice));
        }
        self.push_row(id, row.ty.try_clone(alloc)?)?;
        Ok(None)
    }

    /// Adds the witness of a text's row, or answers why the row fails.
    pub(crate) fn add_row(
        &mut self,
        alloc: Global,
        numbering: &Numbering<'_>,
        predicate: &TextTerm,
    ) -> Result<Option<Why>, AllocError>
        requires good { IsGoodShared self.old }
        ensures answer { IfOk result (RowAnswer (declared_in self.old) (the_rows self.old) (numbered_row numbering.now predicate.now)) }
        ensures rows { IfOk result (λ why. why ≡ None → the_rows self.new ≡ the_rows self.old ++ numbered_row numbering.now predicate.now
            ∷ []) }
        ensures atoms { IfOk result (λ why. why ≡ None → Grow (shared_atoms self.old) (shared_atoms self.new)) }
        ensures declared { IfOk result (λ why. why ≡ None → declared_in self.new ≡ declared_in self.old) }
        ensures good { IfOk result (λ why. why ≡ None → IsGoodShared self.new) }
    {
        let row = number_row(alloc, numbering, predicate)?;
        let answer = self.add_numbered(alloc, &row);
        drop(row);
        answer
    }
}
