//! The literals of formulas.
ghost use Rattle.std.specs.Prelude.{◌≡◌, ◌<◌, [], length, All, IfOk};
ghost use Rattle.stt_core.specs.TypedProblem.{IsFormula};
ghost use Rattle.stt_core.specs.View.{the_term};
ghost use Rattle.tableau_calculus.specs.Literals.{as_literal};
ghost use Rattle.term_bank.specs.Content.{Grows, content_scope};
ghost use Rattle.term_bank.specs.Terms.{term_at};
ghost use Rattle.bank_normal.specs.Forms.{forms_in, AreForms};
ghost use Rattle.bank_normal.specs.Right.{IsRightNormaliser};
ghost use Rattle.delta_normal.specs.Forms.{normal_form_by};
ghost use Rattle.literal_map.specs.Atoms.{bank_literal, IsAtom, Begins};

use bank_normal::{Forms, Normaliser};
use literal_map::{LitTable, SignedAtom, atom_of, literals_stay};
use sat_base::SatLit;
use std::alloc::AllocError;
use stt_core::Term;
use term_bank::Bank;

/// The literal of the formula's normal form where names stand for terms of the bank, without a number for its atom.
fn formula_atom_by(
    bank: &mut Bank,
    normal: &mut Normaliser,
    forms: &Forms,
    formula: &Term,
) -> Result<SignedAtom, AllocError>
    requires formula { IsFormula (content_scope bank.old) (the_term formula.now) }
    requires forms { AreForms bank.old forms.now }
    requires right { IsRightNormaliser normal.old bank.old }
    ensures literal { IfOk result (λ a. record { positive = a.positive; atom = term_at bank.new.terms a.atom } ≡ as_literal
        (normal_form_by (content_scope bank.old) (forms_in bank.old.terms forms.now) [] (the_term formula.now))) }
    ensures atom { IfOk result (λ a. IsAtom bank.new a.atom) }
    ensures grows { Grows bank.old bank.new }
    ensures right { IsRightNormaliser normal.new bank.new }
{
    let _declared = bank.sig();
    let id = normal.normalise_by(bank, forms, formula)?;
    Ok(atom_of(bank, id))
}

/// The literal of the formula's normal form where names stand for terms of the bank. Where its atom has no number it gets the next one.
pub(crate) fn formula_literal_by(
    bank: &mut Bank,
    normal: &mut Normaliser,
    lits: &mut LitTable,
    forms: &Forms,
    formula: &Term,
) -> Result<SatLit, AllocError>
    requires formula { IsFormula (content_scope bank.old) (the_term formula.now) }
    requires forms { AreForms bank.old forms.now }
    requires right { IsRightNormaliser normal.old bank.old }
    requires atoms { All (IsAtom bank.old) lits.old }
    ensures number { IfOk result (λ l. l.var.0 < length lits.new) }
    ensures literal { IfOk result (λ l. bank_literal bank.new.terms lits.new l ≡ as_literal
        (normal_form_by (content_scope bank.old) (forms_in bank.old.terms forms.now) [] (the_term formula.now))) }
    ensures grows { Grows bank.old bank.new }
    ensures right { IsRightNormaliser normal.new bank.new }
    ensures begins { Begins lits.old lits.new }
    ensures atoms { All (IsAtom bank.new) lits.new }
{
    literals_stay();
    let signed = formula_atom_by(bank, normal, forms, formula)?;
    let lit = lits.lit_of(bank, signed.atom)?;
    let positive = signed.positive;
    let var = lit.var;
    Ok(SatLit { var, positive })
}
