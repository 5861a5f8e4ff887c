//! The literals of a problem's start, by numbers.

ghost use Rattle.std.specs.Prelude.{◌≡◌, ◌<◌, ◌++◌, List, length, map, option_map, All, IfOk};
ghost use Rattle.stt_core.specs.Declarations.{scope_of};
ghost use Rattle.stt_core.specs.TypedProblem.{AreFormulas, IsFormulaIfThere, IsTyped};
ghost use Rattle.stt_core.specs.View.{the_term};
ghost use Rattle.tableau_calculus.specs.Literals.{Literal};
ghost use Rattle.term_bank.specs.Content.{Grows, content_scope};
ghost use Rattle.bank_normal.specs.Forms.{forms_in, AreForms};
ghost use Rattle.bank_normal.specs.Right.{IsRightNormaliser};
ghost use Rattle.literal_map.specs.Atoms.{IsAtom, Begins};
ghost use Rattle.problem_start.specs.Unfolds.{unfolded_if, start_literals, normal_literal_by, denied_by, formulas_at, AreStartNumbers};

use crate::formula::formula_literal_by;
use crate::unfolding::unfolding_of;
use bank_normal::{Forms, Normaliser};
use literal_map::{LitTable, literals_stay};
use sat_base::SatLit;
use std::alloc::{AllocError, Global};
use stt_core::{Problem, Term, Terms};
use term_bank::Bank;

/// The numbers of the literals of the formulas at these places.
fn numbers_at(
    alloc: Global,
    bank: &mut Bank,
    normal: &mut Normaliser,
    lits: &mut LitTable,
    forms: &Forms,
    formulas: &Terms,
    places: &[usize],
) -> Result<Vec<SatLit>, AllocError>
    requires formulas { AreFormulas (content_scope bank.old) formulas.now }
    requires places { All (λ i. i < length formulas.now) places.now }
    requires forms { AreForms bank.old forms.now }
    requires right { IsRightNormaliser normal.old bank.old }
    requires atoms { All (IsAtom bank.old) lits.old }
    ensures numbers { IfOk result
        (λ ns. AreStartNumbers bank.new lits.new (map (normal_literal_by (content_scope bank.old) (forms_in bank.old.terms forms.now))
        (formulas_at formulas.now places.now)) ns.items) }
    ensures grows { Grows bank.old bank.new }
    ensures right { IsRightNormaliser normal.new bank.new }
    ensures begins { Begins lits.old lits.new }
    ensures atoms { All (IsAtom bank.new) lits.new }
{
    let mut numbers = Vec::new(alloc);
    for j in 0..places.len() {
        let formula = formulas.at(places[j]);
        let lit = formula_literal_by(bank, normal, lits, forms, formula)?;
        numbers.push(lit)?;
    }
    Ok(numbers)
}

/// Puts the number of the denied conjecture's literal behind the others, where there is one.
fn with_denied(
    bank: &mut Bank,
    normal: &mut Normaliser,
    lits: &mut LitTable,
    forms: &Forms,
    conjecture: &Option<Term>,
    numbers: Vec<SatLit>,
) -> Result<Vec<SatLit>, AllocError>
    requires formula { IsFormulaIfThere (content_scope bank.old) (option_map the_term conjecture.now) }
    requires forms { AreForms bank.old forms.now }
    requires right { IsRightNormaliser normal.old bank.old }
    requires atoms { All (IsAtom bank.old) lits.old }
    ensures numbers { IfOk result (λ ns. (ls : List Literal) → AreStartNumbers bank.old lits.old ls numbers.items
        → AreStartNumbers bank.new lits.new (ls ++ denied_by (content_scope bank.old) (forms_in bank.old.terms forms.now) (option_map the_term conjecture.now)) ns.items) }
    ensures grows { Grows bank.old bank.new }
    ensures right { IsRightNormaliser normal.new bank.new }
    ensures begins { Begins lits.old lits.new }
    ensures atoms { All (IsAtom bank.new) lits.new }
{
    let mut numbers = numbers;
    match conjecture {
        None => Ok(numbers),
        Some(conjecture) => {
            let lit = formula_literal_by(bank, normal, lits, forms, conjecture)?;
            numbers.push(lit.negated())?;
            Ok(numbers)
        }
    }
}

/// The numbers of the literals from which a problem starts: those of the assumed formulas, in order, and then the negation of the
/// conjecture's. Where the definitions are to be unfolded, each stands for the normal form of its term, and no unfolded term is built.
pub fn start_numbers(
    alloc: Global,
    bank: &mut Bank,
    normal: &mut Normaliser,
    lits: &mut LitTable,
    problem: &Problem,
    unfolds: bool,
) -> Result<Vec<SatLit>, AllocError>
    requires problem { IsTyped problem.now }
    requires scope { content_scope bank.old ≡ scope_of problem.now.declared }
    requires right { IsRightNormaliser normal.old bank.old }
    requires atoms { All (IsAtom bank.old) lits.old }
    ensures numbers { IfOk result (λ ns. AreStartNumbers bank.new lits.new (start_literals (unfolded_if unfolds problem.now)) ns.items) }
    ensures grows { Grows bank.old bank.new }
    ensures right { IsRightNormaliser normal.new bank.new }
    ensures begins { Begins lits.old lits.new }
    ensures atoms { All (IsAtom bank.new) lits.new }
{
    literals_stay();
    let walk = unfolding_of(alloc, bank, normal, problem, unfolds)?;
    let forms = &walk.forms;
    let places = walk.left.as_slice();
    let assumed = &problem.assumed;
    let numbers = numbers_at(alloc, bank, normal, lits, forms, assumed, places)?;
    Ok(with_denied(bank, normal, lits, forms, &problem.conjecture, numbers)?)
}
