//! Problems with their definitions unfolded.

ghost use Rattle.std.specs.Prelude.{◌≡◌, ◌++◌, [], map, false, IfOk, option_map, unwrap_or, slice_get};
ghost use Rattle.stt_core.specs.View.{the_term};
ghost use Rattle.stt_core.specs.TypedProblem.{IsTyped};
ghost use Rattle.delta_defs.specs.Definitions.{unfolded};
ghost use Rattle.delta_defs.specs.Unfolding.{taken_from as is_taken_from, with_next, unless_taken, definitions_of, left_formulas, unfolded_problem};
ghost use Rattle.delta_defs.specs.Laws.{KeepsModels};

use crate::definition::Definitions;
use crate::replace::unfold_term;
use crate::stated::taken_from;
use std::alloc::{AllocError, Global};
use stt_core::{Flags, Problem, Term, Terms};

/// The definitions that are taken, and the formulas from which none is.
#[derive(Drop)]
struct Sorted {
    definitions: Definitions,
    left: Terms,
}

/// The mark at a place; what has none isn't marked.
pub fn mark_at(marks: &Flags, i: usize) -> bool
    ensures { result ≡ unwrap_or (slice_get marks.now i) false }
{
    if i < marks.len() { marks.at(i) } else { false }
}

impl Sorted {
    /// Takes the next formula's definition, or leaves the formula.
    fn with(self, alloc: Global, mark: bool, formula: &Term) -> Result<Sorted, AllocError>
        ensures definitions { IfOk result (λ s. s.definitions ≡ with_next self.definitions mark (the_term formula.now)) }
        ensures left { IfOk result (λ s. s.left ≡ self.left ++ unless_taken (is_taken_from self.definitions mark (the_term formula.now))
            (the_term formula.now) []) }
    {
        let Sorted {
            definitions,
            mut left,
        } = self;
        match taken_from(alloc, &definitions, mark, formula)? {
            Some(definition) => Ok(Sorted {
                definitions: definitions.with(definition)?,
                left,
            }),
            None => {
                left.push(formula.try_clone(alloc)?)?;
                Ok(Sorted { definitions, left })
            }
        }
    }
}

/// Sorts the assumed formulas of a problem.
fn sort(alloc: Global, problem: &Problem) -> Result<Sorted, AllocError>
    ensures definitions { IfOk result (λ s. s.definitions ≡ definitions_of problem.now) }
    ensures left { IfOk result (λ s. s.left ≡ left_formulas problem.now) }
{
    let mut sorted = Sorted {
        definitions: Definitions::new(alloc),
        left: Terms::new(alloc),
    };
    for i in 0..problem.assumed.len() {
        let mark = mark_at(&problem.marked, i);
        sorted = sorted.with(alloc, mark, problem.assumed.at(i))?;
    }
    Ok(sorted)
}

fn unfold_terms(
    alloc: Global,
    terms: &Terms,
    definitions: &Definitions,
) -> Result<Terms, AllocError>
    ensures { IfOk result (λ ts. ts ≡ map (unfolded definitions.now) terms.now) }
{
    let mut unfolded = Terms::new(alloc);
    for i in 0..terms.len() {
        let term = unfold_term(alloc, terms.at(i), definitions)?;
        unfolded.push(term)?;
    }
    Ok(unfolded)
}

/// A list of so many marks, of which none is set.
fn unmarked(alloc: Global, terms: &Terms) -> Result<Flags, AllocError>
    ensures { IfOk result (λ marks. marks ≡ map (λ t. false) terms.now) }
{
    let mut marks = Flags::new(alloc);
    for _ in 0..terms.len() {
        marks.push(false)?;
    }
    Ok(marks)
}

fn unfold_some(
    alloc: Global,
    term: &Option<Term>,
    definitions: &Definitions,
) -> Result<Option<Term>, AllocError>
    ensures { IfOk result (λ o. option_map the_term o ≡ option_map (unfolded definitions.now) (option_map the_term term.now)) }
{
    match term {
        None => Ok(None),
        Some(term) => Ok(Some(unfold_term(alloc, term, definitions)?)),
    }
}

impl Sorted {
    /// The problem with the definitions unfolded in the formulas that are left and in the conjecture.
    fn unfold(&self, alloc: Global, problem: &Problem) -> Result<Problem, AllocError>
        requires definitions { self.now.definitions ≡ definitions_of problem.now }
        requires left { self.now.left ≡ left_formulas problem.now }
        ensures { IfOk result (λ p. p ≡ unfolded_problem problem.now) }
    {
        Ok(Problem {
            signature: problem.signature.try_clone(alloc)?,
            assumed: unfold_terms(alloc, &self.left, &self.definitions)?,
            marked: unmarked(alloc, &self.left)?,
            conjecture: unfold_some(alloc, &problem.conjecture, &self.definitions)?,
        })
    }
}

/// The problem with its definitions unfolded: the formulas from which a definition is taken are left out, and in all others each taken
/// name is replaced by its term. No formula of it is marked. It takes memory for the terms of the definitions and for the new formulas.
pub fn unfold_problem(alloc: Global, problem: &Problem) -> Result<Problem, AllocError>
    ensures value { IfOk result (λ p. p ≡ unfolded_problem problem.now) }
    ensures typed { IfOk result (λ p. IsTyped problem.now → IsTyped p) }
    ensures models { IfOk result (λ p. IsTyped problem.now → KeepsModels problem.now p) }
{
    let sorted = sort(alloc, problem)?;
    let unfolded = sorted.unfold(alloc, problem)?;
    Ok(unfolded)
}
