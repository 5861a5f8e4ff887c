//! From a problem to the finite model that is found for it, or that there is none.

ghost use Rattle.std.specs.Prelude.{◌≡◌, ◌<◌, ◌≤◌, ℕ, List, length, IfOk};
ghost use Rattle.stt_core.specs.TypedProblem.{IsTyped};
ghost use Rattle.finite_models.specs.Symbols.{model_symbols};
ghost use Rattle.finite_models.specs.declared.found.Found.TheVariants as found;
ghost use Rattle.szs_report.specs.ModelText.{model_text};
ghost use Rattle.request_answers.specs.Names.{names_in};
ghost use Rattle.request_answers.specs.Modelled.{IsFoundWithin, AnswersModels};

use finite_models::{Found, Values, choosers_of, search_models};
use outside::Bytes;
use std::alloc::{AllocError, Global};
use stt_core::Problem;
use szs_report::{Answer, model_text};

/// The lines of the values of a problem's symbols.
fn lines_of(alloc: Global, problem: &Problem, values: &Values) -> Result<Bytes, AllocError>
    requires typed { IsTyped problem.now }
    requires whole { length values.now ≡ length (model_symbols problem.now) }
    ensures { IfOk result (λ lines. lines ≡ model_text (names_in problem.now) (model_symbols problem.now) values.now) }
{
    let choosers = choosers_of(alloc, problem)?;
    Ok(model_text(alloc, &problem.signature, &choosers, values)?)
}

/// The answer where a model is found.
fn model_answer(
    alloc: Global,
    problem: &Problem,
    upto: u32,
    size: u32,
    values: &Values,
) -> Result<Answer, AllocError>
    requires typed { IsTyped problem.now }
    requires found { IsFoundWithin upto problem.now (found.Model size values.now) }
    ensures { IfOk result (AnswersModels upto problem.now) }
{
    let lines = lines_of(alloc, problem, values)?;
    match &problem.conjecture {
        Some(_) => Ok(Answer::CounterSatisfiable { size, lines }),
        None => Ok(Answer::Satisfiable { size, lines }),
    }
}

/// The answer for what is found.
fn found_answer(alloc: Global, problem: &Problem, upto: u32) -> Result<Answer, AllocError>
    requires typed { IsTyped problem.now }
    requires some { 0 < upto }
    requires few { upto ≤ 8 }
    ensures { IfOk result (AnswersModels upto problem.now) }
{
    match search_models(alloc, problem, upto)? {
        Found::Model { size, values } => Ok(model_answer(alloc, problem, upto, size, &values)?),
        Found::None => Ok(Answer::NoneSmall { upto }),
        Found::TooMany { size } => Ok(Answer::ModelsTooMany { size }),
    }
}

/// The answer for a problem for which a finite model is looked for, with at most so many values for each base type.
pub(crate) fn look(alloc: Global, problem: &Problem, upto: u32) -> Answer
    requires typed { IsTyped problem.now }
    requires some { 0 < upto }
    requires few { upto ≤ 8 }
    ensures { AnswersModels upto problem.now result }
{
    match found_answer(alloc, problem, upto) {
        Ok(answer) => answer,
        Err(AllocError) => Answer::Memory,
    }
}
