//! From a problem to whether the two sides of its conjecture are convertible.

ghost use Rattle.stt_core.specs.TypedProblem.{IsTyped};
ghost use Rattle.request_answers.specs.Compared.{AnswersSides};

use conv_laws::{Sides, compare_sides};
use std::alloc::{AllocError, Global};
use stt_core::Problem;
use szs_report::Answer;

/// The answer for a problem whose conjecture's two sides are to be compared.
pub(crate) fn compare(alloc: Global, problem: &Problem) -> Answer
    requires { IsTyped problem.now }
    ensures { AnswersSides problem.now result }
{
    match compare_sides(alloc, problem) {
        Ok(Sides::Same) => Answer::Same,
        Ok(Sides::Different) => Answer::Different,
        Ok(Sides::NoEquation) => Answer::NoEquation,
        Err(AllocError) => Answer::Memory,
    }
}
