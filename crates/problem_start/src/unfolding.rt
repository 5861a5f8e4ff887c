//! The definitions of a problem by the numbers of their normal forms.

ghost use Rattle.std.specs.Prelude.{◌≡◌, ◌++◌, [], List, IfOk};
ghost use Rattle.stt_core.specs.Declarations.{scope_of};
ghost use Rattle.stt_core.specs.TypedProblem.{IsFormula, IsTyped};
ghost use Rattle.stt_core.specs.View.{the_term};
ghost use Rattle.term_bank.specs.Content.{Content, Grows, content_scope};
ghost use Rattle.delta_defs.specs.Definitions.{Definition};
ghost use Rattle.delta_defs.specs.Unfolding.{taken_from, with_next, definitions_of, left_formulas};
ghost use Rattle.bank_normal.specs.Right.{IsRightNormaliser};
ghost use Rattle.problem_start.specs.Unfolds.{definitions_if, left_if, IsUnfolding, StandAt, place_unless};

use bank_normal::{FormId, Forms, Normaliser};
use delta_defs::{Outline, mark_at};
use std::alloc::{AllocError, Global};
use stt_core::{Problem, Term};
use term_bank::Bank;

/// Definitions that are taken: what is counted of them, the normal forms of their terms, each worked out once, and the places of the
/// assumed formulas from which none is taken.
#[derive(Drop)]
pub(crate) struct Unfolding {
    outline: Outline,
    pub(crate) forms: Forms,
    pub(crate) left: Vec<usize>,
}

impl Unfolding {
    /// No definitions and no formulas.
    fn new(alloc: Global) -> Unfolding
        ensures definitions { (b : Content) → IsUnfolding b result [] }
        ensures left { result.left.items ≡ [] }
    {
        Unfolding {
            outline: Outline::new(alloc),
            forms: Forms::new(alloc),
            left: Vec::new(alloc),
        }
    }

    /// Takes the definition of the formula at a place, where one is taken.
    fn with(
        self,
        bank: &mut Bank,
        normal: &mut Normaliser,
        mark: bool,
        formula: &Term,
        place: usize,
    ) -> Result<Unfolding, AllocError>
        requires formula { IsFormula (content_scope bank.old) (the_term formula.now) }
        requires right { IsRightNormaliser normal.old bank.old }
        requires definitions { (ds : List Definition) × IsUnfolding bank.old self ds }
        ensures definitions { IfOk result (λ u. (ds : List Definition) → IsUnfolding bank.old self ds
            → IsUnfolding bank.new u (with_next ds mark (the_term formula.now))) }
        ensures left { IfOk result (λ u. (ds : List Definition) → IsUnfolding bank.old self ds
            → u.left.items ≡ self.left.items ++ place_unless (taken_from ds mark (the_term formula.now)) place) }
        ensures grows { Grows bank.old bank.new }
        ensures right { IsRightNormaliser normal.new bank.new }
    {
        let _declared = bank.sig();
        let Unfolding {
            outline,
            forms,
            mut left,
        } = self;
        match outline.takes(mark, formula) {
            None => {
                left.push(place)?;
                Ok(Unfolding {
                    outline,
                    forms,
                    left,
                })
            }
            Some(stated) => {
                let place = stated.place;
                let id = normal.normalise_by(bank, &forms, stated.body)?;
                let forms = forms.with(FormId { place, id })?;
                let outline = outline.with(place, stated.body)?;
                Ok(Unfolding {
                    outline,
                    forms,
                    left,
                })
            }
        }
    }
}

/// The definitions that are taken from a problem.
fn taken_unfolding(
    alloc: Global,
    bank: &mut Bank,
    normal: &mut Normaliser,
    problem: &Problem,
) -> Result<Unfolding, AllocError>
    requires problem { IsTyped problem.now }
    requires scope { content_scope bank.old ≡ scope_of problem.now.declared }
    requires right { IsRightNormaliser normal.old bank.old }
    ensures definitions { IfOk result (λ u. IsUnfolding bank.new u (definitions_of problem.now)) }
    ensures left { IfOk result (λ u. StandAt problem.now.assumed u.left.items (left_formulas problem.now)) }
    ensures grows { Grows bank.old bank.new }
    ensures right { IsRightNormaliser normal.new bank.new }
{
    let mut walk = Unfolding::new(alloc);
    for i in 0..problem.assumed.len() {
        let mark = mark_at(&problem.marked, i);
        walk = walk.with(bank, normal, mark, problem.assumed.at(i), i)?;
    }
    Ok(walk)
}

/// No definitions, and all assumed formulas.
fn plain_unfolding(alloc: Global, problem: &Problem) -> Result<Unfolding, AllocError>
    ensures definitions { IfOk result (λ u. (b : Content) → IsUnfolding b u []) }
    ensures left { IfOk result (λ u. StandAt problem.now.assumed u.left.items problem.now.assumed) }
{
    let Unfolding {
        outline,
        forms,
        mut left,
    } = Unfolding::new(alloc);
    for i in 0..problem.assumed.len() {
        left.push(i)?;
    }
    Ok(Unfolding {
        outline,
        forms,
        left,
    })
}

/// The definitions of a problem, where they are to be unfolded.
pub(crate) fn unfolding_of(
    alloc: Global,
    bank: &mut Bank,
    normal: &mut Normaliser,
    problem: &Problem,
    unfolds: bool,
) -> Result<Unfolding, AllocError>
    requires problem { IsTyped problem.now }
    requires scope { content_scope bank.old ≡ scope_of problem.now.declared }
    requires right { IsRightNormaliser normal.old bank.old }
    ensures definitions { IfOk result (λ u. IsUnfolding bank.new u (definitions_if unfolds problem.now)) }
    ensures left { IfOk result (λ u. StandAt problem.now.assumed u.left.items (left_if unfolds problem.now)) }
    ensures grows { Grows bank.old bank.new }
    ensures right { IsRightNormaliser normal.new bank.new }
{
    if unfolds {
        Ok(taken_unfolding(alloc, bank, normal, problem)?)
    } else {
        Ok(plain_unfolding(alloc, problem)?)
    }
}
