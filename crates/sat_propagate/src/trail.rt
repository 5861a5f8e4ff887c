//! The literals that are taken as true, in the order in which they became so.
ghost use Rattle.std.specs.Prelude.{◌≡◌, ◌≢◌, ◌<◌, ◌↔◌, [], ◌∷◌, ◌++◌, ℕ, Bool, true, false, Some, None, IsTrue, length, map, take, slice_get, slice_index_or, IfOk, IfSome, IfNone, OnOk, OnErr};
ghost use Rattle.sat_base.specs.declared.literal.Var.{Var};
ghost use Rattle.sat_base.specs.Literal.{holds, mentions_variable, negated};

use crate::packed::Packed;
use crate::values::Values;
use sat_base::{SatLit, Var};
use std::alloc::{AllocError, Global};
use std::marker::Model;

/// A literal that was made true: by a clause, named by its number, or by a decision.
#[derive(Clone, Copy)]
pub struct Step {
    pub literal: SatLit,
    pub reason: Option<usize>,
}

/// What is known of a variable: whether it has a value, its place on the trail if it has, and its last value.
#[derive(Clone, Copy)]
pub struct Cell {
    pub assigned: bool,
    pub positive: bool,
    pub place: usize,
}

impl Cell {
    const OPEN: Cell = Cell {
        assigned: false,
        positive: false,
        place: 0,
    };
}

/// The trail: the literals that are true, and the places of the decisions. Propagation reads which literals are true in a
/// table of bytes.
#[derive(Drop)]
pub struct Trail {
    steps: Vec<Step>,
    starts: Vec<usize>,
    cells: Vec<Cell>,
    values: Values,
}

impl Model for Trail {
    ghost use Rattle.std.specs.Prelude.{map};
    ghost use Rattle.sat_propagate.specs.Internal.Trail.{TrailState, IsTrailWhole};

    ghost Value = { TrailState };

    ghost view = { λ t. record { steps = t.steps.items; starts = t.starts.items; phases = map (λ cell. cell.positive) t.cells.items } };

    ghost invariant = { λ t. IsTrailWhole t.values t.cells.items (record { steps = t.steps.items; starts = t.starts.items; phases = map (λ cell. cell.positive) t.cells.items }) };
}

impl Trail {
    ghost use Rattle.sat_propagate.specs.Internal.Trail.{literals, IsTrail, IsPhased};
    ghost use Rattle.sat_propagate.specs.declared.trail.Step.{Step};

    pub fn new(alloc: Global) -> Self
        ensures { result ≡ record { steps = []; starts = []; phases = [] } }
    {
        Trail {
            steps: Vec::new(alloc),
            starts: Vec::new(alloc),
            cells: Vec::new(alloc),
            values: Values::new(alloc),
        }
    }

    /// One variable more.
    pub fn add_variable(&mut self) -> Result<(), AllocError>
        ensures ok { OnOk result (self.new ≡ record self.old { phases = self.old.phases ++ false ∷ [] }) }
        ensures err { OnErr result (self.new ≡ self.old) }
    {
        self.cells.reserve(1)?;
        self.values.add_variable()?;
        self.cells.push_reserved(Cell::OPEN);
        Ok(())
    }

    pub fn variables(&self) -> usize
        ensures { result ≡ length self.now.phases }
    {
        self.cells.len()
    }

    /// How many literals are true.
    pub fn len(&self) -> usize
        ensures number { result ≡ length self.now.steps }
        ensures right { IsTrail self.now }
        ensures phased { IsPhased self.now }
    {
        self.steps.len()
    }

    /// How many decisions there are.
    pub fn levels(&self) -> usize
        ensures number { result ≡ length self.now.starts }
        ensures right { IsTrail self.now }
    {
        self.starts.len()
    }

    /// The place of a decision.
    pub fn start(&self, level: usize) -> usize
        requires { level < length self.now.starts }
        ensures start { slice_get self.now.starts level ≡ Some result }
        ensures within { result < length self.now.steps }
    {
        self.starts[level]
    }

    pub fn step(&self, place: usize) -> Step
        requires { place < length self.now.steps }
        ensures { slice_get self.now.steps place ≡ Some result }
    {
        self.steps[place]
    }

    pub fn is_true(&self, literal: SatLit) -> bool
        ensures { result ≡ holds (literals self.now.steps) literal }
    {
        match self.cells.get(literal.var.0) {
            Some(cell) => cell.assigned && cell.positive == literal.positive,
            None => false,
        }
    }

    pub fn is_false(&self, literal: SatLit) -> bool
        ensures { result ≡ holds (literals self.now.steps) (negated literal) }
    {
        self.is_true(literal.negated())
    }

    /// Whether a literal is true, by the table of bytes.
    pub fn affirms(&self, literal: Packed) -> bool
        ensures { result ≡ holds (literals self.now.steps) literal }
    {
        self.values.get(literal)
    }

    /// Whether a literal is false, by the table of bytes.
    pub fn denies(&self, literal: Packed) -> bool
        ensures { result ≡ holds (literals self.now.steps) (negated literal) }
    {
        self.values.denies(literal)
    }

    pub fn is_open(&self, var: Var) -> bool
        ensures { IsTrue result ↔ (mentions_variable (literals self.now.steps) var ≡ false) }
    {
        let positive = SatLit {
            var,
            positive: true,
        };
        let negative = SatLit {
            var,
            positive: false,
        };
        !self.is_true(positive) && !self.is_true(negative)
    }

    /// The first variable without a value, if there is one.
    pub fn first_open(&self) -> Option<Var>
        ensures some { IfSome result (λ v. (v.0 < length self.now.phases) × (mentions_variable (literals self.now.steps) v ≡ false)) }
        ensures none { IfNone result ((v : Var) → v.0 < length self.now.phases → mentions_variable (literals self.now.steps) v ≢ false) }
    {
        for v in 0..self.variables() {
            if self.is_open(Var(v)) {
                return Some(Var(v));
            }
        }
        None
    }

    /// The place of the literal on a variable that has a value.
    pub fn place(&self, var: Var) -> usize
        requires { IsTrue (mentions_variable (literals self.now.steps) var) }
        ensures place { (i : ℕ) (step : Step) → slice_get self.now.steps i ≡ Some step → step.literal.var ≡ var → result ≡ i }
        ensures right { IsTrail self.now }
    {
        self.cells[var.0].place
    }

    /// The place of the literal on a variable, where it has a value.
    pub fn find(&self, var: Var) -> Option<usize>
        ensures some { IfSome result (λ place. (step : Step) × (slice_get self.now.steps place ≡ Some step) × (step.literal.var ≡ var)) }
        ensures none { IfNone result (mentions_variable (literals self.now.steps) var ≡ false) }
    {
        match self.cells.get(var.0) {
            Some(cell) if cell.assigned => Some(cell.place),
            _ => None,
        }
    }

    /// The value of a variable, or the last one that it had.
    pub fn phase(&self, var: Var) -> bool
        requires { var.0 < length self.now.phases }
        ensures { result ≡ slice_index_or self.now.phases var.0 false }
    {
        self.cells[var.0].positive
    }

    /// Makes a literal true.
    pub fn assign(&mut self, literal: SatLit, reason: Option<usize>) -> Result<(), AllocError>
        requires made { literal.var.0 < length self.old.phases }
        requires undecided { mentions_variable (literals self.old.steps) literal.var ≡ false }
        ensures steps { OnOk result (self.new.steps ≡ self.old.steps ++ record { literal = literal; reason = reason } ∷ []) }
        ensures starts { self.new.starts ≡ self.old.starts }
        ensures made { length self.new.phases ≡ length self.old.phases }
        ensures err { OnErr result (self.new ≡ self.old) }
    {
        let place = self.steps.len();
        self.steps.push(Step { literal, reason })?;
        self.cells[literal.var.0] = Cell {
            assigned: true,
            positive: literal.positive,
            place,
        };
        self.values.set(literal, true);
        Ok(())
    }

    /// Makes a literal true by decision.
    pub fn decide(&mut self, literal: SatLit) -> Result<(), AllocError>
        requires made { literal.var.0 < length self.old.phases }
        requires undecided { mentions_variable (literals self.old.steps) literal.var ≡ false }
        ensures steps { OnOk result (self.new.steps ≡ self.old.steps ++ record { literal = literal; reason = None } ∷ []) }
        ensures starts { OnOk result (self.new.starts ≡ self.old.starts ++ length self.old.steps ∷ []) }
        ensures made { length self.new.phases ≡ length self.old.phases }
        ensures err { OnErr result (self.new ≡ self.old) }
    {
        let place = self.steps.len();
        self.starts.reserve(1)?;
        self.steps.push(Step {
            literal,
            reason: None,
        })?;
        self.starts.push_reserved(place);
        self.cells[literal.var.0] = Cell {
            assigned: true,
            positive: literal.positive,
            place,
        };
        self.values.set(literal, true);
        Ok(())
    }

    /// Goes back to a number of decisions.
    pub fn back_to(&mut self, levels: usize)
        requires { levels < length self.old.starts }
        ensures steps { self.new.steps ≡ take (slice_index_or self.old.starts levels 0) self.old.steps }
        ensures starts { self.new.starts ≡ take levels self.old.starts }
        ensures phases { self.new.phases ≡ self.old.phases }
    {
        let start = self.starts[levels];
        for i in start..self.steps.len() {
            let step = self.steps[i];
            let cell = &mut self.cells[step.literal.var.0];
            cell.assigned = false;
            self.values.set(step.literal, false);
        }
        self.steps.truncate(start);
        self.starts.truncate(levels);
    }
}
