//! A solver beside the clauses that it was given.

use crate::table::{hold, is_satisfiable};
use sat_base::{Clause, ClauseStore, Var};
use sat_core::{Answer, Solver};
use std::alloc::{AllocError, Global};

/// A solver beside the clauses that it was given.
#[derive(Drop)]
pub struct Problem {
    pub solver: Solver,
    clauses: ClauseStore,
}

fn make_variables(solver: &mut Solver, count: usize) -> Result<(), AllocError> {
    for _ in 0..count {
        let _var = solver.new_var()?;
    }
    Ok(())
}

impl Problem {
    /// The problem without variables.
    pub fn new(alloc: Global) -> Self {
        Problem {
            solver: Solver::new(alloc),
            clauses: ClauseStore::new(alloc),
        }
    }

    /// Begins anew, with so many variables.
    pub fn restart(&mut self, alloc: Global, variables: usize) -> Result<(), AllocError> {
        self.solver = Solver::new(alloc);
        self.clauses = ClauseStore::new(alloc);
        make_variables(&mut self.solver, variables)
    }

    /// Adds a clause, and tells whether its variables are there.
    pub fn add(&mut self, clause: Clause) -> Result<bool, AllocError> {
        let made = self.solver.variables();
        let literals = clause.as_slice();
        let each_is_made = literals.iter().all(|l| l.var.0 < made);
        if !each_is_made {
            return Ok(false);
        }
        self.solver.add(&clause)?;
        self.clauses.push(clause)?;
        Ok(true)
    }

    /// The solver's answer within a budget, or within the conflicts so far where these are more.
    pub fn solve(&mut self, budget: u64) -> Result<Answer, AllocError> {
        if budget < self.solver.conflicts() {
            return self.solver.solve(self.solver.conflicts());
        }
        self.solver.solve(budget)
    }

    /// Whether the clauses are true with the solver's values.
    fn are_true(&self, alloc: Global) -> Result<bool, AllocError> {
        let mut values = Vec::new(alloc);
        for v in 0..self.solver.variables() {
            values.push(self.solver.value(Var(v)))?;
        }
        Ok(hold(&self.clauses, values.as_slice()))
    }

    /// Whether the solver's answer within a budget is that of the truth table.
    pub fn is_right(&mut self, alloc: Global, budget: u64) -> Result<bool, AllocError> {
        match self.solve(budget)? {
            Answer::Sat => self.are_true(alloc),
            Answer::Unsat => {
                let variables = self.solver.variables();
                Ok(!is_satisfiable(alloc, &self.clauses, variables)?)
            }
            Answer::Spent { conflicts } => {
                Ok(conflicts == budget && self.solver.conflicts() == budget)
            }
        }
    }
}
