//! A solver beside the clause that is being read.

use sat_base::{Clause, SatLit, Var};
use sat_core::{Answer, Solver};
use std::alloc::{AllocError, Global};

/// A solver beside the literals of a clause that has not ended yet, and whether its answer is to the last clauses.
#[derive(Drop)]
struct Session {
    alloc: Global,
    solver: Solver,
    clause: Clause,
    answer: Option<Answer>,
}

/// The answer to the clauses of a text, and how many were learned.
pub fn report(alloc: Global, text: &str) -> Result<String, AllocError> {
    let mut session = Session::new(alloc);
    let report = session.report(text);
    drop(session);
    report
}

impl Session {
    fn new(alloc: Global) -> Self {
        Session {
            alloc,
            solver: Solver::new(alloc),
            clause: Clause::new(alloc),
            answer: None,
        }
    }

    fn report(&mut self, text: &str) -> Result<String, AllocError> {
        for line in text.lines() {
            self.read(line)?;
        }
        if self.answer.is_none() {
            self.ask()?;
        }
        let word = word_of(self.answer);
        format!(in self.alloc; "{word}, {} learned", self.solver.conflicts())
    }

    /// Reads a line: literals and the zeros after clauses, a question, or words that say nothing.
    fn read(&mut self, line: &str) -> Result<(), AllocError> {
        match line.bytes().next() {
            Some(b's') => self.ask(),
            Some(b'c' | b'p') => Ok(()),
            _ => self.read_words(line),
        }
    }

    fn read_words(&mut self, line: &str) -> Result<(), AllocError> {
        for word in line.split_whitespace() {
            if let Ok(number) = word.parse::<i64>() {
                self.take(number)?;
            }
        }
        Ok(())
    }

    fn ask(&mut self) -> Result<(), AllocError> {
        let _learned = self.solver.conflicts();
        self.answer = Some(self.solver.solve(u64::MAX)?);
        Ok(())
    }

    /// A literal of the clause, or its end.
    fn take(&mut self, number: i64) -> Result<(), AllocError> {
        let Some(before) = number.unsigned_abs().checked_sub(1) else {
            return self.end_clause();
        };
        let var = Var(before as usize);
        let positive = number > 0;
        self.clause.push(SatLit { var, positive })?;
        self.make(var)
    }

    /// Makes the variables up to one.
    fn make(&mut self, var: Var) -> Result<(), AllocError> {
        for _ in self.solver.variables()..=var.0 {
            let _made = self.solver.new_var()?;
        }
        Ok(())
    }

    fn end_clause(&mut self) -> Result<(), AllocError> {
        let made = self.solver.variables();
        let literals = self.clause.as_slice();
        let each_is_made = literals.iter().all(|l| l.var.0 < made);
        if each_is_made {
            self.solver.add(&self.clause)?;
            self.answer = None;
        }
        self.clause = Clause::new(self.alloc);
        Ok(())
    }
}

fn word_of(answer: Option<Answer>) -> &'static str {
    match answer {
        Some(Answer::Sat) => "satisfiable",
        Some(Answer::Unsat) => "unsatisfiable",
        _ => "no answer",
    }
}
