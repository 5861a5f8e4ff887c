//! The clauses of a confrontation, and clauses that are there already.

use literal_map::{Instance, LitList, LitLists};
use sat_base::{SatLit, Var};
use std::alloc::{AllocError, Global};
use tableau_calculus::{RuleUse, TwoPlaces};
use tableau_clauses::StepTable;

fn lit(number: usize, positive: bool) -> SatLit {
    SatLit {
        var: Var(number),
        positive,
    }
}

/// The list of these literals.
pub fn list(alloc: Global, lits: &[SatLit]) -> Result<LitList, AllocError> {
    let mut list = LitList::new(alloc);
    for lit in lits {
        list.push(*lit)?;
    }
    Ok(list)
}

fn alternatives(alloc: Global) -> Result<LitLists, AllocError> {
    let mut lists = LitLists::new(alloc);
    lists.push(list(alloc, &[lit(2, false), lit(3, false)])?)?;
    lists.push(list(alloc, &[lit(4, false), lit(5, false)])?)?;
    Ok(lists)
}

/// Two literals are confronted, with these alternatives.
pub fn confronted(
    alloc: Global,
    first: SatLit,
    second: SatLit,
    alternatives: LitLists,
) -> Result<Instance, AllocError> {
    let principals = list(alloc, &[first, second])?;
    Ok(Instance {
        by: RuleUse::AtTwo(TwoPlaces::Con, first, second),
        principals,
        alternatives,
    })
}

/// The first variable's literal is confronted with the denial of the second one's: two alternatives of two literals each.
fn confrontation(alloc: Global) -> Result<Instance, AllocError> {
    let alternatives = alternatives(alloc)?;
    confronted(alloc, lit(0, true), lit(1, false), alternatives)
}

/// Adds whether the unit of a literal is new.
fn write_start(steps: &mut StepTable, out: &mut String) -> Result<(), AllocError> {
    let is_new = steps.start(lit(0, true))?;
    write!(out, " {is_new}")
}

/// Adds the numbers of the clauses that a confrontation gives.
fn write_added(alloc: Global, steps: &mut StepTable, out: &mut String) -> Result<(), AllocError> {
    let instance = confrontation(alloc)?;
    let added = steps.add(instance)?;
    write!(out, " {}..{}", added.start, added.end)
}

/// Adds the numbers of the literals, those of denials with a sign, in brackets.
fn write_clause(lits: &[SatLit], out: &mut String) -> Result<(), AllocError> {
    out.push('[')?;
    for lit in lits {
        if !lit.positive {
            out.push('-')?;
        }
        write!(out, "{}", lit.var.0)?;
    }
    out.push(']')
}

/// Adds, for a unit and a confrontation that are each added twice, what is new, and then the clauses.
pub fn write_clauses(alloc: Global, out: &mut String) -> Result<(), AllocError> {
    let mut steps = StepTable::new(alloc);
    for _ in 0..2 {
        write_start(&mut steps, out)?;
    }
    for _ in 0..2 {
        write_added(alloc, &mut steps, out)?;
    }
    out.push(' ')?;
    for n in 0..steps.len() {
        let clause = steps.clause(n)?;
        write_clause(clause.as_slice(), out)?;
    }
    Ok(())
}
