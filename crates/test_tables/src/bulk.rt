//! Rows of many instances and of many notes, so that their time can be taken.
ghost use Rattle.test_tables.specs.Sound.{AreSoundTables};

use crate::clauses::{confronted, list};
use crate::refusal::RowRefused;
use crate::tables::Tables;
use literal_map::{Instance, LitList, LitLists};
use sat_base::{SatLit, Var};
use std::alloc::{AllocError, Global};
use tableau_clauses::StepTable;

/// How many literals are noted again and again.
const NOTED: usize = 1000;

/// How many literals of their head and of the other sign are there before them.
const PARTNERS: usize = 10;

/// The bits of the numbers of terms.
const BITS: u32 = 20;

/// Variables below 1,000 that look random.
#[derive(Drop)]
struct Draws {
    state: u64,
}

impl Draws {
    fn lit(&mut self, positive: bool) -> SatLit {
        self.state = self
            .state
            .wrapping_mul(6_364_136_223_846_793_005)
            .wrapping_add(1_442_695_040_888_963_407);
        let number = (self.state >> 33) % 1000;
        SatLit {
            var: Var(number as usize),
            positive,
        }
    }

    fn pair(&mut self, alloc: Global) -> Result<LitList, AllocError> {
        let first = self.lit(false);
        let second = self.lit(false);
        list(alloc, &[first, second])
    }

    fn alternatives(&mut self, alloc: Global) -> Result<LitLists, AllocError> {
        let mut lists = LitLists::new(alloc);
        lists.push(self.pair(alloc)?)?;
        lists.push(self.pair(alloc)?)?;
        Ok(lists)
    }

    fn confrontation(&mut self, alloc: Global) -> Result<Instance, AllocError> {
        let first = self.lit(true);
        let second = self.lit(false);
        let alternatives = self.alternatives(alloc)?;
        confronted(alloc, first, second, alternatives)
    }
}

/// Adds the clauses of so many confrontations.
fn add_confrontations(
    alloc: Global,
    steps: &mut StepTable,
    count: usize,
) -> Result<(), AllocError> {
    let mut draws = Draws { state: 7 };
    for _ in 0..count {
        let instance = draws.confrontation(alloc)?;
        steps.add(instance)?;
    }
    Ok(())
}

/// How many clauses so many confrontations give.
pub fn clauses_of(alloc: Global, count: usize) -> Result<usize, AllocError> {
    let mut steps = StepTable::new(alloc);
    let added = add_confrontations(alloc, &mut steps, count);
    let clauses = steps.len();
    drop(steps);
    added?;
    Ok(clauses)
}

/// Between two texts the term of a number: its bits are added up to `c`, the lowest one first.
fn text_of(alloc: Global, front: &str, number: usize, end: &str) -> Result<String, AllocError> {
    let mut text = String::from_str(alloc, front)?;
    for bit in 0..BITS {
        let digit = number >> bit & 1;
        text.push_str(if digit == 0 { "@@gc" } else { "@@ge" })?;
    }
    text.push('c')?;
    text.push_str(end)?;
    Ok(text)
}

/// The literal of the formula between two texts with the term of a number.
fn numbered(
    alloc: Global,
    tables: &mut Tables,
    front: &str,
    number: usize,
    end: &str,
) -> Result<SatLit, RowRefused>
    requires { AreSoundTables tables.old }
    ensures { AreSoundTables tables.new }
{
    let text = text_of(alloc, front, number, end)?;
    tables.signed(text.as_str())
}

/// Adds the literals between two texts of so many numbers.
fn add_numbered(
    alloc: Global,
    tables: &mut Tables,
    lits: &mut LitList,
    front: &str,
    end: &str,
    count: usize,
) -> Result<(), RowRefused>
    requires { AreSoundTables tables.old }
    ensures { AreSoundTables tables.new }
{
    for k in 0..count {
        let lit = numbered(alloc, tables, front, k, end)?;
        lits.push(lit)?;
    }
    Ok(())
}

/// How many partners are found for 1,000 literals, each of which has ten, and which are noted so many times, where so many literals of
/// another head are there before.
pub fn partners_of(
    alloc: Global,
    tables: &mut Tables,
    others: usize,
    rounds: usize,
) -> Result<usize, RowRefused>
    requires { AreSoundTables tables.old }
{
    let mut before = LitList::new(alloc);
    add_numbered(alloc, tables, &mut before, "+@@h", "c", others)?;
    add_numbered(alloc, tables, &mut before, "+@r", "", PARTNERS)?;
    let mut after = LitList::new(alloc);
    add_numbered(alloc, tables, &mut after, "-@r", "", NOTED)?;
    tables.count_partners(&before, &after, rounds)
}
