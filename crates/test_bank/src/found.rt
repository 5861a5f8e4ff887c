//! What is found for a row.

ghost use Rattle.test_bank.specs.Individuals.{NamesIndividuals, HasNoWitness};

use crate::canonical::{function_is_long, outcome_is_constant};
use crate::doubling::{doubled, doubled_at_constant, interned};
use crate::power::{plain_power, shared_power};
use crate::refused::RowRefused;
use crate::row::Row;
use crate::scope::empty_bank;
use crate::shared::twice_imported;
use std::alloc::Global;
use term_bank::Bank;

/// How many terms a bank has, once or after each of two calls; how deep a term is, or how many nodes a tree has; or whether two terms are
/// one.
#[derive(Clone, Copy)]
pub enum Found {
    Terms(usize),
    TermsTwice(usize, usize),
    Depth(usize),
    Nodes(u64),
    Same(bool),
}

impl Found {
    pub fn text(self, alloc: Global) -> anyhow::Result<String> {
        Ok(match self {
            Found::Terms(count) => format!(in alloc; "{count} terms")?,
            Found::TermsTwice(first, again) => format!(in alloc; "{first} terms, and {again}")?,
            Found::Depth(depth) => format!(in alloc; "depth {depth}")?,
            Found::Nodes(count) => format!(in alloc; "{count} nodes")?,
            Found::Same(is) => format!(in alloc; "{is}")?,
        })
    }
}

fn answer_over(alloc: Global, bank: &mut Bank, row: Row) -> Result<Found, RowRefused>
    requires names { NamesIndividuals bank.old }
    requires witnesses { HasNoWitness bank.old }
{
    match row {
        Row::TwiceImported => twice_imported(alloc, bank),
        Row::Doubled => doubled(bank),
        Row::DoubledAtConstant => doubled_at_constant(alloc, bank),
        Row::OutcomeIsConstant => outcome_is_constant(alloc, bank),
        Row::FunctionIsLong => function_is_long(alloc, bank),
        Row::Interned(count) => interned(bank, count),
        Row::Power(base, exponent) => shared_power(alloc, bank, base, exponent),
        Row::Plain(base, exponent) => plain_power(alloc, bank.sig(), base, exponent),
    }
}

/// What is found for a row over a bank without terms.
pub fn answer(alloc: Global, row: Row) -> Result<Found, RowRefused> {
    let mut bank = empty_bank(alloc)?;
    answer_over(alloc, &mut bank, row)
}
