//! What is written for a line.
ghost use Rattle.test_tables.specs.Sound.{AreSoundTables};

use crate::bulk::{clauses_of, partners_of};
use crate::clauses::write_clauses;
use crate::growth::{write_grown, write_terms};
use crate::refusal::RowRefused;
use crate::scope::signature;
use crate::tables::Tables;
use crate::uses::use_of;
use literal_map::{BankUse, Instance, LitList};
use std::alloc::{AllocError, Global};

/// Adds the principals and the alternatives of an instance.
fn write_made(tables: &Tables, instance: &Instance, out: &mut String) -> Result<(), AllocError> {
    tables.write_lits(instance.principals.as_slice(), out)?;
    for alternative in instance.alternatives.as_slice() {
        out.push(' ')?;
        tables.write_lits(alternative.as_slice(), out)?;
    }
    Ok(())
}

/// Adds the instance of a rule, or that it has none.
fn write_instance(tables: &mut Tables, by: &BankUse, out: &mut String) -> Result<(), RowRefused>
    requires { AreSoundTables tables.old }
    ensures { AreSoundTables tables.new }
{
    match tables.instance(by)? {
        Some(instance) => Ok(write_made(tables, &instance, out)?),
        None => Ok(out.push_str("not this rule")?),
    }
}

/// The uses of rules that a line stands for.
fn uses_of(alloc: Global, tables: &mut Tables, line: &str) -> Result<Vec<BankUse>, RowRefused>
    requires { AreSoundTables tables.old }
    ensures { AreSoundTables tables.new }
{
    let mut uses = Vec::new(alloc);
    for text in line.split(';') {
        let by = use_of(tables, text.trim_start())?;
        uses.push(by)?;
    }
    Ok(uses)
}

/// Adds the instances of the rules, which are used one after the other, and the witnesses.
fn write_each(tables: &mut Tables, uses: &[BankUse], out: &mut String) -> Result<(), RowRefused>
    requires { AreSoundTables tables.old }
{
    for i in 0..uses.len() {
        out.push_str(if i == 0 { " = " } else { "; " })?;
        write_instance(tables, &uses[i], out)?;
    }
    Ok(tables.write_witnesses(out)?)
}

fn write_instances(
    alloc: Global,
    tables: &mut Tables,
    line: &str,
    out: &mut String,
) -> Result<(), RowRefused>
    requires { AreSoundTables tables.old }
{
    let uses = uses_of(alloc, tables, line)?;
    write_each(tables, uses.as_slice(), out)
}

/// Adds the number of the literal of a formula.
fn write_literal(
    alloc: Global,
    tables: &mut Tables,
    word: &str,
    out: &mut String,
) -> Result<(), RowRefused>
    requires { AreSoundTables tables.old }
    ensures { AreSoundTables tables.new }
{
    let lit = tables.literal(word)?;
    out.push_str(if lit.positive { " +" } else { " -" })?;
    Ok(write_number(alloc, lit.var.0, out)?)
}

/// Adds the numbers of the literals of formulas.
fn write_numbers(
    alloc: Global,
    tables: &mut Tables,
    words: &str,
    out: &mut String,
) -> Result<(), RowRefused>
    requires { AreSoundTables tables.old }
{
    out.push_str(" =")?;
    for word in words.split(' ') {
        write_literal(alloc, tables, word, out)?;
    }
    Ok(())
}

fn write_number(alloc: Global, number: usize, out: &mut String) -> Result<(), AllocError> {
    let text = format!(in alloc; "{number}")?;
    out.push_str(text.as_str())
}

/// The literals that words stand for.
fn literals_of(alloc: Global, tables: &mut Tables, words: &str) -> Result<LitList, RowRefused>
    requires { AreSoundTables tables.old }
    ensures { AreSoundTables tables.new }
{
    let mut lits = LitList::new(alloc);
    for word in words.split(' ') {
        let lit = tables.signed(word)?;
        lits.push(lit)?;
    }
    Ok(lits)
}

/// Adds the partners of literals, which are noted one after the other.
fn write_partners(
    alloc: Global,
    tables: &mut Tables,
    words: &str,
    out: &mut String,
) -> Result<(), RowRefused>
    requires { AreSoundTables tables.old }
{
    out.push_str(" =")?;
    let noted = literals_of(alloc, tables, words)?;
    tables.write_partners(&noted, out)
}

fn number_of(word: &str) -> Result<usize, RowRefused> {
    word.parse::<usize>().map_err(|_| RowRefused::Unread)
}

/// Adds how many clauses so many confrontations give.
fn write_kept(alloc: Global, words: &str, out: &mut String) -> Result<(), RowRefused> {
    let count = clauses_of(alloc, number_of(words)?)?;
    out.push_str(" = ")?;
    Ok(write_number(alloc, count, out)?)
}

/// Adds how many partners are found among so many other literals, in so many rounds.
fn write_noted(
    alloc: Global,
    tables: &mut Tables,
    words: &str,
    out: &mut String,
) -> Result<(), RowRefused>
    requires { AreSoundTables tables.old }
{
    let (others, rounds) = words.split_once(' ').ok_or(RowRefused::Unread)?;
    let count = partners_of(alloc, tables, number_of(others)?, number_of(rounds)?)?;
    out.push_str(" = ")?;
    Ok(write_number(alloc, count, out)?)
}

/// Adds what two units and two confrontations give, or terms of some types.
fn write_twice(alloc: Global, words: &str, out: &mut String) -> Result<(), RowRefused> {
    out.push_str(" =")?;
    match words {
        "clauses" => Ok(write_clauses(alloc, out)?),
        "terms" => Ok(write_terms(alloc, out)?),
        _ => Err(RowRefused::Unread),
    }
}

/// Adds what the tables answer.
fn write_answer(
    alloc: Global,
    tables: &mut Tables,
    line: &str,
    out: &mut String,
) -> Result<(), RowRefused>
    requires { AreSoundTables tables.old }
{
    let (word, words) = line.split_once(' ').ok_or(RowRefused::Unread)?;
    match word {
        "numbers" => write_numbers(alloc, tables, words, out),
        "partners" => write_partners(alloc, tables, words, out),
        "kept" => write_kept(alloc, words, out),
        "noted" => write_noted(alloc, tables, words, out),
        "twice" => write_twice(alloc, words, out),
        "grown" => write_grown(alloc, words, out),
        _ => write_instances(alloc, tables, line, out),
    }
}

/// Adds what tables with nothing in them answer.
fn write_asked(alloc: Global, line: &str, out: &mut String) -> Result<(), RowRefused> {
    let sig = signature(alloc)?;
    let mut tables = Tables::new(alloc, sig);
    let written = write_answer(alloc, &mut tables, line, out);
    drop(tables);
    written
}

/// The line, and behind it what the tables answer.
pub fn answer(alloc: Global, line: &str) -> Result<String, RowRefused> {
    let mut out = String::from_str(alloc, line)?;
    if !line.starts_with('%') {
        write_asked(alloc, line, &mut out)?;
    }
    Ok(out)
}
