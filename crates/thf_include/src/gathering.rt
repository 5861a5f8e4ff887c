//! The gathering of a problem's statements.

ghost use Rattle.std.specs.Prelude.{◌≡◌, ◌≤◌, ◌<◌, ◌^◌, [], All, List, ℕ, length, map, slice_get, IsSomeAnd, IfOk, IfErr, IsUtf8};
ghost use Rattle.outside.specs.Causes.{Rose};
ghost use Rattle.thf_grammar.specs.Trees.{include};
ghost use Rattle.thf_grammar.specs.View.{the_file, the_statement, the_selection};
ghost use Rattle.thf_include.specs.Answer.{Gathers, OfFault, IsNoFault};
ghost use Rattle.thf_include.specs.Internal.Chain.{the_chain};
ghost use Rattle.thf_include.specs.Internal.Names.{IsNamedStatement, AreNamedStatements};
ghost use Rattle.thf_include.specs.Internal.Steps.{FileSteps, StatementSteps, StatementsStep};
ghost use Rattle.thf_include.specs.View.{the_statements};
ghost use Rattle.thf_include.specs.Gathering.{file_limit};

use crate::chain::Chain;
use crate::limits::MAX_FILES;
use crate::opened::Opened;
use crate::selection::keep_selected;
use crate::text::{statements_in, text_of};
use crate::{FileNames, GatherRefused, Gathered, Placed};
use outside::{Bytes, Files};
use std::alloc::Global;
use thf_grammar::{Selection, Statement};

/// An include in the file with the number `file`.
#[derive(Drop)]
struct Include {
    file: u32,
    at: u32,
    name: Bytes,
    only: Option<Selection>,
}

/// The statements of the file of this name, with those of the files that it includes in their place.
/// `names` gets the names of the files that are opened, in their order.
pub fn gather<F: Files>(
    alloc: Global,
    files: &mut F,
    names: &mut FileNames,
    name: &str,
) -> Result<Gathered, GatherRefused>
    requires empty { names.old ≡ [] }
    ensures gathered { Gathers (F.seen files.old) name.now names.new result }
    ensures fault { IfErr result (OfFault (λ file. IsSomeAnd (slice_get names.new file) (λ n.
        Rose (F.faults files.old n) (F.faults files.new n)))) }
    ensures quiet { IfErr result IsNoFault → (other : List ℕ) → F.faults files.new other ≡ F.faults files.old other }
    ensures placed { IfOk result (λ g. All (λ p. p.file < length names.new) g) }
    ensures counted { IfOk result (λ g. length g ≤ 2 ^ 24) }

    ensures later { (other : List ℕ) → F.faults files.old other ≤ F.faults files.new other }
    ensures same { F.seen files.new ≡ F.seen files.old }
{
    let mut opened = Opened::new(alloc);
    let mut gathered = Gathered::new(alloc);
    let answer = gather_file(
        alloc,
        files,
        &mut opened,
        &Chain::Empty,
        name,
        &mut gathered,
    );
    *names = opened.names;
    match answer {
        Ok(()) => Ok(gathered),
        Err(refused) => Err(refused),
    }
}

/// Opens the next file, which those of the chain include, and gathers from it.
#[cycle(gathering)]
fn gather_file<F: Files>(
    alloc: Global,
    files: &mut F,
    opened: &mut Opened,
    chain: &Chain,
    name: &str,
    gathered: &mut Gathered,
) -> Result<(), GatherRefused>
    requires { length opened.old.names < file_limit }
    ensures steps { FileSteps (F.seen files.old) (the_chain chain.now) name.now
        opened.old opened.new (the_statements gathered.old) (the_statements gathered.new) result }
    ensures fault { IfErr result (OfFault (λ file. IsSomeAnd (slice_get opened.new.names file) (λ n.
        Rose (F.faults files.old n) (F.faults files.new n)))) }
    ensures quiet { IfErr result IsNoFault → (other : List ℕ) → F.faults files.new other ≡ F.faults files.old other }

    ensures grows { length opened.old.names ≤ length opened.new.names }
    ensures later { (other : List ℕ) → F.faults files.old other ≤ F.faults files.new other }
    ensures same { F.seen files.new ≡ F.seen files.old }
{
    let file = opened.names.len() as u32;
    let text = opened.read(alloc, files, name)?;
    let statements = statements_in(alloc, file, &text)?;
    drop(text);
    let chain = Chain::File(name.as_bytes(), &*chain);
    gather_statements(alloc, files, opened, &chain, file, statements, gathered)
}

/// Gathers from the statements of the file with this number, which is the innermost of the chain.
#[cycle(gathering)]
fn gather_statements<F: Files>(
    alloc: Global,
    files: &mut F,
    opened: &mut Opened,
    chain: &Chain,
    file: u32,
    statements: Vec<Statement>,
    gathered: &mut Gathered,
) -> Result<(), GatherRefused>
    requires { AreNamedStatements (the_file statements.items) }
    ensures steps { StatementsStep (F.seen files.old) (the_chain chain.now) file (the_file statements.items)
        opened.old opened.new (the_statements gathered.old) (the_statements gathered.new) result }
    ensures fault { IfErr result (OfFault (λ file. IsSomeAnd (slice_get opened.new.names file) (λ n.
        Rose (F.faults files.old n) (F.faults files.new n)))) }
    ensures quiet { IfErr result IsNoFault → (other : List ℕ) → F.faults files.new other ≡ F.faults files.old other }

    ensures grows { length opened.old.names ≤ length opened.new.names }
    ensures later { (other : List ℕ) → F.faults files.old other ≤ F.faults files.new other }
    ensures same { F.seen files.new ≡ F.seen files.old }
{
    for statement in statements {
        gather_statement(alloc, files, opened, &*chain, file, statement, gathered)?;
    }
    Ok(())
}

#[cycle(gathering)]
fn gather_statement<F: Files>(
    alloc: Global,
    files: &mut F,
    opened: &mut Opened,
    chain: &Chain,
    file: u32,
    statement: Statement,
    gathered: &mut Gathered,
) -> Result<(), GatherRefused>
    requires { IsNamedStatement (the_statement statement) }
    ensures steps { StatementSteps (F.seen files.old) (the_chain chain.now) file (the_statement statement)
        opened.old opened.new (the_statements gathered.old) (the_statements gathered.new) result }
    ensures fault { IfErr result (OfFault (λ file. IsSomeAnd (slice_get opened.new.names file) (λ n.
        Rose (F.faults files.old n) (F.faults files.new n)))) }
    ensures quiet { IfErr result IsNoFault → (other : List ℕ) → F.faults files.new other ≡ F.faults files.old other }

    ensures grows { length opened.old.names ≤ length opened.new.names }
    ensures later { (other : List ℕ) → F.faults files.old other ≤ F.faults files.new other }
    ensures same { F.seen files.new ≡ F.seen files.old }
{
    match statement {
        Statement::Annotated(statement) => {
            gathered.push(Placed { file, statement })?;
            Ok(())
        }
        Statement::Include {
            at,
            file: name,
            only,
        } => {
            let include = Include {
                file,
                at,
                name,
                only,
            };
            gather_include(alloc, files, opened, &*chain, &include, gathered)
        }
    }
}

/// Gathers what an include stands for.
#[cycle(gathering)]
fn gather_include<F: Files>(
    alloc: Global,
    files: &mut F,
    opened: &mut Opened,
    chain: &Chain,
    statement: &Include,
    gathered: &mut Gathered,
) -> Result<(), GatherRefused>
    requires { IsUtf8 statement.now.name }
    ensures steps { StatementSteps (F.seen files.old) (the_chain chain.now) statement.now.file
        (include statement.now.at statement.now.name (the_selection statement.now.only))
        opened.old opened.new (the_statements gathered.old) (the_statements gathered.new) result }
    ensures fault { IfErr result (OfFault (λ file. IsSomeAnd (slice_get opened.new.names file) (λ n.
        Rose (F.faults files.old n) (F.faults files.new n)))) }
    ensures quiet { IfErr result IsNoFault → (other : List ℕ) → F.faults files.new other ≡ F.faults files.old other }

    ensures grows { length opened.old.names ≤ length opened.new.names }
    ensures later { (other : List ℕ) → F.faults files.old other ≤ F.faults files.new other }
    ensures same { F.seen files.new ≡ F.seen files.old }
{
    let Include {
        file,
        at,
        name,
        only,
    } = statement;
    if chain.contains(name.as_slice()) {
        return Err(GatherRefused::Cycle {
            file: *file,
            at: *at,
        });
    }
    if opened.names.len() >= MAX_FILES {
        return Err(GatherRefused::TooMany {
            file: *file,
            at: *at,
        });
    }
    let name = text_of(name.as_slice());
    match only {
        None => gather_file(alloc, files, opened, &*chain, name, gathered),
        Some(only) => {
            let mut included = Gathered::new(alloc);
            gather_file(alloc, files, opened, &*chain, name, &mut included)?;
            keep_selected(alloc, *file, only, included, gathered)
        }
    }
}
