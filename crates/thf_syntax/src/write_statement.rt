//! Writes statements and files.
ghost use Rattle.std.specs.Prelude.{◌≡◌, ◌≤◌, ◌++◌, codes, map, OnOk, OnErr, IsTrue};
ghost use Rattle.std.specs.List.{flat_map};
ghost use Rattle.outside.specs.Causes.{Rose};
ghost use Rattle.outside.specs.Prefix.{AppendsProperly};
ghost use Rattle.thf_grammar.specs.View.{the_surface_type, the_body, the_annotated, the_selected, the_selection, the_statement, the_file};
ghost use Rattle.thf_syntax.specs.Law.{HasTokens, AppendsTextOf};
ghost use Rattle.thf_names.specs.Names.{name_text};
ghost use Rattle.thf_syntax.specs.Texts as spec;
ghost use Rattle.outside.specs.Writing.{Took, Stopped};

use crate::write_formula::write_formula;
use crate::write_types::write_type;
use outside::{Failed, Sink};
use thf_grammar::{Annotated, Body, FileTree, Selected, Selection, Statement, SurfaceTy};
use thf_names::{write, write_between, write_label, write_name, write_quoted};

/// Writes what declares a constant.
fn write_typing<S: Sink>(sink: &mut S, name: &[u8], ty: &SurfaceTy) -> Result<(), Failed>
    ensures took { OnOk result (Took S.tells S.written S.faults sink.old sink.new
        (name_text name.now ++ (codes ": " ++ spec.type_text (the_surface_type ty.now)))) }
    ensures stopped { OnErr result (Stopped S.tells S.written S.faults sink.old sink.new
        (name_text name.now ++ (codes ": " ++ spec.type_text (the_surface_type ty.now)))) }
{
    write_name(sink, name)?;
    write(sink, b": ")?;
    write_type(sink, ty)
}

fn write_body<S: Sink>(sink: &mut S, body: &Body) -> Result<(), Failed>
    ensures took { OnOk result (Took S.tells S.written S.faults sink.old sink.new (spec.body_text (the_body body.now))) }
    ensures stopped { OnErr result (Stopped S.tells S.written S.faults sink.old sink.new (spec.body_text (the_body body.now))) }
{
    match body {
        Body::Base { name, .. } => {
            write_name(sink, name.as_slice())?;
            write(sink, b": $tType")
        }
        Body::Typing { name, ty, .. } => write_typing(sink, name.as_slice(), ty),
        Body::Formula(tree) => write_formula(sink, tree),
    }
}

/// Writes what stands before the body of an annotated formula.
fn write_heading<S: Sink>(sink: &mut S, annotated: &Annotated) -> Result<(), Failed>
    ensures took { OnOk result (Took S.tells S.written S.faults sink.old sink.new (spec.heading_text (the_annotated annotated.now))) }
    ensures stopped { OnErr result (Stopped S.tells S.written S.faults sink.old sink.new
        (spec.heading_text (the_annotated annotated.now))) }
{
    write(sink, b"thf(")?;
    write_label(sink, annotated.name.as_slice())?;
    write_between(sink, b",", annotated.role.as_slice(), b",")
}

fn write_annotated<S: Sink>(sink: &mut S, annotated: &Annotated) -> Result<(), Failed>
    ensures took { OnOk result (Took S.tells S.written S.faults sink.old sink.new (spec.annotated_text (the_annotated annotated.now))) }
    ensures stopped { OnErr result (Stopped S.tells S.written S.faults sink.old sink.new
        (spec.annotated_text (the_annotated annotated.now))) }
{
    write_heading(sink, annotated)?;
    write_body(sink, &annotated.body)?;
    write(sink, b").\n")
}

/// Writes a selected name behind other bytes.
fn write_selected<S: Sink>(sink: &mut S, before: &[u8], selected: &Selected) -> Result<(), Failed>
    ensures took { OnOk result (Took S.tells S.written S.faults sink.old sink.new
        (before.now ++ spec.selected_text (the_selected selected.now))) }
    ensures stopped { OnErr result (Stopped S.tells S.written S.faults sink.old sink.new
        (before.now ++ spec.selected_text (the_selected selected.now))) }
{
    write(sink, before)?;
    write_label(sink, selected.name.as_slice())
}

/// Writes selected names, each behind a comma.
fn write_further_labels<S: Sink>(sink: &mut S, only: &[Selected]) -> Result<(), Failed>
    ensures took { OnOk result (Took S.tells S.written S.faults sink.old sink.new
        (flat_map (λ text. codes "," ++ text) (map spec.selected_text (map the_selected only.now)))) }
    ensures stopped { OnErr result (Stopped S.tells S.written S.faults sink.old sink.new
        (flat_map (λ text. codes "," ++ text) (map spec.selected_text (map the_selected only.now)))) }
{
    for selected in only {
        write_selected(sink, b",", selected)?;
    }
    Ok(())
}

/// Writes selected names, with commas between them.
fn write_labels<S: Sink>(sink: &mut S, only: &[Selected]) -> Result<(), Failed>
    ensures took { OnOk result (Took S.tells S.written S.faults sink.old sink.new
        (spec.separated (codes ",") (map spec.selected_text (map the_selected only.now)))) }
    ensures stopped { OnErr result (Stopped S.tells S.written S.faults sink.old sink.new
        (spec.separated (codes ",") (map spec.selected_text (map the_selected only.now)))) }
{
    match only {
        [first, others @ ..] => {
            write_selected(sink, b"", first)?;
            write_further_labels(sink, others)
        }
        [] => Ok(()),
    }
}

fn write_selection<S: Sink>(sink: &mut S, only: &Option<Selection>) -> Result<(), Failed>
    ensures took { OnOk result (Took S.tells S.written S.faults sink.old sink.new (spec.selection_text (the_selection only.now))) }
    ensures stopped { OnErr result (Stopped S.tells S.written S.faults sink.old sink.new (spec.selection_text (the_selection only.now))) }
{
    match only {
        Some(only) => {
            write(sink, b",[")?;
            write_labels(sink, only.as_slice())?;
            write(sink, b"]")
        }
        None => Ok(()),
    }
}

fn write_statement<S: Sink>(sink: &mut S, statement: &Statement) -> Result<(), Failed>
    ensures took { OnOk result (Took S.tells S.written S.faults sink.old sink.new (spec.statement_text (the_statement statement.now))) }
    ensures stopped { OnErr result (Stopped S.tells S.written S.faults sink.old sink.new
        (spec.statement_text (the_statement statement.now))) }
{
    match statement {
        Statement::Annotated(annotated) => write_annotated(sink, annotated),
        Statement::Include { file, only, .. } => {
            write(sink, b"include(")?;
            write_quoted(sink, file.as_slice())?;
            write_selection(sink, only)?;
            write(sink, b").\n")
        }
    }
}

fn write_statements<S: Sink>(sink: &mut S, statements: &[Statement]) -> Result<(), Failed>
    ensures took { OnOk result (Took S.tells S.written S.faults sink.old sink.new (spec.surface_text (the_file statements.now))) }
    ensures stopped { OnErr result (Stopped S.tells S.written S.faults sink.old sink.new (spec.surface_text (the_file statements.now))) }
{
    for statement in statements {
        write_statement(sink, statement)?;
    }
    Ok(())
}

/// Writes the tree of a file, a statement on each line, with parentheses where the grammar needs them
/// and nowhere else. It takes no memory.
pub fn write_surface<S: Sink>(tree: &FileTree, sink: &mut S) -> Result<(), Failed>
    ensures appended { OnOk result (IsTrue (S.tells sink.old)
        → S.written sink.new ≡ S.written sink.old ++ spec.surface_text (the_file tree.now)) }
    ensures failed { OnErr result (IsTrue (S.tells sink.old)
        → AppendsProperly (S.written sink.old) (S.written sink.new) (spec.surface_text (the_file tree.now))) }
    ensures quiet { OnOk result (S.faults sink.new ≡ S.faults sink.old) }
    ensures cause { OnErr result (Rose (S.faults sink.old) (S.faults sink.new)) }
    ensures later { S.faults sink.old ≤ S.faults sink.new }
    ensures telling { IsTrue (S.tells sink.old) → IsTrue (S.tells sink.new) }
    // the tokens of what is written have the tree, places aside
    ensures law { OnOk result (IsTrue (S.tells sink.old) → HasTokens (the_file tree.now)
        → AppendsTextOf (the_file tree.now) (S.written sink.old) (S.written sink.new)) }
{
    write_statements(sink, tree.as_slice())?;
    Ok(())
}
