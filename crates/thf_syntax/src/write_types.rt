//! Writes types and variables.
ghost use Rattle.std.specs.Prelude.{◌≡◌, ◌++◌, codes, map, OnOk, OnErr};
ghost use Rattle.std.specs.List.{flat_map};
ghost use Rattle.thf_grammar.specs.View.{the_surface_type, the_var, the_vars};
ghost use Rattle.thf_syntax.specs.Slots.{is_simple};
ghost use Rattle.thf_syntax.specs.Texts.{type_text, var_text, separated, grouped_unless};
ghost use Rattle.outside.specs.Writing.{Took, Stopped};

use outside::{Failed, Sink};
use thf_grammar::{SurfaceTy, SurfaceVar};
use thf_names::{write, write_name};

fn is_simple(ty: &SurfaceTy) -> bool
    ensures { result ≡ is_simple (the_surface_type ty.now) }
{
    !matches!(ty, SurfaceTy::Arrow { .. })
}

/// Writes a type.
#[cycle(types)]
pub fn write_type<S: Sink>(sink: &mut S, ty: &SurfaceTy) -> Result<(), Failed>
    ensures took { OnOk result (Took S.tells S.written S.faults sink.old sink.new (type_text (the_surface_type ty.now))) }
    ensures stopped { OnErr result (Stopped S.tells S.written S.faults sink.old sink.new (type_text (the_surface_type ty.now))) }
{
    match ty {
        SurfaceTy::Form { .. } => write(sink, b"$o"),
        SurfaceTy::Indiv { .. } => write(sink, b"$i"),
        SurfaceTy::Named { name, .. } => write_name(sink, name.as_slice()),
        SurfaceTy::Arrow { from, to, .. } => {
            write_argument_type(sink, from)?;
            write(sink, b" > ")?;
            write_type(sink, to)
        }
    }
}

/// Writes a type to the left of `>`.
#[cycle(types)]
fn write_argument_type<S: Sink>(sink: &mut S, ty: &SurfaceTy) -> Result<(), Failed>
    ensures took { OnOk result (Took S.tells S.written S.faults sink.old sink.new
        (grouped_unless (is_simple (the_surface_type ty.now)) (type_text (the_surface_type ty.now)))) }
    ensures stopped { OnErr result (Stopped S.tells S.written S.faults sink.old sink.new
        (grouped_unless (is_simple (the_surface_type ty.now)) (type_text (the_surface_type ty.now)))) }
{
    if is_simple(ty) {
        write_type(sink, ty)
    } else {
        write(sink, b"( ")?;
        write_type(sink, ty)?;
        write(sink, b" )")
    }
}

/// Writes a variable with its type, behind other bytes.
fn write_var<S: Sink>(sink: &mut S, before: &[u8], var: &SurfaceVar) -> Result<(), Failed>
    ensures took { OnOk result (Took S.tells S.written S.faults sink.old sink.new (before.now ++ var_text (the_var var.now))) }
    ensures stopped { OnErr result (Stopped S.tells S.written S.faults sink.old sink.new (before.now ++ var_text (the_var var.now))) }
{
    write(sink, before)?;
    write(sink, var.name.as_slice())?;
    write(sink, b": ")?;
    write_type(sink, &var.ty)
}

/// Writes variables, each behind a comma.
fn write_further_vars<S: Sink>(sink: &mut S, vars: &[SurfaceVar]) -> Result<(), Failed>
    ensures took { OnOk result (Took S.tells S.written S.faults sink.old sink.new
        (flat_map (λ text. codes ", " ++ text) (map var_text (the_vars vars.now)))) }
    ensures stopped { OnErr result (Stopped S.tells S.written S.faults sink.old sink.new
        (flat_map (λ text. codes ", " ++ text) (map var_text (the_vars vars.now)))) }
{
    for var in vars {
        write_var(sink, b", ", var)?;
    }
    Ok(())
}

/// Writes the variables of a binder, with commas between them.
pub fn write_vars<S: Sink>(sink: &mut S, vars: &[SurfaceVar]) -> Result<(), Failed>
    ensures took { OnOk result (Took S.tells S.written S.faults sink.old sink.new
        (separated (codes ", ") (map var_text (the_vars vars.now)))) }
    ensures stopped { OnErr result (Stopped S.tells S.written S.faults sink.old sink.new
        (separated (codes ", ") (map var_text (the_vars vars.now)))) }
{
    match vars {
        [first, others @ ..] => {
            write_var(sink, b"", first)?;
            write_further_vars(sink, others)
        }
        [] => Ok(()),
    }
}
