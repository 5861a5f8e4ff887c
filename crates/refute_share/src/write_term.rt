//! Writes types and terms.

ghost use Rattle.std.specs.Prelude.{◌≡◌, ◌++◌, codes, decimal, OnOk, OnErr};
ghost use Rattle.stt_core.specs.SimpleType.{base};
ghost use Rattle.stt_core.specs.View.{the_type, the_head};
ghost use Rattle.refute_print.specs.Text.{text_of_type, term_text};
ghost use Rattle.refute_print.specs.Named.{names_of, named_type, named_term, HasTypeNames, HasNames};
ghost use Rattle.refute_print.specs.Internal.Pieces.{binders_text, argument_text, arguments_text, applied_text, BindersHaveNames, ArgumentsHaveNames};
ghost use Rattle.outside.specs.Writing.{Took, Stopped};

use crate::term::{SharedTerm, SharedTerms};
use crate::write_bytes::{write, write_numbered};
use outside::{Failed, Sink};
use stt_core::{Head, Signature, Ty, Types};
use thf_names::write_name;

/// Writes the base type of a number.
fn write_base<S: Sink>(sink: &mut S, sig: &Signature, number: u32) -> Result<(), Failed>
    requires { HasTypeNames (names_of sig.now.bases sig.now.consts) (base number) }
    ensures took { OnOk result (Took S.tells S.written S.faults sink.old sink.new
        (text_of_type (named_type (names_of sig.now.bases sig.now.consts) (base number)))) }
    ensures stopped { OnErr result (Stopped S.tells S.written S.faults sink.old sink.new
        (text_of_type (named_type (names_of sig.now.bases sig.now.consts) (base number)))) }
{
    if number == 0 {
        write(sink, b"$o")?;
    } else if number == 1 {
        write(sink, b"$i")?;
    } else {
        write_name(sink, sig.bases.at(number as usize - 2))?;
    }
    Ok(())
}

/// Writes a type.
pub(crate) fn write_type<S: Sink>(sink: &mut S, sig: &Signature, ty: &Ty) -> Result<(), Failed>
    requires { HasTypeNames (names_of sig.now.bases sig.now.consts) (the_type ty.now) }
    ensures took { OnOk result (Took S.tells S.written S.faults sink.old sink.new
        (text_of_type (named_type (names_of sig.now.bases sig.now.consts) (the_type ty.now)))) }
    ensures stopped { OnErr result (Stopped S.tells S.written S.faults sink.old sink.new
        (text_of_type (named_type (names_of sig.now.bases sig.now.consts) (the_type ty.now)))) }
{
    match ty {
        Ty::Base(n) => write_base(sink, sig, *n)?,
        Ty::Arrow(argument, outcome) => {
            write(sink, b"(")?;
            write_type(sink, sig, argument)?;
            write(sink, b">")?;
            write_type(sink, sig, outcome)?;
            write(sink, b")")?;
        }
    }
    Ok(())
}

/// Writes a type between two texts.
fn write_around_type<S: Sink>(
    sink: &mut S,
    sig: &Signature,
    before: &[u8],
    ty: &Ty,
    after: &[u8],
) -> Result<(), Failed>
    requires { HasTypeNames (names_of sig.now.bases sig.now.consts) (the_type ty.now) }
    ensures took { OnOk result (Took S.tells S.written S.faults sink.old sink.new
        (before.now ++ (text_of_type (named_type (names_of sig.now.bases sig.now.consts) (the_type ty.now)) ++ after.now))) }
    ensures stopped { OnErr result (Stopped S.tells S.written S.faults sink.old sink.new
        (before.now ++ (text_of_type (named_type (names_of sig.now.bases sig.now.consts) (the_type ty.now)) ++ after.now))) }
{
    write(sink, before)?;
    write_type(sink, sig, ty)?;
    write(sink, after)
}

/// Writes the head of a term.
fn write_head<S: Sink>(sink: &mut S, sig: &Signature, head: &Head) -> Result<(), Failed>
    requires { HasNames (names_of sig.now.bases sig.now.consts) (the_head head.now) }
    ensures took { OnOk result (Took S.tells S.written S.faults sink.old sink.new
        (term_text (named_term (names_of sig.now.bases sig.now.consts) (the_head head.now)))) }
    ensures stopped { OnErr result (Stopped S.tells S.written S.faults sink.old sink.new
        (term_text (named_term (names_of sig.now.bases sig.now.consts) (the_head head.now)))) }
{
    match head {
        Head::Bound(k) => write_numbered(sink, b"#", *k as usize, b""),
        Head::Name(k) => write_name(sink, sig.consts.name_at(*k as usize)),
        Head::Wit(k) => write_numbered(sink, b"$w", *k as usize, b""),
        Head::False => write(sink, b"$f"),
        Head::Not => write(sink, b"$not"),
        Head::Imp => write(sink, b"$imp"),
        Head::All(a) => write_around_type(sink, sig, b"$all[", a, b"]"),
        Head::Eq(a) => write_around_type(sink, sig, b"$eq[", a, b"]"),
        Head::Choice(a) => write_around_type(sink, sig, b"$eps[", a, b"]"),
        Head::Desc(a) => write_around_type(sink, sig, b"$the[", a, b"]"),
    }
}

/// Writes a parenthesis and a head, in one piece where the head is a connective.
fn write_opened_head<S: Sink>(sink: &mut S, sig: &Signature, head: &Head) -> Result<(), Failed>
    requires { HasNames (names_of sig.now.bases sig.now.consts) (the_head head.now) }
    ensures took { OnOk result (Took S.tells S.written S.faults sink.old sink.new
        (codes "(" ++ term_text (named_term (names_of sig.now.bases sig.now.consts) (the_head head.now)))) }
    ensures stopped { OnErr result (Stopped S.tells S.written S.faults sink.old sink.new
        (codes "(" ++ term_text (named_term (names_of sig.now.bases sig.now.consts) (the_head head.now)))) }
{
    match head {
        Head::Not => write(sink, b"($not"),
        Head::Imp => write(sink, b"($imp"),
        _ => {
            write(sink, b"(")?;
            write_head(sink, sig, head)
        }
    }
}

/// Writes a space, a parenthesis and a head, in one piece where the head is a connective.
fn write_spaced_head<S: Sink>(sink: &mut S, sig: &Signature, head: &Head) -> Result<(), Failed>
    requires { HasNames (names_of sig.now.bases sig.now.consts) (the_head head.now) }
    ensures took { OnOk result (Took S.tells S.written S.faults sink.old sink.new
        (codes " (" ++ term_text (named_term (names_of sig.now.bases sig.now.consts) (the_head head.now)))) }
    ensures stopped { OnErr result (Stopped S.tells S.written S.faults sink.old sink.new
        (codes " (" ++ term_text (named_term (names_of sig.now.bases sig.now.consts) (the_head head.now)))) }
{
    match head {
        Head::Not => write(sink, b" ($not"),
        Head::Imp => write(sink, b" ($imp"),
        _ => {
            write(sink, b" (")?;
            write_head(sink, sig, head)
        }
    }
}

fn write_binders<S: Sink>(sink: &mut S, sig: &Signature, binders: &Types) -> Result<(), Failed>
    requires { BindersHaveNames (names_of sig.now.bases sig.now.consts) binders.now }
    ensures took { OnOk result (Took S.tells S.written S.faults sink.old sink.new
        (binders_text (names_of sig.now.bases sig.now.consts) binders.now)) }
    ensures stopped { OnErr result (Stopped S.tells S.written S.faults sink.old sink.new
        (binders_text (names_of sig.now.bases sig.now.consts) binders.now)) }
{
    for i in 0..binders.len() {
        write_around_type(sink, sig, b"^", binders.at(i), b".")?;
    }
    Ok(())
}

/// Writes arguments, each behind a space.
#[cycle(term)]
fn write_arguments<S: Sink>(sink: &mut S, sig: &Signature, args: &SharedTerms) -> Result<(), Failed>
    requires { ArgumentsHaveNames (names_of sig.now.bases sig.now.consts) args.now }
    ensures took { OnOk result (Took S.tells S.written S.faults sink.old sink.new
        (arguments_text (names_of sig.now.bases sig.now.consts) args.now)) }
    ensures stopped { OnErr result (Stopped S.tells S.written S.faults sink.old sink.new
        (arguments_text (names_of sig.now.bases sig.now.consts) args.now)) }
{
    for i in 0..args.len() {
        write_argument(sink, sig, args.at(i))?;
    }
    Ok(())
}

/// Writes an argument behind a space, which is one piece with the parenthesis and the head of an application.
#[cycle(term)]
fn write_argument<S: Sink>(sink: &mut S, sig: &Signature, arg: &SharedTerm) -> Result<(), Failed>
    requires { HasNames (names_of sig.now.bases sig.now.consts) arg.now }
    ensures took { OnOk result (Took S.tells S.written S.faults sink.old sink.new
        (argument_text (names_of sig.now.bases sig.now.consts) arg.now)) }
    ensures stopped { OnErr result (Stopped S.tells S.written S.faults sink.old sink.new
        (argument_text (names_of sig.now.bases sig.now.consts) arg.now)) }
{
    if arg.binders.len() == 0 && arg.args.len() > 0 {
        write_spaced_head(sink, sig, &arg.head)?;
        write_arguments(sink, sig, &arg.args)?;
        write(sink, b")")
    } else {
        write(sink, b" ")?;
        write_term(sink, sig, arg)
    }
}

/// Writes a head with its arguments.
#[cycle(term)]
fn write_applied<S: Sink>(
    sink: &mut S,
    sig: &Signature,
    head: &Head,
    args: &SharedTerms,
) -> Result<(), Failed>
    requires head { HasNames (names_of sig.now.bases sig.now.consts) (the_head head.now) }
    requires args { ArgumentsHaveNames (names_of sig.now.bases sig.now.consts) args.now }
    ensures took { OnOk result (Took S.tells S.written S.faults sink.old sink.new
        (applied_text (names_of sig.now.bases sig.now.consts) (the_head head.now) args.now)) }
    ensures stopped { OnErr result (Stopped S.tells S.written S.faults sink.old sink.new
        (applied_text (names_of sig.now.bases sig.now.consts) (the_head head.now) args.now)) }
{
    if args.len() == 0 {
        write_head(sink, sig, head)
    } else {
        write_opened_head(sink, sig, head)?;
        write_arguments(sink, sig, args)?;
        write(sink, b")")
    }
}

/// Writes a canonical term.
#[cycle(term)]
pub(crate) fn write_term<S: Sink>(
    sink: &mut S,
    sig: &Signature,
    nf: &SharedTerm,
) -> Result<(), Failed>
    requires { HasNames (names_of sig.now.bases sig.now.consts) nf.now }
    ensures took { OnOk result (Took S.tells S.written S.faults sink.old sink.new
        (term_text (named_term (names_of sig.now.bases sig.now.consts) nf.now))) }
    ensures stopped { OnErr result (Stopped S.tells S.written S.faults sink.old sink.new
        (term_text (named_term (names_of sig.now.bases sig.now.consts) nf.now))) }
{
    write_binders(sink, sig, &nf.binders)?;
    write_applied(sink, sig, &nf.head, &nf.args)
}

/// Writes a term between two texts.
pub(crate) fn write_term_between<S: Sink>(
    sink: &mut S,
    sig: &Signature,
    before: &[u8],
    term: &SharedTerm,
    after: &[u8],
) -> Result<(), Failed>
    requires { HasNames (names_of sig.now.bases sig.now.consts) term.now }
    ensures took { OnOk result (Took S.tells S.written S.faults sink.old sink.new
        (before.now ++ (term_text (named_term (names_of sig.now.bases sig.now.consts) term.now) ++ after.now))) }
    ensures stopped { OnErr result (Stopped S.tells S.written S.faults sink.old sink.new
        (before.now ++ (term_text (named_term (names_of sig.now.bases sig.now.consts) term.now) ++ after.now))) }
{
    write(sink, before)?;
    write_term(sink, sig, term)?;
    write(sink, after)
}
