//! The text of a model that was found.

ghost use Rattle.std.specs.Prelude.{◌≡◌, ◌<◌, ◌++◌, [], ◌∷◌, codes, decimal, length, slice_get, Some, IfOk, OnOk};
ghost use Rattle.thf_names.specs.Names.{name_text};
ghost use Rattle.stt_core.specs.SimpleType.{base};
ghost use Rattle.stt_core.specs.View.{the_type};
ghost use Rattle.stt_core.specs.ScopeView.{the_scope};
ghost use Rattle.finite_models.specs.ChooserView.{the_chooser};
ghost use Rattle.finite_models.specs.Symbols.{Symbol, symbols_with};
ghost use Rattle.refute_print.specs.Named.{names_of, name_numbered, named_type, named_constant};
ghost use Rattle.refute_print.specs.Text.{text_of_type, constant_text, as_bytes};
ghost use Rattle.szs_report.specs.ModelText.{value_line, model_text};

use finite_models::{Chooser, Choosers, Values};
use itoa::Buffer;
use outside::{Bytes, Failed, GrowSink, write_all_counted};
use std::alloc::{AllocError, Global};
use stt_core::{Signature, Ty};
use thf_names::write_name;

/// Writes bytes.
fn put(sink: &mut GrowSink, bytes: &[u8]) -> Result<(), AllocError>
    ensures { OnOk result (sink.new.bytes ≡ sink.old.bytes ++ bytes.now) }
{
    match write_all_counted(sink, bytes) {
        Ok(()) => Ok(()),
        Err(Failed) => Err(AllocError),
    }
}

/// Writes a name.
fn put_name(sink: &mut GrowSink, name: &[u8]) -> Result<(), AllocError>
    ensures { OnOk result (sink.new.bytes ≡ sink.old.bytes ++ name_text name.now) }
{
    match write_name(sink, name) {
        Ok(()) => Ok(()),
        Err(Failed) => Err(AllocError),
    }
}

/// The name of the base type at a place of the signature.
fn base_name(sig: &Signature, k: usize) -> &[u8]
    ensures { result.now ≡ name_numbered sig.now.bases k }
{
    if k < sig.bases.len() {
        sig.bases.at(k)
    } else {
        b""
    }
}

/// Writes the base type of a number.
fn put_base(sink: &mut GrowSink, sig: &Signature, number: u32) -> Result<(), AllocError>
    ensures { OnOk result (sink.new.bytes ≡ sink.old.bytes
        ++ text_of_type (named_type (names_of sig.now.bases sig.now.consts) (base number))) }
{
    if number == 0 {
        put(sink, b"$o")
    } else if number == 1 {
        put(sink, b"$i")
    } else {
        put_name(sink, base_name(sig, number as usize - 2))
    }
}

/// Writes a type.
fn put_type(sink: &mut GrowSink, sig: &Signature, ty: &Ty) -> Result<(), AllocError>
    ensures { OnOk result (sink.new.bytes ≡ sink.old.bytes
        ++ text_of_type (named_type (names_of sig.now.bases sig.now.consts) (the_type ty.now))) }
{
    match ty {
        Ty::Base(number) => put_base(sink, sig, *number),
        Ty::Arrow(argument, outcome) => {
            put(sink, b"(")?;
            put_type(sink, sig, argument)?;
            put(sink, b">")?;
            put_type(sink, sig, outcome)?;
            put(sink, b")")
        }
    }
}

/// Writes a type between a text and a bracket.
fn put_at_type(
    sink: &mut GrowSink,
    sig: &Signature,
    before: &[u8],
    ty: &Ty,
) -> Result<(), AllocError>
    ensures { OnOk result (sink.new.bytes ≡ sink.old.bytes
        ++ (before.now ++ (text_of_type (named_type (names_of sig.now.bases sig.now.consts) (the_type ty.now)) ++ codes "]"))) }
{
    put(sink, before)?;
    put_type(sink, sig, ty)?;
    put(sink, b"]")
}

/// Writes a choice or a description.
fn put_chooser(sink: &mut GrowSink, sig: &Signature, chooser: &Chooser) -> Result<(), AllocError>
    ensures { OnOk result (sink.new.bytes ≡ sink.old.bytes
        ++ constant_text (named_constant (names_of sig.now.bases sig.now.consts) (the_chooser chooser.now).constant)) }
{
    match chooser {
        Chooser::Choice(ty) => put_at_type(sink, sig, b"$eps[", ty),
        Chooser::Description(ty) => put_at_type(sink, sig, b"$the[", ty),
    }
}

/// Writes the symbol at a place.
fn put_symbol(
    sink: &mut GrowSink,
    sig: &Signature,
    choosers: &Choosers,
    i: usize,
) -> Result<(), AllocError>
    requires { i < length (symbols_with (the_scope sig.now []) choosers.now) }
    ensures { OnOk result ((x : Symbol) → slice_get (symbols_with (the_scope sig.now []) choosers.now) i ≡ Some x
        → sink.new.bytes ≡ sink.old.bytes ++ constant_text (named_constant (names_of sig.now.bases sig.now.consts) x.constant)) }
{
    let declared = sig.consts.len();
    if i < declared {
        put_name(sink, sig.consts.name_at(i))
    } else {
        put_chooser(sink, sig, choosers.at(i - declared))
    }
}

/// Writes a value behind a space, and the end of its line.
fn put_value(sink: &mut GrowSink, value: u32) -> Result<(), AllocError>
    ensures { OnOk result (sink.new.bytes ≡ sink.old.bytes ++ (codes " " ++ (decimal value ++ codes "\n"))) }
{
    let mut buffer = Buffer::new();
    put(sink, b" ")?;
    put(sink, buffer.format(value).as_bytes())?;
    put(sink, b"\n")
}

/// Writes the line of the symbol at a place.
fn put_line(
    sink: &mut GrowSink,
    sig: &Signature,
    choosers: &Choosers,
    i: usize,
    value: u32,
) -> Result<(), AllocError>
    requires { i < length (symbols_with (the_scope sig.now []) choosers.now) }
    ensures { OnOk result ((x : Symbol) → slice_get (symbols_with (the_scope sig.now []) choosers.now) i ≡ Some x
        → sink.new.bytes ≡ sink.old.bytes ++ as_bytes (value_line (names_of sig.now.bases sig.now.consts) x value ∷ [])) }
{
    put_symbol(sink, sig, choosers, i)?;
    put_value(sink, value)
}

/// The lines of the values of a signature's constants and of choices and descriptions.
pub fn model_text(
    alloc: Global,
    sig: &Signature,
    choosers: &Choosers,
    values: &Values,
) -> Result<Bytes, AllocError>
    requires { length values.now ≡ length (symbols_with (the_scope sig.now []) choosers.now) }
    ensures { IfOk result (λ text. text ≡ model_text (names_of sig.now.bases sig.now.consts)
        (symbols_with (the_scope sig.now []) choosers.now) values.now) }
{
    let mut sink = GrowSink::new(alloc);
    for i in 0..values.len() {
        put_line(&mut sink, sig, choosers, i, values.at(i))?;
    }
    Ok(sink.into_bytes())
}
