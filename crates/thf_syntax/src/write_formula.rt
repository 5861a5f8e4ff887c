//! Writes formulas.
ghost use Rattle.std.specs.Prelude.{◌≡◌, ◌++◌, codes, OnOk, OnErr};
ghost use Rattle.thf_grammar.specs.View.{the_formula, the_vars};
ghost use Rattle.thf_syntax.specs.declared.slot.Slot.TheVariants.{Member, Operand};
ghost use Rattle.thf_syntax.specs.Slots.{takes};
ghost use Rattle.thf_syntax.specs.Texts as spec;
ghost use Rattle.outside.specs.Writing.{Took, Stopped};

use crate::slot::Slot;
use crate::write_types::write_vars;
use outside::{Failed, Sink};
use thf_grammar::{Binder, Conn, Surface, SurfaceVar};
use thf_names::{write, write_between, write_name};

fn conn_text(conn: Conn) -> &'static [u8]
    ensures { result.now ≡ spec.conn_text conn }
{
    match conn {
        Conn::Not => b"~",
        Conn::And => b"&",
        Conn::Or => b"|",
        Conn::Imp => b"=>",
        Conn::If => b"<=",
        Conn::Iff => b"<=>",
        Conn::Xor => b"<~>",
        Conn::Nor => b"~|",
        Conn::Nand => b"~&",
    }
}

fn binder_text(binder: Binder) -> &'static [u8]
    ensures { result.now ≡ spec.binder_text binder }
{
    match binder {
        Binder::All => b"!",
        Binder::Exists => b"?",
        Binder::Lam => b"^",
        Binder::Choice => b"@+",
        Binder::Desc => b"@-",
    }
}

fn truth_text(value: bool) -> &'static [u8]
    ensures { result.now ≡ spec.truth_text value }
{
    if value { b"$true" } else { b"$false" }
}

fn equality_text(positive: bool) -> &'static [u8]
    ensures { result.now ≡ spec.equality_text positive }
{
    if positive { b"=" } else { b"!=" }
}

fn quantifier_text(all: bool) -> &'static [u8]
    ensures { result.now ≡ spec.quantifier_text all }
{
    if all { b"!!" } else { b"??" }
}

/// Writes a binder up to its colon.
fn write_binder<S: Sink>(sink: &mut S, binder: Binder, vars: &[SurfaceVar]) -> Result<(), Failed>
    ensures took { OnOk result (Took S.tells S.written S.faults sink.old sink.new
        (spec.opening_text binder (the_vars vars.now))) }
    ensures stopped { OnErr result (Stopped S.tells S.written S.faults sink.old sink.new
        (spec.opening_text binder (the_vars vars.now))) }
{
    write(sink, binder_text(binder))?;
    write(sink, b" [")?;
    write_vars(sink, vars)?;
    write(sink, b"] : ")
}

/// Writes a formula.
#[cycle(formula)]
pub fn write_formula<S: Sink>(sink: &mut S, tree: &Surface) -> Result<(), Failed>
    ensures took { OnOk result (Took S.tells S.written S.faults sink.old sink.new (spec.formula_text (the_formula tree.now))) }
    ensures stopped { OnErr result (Stopped S.tells S.written S.faults sink.old sink.new (spec.formula_text (the_formula tree.now))) }
{
    match tree {
        Surface::Name { name, .. } => write_name(sink, name.as_slice()),
        Surface::Var { name, .. } => write(sink, name.as_slice()),
        Surface::Truth { value, .. } => write(sink, truth_text(*value)),
        Surface::Op { conn, .. } => write_between(sink, b"(", conn_text(*conn), b")"),
        Surface::Not { body, .. } => write_negation(sink, body),
        Surface::Binary {
            conn,
            left,
            right,
            ..
        } => {
            write_in(sink, Slot::left_of(*conn), left)?;
            write_right(sink, conn_text(*conn), Slot::Member, right)
        }
        Surface::Equation {
            positive,
            left,
            right,
            ..
        } => {
            write_in(sink, Slot::Primary, left)?;
            write_right(sink, equality_text(*positive), Slot::Unitary, right)
        }
        Surface::Apply { fun, arg, .. } => {
            write_in(sink, Slot::Head, fun)?;
            write_right(sink, b"@", Slot::Operand, arg)
        }
        Surface::Quant { all, arg, .. } => write_quantified(sink, *all, arg),
        Surface::Bind {
            binder,
            vars,
            body,
            ..
        } => write_binding(sink, *binder, vars.as_slice(), body),
    }
}

/// Writes a negation.
#[cycle(formula)]
fn write_negation<S: Sink>(sink: &mut S, body: &Surface) -> Result<(), Failed>
    ensures took { OnOk result (Took S.tells S.written S.faults sink.old sink.new
        (codes "~ " ++ spec.grouped_unless (takes Operand (the_formula body.now)) (spec.formula_text (the_formula body.now)))) }
    ensures stopped { OnErr result (Stopped S.tells S.written S.faults sink.old sink.new
        (codes "~ " ++ spec.grouped_unless (takes Operand (the_formula body.now)) (spec.formula_text (the_formula body.now)))) }
{
    write(sink, b"~ ")?;
    write_in(sink, Slot::Operand, body)
}

/// Writes a quantifier that is applied to a formula.
#[cycle(formula)]
fn write_quantified<S: Sink>(sink: &mut S, all: bool, arg: &Surface) -> Result<(), Failed>
    ensures took { OnOk result (Took S.tells S.written S.faults sink.old sink.new
        (spec.infixed (spec.quantifier_text all) (codes "@") (spec.grouped_unless (takes Operand (the_formula arg.now)) (spec.formula_text (the_formula arg.now))))) }
    ensures stopped { OnErr result (Stopped S.tells S.written S.faults sink.old sink.new
        (spec.infixed (spec.quantifier_text all) (codes "@") (spec.grouped_unless (takes Operand (the_formula arg.now)) (spec.formula_text (the_formula arg.now))))) }
{
    write(sink, quantifier_text(all))?;
    write_right(sink, b"@", Slot::Operand, arg)
}

/// Writes a formula behind its binder.
#[cycle(formula)]
fn write_binding<S: Sink>(
    sink: &mut S,
    binder: Binder,
    vars: &[SurfaceVar],
    body: &Surface,
) -> Result<(), Failed>
    ensures took { OnOk result (Took S.tells S.written S.faults sink.old sink.new
        (spec.opening_text binder (the_vars vars.now) ++ spec.grouped_unless (takes Member (the_formula body.now)) (spec.formula_text (the_formula body.now)))) }
    ensures stopped { OnErr result (Stopped S.tells S.written S.faults sink.old sink.new
        (spec.opening_text binder (the_vars vars.now) ++ spec.grouped_unless (takes Member (the_formula body.now)) (spec.formula_text (the_formula body.now)))) }
{
    write_binder(sink, binder, vars)?;
    write_in(sink, Slot::Member, body)
}

/// Writes a symbol and the formula to its right, each behind a space.
#[cycle(formula)]
fn write_right<S: Sink>(
    sink: &mut S,
    symbol: &[u8],
    slot: Slot,
    tree: &Surface,
) -> Result<(), Failed>
    ensures took { OnOk result (Took S.tells S.written S.faults sink.old sink.new
        (spec.behind_symbol symbol.now (spec.grouped_unless (takes slot (the_formula tree.now)) (spec.formula_text (the_formula tree.now))))) }
    ensures stopped { OnErr result (Stopped S.tells S.written S.faults sink.old sink.new
        (spec.behind_symbol symbol.now (spec.grouped_unless (takes slot (the_formula tree.now)) (spec.formula_text (the_formula tree.now))))) }
{
    write_between(sink, b" ", symbol, b" ")?;
    write_in(sink, slot, tree)
}

/// Writes a formula that stands there, in parentheses where it needs them.
#[cycle(formula)]
fn write_in<S: Sink>(sink: &mut S, slot: Slot, tree: &Surface) -> Result<(), Failed>
    ensures took { OnOk result (Took S.tells S.written S.faults sink.old sink.new
        (spec.grouped_unless (takes slot (the_formula tree.now)) (spec.formula_text (the_formula tree.now)))) }
    ensures stopped { OnErr result (Stopped S.tells S.written S.faults sink.old sink.new
        (spec.grouped_unless (takes slot (the_formula tree.now)) (spec.formula_text (the_formula tree.now)))) }
{
    if slot.takes(tree) {
        write_formula(sink, tree)
    } else {
        write(sink, b"( ")?;
        write_formula(sink, tree)?;
        write(sink, b" )")
    }
}
