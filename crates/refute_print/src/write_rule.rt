//! Writes rules.

ghost use Rattle.std.specs.Prelude.{◌≡◌, ◌++◌, codes, decimal, OnOk, OnErr};
ghost use Rattle.refute_print.specs.Text.{term_text, sign_text, literal_text, rule_text};
ghost use Rattle.refute_print.specs.Named.{names_of, named_term, named_literal, named_rule, HasNames, HasRuleNames};
ghost use Rattle.outside.specs.Writing.{Took, Stopped};

use crate::rule_mark::NamedRule;
use crate::write_bytes::write_numbered;
use crate::write_term::write_term_between;
use outside::{Failed, Sink};
use stt_core::{Nf, Signature};
use tableau_calculus::{Lit, PlainRule, RuleUse};

/// Writes a rule with two places.
fn write_two_places<S: Sink>(
    sink: &mut S,
    rule: &[u8],
    first: usize,
    second: usize,
) -> Result<(), Failed>
    ensures took { OnOk result (Took S.tells S.written S.faults sink.old sink.new
        (rule.now ++ (decimal first ++ (codes "," ++ (decimal second ++ codes ")"))))) }
    ensures stopped { OnErr result (Stopped S.tells S.written S.faults sink.old sink.new
        (rule.now ++ (decimal first ++ (codes "," ++ (decimal second ++ codes ")"))))) }
{
    write_numbered(sink, rule, first, b",")?;
    write_numbered(sink, b"", second, b")")
}

/// Writes the rule of a place and a term for its instance.
fn write_instance<S: Sink>(
    sink: &mut S,
    sig: &Signature,
    place: usize,
    term: &Nf,
) -> Result<(), Failed>
    requires { HasNames (names_of sig.now.bases sig.now.consts) term.now }
    ensures took { OnOk result (Took S.tells S.written S.faults sink.old sink.new
        (codes "All+(" ++ (decimal place ++ (codes ";" ++ (term_text (named_term (names_of sig.now.bases sig.now.consts) term.now) ++ codes ")"))))) }
    ensures stopped { OnErr result (Stopped S.tells S.written S.faults sink.old sink.new
        (codes "All+(" ++ (decimal place ++ (codes ";" ++ (term_text (named_term (names_of sig.now.bases sig.now.consts) term.now) ++ codes ")"))))) }
{
    write_numbered(sink, b"All+(", place, b";")?;
    write_term_between(sink, sig, b"", term, b")")
}

/// What stands before the formula of a cut's literal.
fn cut_sign(positive: bool) -> &'static [u8]
    ensures { result.now ≡ codes "Cut(" ++ sign_text positive }
{
    if positive { b"Cut(+" } else { b"Cut(-" }
}

fn write_cut<S: Sink>(sink: &mut S, sig: &Signature, lit: &Lit) -> Result<(), Failed>
    requires { HasNames (names_of sig.now.bases sig.now.consts) lit.now.atom }
    ensures took { OnOk result (Took S.tells S.written S.faults sink.old sink.new
        (codes "Cut(" ++ (literal_text (named_literal (names_of sig.now.bases sig.now.consts) lit.now) ++ codes ")"))) }
    ensures stopped { OnErr result (Stopped S.tells S.written S.faults sink.old sink.new
        (codes "Cut(" ++ (literal_text (named_literal (names_of sig.now.bases sig.now.consts) lit.now) ++ codes ")"))) }
{
    write_term_between(sink, sig, cut_sign(lit.positive), &lit.atom, b")")
}

/// Writes a rule.
pub(crate) fn write_rule<S: Sink>(
    sink: &mut S,
    sig: &Signature,
    rule: &PlainRule,
) -> Result<(), Failed>
    requires { HasRuleNames (names_of sig.now.bases sig.now.consts) rule.now }
    ensures took { OnOk result (Took S.tells S.written S.faults sink.old sink.new
        (rule_text (named_rule (names_of sig.now.bases sig.now.consts) rule.now))) }
    ensures stopped { OnErr result (Stopped S.tells S.written S.faults sink.old sink.new
        (rule_text (named_rule (names_of sig.now.bases sig.now.consts) rule.now))) }
{
    match rule {
        RuleUse::AtOne(kind, i) => write_numbered(sink, kind.mark(), *i, b")"),
        RuleUse::AtTwo(kind, i, j) => write_two_places(sink, kind.mark(), *i, *j),
        RuleUse::AllPos(i, term) => write_instance(sink, sig, *i, term),
        RuleUse::WithPredicate(kind, f) => write_term_between(sink, sig, kind.mark(), f, b")"),
        RuleUse::Cut(lit) => write_cut(sink, sig, lit),
    }
}
