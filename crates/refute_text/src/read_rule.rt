//! Reads literals and rules.

ghost use Rattle.std.specs.Prelude.{◌≡◌, ◌^◌, option_map};
ghost use Rattle.refute_print.specs.Limits.{is_negated_text};
ghost use Rattle.refute_text.specs.Internal.Reader.{number_at};
ghost use Rattle.refute_text.specs.Internal.LineReader.{signed_text_at, literal_text_at, place_text_at, named_first, one_place_named, two_places_named, predicate_named, one_place_at, places_at, two_places_at, instance_at, predicate_at, cut_at, rule_at};
ghost use Rattle.refute_text.specs.Internal.Refusals.{AnswersReader};
ghost use Rattle.refute_print.specs.TreeView.{the_text_head};

use crate::read_name::{behind, number};
use crate::read_term::read_term;
use crate::read_type::expect;
use crate::refusal::Refusal;
use refute_print::{NamedRule, TextHead, TextLit, TextNode, TextRule, TextTerm};
use std::alloc::Global;
use tableau_calculus::{OfPredicate, OnePlace, RuleUse, TwoPlaces};

/// How many parentheses, brackets and functions of types and terms may be open at once.
pub(crate) const DEPTH: u32 = 8192;

/// A literal, and what follows it.
#[derive(Drop)]
pub(crate) struct LiteralRead<'a> {
    pub literal: TextLit,
    pub rest: &'a [u8],
}

fn is_negation(head: &TextHead) -> bool
    ensures { result ≡ is_negated_text (the_text_head head.now) }
{
    match head {
        TextHead::Not => true,
        _ => false,
    }
}

/// Whether the term's head is negation.
fn is_negated(term: &TextTerm) -> bool
    ensures { result ≡ is_negated_text term.now }
{
    match &term.node {
        TextNode::Lam(_, _) => false,
        TextNode::App(head, _) => is_negation(head),
    }
}

fn signed(alloc: Global, positive: bool, bytes: &[u8]) -> Result<LiteralRead<'_>, Refusal>
    ensures { AnswersReader (λ r. (r.literal, r.rest.now)) result (signed_text_at positive bytes.now) }
{
    let read = read_term(alloc, DEPTH, bytes)?;
    if is_negated(&read.term) {
        return Err(Refusal::Form);
    }
    Ok(LiteralRead {
        literal: TextLit {
            positive,
            atom: read.term,
        },
        rest: read.rest,
    })
}

/// A literal.
#[tactic(auto, unfolding(crate::specs::Internal::LineReader::literal_text_at))]
pub(crate) fn read_literal(alloc: Global, bytes: &[u8]) -> Result<LiteralRead<'_>, Refusal>
    ensures { AnswersReader (λ r. (r.literal, r.rest.now)) result (literal_text_at bytes.now) }
{
    if let Some(rest) = behind(b"+", bytes) {
        return signed(alloc, true, rest);
    }
    let rest = expect(b"-", bytes)?;
    signed(alloc, false, rest)
}

/// A number, and what follows it.
#[derive(Drop)]
pub(crate) struct PlaceRead<'a> {
    pub place: usize,
    pub rest: &'a [u8],
}

/// A number below 2^64.
pub(crate) fn read_number(bytes: &[u8]) -> Result<PlaceRead<'_>, Refusal>
    ensures { AnswersReader (λ r. (r.place, r.rest.now)) result (number_at (2 ^ 64) bytes.now) }
{
    match number(0xffff_ffff_ffff_ffff, bytes) {
        Some(read) => Ok(PlaceRead {
            place: read.number as usize,
            rest: read.rest,
        }),
        None => Err(Refusal::Form),
    }
}

/// A place, and the parenthesis behind it.
#[tactic(auto, unfolding(crate::specs::Internal::LineReader::place_text_at))]
fn place(bytes: &[u8]) -> Result<PlaceRead<'_>, Refusal>
    ensures { AnswersReader (λ r. (r.place, r.rest.now)) result (place_text_at bytes.now) }
{
    let read = read_number(bytes)?;
    let rest = expect(b")", read.rest)?;
    Ok(PlaceRead {
        place: read.place,
        rest,
    })
}

/// A rule, and what follows it.
#[derive(Drop)]
pub(crate) struct RuleRead<'a> {
    pub rule: TextRule,
    pub rest: &'a [u8],
}

/// A rule whose name is at the front, and what follows the parenthesis behind the name.
#[derive(Drop)]
struct RuleNamed<'a, K> {
    rule: K,
    rest: &'a [u8],
}

/// The first rule of its list whose name, with the parenthesis behind it, is at the front.
fn named<K: NamedRule>(bytes: &[u8]) -> Option<RuleNamed<'_, K>>
    ensures { option_map (λ n. (n.rule, n.rest.now)) result ≡ named_first K.name K.rules bytes.now }
{
    let rules = K::rules();
    for rule in rules {
        if let Some(rest) = behind(rule.mark(), bytes) {
            return Some(RuleNamed { rule: *rule, rest });
        }
    }
    None
}

/// A rule of one place.
#[tactic(auto, unfolding(crate::specs::Internal::LineReader::one_place_named))]
fn one_place_named(bytes: &[u8]) -> Option<RuleNamed<'_, OnePlace>>
    ensures { option_map (λ n. (n.rule, n.rest.now)) result ≡ one_place_named bytes.now }
{
    named(bytes)
}

/// A rule of two places.
#[tactic(auto, unfolding(crate::specs::Internal::LineReader::two_places_named))]
fn two_places_named(bytes: &[u8]) -> Option<RuleNamed<'_, TwoPlaces>>
    ensures { option_map (λ n. (n.rule, n.rest.now)) result ≡ two_places_named bytes.now }
{
    named(bytes)
}

/// A rule that takes a predicate.
#[tactic(auto, unfolding(crate::specs::Internal::LineReader::predicate_named))]
fn predicate_named(bytes: &[u8]) -> Option<RuleNamed<'_, OfPredicate>>
    ensures { option_map (λ n. (n.rule, n.rest.now)) result ≡ predicate_named bytes.now }
{
    named(bytes)
}

/// The place of a rule that takes one.
fn at_one(rule: OnePlace, bytes: &[u8]) -> Result<RuleRead<'_>, Refusal>
    ensures { AnswersReader (λ r. (r.rule, r.rest.now)) result (one_place_at rule bytes.now) }
{
    let read = place(bytes)?;
    Ok(RuleRead {
        rule: RuleUse::AtOne(rule, read.place),
        rest: read.rest,
    })
}

/// Two places.
#[derive(Drop)]
struct PlacesRead<'a> {
    first: usize,
    second: usize,
    rest: &'a [u8],
}

fn places(bytes: &[u8]) -> Result<PlacesRead<'_>, Refusal>
    ensures { AnswersReader (λ r. ((r.first, r.second), r.rest.now)) result (places_at bytes.now) }
{
    let first = read_number(bytes)?;
    let rest = expect(b",", first.rest)?;
    let second = place(rest)?;
    Ok(PlacesRead {
        first: first.place,
        second: second.place,
        rest: second.rest,
    })
}

/// The places of a rule that takes two.
fn at_two(rule: TwoPlaces, bytes: &[u8]) -> Result<RuleRead<'_>, Refusal>
    ensures { AnswersReader (λ r. (r.rule, r.rest.now)) result (two_places_at rule bytes.now) }
{
    let read = places(bytes)?;
    Ok(RuleRead {
        rule: RuleUse::AtTwo(rule, read.first, read.second),
        rest: read.rest,
    })
}

/// The place and the term of an instance.
fn instance(alloc: Global, bytes: &[u8]) -> Result<RuleRead<'_>, Refusal>
    ensures { AnswersReader (λ r. (r.rule, r.rest.now)) result (instance_at bytes.now) }
{
    let place = read_number(bytes)?;
    let rest = expect(b";", place.rest)?;
    let term = read_term(alloc, DEPTH, rest)?;
    let rest = expect(b")", term.rest)?;
    Ok(RuleRead {
        rule: RuleUse::AllPos(place.place, term.term),
        rest,
    })
}

/// The predicate of a rule that takes one.
fn with_predicate(alloc: Global, rule: OfPredicate, bytes: &[u8]) -> Result<RuleRead<'_>, Refusal>
    ensures { AnswersReader (λ r. (r.rule, r.rest.now)) result (predicate_at rule bytes.now) }
{
    let term = read_term(alloc, DEPTH, bytes)?;
    let rest = expect(b")", term.rest)?;
    Ok(RuleRead {
        rule: RuleUse::WithPredicate(rule, term.term),
        rest,
    })
}

/// The literal of a cut.
fn cut(alloc: Global, bytes: &[u8]) -> Result<RuleRead<'_>, Refusal>
    ensures { AnswersReader (λ r. (r.rule, r.rest.now)) result (cut_at bytes.now) }
{
    let read = read_literal(alloc, bytes)?;
    let rest = expect(b")", read.rest)?;
    Ok(RuleRead {
        rule: RuleUse::Cut(read.literal),
        rest,
    })
}

/// A rule.
#[tactic(auto, unfolding(crate::specs::Internal::LineReader::rule_at))]
pub(crate) fn read_rule(alloc: Global, bytes: &[u8]) -> Result<RuleRead<'_>, Refusal>
    ensures { AnswersReader (λ r. (r.rule, r.rest.now)) result (rule_at bytes.now) }
{
    if let Some(named) = one_place_named(bytes) {
        return at_one(named.rule, named.rest);
    }
    if let Some(named) = two_places_named(bytes) {
        return at_two(named.rule, named.rest);
    }
    if let Some(named) = predicate_named(bytes) {
        return with_predicate(alloc, named.rule, named.rest);
    }
    if let Some(rest) = behind(b"All+(", bytes) {
        return instance(alloc, rest);
    }
    let rest = expect(b"Cut(", bytes)?;
    cut(alloc, rest)
}
