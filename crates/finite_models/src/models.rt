//! The search for a finite model of a problem.

ghost use Rattle.std.specs.Prelude.{◌≡◌, ◌<◌, ◌≤◌, ◌^◌, ℕ, [], length, map, slice_index, IfOk, IsTrue, ◌↔◌, MatchOption, nat_lt, if◌then◌else◌};
ghost use Rattle.stt_core.specs.SimpleType.{arrow, predicate};
ghost use Rattle.stt_core.specs.View.{the_head, the_term, the_type};
ghost use Rattle.stt_core.specs.Typing.{IsScope};
ghost use Rattle.stt_core.specs.ScopeView.{the_scope};
ghost use Rattle.stt_core.specs.Declarations.{scope_of};
ghost use Rattle.stt_core.specs.TypedProblem.{IsTyped};
ghost use Rattle.finite_models.specs.Sizes.{IsSmallType, NamesSmallTypes};
ghost use Rattle.finite_models.specs.Symbols.{normal_formulas, model_symbols, EachIsSmall, EachNamesSmallTypes, with_symbols, choosing_symbols_of, symbols_with};
ghost use Rattle.finite_models.specs.ChooserView.{the_chooser};
ghost use Rattle.finite_models.specs.Internal.Search.{IsAllowed};
ghost use Rattle.finite_models.specs.Internal.Stands.{frame_scope, IsGround};
ghost use Rattle.finite_models.specs.Internal.Looking.{EachIsSmallType, IsSizeOf, At, AreSizes, product, IsDomain, AreDomains, AreChecks, CanCompileEach, NonePasses, FirstPasses, IsLooked};
ghost use Rattle.finite_models.specs.Candidates.{IsLawful};
ghost use Rattle.finite_models.specs.Small.{IsSmallFinding};
ghost use Rattle.finite_models.specs.Laws.{ShowsModels};

use crate::chooser::{Chooser, Choosers};
use crate::compile::{Frame, compile_formula};
use crate::forms::formulas_of;
use crate::found::{Found, Values};
use crate::lawful::{is_choice, is_description};
use crate::search::{Check, Domains, first_sorted, reach};
use crate::size::{bounded_power, size_of, small_size};
use std::alloc::{AllocError, Global};
use stt_core::{Head, Nf, Nfs, Problem, Signature, Term, Terms, Ty, Types};

/// Whether the type that a head is at, where there is one, is small.
fn is_at_small(head: &Head, s: u32) -> bool
    requires s_pos { 1 ≤ s }
    requires s_few { s ≤ 8 }
    ensures { IsTrue result ↔ NamesSmallTypes s (the_head head.now) }
{
    match head {
        Head::All(a) => small_size(a, s).is_some(),
        Head::Eq(a) => small_size(a, s).is_some(),
        Head::Choice(a) => small_size(a, s).is_some(),
        Head::Desc(a) => small_size(a, s).is_some(),
        _ => true,
    }
}

fn are_small(types: &Types, s: u32) -> bool
    requires s_pos { 1 ≤ s }
    requires s_few { s ≤ 8 }
    ensures { IsTrue result ↔ EachIsSmallType s types.now }
{
    for i in 0..types.len() {
        match small_size(types.at(i), s) {
            None => return false,
            Some(_) => {}
        }
    }
    true
}

/// Whether each type that a term names is small.
fn names_small(nf: &Nf, s: u32) -> bool
    requires s_pos { 1 ≤ s }
    requires s_few { s ≤ 8 }
    ensures { IsTrue result ↔ NamesSmallTypes s nf.now }
{
    if !are_small(&nf.binders, s) {
        return false;
    }
    if !is_at_small(&nf.head, s) {
        return false;
    }
    for i in 0..nf.args.len() {
        if !names_small(nf.args.at(i), s) {
            return false;
        }
    }
    true
}

fn all_name_small(formulas: &Nfs, s: u32) -> bool
    requires s_pos { 1 ≤ s }
    requires s_few { s ≤ 8 }
    ensures { IsTrue result ↔ EachNamesSmallTypes s formulas.now }
{
    for i in 0..formulas.len() {
        if !names_small(formulas.at(i), s) {
            return false;
        }
    }
    true
}

/// The type that the choice or the description is on.
fn type_in(chooser: &Chooser) -> &Ty
    ensures { (the_chooser chooser.now).type ≡ arrow (predicate (the_type result.now)) (the_type result.now) }
{
    match chooser {
        Chooser::Choice(a) => a,
        Chooser::Description(a) => a,
    }
}

/// How many values a choice or a description on this type can have, where that is small.
fn chooser_size(a: &Ty, s: u32) -> Option<u32>
    requires s_pos { 1 ≤ s }
    requires s_few { s ≤ 8 }
    ensures { MatchOption result (IsSmallType s (arrow (predicate (the_type a.now)) (the_type a.now)) → ⊥)
        (λ n. IsSizeOf s (arrow (predicate (the_type a.now)) (the_type a.now)) n) }
{
    match small_size(a, s) {
        None => None,
        Some(n) => match bounded_power(2, n) {
            None => None,
            Some(predicates) => bounded_power(n, predicates),
        },
    }
}

/// How many values the type of a symbol has, where it is small. The constants of the signature come first.
fn symbol_size(sig: &Signature, choosers: &Choosers, i: usize, s: u32) -> Option<u32>
    requires s_pos { 1 ≤ s }
    requires s_few { s ≤ 8 }
    requires within { i < length (symbols_with (the_scope sig.now []) choosers.now) }
    ensures { MatchOption result (At (symbols_with (the_scope sig.now []) choosers.now) i (λ x. IsSmallType s x.type → ⊥))
        (λ n. At (symbols_with (the_scope sig.now []) choosers.now) i (λ x. IsSizeOf s x.type n)) }
{
    let declared = sig.consts.len();
    if i < declared {
        match sig.consts.type_of(i) {
            Some(ty) => small_size(ty, s),
            None => unreachable!(),
        }
    } else {
        chooser_size(type_in(choosers.at(i - declared)), s)
    }
}

/// How many symbols there are.
fn count_of(sig: &Signature, choosers: &Choosers) -> Result<usize, AllocError>
    ensures { IfOk result (λ n. n ≡ length (symbols_with (the_scope sig.now []) choosers.now)) }
{
    let declared = sig.consts.len();
    let others = choosers.len();
    match declared.checked_add(others) {
        Some(count) => Ok(count),
        None => Err(AllocError),
    }
}

/// The sizes of the symbols' types, where all are small.
fn sizes_of(
    alloc: Global,
    sig: &Signature,
    choosers: &Choosers,
    s: u32,
) -> Result<Option<Vec<u32>>, AllocError>
    requires s_pos { 1 ≤ s }
    requires s_few { s ≤ 8 }
    ensures { IfOk result (λ o. MatchOption o (EachIsSmall s (symbols_with (the_scope sig.now []) choosers.now) → ⊥)
        (λ v. AreSizes s (symbols_with (the_scope sig.now []) choosers.now) v.items)) }
{
    let mut sizes = Vec::new(alloc);
    let count = count_of(sig, choosers)?;
    for i in 0..count {
        match symbol_size(sig, choosers, i, s) {
            None => return Ok(None),
            Some(size) => sizes.push(size)?,
        }
    }
    Ok(Some(sizes))
}

/// Whether the product of the sizes is within the limit.
fn are_few(sizes: &[u32]) -> bool
    requires { (i : ℕ) → i < length sizes.now → (1 ≤ slice_index sizes.now i) × (slice_index sizes.now i ≤ 1048576) }
    ensures { IsTrue result ↔ (product sizes.now ≤ 2 ^ 20) }
{
    let mut lists = 1u64;
    for size in sizes {
        lists *= u64::from(*size);
        if lists > 1_048_576 {
            return false;
        }
    }
    true
}

/// Whether a number may be the value of the choice or the description.
fn is_lawful(chooser: &Chooser, s: u32, v: u32) -> bool
    requires s_pos { 1 ≤ s }
    requires s_few { s ≤ 8 }
    requires small { IsSmallType s (the_chooser chooser.now).type }
    ensures { IsTrue result ↔ IsLawful s (the_chooser chooser.now).constant v }
{
    match chooser {
        Chooser::Choice(a) => {
            let n = size_of(a, s);
            is_choice(n, v)
        }
        Chooser::Description(a) => {
            let n = size_of(a, s);
            is_description(n, v)
        }
    }
}

/// Which numbers below a size are lawful values of the chooser.
fn lawful_values(
    alloc: Global,
    chooser: &Chooser,
    s: u32,
    size: u32,
) -> Result<Vec<bool>, AllocError>
    requires s_pos { 1 ≤ s }
    requires s_few { s ≤ 8 }
    requires size { IsSizeOf s (the_chooser chooser.now).type size }
    ensures { IfOk result (λ v. IsDomain s (the_chooser chooser.now) v.items) }
{
    let mut allowed = Vec::new(alloc);
    for v in 0..size {
        let lawful = is_lawful(chooser, s, v);
        allowed.push(lawful)?;
    }
    Ok(allowed)
}

/// All numbers below a size.
fn all_values(alloc: Global, size: u32) -> Result<Vec<bool>, AllocError>
    ensures { IfOk result (λ v. (length v.items ≡ size) × ((i : ℕ) → i < size → IsAllowed v.items i)) }
{
    let mut allowed = Vec::new(alloc);
    for _v in 0..size {
        allowed.push(true)?;
    }
    Ok(allowed)
}

/// The allowed values of a symbol.
fn domain_of(
    alloc: Global,
    sig: &Signature,
    choosers: &Choosers,
    i: usize,
    s: u32,
    size: u32,
) -> Result<Vec<bool>, AllocError>
    requires s_pos { 1 ≤ s }
    requires s_few { s ≤ 8 }
    requires within { i < length (symbols_with (the_scope sig.now []) choosers.now) }
    requires size { At (symbols_with (the_scope sig.now []) choosers.now) i (λ x. IsSizeOf s x.type size) }
    ensures { IfOk result (λ v. At (symbols_with (the_scope sig.now []) choosers.now) i (λ x. IsDomain s x v.items)) }
{
    let declared = sig.consts.len();
    if i < declared {
        all_values(alloc, size)
    } else {
        lawful_values(alloc, choosers.at(i - declared), s, size)
    }
}

/// The allowed values of the symbols.
fn domains_of(
    alloc: Global,
    sig: &Signature,
    choosers: &Choosers,
    s: u32,
    sizes: &[u32],
) -> Result<Domains, AllocError>
    requires s_pos { 1 ≤ s }
    requires s_few { s ≤ 8 }
    requires sizes { AreSizes s (symbols_with (the_scope sig.now []) choosers.now) sizes.now }
    ensures { IfOk result (λ ds. AreDomains s (symbols_with (the_scope sig.now []) choosers.now) ds) }
{
    let mut domains = Domains::new(alloc);
    for i in 0..sizes.len() {
        let allowed = domain_of(alloc, sig, choosers, i, s, sizes[i])?;
        domains.push(allowed)?;
    }
    Ok(domains)
}

/// What the formula at a place is to be worth: 1 where it is assumed, and 0 where it is the conjecture.
fn wanted_at(i: usize, assumed: usize) -> u32
    ensures { result ≡ (if nat_lt i assumed then 1 else 0) }
{
    if i < assumed { 1 } else { 0 }
}

/// The formulas with what they are to be worth: 1 where they are assumed, and 0 where they are to be refuted.
fn checks_of(
    alloc: Global,
    frame: &Frame,
    formulas: &Nfs,
    assumed: usize,
) -> Result<Vec<Check>, AllocError>
    requires ground { IsGround (frame_scope frame.now) frame.now.size frame.now.choosers.now }
    requires formulas { CanCompileEach (frame_scope frame.now) frame.now.size frame.now.choosers.now formulas.now }
    ensures { IfOk result (λ v. AreChecks (frame_scope frame.now) frame.now.size frame.now.choosers.now assumed formulas.now v.items) }
{
    let mut checks = Vec::new(alloc);
    for i in 0..formulas.len() {
        let expr = compile_formula(alloc, frame, formulas.at(i))?;
        let reach = reach(&expr);
        let wanted = wanted_at(i, assumed);
        checks.push(Check {
            expr,
            wanted,
            reach,
        })?;
    }
    Ok(checks)
}

/// What is found at one size.
#[derive(Drop)]
enum Looked {
    TooMany,
    Model(Vec<u32>),
    None,
}

/// The formulas with what they are to be worth, over a signature without witnesses.
fn checks_for(
    alloc: Global,
    sig: &Signature,
    formulas: &Nfs,
    choosers: &Choosers,
    assumed: usize,
    s: u32,
) -> Result<Vec<Check>, AllocError>
    requires ground { IsGround (the_scope sig.now []) s choosers.now }
    requires formulas { CanCompileEach (the_scope sig.now []) s choosers.now formulas.now }
    ensures { IfOk result (λ v. AreChecks (the_scope sig.now []) s choosers.now assumed formulas.now v.items) }
{
    let wits = Types::new(alloc);
    let frame = Frame {
        sig: &*sig,
        wits: &wits,
        choosers: &*choosers,
        size: s,
    };
    checks_of(alloc, &frame, formulas, assumed)
}

/// Looks through the lists of values where the types are small.
fn look_through(
    alloc: Global,
    sig: &Signature,
    formulas: &Nfs,
    choosers: &Choosers,
    assumed: usize,
    s: u32,
    sizes: &[u32],
) -> Result<Option<Vec<u32>>, AllocError>
    requires ground { IsGround (the_scope sig.now []) s choosers.now }
    requires formulas { CanCompileEach (the_scope sig.now []) s choosers.now formulas.now }
    requires sizes { AreSizes s (symbols_with (the_scope sig.now []) choosers.now) sizes.now }
    ensures { IfOk result (λ o. MatchOption o (NonePasses (the_scope sig.now []) s choosers.now assumed formulas.now)
        (λ v. FirstPasses (the_scope sig.now []) s choosers.now assumed formulas.now v.items)) }
{
    let domains = domains_of(alloc, sig, choosers, s, sizes)?;
    let checks = checks_for(alloc, sig, formulas, choosers, assumed, s)?;
    first_sorted(alloc, &domains, checks)
}

/// Looks at one size, where the types are small.
fn look_sized(
    alloc: Global,
    problem: &Problem,
    formulas: &Nfs,
    choosers: &Choosers,
    s: u32,
    sizes: &[u32],
) -> Result<Looked, AllocError>
    requires typed { IsTyped problem.now }
    requires s_pos { 1 ≤ s }
    requires s_few { s ≤ 8 }
    requires formulas { formulas.now ≡ normal_formulas problem.now }
    requires choosers { choosers.now ≡ with_symbols [] (choosing_symbols_of formulas.now) }
    requires named { EachNamesSmallTypes s formulas.now }
    requires sizes { AreSizes s (model_symbols problem.now) sizes.now }
    ensures { IfOk result (λ looked. IsLooked problem.now s looked) }
{
    if !are_few(sizes) {
        return Ok(Looked::TooMany);
    }
    let sig = &problem.signature;
    let assumed = problem.assumed.len();
    let found = look_through(alloc, sig, formulas, choosers, assumed, s, sizes)?;
    match found {
        None => Ok(Looked::None),
        Some(values) => Ok(Looked::Model(values)),
    }
}

/// Looks at one size.
fn look(
    alloc: Global,
    problem: &Problem,
    formulas: &Nfs,
    choosers: &Choosers,
    s: u32,
) -> Result<Looked, AllocError>
    requires typed { IsTyped problem.now }
    requires s_pos { 1 ≤ s }
    requires s_few { s ≤ 8 }
    requires formulas { formulas.now ≡ normal_formulas problem.now }
    requires choosers { choosers.now ≡ with_symbols [] (choosing_symbols_of formulas.now) }
    ensures { IfOk result (λ looked. IsLooked problem.now s looked) }
{
    if !all_name_small(formulas, s) {
        return Ok(Looked::TooMany);
    }
    match sizes_of(alloc, &problem.signature, choosers, s)? {
        None => Ok(Looked::TooMany),
        Some(sizes) => look_sized(alloc, problem, formulas, choosers, s, &sizes),
    }
}

/// The choices and descriptions among the symbols of a typed problem, in order.
pub fn choosers_of(alloc: Global, problem: &Problem) -> Result<Choosers, AllocError>
    requires { IsTyped problem.now }
    ensures { IfOk result (λ cs. symbols_with (scope_of problem.now.declared) cs ≡ model_symbols problem.now) }
{
    let formulas = formulas_of(alloc, problem)?;
    Choosers::of(alloc, &formulas)
}

/// The first finite model of a typed problem whose base types from `$i` on all have one size, which is at most `upto`: its size and the
/// values of the problem's symbols; or that there is none; or the first size at which there is too much to look at.
pub fn search_models(alloc: Global, problem: &Problem, upto: u32) -> Result<Found, AllocError>
    requires typed { IsTyped problem.now }
    requires upto_pos { 1 ≤ upto }
    requires upto_few { upto ≤ 8 }

    // The answer of the definition.
    ensures answer { IfOk result (λ found. IsSmallFinding problem.now upto found) }

    // A model that is found is one that meets the problem. Where none is found, no model of these sizes meets it.
    ensures models { IfOk result (λ found. ShowsModels problem.now upto found) }
{
    let formulas = formulas_of(alloc, problem)?;
    let choosers = Choosers::of(alloc, &formulas)?;
    for size in 1..upto + 1 {
        match look(alloc, problem, &formulas, &choosers, size)? {
            Looked::TooMany => return Ok(Found::TooMany { size }),
            Looked::Model(values) => {
                return Ok(Found::Model {
                    size,
                    values: Values::of(values),
                });
            }
            Looked::None => {}
        }
    }
    Ok(Found::None)
}
