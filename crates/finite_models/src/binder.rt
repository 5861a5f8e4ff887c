//! Quantifiers and tables without the steps that cannot matter.

ghost use Rattle.std.specs.Prelude.{◌≡◌, ◌≤◌, ◌+◌, ◌^◌, IsTrue, IfOk};
ghost use Rattle.stt_core.specs.Digits.{table};
ghost use Rattle.finite_models.specs.Internal.Binder.{IsWithout, IsVariable, IsEntryInside, AreRounds, IsTableOf};

use crate::expr::{Env, Expr, eval_table};
use crate::size::bounded_power;
use std::alloc::{AllocError, Global};

/// Whether a variable doesn't occur.
#[cycle(lacks)]
fn lacks(expr: &Expr, k: u32) -> bool
    ensures { IsTrue result → IsWithout k expr.now }
{
    match expr {
        Expr::Bound(i) => *i != k,
        Expr::Symbol(_) => true,
        Expr::False => true,
        Expr::Not(e) => lacks(e, k),
        Expr::Imp(a, b) => lacks(a, k) && lacks(b, k),
        Expr::All(_, e) => lacks_under(e, k),
        Expr::Eq(a, b) => lacks(a, k) && lacks(b, k),
        Expr::Apply(_, f, x) => lacks(f, k) && lacks(x, k),
        Expr::Table(_, _, e) => lacks_under(e, k),
        Expr::Repeat(_, e) => lacks_under(e, k),
        Expr::Whole(_, e) => lacks_under(e, k),
    }
}

/// Whether a variable doesn't occur in the body of a binder, seen from outside the binder.
#[cycle(lacks)]
fn lacks_under(body: &Expr, k: u32) -> bool
    ensures { IsTrue result → IsWithout (k + 1) body.now }
{
    if k == u32::MAX {
        return false;
    }
    lacks(body, k + 1)
}

/// How many of its values a quantifier looks at: one where its variable doesn't occur in the body.
pub fn rounds(size: u32, body: &Expr) -> u32
    requires { 1 ≤ size }
    ensures { AreRounds size body.now result }
{
    if lacks(body, 0) { 1 } else { size }
}

/// The table whose digits are all 1.
fn ones(base: u32, entries: u32) -> u32
    requires base { 1 ≤ base }
    requires small { base ^ entries ≤ 2 ^ 20 }
    ensures { result ≡ table base entries (λ _. 1) }
{
    if base == 1 {
        return entries;
    }
    let one = Env::Inner(1, &Env::Empty);
    eval_table(base, entries, &Expr::Bound(1), &[], &one)
}

/// Whether an expression is a variable whose values are below n, or the function of all its entries.
fn is_variable(expr: &Expr, k: u32, n: u32) -> bool
    ensures { IsTrue result → IsVariable k n expr.now }
{
    match expr {
        Expr::Bound(i) => *i == k,
        Expr::Whole(count, e) => n <= *count && k < u32::MAX && is_variable(e, k + 1, n),
        _ => false,
    }
}

/// Whether an expression is the entry of a function at the innermost variable, which doesn't occur in the function.
fn is_entry(expr: &Expr, base: u32, entries: u32) -> bool
    ensures { IsTrue result → IsEntryInside base entries expr.now }
{
    match expr {
        Expr::Apply(b, f, x) => *b == base && is_variable(x, 0, entries) && lacks(f, 0),
        _ => false,
    }
}

/// A function in place of the table of its entries.
fn whole(base: u32, entries: u32, body: Expr) -> Expr
    requires base { 1 ≤ base }
    requires entries { 1 ≤ entries }
    requires small { base ^ entries ≤ 2 ^ 20 }
    requires entry { IsEntryInside base entries body }
    ensures { IsTableOf base entries body result }
{
    match body {
        Expr::Apply(_, function, _) => match bounded_power(base, entries) {
            Some(count) => Expr::Whole(count, function),
            None => unreachable!(),
        },
        _ => unreachable!(),
    }
}

/// The table of a body, in this base and with this many entries. A body in which the variable doesn't occur is evaluated once, and a
/// function whose entries the table has is taken for it.
pub fn table_of(alloc: Global, base: u32, entries: u32, body: Expr) -> Result<Expr, AllocError>
    requires base { 1 ≤ base }
    requires entries { 1 ≤ entries }
    requires small { base ^ entries ≤ 2 ^ 20 }
    ensures { IfOk result (λ e. IsTableOf base entries body e) }
{
    if is_entry(&body, base, entries) {
        return Ok(whole(base, entries, body));
    }
    if lacks(&body, 0) {
        let times = ones(base, entries);
        let same = Box::new(alloc, body)?;
        return Ok(Expr::Repeat(times, same));
    }
    let inner = Box::new(alloc, body)?;
    Ok(Expr::Table(base, entries, inner))
}
