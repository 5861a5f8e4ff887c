//! Eta-long forms of heads that are applied to all their arguments at once.

ghost use Rattle.std.specs.Prelude.{◌≡◌, ◌+◌, ◌<◌, ◌≤◌, ◌++◌, ℕ, true, length, map, take, IfOk, IfSome, IsTrue, All};
ghost use Rattle.stt_core.specs.SimpleType.{base};
ghost use Rattle.stt_core.specs.Lambda.{Lambda, applied};
ghost use Rattle.stt_core.specs.Lift.{lift_by};
ghost use Rattle.stt_core.specs.View.{the_head};
ghost use Rattle.normal_forms.specs.Normal.{apply_each};
ghost use Rattle.term_bank.specs.Content.{content_scope, HasTerm, Grows};
ghost use Rattle.term_bank.specs.Terms.{term_at};
ghost use Rattle.bank_normal.specs.Right.{IsRightNormaliser};
ghost use Rattle.bank_normal.specs.Internal.Expanded.{binder_types, IsFormOf};
ghost use Rattle.bank_normal.specs.Internal.Replacing.{AppliesAllIn};

use crate::normaliser::Normaliser;
use crate::variables::KEPT_LEVELS;
use std::alloc::{AllocError, Global};
use stt_core::Head;
use term_bank::{Bank, Id, Ids, Node};

// From so many arguments on it is asked whether the function is the eta-long form of a head. Fewer are put in one after the other.
const MANY: usize = 16;

/// What stands within the outer `n` binders of a term, or within all where there are fewer.
fn within_binders(bank: &Bank, n: usize, id: Id) -> Id
    requires { id < length bank.now.terms }
    ensures { result < length bank.now.terms }
{
    let mut inner = id;
    for _ in 0..n {
        match bank.node(inner) {
            Node::Lam { ty: _, body } => inner = *body,
            Node::App { head: _, args: _ } => return inner,
        }
    }
    inner
}

/// The number in 32 bits, where it fits.
fn fitting(n: usize) -> Option<u32>
    ensures { IfSome result (λ k. k ≡ n) }
{
    match u32::try_from(n) {
        Ok(k) => Some(k),
        Err(_) => None,
    }
}

/// How many more than `part` there are, where there are as many.
fn others(whole: usize, part: usize) -> Option<usize>
    ensures { IfSome result (λ n. n + part ≡ whole) }
{
    if part <= whole {
        Some(whole - part)
    } else {
        None
    }
}

/// The head that becomes this one where it is lifted by so many binders, if there is one.
fn lowered(by: u32, head: Head) -> Option<Head>
    ensures { IfSome result (λ h. the_head head ≡ lift_by by 0 (the_head h)) }
{
    match &head {
        Head::Bound(j) => {
            if by <= *j {
                Some(Head::Bound(*j - by))
            } else {
                None
            }
        }
        _ => Some(head),
    }
}

/// Whether lifting leaves the first `n` terms of a list as they are.
fn are_closed(bank: &Bank, n: usize, ids: &Ids) -> bool
    requires count { n ≤ length ids.now }
    requires within { All (λ id. id < length bank.now.terms) ids.now }
    ensures { (by : ℕ) → IsTrue result → map (lift_by by 0) (take n (map (term_at bank.now.terms) ids.now)) ≡ take n
        (map (term_at bank.now.terms) ids.now) }
{
    for i in 0..n {
        if !bank.is_closed(ids.at(i)) {
            return false;
        }
    }
    true
}

/// The first `n` numbers of a list, and those of another one.
fn joined(alloc: Global, n: usize, first: &Ids, second: &Ids) -> Result<Ids, AllocError>
    requires { n ≤ length first.now }
    ensures { IfOk result (λ ids. ids ≡ take n first.now ++ second.now) }
{
    let mut all = Ids::from_slice(alloc, &first.as_slice()[..n])?;
    for i in 0..second.len() {
        all.push(second.at(i))?;
    }
    Ok(all)
}

impl Normaliser {
    /// Whether a function is the eta-long form of a head with the first arguments, where `args` are all that the head has in `body`.
    fn is_form_of(
        &mut self,
        bank: &mut Bank,
        f: Id,
        given: usize,
        args: &Ids,
        body: Id,
    ) -> Result<bool, AllocError>
        requires within { f < length bank.old.terms }
        requires count { given ≤ length args.now }
        requires args { All (λ id. id < length bank.old.terms) args.now }
        requires right { IsRightNormaliser self.old bank.old }
        ensures form { IfOk result (λ is. is ≡ true → (h : Lambda) → binder_types (term_at bank.old.terms body) ≡ base 0
            → term_at bank.old.terms body ≡ applied h (map (term_at bank.old.terms) args.now) → IsFormOf (term_at bank.old.terms f) h (map (term_at bank.old.terms) args.now) given) }
        ensures grows { Grows bank.old bank.new }
        ensures right { IsRightNormaliser self.new bank.new }
    {
        let mut id = f;
        for at in given..args.len() {
            let node = bank.node(id).try_clone(self.alloc)?;
            let Node::Lam { ty, body: inner } = node else {
                return Ok(false);
            };
            let Some(left) = fitting(args.len() - at - 1) else {
                return Ok(false);
            };
            let variable = self.eta_variable(bank, KEPT_LEVELS, &ty, left)?;
            let arg = args.at(at);
            if variable != arg {
                return Ok(false);
            }
            id = inner;
        }
        Ok(id == body)
    }

    /// A function at its arguments, where it is the eta-long form of the head, which has the arguments `inner` within its binders.
    fn apply_form(
        &mut self,
        bank: &mut Bank,
        f: Id,
        body: Id,
        head: Head,
        inner: &Ids,
        args: &Ids,
    ) -> Result<Option<Id>, AllocError>
        requires f_within { f < length bank.old.terms }
        requires body { term_at bank.old.terms body ≡ applied (the_head head) (map (term_at bank.old.terms) inner.now) }
        requires inner { All (λ id. id < length bank.old.terms) inner.now }
        requires within { All (λ id. id < length bank.old.terms) args.now }
        requires fits { AppliesAllIn (content_scope bank.old) (term_at bank.old.terms f) (map (term_at bank.old.terms) args.now) }
        requires right { IsRightNormaliser self.old bank.old }
        ensures term { IfOk result
            (λ o. IfSome o
            (λ made. HasTerm bank.new made (apply_each (term_at bank.old.terms f) (map (term_at bank.old.terms) args.now)))) }
        ensures grows { Grows bank.old bank.new }
        ensures right { IsRightNormaliser self.new bank.new }
    {
        let Some(given) = others(inner.len(), args.len()) else {
            return Ok(None);
        };
        let Some(by) = fitting(args.len()) else {
            return Ok(None);
        };
        let Some(lower) = lowered(by, head) else {
            return Ok(None);
        };
        if !are_closed(&*bank, given, inner) {
            return Ok(None);
        }
        let is_form = self.is_form_of(bank, f, given, inner, body)?;
        if !is_form {
            return Ok(None);
        }
        let all = joined(self.alloc, given, inner, args)?;
        Ok(Some(bank.intern_app(&lower, all.as_slice())?))
    }

    /// A function at all its arguments, where these are many and it is the eta-long form of a head: the head with them. Arguments that
    /// the head has already are to be closed.
    pub(crate) fn apply_expanded(
        &mut self,
        bank: &mut Bank,
        f: Id,
        args: &Ids,
    ) -> Result<Option<Id>, AllocError>
        requires f_within { f < length bank.old.terms }
        requires within { All (λ id. id < length bank.old.terms) args.now }
        requires fits { AppliesAllIn (content_scope bank.old) (term_at bank.old.terms f) (map (term_at bank.old.terms) args.now) }
        requires right { IsRightNormaliser self.old bank.old }
        ensures term { IfOk result
            (λ o. IfSome o
            (λ made. HasTerm bank.new made (apply_each (term_at bank.old.terms f) (map (term_at bank.old.terms) args.now)))) }
        ensures grows { Grows bank.old bank.new }
        ensures right { IsRightNormaliser self.new bank.new }
    {
        if args.len() < MANY {
            return Ok(None);
        }
        let body = within_binders(&*bank, args.len(), f);
        let node = bank.node(body).try_clone(self.alloc)?;
        match node {
            Node::Lam { ty: _, body: _ } => Ok(None),
            Node::App { head, args: inner } => {
                Ok(self.apply_form(bank, f, body, head, &inner, args)?)
            }
        }
    }
}
