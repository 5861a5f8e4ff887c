//! Canonical terms.

ghost use Rattle.std.specs.Prelude.{◌≡◌, ◌++◌, [], ◌∷◌, length, OnOk, OnErr, slice_get, option_copied, IfOk, ◌<◌};
ghost use Rattle.stt_core.specs.View.{the_head};

use crate::ty::{Ty, Types};
use std::alloc::{AllocError, Global};
use std::marker::Model;

/// What stands at the head of a canonical term: what a term has that is neither a function nor an application.
pub enum Head {
    Bound(u32),
    Name(u32),
    Wit(u32),
    False,
    Not,
    Imp,
    All(Ty),
    Eq(Ty),
    Choice(Ty),
    Desc(Ty),
}

// Written out, so that a proof takes a drop as one call.
impl Drop for Head {
    fn drop(self) {
        match self {
            Head::Bound(_)
            | Head::Name(_)
            | Head::Wit(_)
            | Head::False
            | Head::Not
            | Head::Imp
            | Head::All(_)
            | Head::Eq(_)
            | Head::Choice(_)
            | Head::Desc(_) => {}
        }
    }
}

/// A canonical term: binders, the outermost first, over a head with its arguments. Contracts see it as the term that it is.
#[derive(Drop)]
#[cycle(nf)]
pub struct Nf {
    pub binders: Types,
    pub head: Head,
    pub args: Nfs,
}

/// A list of canonical terms.
#[derive(Drop)]
#[cycle(nf)]
pub struct Nfs {
    items: Vec<Nf>,
}

impl Model for Nf {
    ghost use Rattle.stt_core.specs.Lambda.{Lambda, lambdas, applied, node_count};
    ghost use Rattle.stt_core.specs.Internal.LambdaCode.{lambda_code};

    ghost Value = { Lambda };

    ghost coded = { lambda_code };

    ghost use Rattle.stt_core.specs.View.{the_head};

    ghost view = { λ a. lambdas a.binders (applied (the_head a.head) a.args) };

    ghost size = { node_count };

    ghost use Rattle.std.proofs.Common.{arith};
    ghost use Rattle.stt_core.specs.Internal.Sizes.{nf_falls};

    ghost size_decreases = { λ a h. omega (arith, nf_falls a.binders (the_head a.head) a.args) };
}

impl Model for Nfs {
    ghost use Rattle.std.specs.Prelude.{List};
    ghost use Rattle.std.specs.Coded.{coded_list};
    ghost use Rattle.stt_core.specs.Lambda.{Lambda};
    ghost use Rattle.stt_core.specs.Internal.LambdaCode.{lambda_code};

    ghost Value = { List Lambda };

    ghost coded = { coded_list lambda_code };

    ghost view = { λ a. a.items.items };

    ghost use Rattle.std.proofs.Common.{arith};
    ghost use Rattle.stt_core.specs.Internal.Sizes.{node_counts, nfs_falls};

    ghost size = { node_counts };

    ghost size_decreases = { λ a h. omega (arith, nfs_falls a.items.items) };
}

impl Nfs {
    pub fn new(alloc: Global) -> Nfs
        ensures { result ≡ [] }
    {
        Nfs {
            items: Vec::new(alloc),
        }
    }

    pub fn push(&mut self, nf: Nf) -> Result<(), AllocError>
        ensures ok { OnOk result (self.new ≡ self.old ++ nf ∷ []) }
        ensures err { OnErr result (self.new ≡ self.old) }
    {
        self.items.push(nf)?;
        Ok(())
    }

    /// Adds a term before those of the list.
    pub fn push_front(&mut self, nf: Nf) -> Result<(), AllocError>
        ensures ok { OnOk result (self.new ≡ nf ∷ self.old) }
        ensures err { OnErr result (self.new ≡ self.old) }
    {
        self.items.insert(0, nf)?;
        Ok(())
    }

    pub fn len(&self) -> usize
        ensures { result ≡ length self.now }
    {
        self.items.len()
    }

    pub fn get(&self, i: usize) -> Option<&Nf>
        ensures { option_copied result ≡ slice_get self.now i }
    {
        self.items.get(i)
    }

    /// The term at place i.
    pub fn at(&self, i: usize) -> &Nf
        requires { i < length self.now }
        ensures { slice_get self.now i ≡ Some result.now }
    {
        &self.items[i]
    }
}

impl Head {
    /// A copy of the head.
    pub fn try_clone(&self, alloc: Global) -> Result<Head, AllocError>
        ensures { IfOk result (λ head. the_head head ≡ the_head self.now) }
    {
        match self {
            Head::Bound(k) => Ok(Head::Bound(*k)),
            Head::Name(k) => Ok(Head::Name(*k)),
            Head::Wit(k) => Ok(Head::Wit(*k)),
            Head::False => Ok(Head::False),
            Head::Not => Ok(Head::Not),
            Head::Imp => Ok(Head::Imp),
            Head::All(a) => Ok(Head::All(a.try_clone(alloc)?)),
            Head::Eq(a) => Ok(Head::Eq(a.try_clone(alloc)?)),
            Head::Choice(a) => Ok(Head::Choice(a.try_clone(alloc)?)),
            Head::Desc(a) => Ok(Head::Desc(a.try_clone(alloc)?)),
        }
    }
}
