//! Terms that share their parts.

ghost use Rattle.std.specs.Prelude.{◌≡◌, ◌++◌, [], ◌∷◌, length, OnOk, OnErr, slice_get, Some, IfOk, ◌<◌};

use std::alloc::{AllocError, Global};
use std::marker::Model;
use std::rc::Rc;
use stt_core::{Head, Types};

/// A canonical term: binders, the outermost first, over a head with its arguments, which other terms may share. Contracts see it as the
/// term that it is.
#[derive(Drop)]
#[cycle(shared_term)]
pub struct SharedTerm {
    pub binders: Types,
    pub head: Head,
    pub args: SharedTerms,
}

/// A list of terms, which others share.
#[derive(Drop)]
#[cycle(shared_term)]
pub struct SharedTerms {
    items: Vec<Rc<SharedTerm>>,
}

impl Model for SharedTerm {
    ghost use Rattle.stt_core.specs.Lambda.{Lambda, lambdas, applied, node_count};
    ghost use Rattle.stt_core.specs.Internal.LambdaCode.{lambda_code};

    ghost Value = { Lambda };

    ghost coded = { lambda_code };

    ghost use Rattle.stt_core.specs.View.{the_head};

    ghost view = { λ a. lambdas a.binders (applied (the_head a.head) a.args) };

    ghost size = { node_count };

    ghost use Rattle.std.proofs.Common.{arith};
    ghost use Rattle.stt_core.specs.Internal.Sizes.{nf_falls};

    ghost size_decreases = { λ a h. omega (arith, nf_falls a.binders (the_head a.head) a.args) };
}

impl Model for SharedTerms {
    ghost use Rattle.std.specs.Prelude.{List, map, ◌+◌};
    ghost use Rattle.std.specs.Coded.{coded_list};
    ghost use Rattle.stt_core.specs.Lambda.{Lambda, node_count};
    ghost use Rattle.stt_core.specs.Internal.LambdaCode.{lambda_code};

    ghost Value = { List Lambda };

    ghost coded = { coded_list lambda_code };

    ghost view = { λ a. map (λ t. t.value) a.items.items };

    ghost use Rattle.std.proofs.Common.{arith};
    ghost use Rattle.stt_core.specs.Internal.Sizes.{node_counts};
    ghost use Rattle.refute_share.specs.Internal.Sizes.{shared_fall};

    ghost size = { node_counts };

    ghost size_decreases = { λ a h. omega (arith, shared_fall (λ t. node_count t.value + 1) (λ t. t.value) (λ t. omega arith) a.items.items) };
}

impl SharedTerms {
    pub fn new(alloc: Global) -> SharedTerms
        ensures { result ≡ [] }
    {
        SharedTerms {
            items: Vec::new(alloc),
        }
    }

    /// Appends a term. Most terms with arguments have one or two, so that room for one is taken at first.
    pub fn push(&mut self, term: Rc<SharedTerm>) -> Result<(), AllocError>
        ensures ok { OnOk result (self.new ≡ self.old ++ term.value ∷ []) }
        ensures err { OnErr result (self.new ≡ self.old) }
    {
        if self.items.is_empty() {
            self.items.reserve_exact(1)?;
        }
        self.items.push(term)?;
        Ok(())
    }

    pub fn len(&self) -> usize
        ensures { result ≡ length self.now }
    {
        self.items.len()
    }

    /// The term at a place of the list.
    pub fn at(&self, i: usize) -> &SharedTerm
        requires { i < length self.now }
        ensures { slice_get self.now i ≡ Some result.now }
    {
        &self.items[i]
    }
}
