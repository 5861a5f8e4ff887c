//! Choices and descriptions.

ghost use Rattle.std.specs.Prelude.{◌≡◌, ◌<◌, ◌++◌, ◌∷◌, ℕ, [], length, slice_get, Some, OnOk, IfOk, MatchOption, map, option_map, option_to_list};
ghost use Rattle.stt_core.specs.View.{the_head};
ghost use Rattle.stt_core.specs.SameTerm.{same_constant};
ghost use Rattle.finite_models.specs.Symbols.{Symbol, choosing_symbols, choosing_symbols_of, has_symbol, with_symbols};
ghost use Rattle.finite_models.specs.Internal.Choosers.{IsFirstPlace, IsNoPlace};
ghost use Rattle.finite_models.specs.ChooserView.{the_chooser};

use std::alloc::{AllocError, Global};
use std::marker::Model;
use stt_core::{Head, Nf, Nfs, Ty};

/// The choice or the description on a type.
pub enum Chooser {
    Choice(Ty),
    Description(Ty),
}

// Written out, so that a proof takes a drop as one call.
impl Drop for Chooser {
    fn drop(self) {
        match self {
            Chooser::Choice(_) | Chooser::Description(_) => {}
        }
    }
}

impl Chooser {
    /// The choice or the description that a head is.
    pub fn of(alloc: Global, head: &Head) -> Result<Option<Chooser>, AllocError>
        ensures { IfOk result (λ o. map the_chooser (option_to_list o) ≡ choosing_symbols (the_head head.now)) }
    {
        match head {
            Head::Choice(a) => Ok(Some(Chooser::Choice(a.try_clone(alloc)?))),
            Head::Desc(a) => Ok(Some(Chooser::Description(a.try_clone(alloc)?))),
            _ => Ok(None),
        }
    }

    fn same(&self, other: &Chooser) -> bool
        ensures { result ≡ same_constant (the_chooser self.now).constant (the_chooser other.now).constant }
    {
        match (self, other) {
            (Chooser::Choice(a), Chooser::Choice(b)) => a.same(b),
            (Chooser::Description(a), Chooser::Description(b)) => a.same(b),
            _ => false,
        }
    }
}

/// A list of choices and descriptions. Contracts see them as symbols.
#[derive(Drop)]
pub struct Choosers {
    items: Vec<Chooser>,
}

impl Model for Choosers {
    ghost use Rattle.std.specs.Prelude.{List, map};
    ghost use Rattle.finite_models.specs.Symbols.{Symbol};
    ghost use Rattle.finite_models.specs.ChooserView.{the_chooser};
    ghost use Rattle.std.specs.Coded.{coded_list};
    ghost use Rattle.finite_models.specs.Internal.Choosers.{symbol_code};

    ghost Value = { List Symbol };

    ghost coded = { coded_list symbol_code };

    ghost view = { λ a. map the_chooser a.items.items };
}

impl Choosers {
    pub fn new(alloc: Global) -> Choosers
        ensures { result ≡ [] }
    {
        Choosers {
            items: Vec::new(alloc),
        }
    }

    pub fn len(&self) -> usize
        ensures { result ≡ length self.now }
    {
        self.items.len()
    }

    pub fn at(&self, i: usize) -> &Chooser
        requires { i < length self.now }
        ensures { slice_get self.now i ≡ Some (the_chooser result.now) }
    {
        &self.items[i]
    }

    fn push(&mut self, chooser: Chooser) -> Result<(), AllocError>
        ensures { OnOk result (self.new ≡ self.old ++ the_chooser chooser ∷ []) }
    {
        self.items.push(chooser)?;
        Ok(())
    }

    /// The place at which the same one stands first.
    pub fn place_of(&self, chooser: &Chooser) -> Option<usize>
        ensures { MatchOption result (IsNoPlace (the_chooser chooser.now) self.now)
            (λ i. IsFirstPlace (the_chooser chooser.now) self.now i) }
    {
        for i in 0..self.len() {
            if chooser.same(self.at(i)) {
                return Some(i);
            }
        }
        None
    }

    /// Adds the one where it isn't there yet.
    fn add(&mut self, chooser: Chooser) -> Result<(), AllocError>
        ensures { OnOk result (self.new ≡ with_symbols self.old (the_chooser chooser ∷ [])) }
    {
        match self.place_of(&chooser) {
            None => self.push(chooser),
            Some(_) => Ok(()),
        }
    }

    fn add_head(&mut self, alloc: Global, head: &Head) -> Result<(), AllocError>
        ensures { OnOk result (self.new ≡ with_symbols self.old (choosing_symbols (the_head head.now))) }
    {
        match Chooser::of(alloc, head)? {
            Some(chooser) => self.add(chooser),
            None => Ok(()),
        }
    }

    /// Adds those of a term that aren't there yet.
    fn add_term(&mut self, alloc: Global, nf: &Nf) -> Result<(), AllocError>
        ensures { OnOk result (self.new ≡ with_symbols self.old (choosing_symbols nf.now)) }
    {
        self.add_head(alloc, &nf.head)?;
        for i in 0..nf.args.len() {
            self.add_term(alloc, nf.args.at(i))?;
        }
        Ok(())
    }

    /// Those of some terms, in order of first occurrence.
    pub fn of(alloc: Global, terms: &Nfs) -> Result<Choosers, AllocError>
        ensures { IfOk result (λ cs. cs ≡ with_symbols [] (choosing_symbols_of terms.now)) }
    {
        let mut choosers = Choosers::new(alloc);
        for i in 0..terms.len() {
            choosers.add_term(alloc, terms.at(i))?;
        }
        Ok(choosers)
    }
}
