//! Copies of terms and of canonical terms.

ghost use Rattle.std.specs.Prelude.{◌≡◌, IfOk};
ghost use Rattle.stt_core.specs.View.{the_term};

use crate::nf::{Nf, Nfs};
use crate::term::Term;
use crate::ty::Types;
use std::alloc::{AllocError, Global};

impl Types {
    /// A copy of the list.
    pub fn try_clone(&self, alloc: Global) -> Result<Types, AllocError>
        ensures { IfOk result (λ types. types ≡ self.now) }
    {
        let mut types = Types::new(alloc);
        for i in 0..self.len() {
            let ty = self.at(i).try_clone(alloc)?;
            types.push(ty)?;
        }
        Ok(types)
    }
}

impl Nf {
    /// A copy of the term.
    pub fn try_clone(&self, alloc: Global) -> Result<Nf, AllocError>
        ensures { IfOk result (λ nf. nf ≡ self.now) }
    {
        let mut args = Nfs::new(alloc);
        for i in 0..self.args.len() {
            let argument = self.args.at(i).try_clone(alloc)?;
            args.push(argument)?;
        }
        Ok(Nf {
            binders: self.binders.try_clone(alloc)?,
            head: self.head.try_clone(alloc)?,
            args,
        })
    }
}

impl Term {
    /// A copy of the term.
    pub fn try_clone(&self, alloc: Global) -> Result<Term, AllocError>
        ensures { IfOk result (λ term. the_term term ≡ the_term self.now) }
    {
        match self {
            Term::Bound(k) => Ok(Term::Bound(*k)),
            Term::Name(k) => Ok(Term::Name(*k)),
            Term::Wit(k) => Ok(Term::Wit(*k)),
            Term::False => Ok(Term::False),
            Term::Not => Ok(Term::Not),
            Term::Imp => Ok(Term::Imp),
            Term::All(a) => Ok(Term::All(a.try_clone(alloc)?)),
            Term::Eq(a) => Ok(Term::Eq(a.try_clone(alloc)?)),
            Term::Choice(a) => Ok(Term::Choice(a.try_clone(alloc)?)),
            Term::Desc(a) => Ok(Term::Desc(a.try_clone(alloc)?)),
            Term::Lam(a, body) => {
                let body = Box::new(alloc, body.try_clone(alloc)?)?;
                Ok(Term::Lam(a.try_clone(alloc)?, body))
            }
            Term::App(function, argument) => {
                let function = Box::new(alloc, function.try_clone(alloc)?)?;
                let argument = Box::new(alloc, argument.try_clone(alloc)?)?;
                Ok(Term::App(function, argument))
            }
        }
    }
}
