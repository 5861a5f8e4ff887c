//! Normal forms of typed terms.

ghost use Rattle.std.specs.Prelude.{◌≡◌, ◌<◌, [], true, length, map, IfOk, IsSome, All};
ghost use Rattle.stt_core.specs.ContextView.{the_context};
ghost use Rattle.stt_core.specs.Lambda.{IsLeaf};
ghost use Rattle.stt_core.specs.Typing.{type_of};
ghost use Rattle.stt_core.specs.View.{the_head, the_term, the_type};
ghost use Rattle.normal_forms.specs.Normal.{apply_each, normal_form};
ghost use Rattle.normal_forms.specs.Internal.Applying.{IsApplicable, result_after};
ghost use Rattle.term_bank.specs.Content.{content_scope, HasTerm, Grows};
ghost use Rattle.term_bank.specs.Terms.{term_at};
ghost use Rattle.delta_defs.specs.Definitions.{unfolded};
ghost use Rattle.delta_normal.specs.Forms.{normal_form_by};
ghost use Rattle.bank_normal.specs.Right.{IsRightNormaliser};
ghost use Rattle.bank_normal.specs.Forms.{forms_in, AreForms};
ghost use Rattle.bank_normal.specs.Internal.Connectives.{MakesFormula};

use crate::forms::Forms;
use crate::normaliser::Normaliser;
use crate::replace::LEVELS;
use std::alloc::AllocError;
use stt_core::{Context, Head, Term, Ty};
use term_bank::{Bank, Id, Ids};

/// The type of what a function of this type gives at `n` arguments.
fn outcome(ty: &Ty, n: usize) -> &Ty
    ensures { the_type result.now ≡ result_after n (the_type ty.now) }
{
    if n == 0 {
        return ty;
    }
    match ty {
        Ty::Arrow(_, rest) => outcome(rest, n - 1),
        Ty::Base(_) => ty,
    }
}

/// Whether a head makes a formula with `n` arguments, as a connective or an equation with all of its own does.
fn makes_formula(head: &Head, n: usize) -> bool
    ensures { result ≡ true → MakesFormula (the_head head.now) n }
{
    match head {
        Head::False => n == 0,
        Head::Not | Head::All(_) => n == 1,
        Head::Imp | Head::Eq(_) => n == 2,
        _ => false,
    }
}

impl Normaliser {
    /// The eta-long beta-normal form of a closed term. Levels of terms are bounded as in `instantiate`.
    pub fn normalise(&mut self, bank: &mut Bank, term: &Term) -> Result<Id, AllocError>
        requires typed { IsSome (type_of (content_scope bank.old) [] (the_term term.now)) }
        requires right { IsRightNormaliser self.old bank.old }
        ensures term { IfOk result (λ id. HasTerm bank.new id (normal_form (content_scope bank.old) [] (the_term term.now))) }
        ensures grows { Grows bank.old bank.new }
        ensures right { IsRightNormaliser self.new bank.new }
    {
        let none = Forms::new(self.alloc);
        Ok(self.normalise_by(bank, &none, term)?)
    }

    /// The eta-long beta-normal form of a closed term in which names stand for terms of the bank. It is that of the unfolded term, which is
    /// never built. Levels of terms are bounded as in `instantiate`.
    pub fn normalise_by(
        &mut self,
        bank: &mut Bank,
        forms: &Forms,
        term: &Term,
    ) -> Result<Id, AllocError>
        requires typed { IsSome (type_of (content_scope bank.old) [] (the_term term.now)) }
        requires forms { AreForms bank.old forms.now }
        requires right { IsRightNormaliser self.old bank.old }
        ensures term { IfOk result
            (λ id. HasTerm bank.new id (normal_form_by (content_scope bank.old) (forms_in bank.old.terms forms.now) []
            (the_term term.now))) }
        ensures grows { Grows bank.old bank.new }
        ensures right { IsRightNormaliser self.new bank.new }
    {
        // The signature is asked for its clause that all types in it are declared.
        let _sig = bank.sig();
        let none = Ids::new(self.alloc);
        Ok(self.normal_applied(bank, forms, &Context::Empty, term, none)?)
    }

    /// The normal form of a variable or a constant that is applied to arguments. For most formulas no type is made.
    #[inline(never)]
    fn normal_head(
        &mut self,
        bank: &mut Bank,
        ctx: &Context,
        term: &Term,
        args: Ids,
    ) -> Result<Id, AllocError>
        requires leaf { IsLeaf (the_term term.now) }
        requires within { All (λ id. id < length bank.old.terms) args }
        requires fits { IsApplicable (content_scope bank.old) (the_context ctx.now) (the_term term.now)
            (map (term_at bank.old.terms) args) }
        requires right { IsRightNormaliser self.old bank.old }
        ensures term { IfOk result
            (λ id. HasTerm bank.new id (apply_each (normal_form (content_scope bank.old) (the_context ctx.now) (the_term term.now))
            (map (term_at bank.old.terms) args))) }
        ensures grows { Grows bank.old bank.new }
        ensures right { IsRightNormaliser self.new bank.new }
    {
        let head = term.to_head(self.alloc)?;
        if makes_formula(&head, args.len()) {
            return Ok(self.eta_once(bank, &Ty::Base(0), head, args)?);
        }
        match bank.head_type(ctx, &head)? {
            Some(ty) => Ok(self.eta_once(bank, outcome(&ty, args.len()), head, args)?),
            None => unreachable!(),
        }
    }

    /// The normal form of a variable or a constant that is applied to arguments. Where a name stands for a term of the bank, that is
    /// applied.
    #[inline(never)]
    fn normal_leaf(
        &mut self,
        bank: &mut Bank,
        forms: &Forms,
        ctx: &Context,
        term: &Term,
        args: Ids,
    ) -> Result<Id, AllocError>
        requires leaf { IsLeaf (the_term term.now) }
        requires within { All (λ id. id < length bank.old.terms) args }
        requires forms { AreForms bank.old forms.now }
        requires fits { IsApplicable (content_scope bank.old) (the_context ctx.now)
            (unfolded (forms_in bank.old.terms forms.now) (the_term term.now)) (map (term_at bank.old.terms) args) }
        requires right { IsRightNormaliser self.old bank.old }
        ensures term { IfOk result
            (λ id. HasTerm bank.new id
            (apply_each (normal_form (content_scope bank.old) (the_context ctx.now)
            (unfolded (forms_in bank.old.terms forms.now) (the_term term.now))) (map (term_at bank.old.terms) args))) }
        ensures grows { Grows bank.old bank.new }
        ensures right { IsRightNormaliser self.new bank.new }
    {
        match forms.id_of_term(term) {
            Some(form) => Ok(self.apply_all(bank, LEVELS, form, &args)?),
            None => Ok(self.normal_head(bank, ctx, term, args)?),
        }
    }

    /// The normal form of a term that is applied to arguments.
    fn normal_applied(
        &mut self,
        bank: &mut Bank,
        forms: &Forms,
        ctx: &Context,
        term: &Term,
        mut args: Ids,
    ) -> Result<Id, AllocError>
        requires within { All (λ id. id < length bank.old.terms) args }
        requires forms { AreForms bank.old forms.now }
        requires fits { IsApplicable (content_scope bank.old) (the_context ctx.now)
            (unfolded (forms_in bank.old.terms forms.now) (the_term term.now)) (map (term_at bank.old.terms) args) }
        requires right { IsRightNormaliser self.old bank.old }
        ensures term { IfOk result
            (λ id. HasTerm bank.new id
            (apply_each (normal_form (content_scope bank.old) (the_context ctx.now)
            (unfolded (forms_in bank.old.terms forms.now) (the_term term.now))) (map (term_at bank.old.terms) args))) }
        ensures grows { Grows bank.old bank.new }
        ensures right { IsRightNormaliser self.new bank.new }
    {
        match term {
            Term::App(function, argument) => {
                let none = Ids::new(self.alloc);
                let argument = self.normal_applied(bank, forms, ctx, argument, none)?;
                args.push_front(argument)?;
                Ok(self.normal_applied(bank, forms, ctx, function, args)?)
            }
            Term::Lam(a, body) => {
                let inner = Context::Inner(&*a, &*ctx);
                let none = Ids::new(self.alloc);
                let body = self.normal_applied(bank, forms, &inner, body, none)?;
                let function = bank.intern_lam(a, body)?;
                Ok(self.apply_all(bank, LEVELS, function, &args)?)
            }
            _ => Ok(self.normal_leaf(bank, forms, ctx, term, args)?),
        }
    }
}
