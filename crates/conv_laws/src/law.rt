//! Laws of the definitions, each as the contract of a function that does nothing.

ghost use Rattle.std.specs.Prelude.{◌≡◌, ◌↔◌, length, reverse};
ghost use Rattle.stt_core.specs.View.{the_term};
ghost use Rattle.stt_core.specs.ScopeView.{the_scope};
ghost use Rattle.stt_core.specs.Typing.{IsScope, AreDeclared};
ghost use Rattle.normal_forms.specs.Normal.{normal_form};
ghost use Rattle.conv_laws.specs.Steps.{HaveOneType, DifferByStep, AreConvertible};
ghost use Rattle.conv_laws.specs.Laws.{ReplacingCommutes, EtaRenames, FunctionsAreLambdas, NormalFormsConvert, StepsKeepNormalForms, ConvertibleTermsHaveOneNormalForm};
ghost use Rattle.conv_laws.specs.Sides.{OneAnswerOnSides};

use stt_core::{Problem, Signature, Term, Types};

/// Replacing one variable and then another gives what replacing in the other order gives, with the second term put into the first.
pub fn replacing_commutes()
    ensures { ReplacingCommutes }
{}

/// Putting the eta-long form of a variable in for a variable renames it.
pub fn eta_renames()
    ensures { EtaRenames }
{}

/// A canonical function is the lambda of its application to the eta-long form of the new variable.
pub fn functions_are_lambdas()
    ensures { FunctionsAreLambdas }
{}

/// A typed term is convertible with its normal form.
pub fn normal_forms_convert()
    ensures { NormalFormsConvert }
{}

/// One beta or eta step between terms of one type keeps the normal form.
pub fn steps_keep_normal_forms()
    ensures { StepsKeepNormalForms }
{}

/// Two terms of one type are convertible exactly where their normal forms are the same.
pub fn convertible_terms_have_one_normal_form()
    ensures { ConvertibleTermsHaveOneNormalForm }
{}

/// Two terms of one type in a context whose types are declared, over a signature and witnesses whose types are: each is convertible with
/// its normal form, and where they differ by one step, they have the same. So they are convertible exactly where they have the same.
pub fn conversion_law(sig: &Signature, wits: &Types, ctx: &Types, s: &Term, t: &Term)
    requires declared { IsScope (the_scope sig.now wits.now) }
    requires context_declared { AreDeclared (length sig.now.bases) ctx.now }
    requires typed { HaveOneType (the_scope sig.now wits.now) (reverse ctx.now) (the_term s.now) (the_term t.now) }
    ensures first { AreConvertible (the_scope sig.now wits.now) (reverse ctx.now) (the_term s.now)
        (normal_form (the_scope sig.now wits.now) (reverse ctx.now) (the_term s.now)) }
    ensures second { AreConvertible (the_scope sig.now wits.now) (reverse ctx.now) (the_term t.now)
        (normal_form (the_scope sig.now wits.now) (reverse ctx.now) (the_term t.now)) }
    ensures step { DifferByStep (the_term s.now) (the_term t.now)
        → normal_form (the_scope sig.now wits.now) (reverse ctx.now) (the_term s.now)
        ≡ normal_form (the_scope sig.now wits.now) (reverse ctx.now) (the_term t.now) }
    ensures exactly { AreConvertible (the_scope sig.now wits.now) (reverse ctx.now) (the_term s.now) (the_term t.now)
        ↔ normal_form (the_scope sig.now wits.now) (reverse ctx.now) (the_term s.now)
        ≡ normal_form (the_scope sig.now wits.now) (reverse ctx.now) (the_term t.now) }
{}

/// Of the two sides of a problem's conjecture one thing is said.
pub fn one_answer(problem: &Problem)
    ensures { OneAnswerOnSides problem.now }
{}
