//! Laws of the definitions, each as the contract of a function that does nothing.

ghost use Rattle.normal_forms.specs.Laws.{NormalFormsAreCanonical, NormalFormsKeepValues, CanonicalTermsAreNormal, ApplyKeepsTypes, ApplyKeepsValues, ArgumentsAreReplacedFirst, OtherHeadsStay, LiftKeepsValues, ReplaceKeepsValues};

/// The normal form of a typed term is canonical, and has the term's type. The types of what is declared, and of the term's free
/// variables, must be declared themselves.
pub fn normal_forms_are_canonical()
    ensures { NormalFormsAreCanonical }
{}

/// The normal form of a typed term has the term's value in every model, whatever values of their types the free variables have.
pub fn normal_forms_keep_values()
    ensures { NormalFormsKeepValues }
{}

/// A canonical term is its own normal form.
pub fn canonical_terms_are_normal()
    ensures { CanonicalTermsAreNormal }
{}

/// A canonical function applied to a canonical argument of its argument type gives a canonical term of its result type.
pub fn apply_keeps_types()
    ensures { ApplyKeepsTypes }
{}

/// A canonical function applied to a canonical argument of its argument type has the value of the application in every model.
pub fn apply_keeps_values()
    ensures { ApplyKeepsValues }
{}

/// Where the variable that is replaced is the head of canonical arguments, these are replaced first, and the canonical term that stands
/// for it is applied to them one after the other.
pub fn arguments_are_replaced_first()
    ensures { ArgumentsAreReplacedFirst }
{}

/// Where another variable is the head, its arguments are replaced, and it is lowered where its binder is further out.
pub fn other_heads_stay()
    ensures { OtherHeadsStay }
{}

/// Lifting keeps values, under any number of binders. The term need not be typed.
pub fn lifting_keeps_values()
    ensures { LiftKeepsValues }
{}

/// Replacing a variable by a canonical term of its type keeps the values of canonical terms, under any number of binders.
pub fn replacing_keeps_values()
    ensures { ReplaceKeepsValues }
{}
