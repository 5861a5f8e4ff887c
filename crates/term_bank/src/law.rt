//! Laws of banks, each as the contract of a function that does nothing.

ghost use Rattle.term_bank.specs.Laws.{EqualIdsForEqualTerms, IdsKeepTheirTerms};

use crate::bank::Bank;

/// The numbers of two terms of a bank are equal exactly where the terms are.
pub fn equal_ids_for_equal_terms(bank: &Bank)
    ensures { EqualIdsForEqualTerms bank.now }
{
    bank.terms_differ();
}

/// Each number keeps its term where a bank grows.
pub fn ids_keep_their_terms()
    ensures { IdsKeepTheirTerms }
{}
