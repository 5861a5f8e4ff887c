//! The rule that a literal has by the connective of its atom.
ghost use Rattle.std.specs.Prelude.{◌≡◌, option_map};
ghost use Rattle.search_spec.specs.Processing.{connective_rule};
ghost use Rattle.prover_state.specs.Internal.Names.{IsNumberIn};
ghost use Rattle.prover_state.specs.Internal.Standing.{IsBasis};
ghost use Rattle.prover_state.specs.Internal.Advancing.{the_atom};

use crate::shape::atom_of;
use prover_state::Basis;
use sat_base::SatLit;
use tableau_calculus::OnePlace;
use tableau_rules::{implication_of, is_falsity};

/// The rule that a literal has by the connective of its atom, where it has one.
pub(crate) fn connective_rule(basis: &Basis, lit: SatLit) -> Option<OnePlace>
    requires basis { IsBasis basis.now }
    requires number { IsNumberIn basis.now.lits lit }
    ensures { result ≡ option_map (λ rule. rule.kind) (connective_rule (the_atom basis.now lit) lit.positive) }
{
    let atom = atom_of(basis, lit);
    if is_falsity(&basis.bank, atom) {
        if lit.positive {
            return Some(OnePlace::False);
        }
        return None;
    }
    match implication_of(&basis.bank, atom) {
        Some(_) => {
            if lit.positive {
                Some(OnePlace::ImpPos)
            } else {
                Some(OnePlace::ImpNeg)
            }
        }
        None => None,
    }
}
