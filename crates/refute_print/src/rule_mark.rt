//! The names of rules, each with the parenthesis behind it.

ghost use Rattle.std.specs.Prelude.{◌≡◌, ◌++◌, ℕ, List, codes};
ghost use Rattle.refute_print.specs.Text.{one_place_name, one_place_rules, two_places_name, two_places_rules, predicate_name, predicate_rules};

use tableau_calculus::{OfPredicate, OnePlace, TwoPlaces};

/// A rule that a text names, as one of a list.
pub trait NamedRule: Copy + 'static {
    /// The name.
    ghost name: { Self → List ℕ };

    /// The list.
    ghost rules: { List Self };

    /// The rules of the list, in the order in which a name is looked for.
    fn rules() -> &'static [Self]
        ensures { result.now ≡ rules };

    /// The name, and the parenthesis behind it.
    fn mark(self) -> &'static [u8]
        ensures { result.now ≡ name self ++ codes "(" };
}

impl NamedRule for OnePlace {
    ghost name = { one_place_name };

    ghost rules = { one_place_rules };

    fn rules() -> &'static [OnePlace] {
        &[
            OnePlace::False,
            OnePlace::Refl,
            OnePlace::ImpPos,
            OnePlace::ImpNeg,
            OnePlace::BoolPos,
            OnePlace::BoolNeg,
            OnePlace::FunPos,
            OnePlace::FunNeg,
            OnePlace::AllNeg,
            OnePlace::Dec,
        ]
    }

    fn mark(self) -> &'static [u8] {
        match self {
            OnePlace::False => b"False(",
            OnePlace::Refl => b"Refl(",
            OnePlace::ImpPos => b"Imp+(",
            OnePlace::ImpNeg => b"Imp-(",
            OnePlace::BoolPos => b"Bool+(",
            OnePlace::BoolNeg => b"Bool-(",
            OnePlace::FunPos => b"Fun+(",
            OnePlace::FunNeg => b"Fun-(",
            OnePlace::AllNeg => b"All-(",
            OnePlace::Dec => b"Dec(",
        }
    }
}

impl NamedRule for TwoPlaces {
    ghost name = { two_places_name };

    ghost rules = { two_places_rules };

    fn rules() -> &'static [TwoPlaces] {
        &[TwoPlaces::Close, TwoPlaces::Mat, TwoPlaces::Con]
    }

    fn mark(self) -> &'static [u8] {
        match self {
            TwoPlaces::Close => b"Close(",
            TwoPlaces::Mat => b"Mat(",
            TwoPlaces::Con => b"Con(",
        }
    }
}

impl NamedRule for OfPredicate {
    ghost name = { predicate_name };

    ghost rules = { predicate_rules };

    fn rules() -> &'static [OfPredicate] {
        &[OfPredicate::Cho, OfPredicate::Des]
    }

    fn mark(self) -> &'static [u8] {
        match self {
            OfPredicate::Cho => b"Cho(",
            OfPredicate::Des => b"Des(",
        }
    }
}
