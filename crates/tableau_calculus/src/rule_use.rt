//! The rules of the calculus, and their uses.
//!
//! A rule has principals, which stand in the branch, and alternatives: lists of literals with each of which the branch goes on. The table is
//! `specs/Rules`. The text at a rule ends with its source, and its name there where it has one: C. E. Brown, G. Smolka, *Analytic tableaux for
//! simple type theory and its first-order fragment*, 2010, or J. Backes, C. E. Brown, *Analytic tableaux for higher-order logic with
//! choice*, 2011.

ghost use Rattle.std.specs.Prelude.{◌≡◌};

/// The rules whose instance is given by one principal.
#[derive(Clone, Copy, PartialEq, Eq)]
pub enum OnePlace {
    /// The principal is falsity. There is no alternative: the branch is closed (this project's form of the rules for connectives).
    False,
    /// The principal is a negated equation of a term with itself. There is no alternative (Brown and Smolka 2010, where a branch is closed;
    /// here at each type).
    Refl,
    /// The principal is an implication. One alternative has the negation of its left side, the other its right side (this project's form
    /// of the rules for connectives).
    ImpPos,
    /// The principal is a negated implication. The only alternative has its left side and the negation of its right side (this project's
    /// form of the rules for connectives).
    ImpNeg,
    /// The principal is an equation of formulas. One alternative has both sides, the other the negations of both (Brown and Smolka 2010,
    /// BQ).
    BoolPos,
    /// The principal is a negated equation of formulas. Each alternative has one side and the negation of the other (Brown and Smolka 2010,
    /// BE).
    BoolNeg,
    /// The principal is an equation of functions. The only alternative says that they agree at each argument (Brown and Smolka 2010, FQ;
    /// here the alternative is a quantified formula).
    FunPos,
    /// The principal is a negated equation of functions. The only alternative denies that they agree at each argument (Brown and Smolka
    /// 2010, FE; here the alternative is a negated quantified formula).
    FunNeg,
    /// The principal denies that a predicate holds everywhere. The only alternative denies that it holds of the predicate's witness (Backes
    /// and Brown 2011, the rule for negated quantifiers; there a new name stands in place of the witness).
    AllNeg,
    /// Decomposition. The principal is a negated equation on a base type other than that of formulas. Its sides have one head, as in `Mat`,
    /// and arguments. For each argument there is an alternative, which says that the two there differ (Brown and Smolka 2010, DEC; the
    /// heads as in `Mat`).
    Dec,
}

/// The rules whose instance is given by two principals.
#[derive(Clone, Copy, PartialEq, Eq)]
pub enum TwoPlaces {
    /// The principals are a literal and its negation. There is no alternative (Brown and Smolka 2010, where a branch is closed).
    Close,
    /// Mating. The principals are an atom and a negated atom with one head and with arguments. The head is a name, a witness, a choice or a
    /// description. For each argument there is an alternative, which says that the two there differ (Brown and Smolka 2010, MAT; a choice
    /// as the head: Backes and Brown 2011; a description as the head is this project's own).
    Mat,
    /// Confrontation. The principals are an equation and a negated equation, both on one base type other than that of formulas. One
    /// alternative says that both sides of the first differ from the left side of the second, the other that both differ from its right
    /// side (Brown and Smolka 2010, CON).
    Con,
}

/// The rules that take a predicate and no principal.
#[derive(Clone, Copy, PartialEq, Eq)]
pub enum OfPredicate {
    /// Choice. One alternative says that the predicate holds nowhere, the other that it holds of what it chooses (Backes and Brown 2011,
    /// the rule for choice; here for each predicate).
    Cho,
    /// Description. One alternative says that the predicate holds nowhere, the second denies that it holds at most once, and the third says
    /// that it holds of what it describes (the form is this project's own).
    Des,
}

/// A rule with what its instance takes: principals of type `P`, a term of type `T`, a literal of type `L`.
pub enum RuleUse<P, T, L> {
    AtOne(OnePlace, P),
    AtTwo(TwoPlaces, P, P),
    /// The principal says that a predicate holds everywhere. The only alternative says that it holds of this term (Backes and Brown 2011,
    /// the rule for quantifiers; there the branch restricts the terms).
    AllPos(P, T),
    WithPredicate(OfPredicate, T),
    /// Cut with this literal, without a principal. One alternative has the literal, the other its negation (this project's own).
    Cut(L),
}

// Written out, so that a proof takes a drop as one call.
impl<P: Drop, T: Drop, L: Drop> Drop for RuleUse<P, T, L> {
    fn drop(self) {
        match self {
            RuleUse::AtOne(_, _)
            | RuleUse::AtTwo(_, _, _)
            | RuleUse::AllPos(_, _)
            | RuleUse::WithPredicate(_, _)
            | RuleUse::Cut(_) => {}
        }
    }
}

impl<P: Copy, T: Copy, L: Copy> RuleUse<P, T, L> {
    /// A copy of the rule's use.
    pub fn copied(&self) -> RuleUse<P, T, L>
        ensures { result ≡ self.now }
    {
        match self {
            RuleUse::AtOne(kind, i) => RuleUse::AtOne(*kind, *i),
            RuleUse::AtTwo(kind, i, j) => RuleUse::AtTwo(*kind, *i, *j),
            RuleUse::AllPos(i, term) => RuleUse::AllPos(*i, *term),
            RuleUse::WithPredicate(kind, term) => RuleUse::WithPredicate(*kind, *term),
            RuleUse::Cut(lit) => RuleUse::Cut(*lit),
        }
    }
}
