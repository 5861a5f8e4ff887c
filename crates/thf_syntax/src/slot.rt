//! Where a formula stands inside another.
ghost use Rattle.std.specs.Prelude.{◌≡◌};
ghost use Rattle.thf_grammar.specs.View.{the_formula};
ghost use Rattle.thf_syntax.specs.Slots as spec;

use thf_grammar::{Conn, Surface};

/// Where in the grammar a formula stands inside another.
#[derive(Clone, Copy)]
pub enum Slot {
    /// To the left of `=` or `!=`.
    Primary,
    /// To the right of `=` or `!=`.
    Unitary,
    /// What the first `@` applies, and what the next ones do.
    Head,
    /// An argument, or what `~` negates.
    Operand,
    /// An operand of a connective, or the body of a binder.
    Member,
    /// To the left of `&`.
    Conjunction,
    /// To the left of `|`.
    Disjunction,
}

impl Slot {
    /// Where the left operand of a connective stands.
    pub fn left_of(conn: Conn) -> Slot
        ensures { result ≡ spec.left_slot conn }
    {
        match conn {
            Conn::And => Slot::Conjunction,
            Conn::Or => Slot::Disjunction,
            Conn::Not | Conn::Imp | Conn::If | Conn::Iff | Conn::Xor | Conn::Nor | Conn::Nand =>
                Slot::Member,
        }
    }

    fn takes_binding(self) -> bool
        ensures { result ≡ spec.takes_binding self }
    {
        !matches!(self, Slot::Primary)
    }

    fn takes_negation(self) -> bool
        ensures { result ≡ spec.takes_negation self }
    {
        !matches!(self, Slot::Primary | Slot::Unitary | Slot::Head)
    }

    fn takes_equation(self) -> bool
        ensures { result ≡ spec.takes_equation self }
    {
        matches!(self, Slot::Member | Slot::Conjunction | Slot::Disjunction)
    }

    fn takes_application(self) -> bool
        ensures { result ≡ spec.takes_application self }
    {
        matches!(self, Slot::Head)
    }

    fn takes_binary(self, conn: Conn) -> bool
        ensures { result ≡ spec.takes_binary conn self }
    {
        match conn {
            Conn::And => matches!(self, Slot::Conjunction),
            Conn::Or => matches!(self, Slot::Disjunction),
            Conn::Not | Conn::Imp | Conn::If | Conn::Iff | Conn::Xor | Conn::Nor | Conn::Nand =>
                false,
        }
    }

    /// Whether the formula stands there without parentheses.
    pub fn takes(self, tree: &Surface) -> bool
        ensures { result ≡ spec.takes self (the_formula tree.now) }
    {
        match tree {
            Surface::Name { .. }
            | Surface::Var { .. }
            | Surface::Truth { .. }
            | Surface::Op { .. } => true,
            Surface::Not { .. } => self.takes_negation(),
            Surface::Binary { conn, .. } => self.takes_binary(*conn),
            Surface::Equation { .. } => self.takes_equation(),
            Surface::Apply { .. } | Surface::Quant { .. } => self.takes_application(),
            Surface::Bind { .. } => self.takes_binding(),
        }
    }
}
