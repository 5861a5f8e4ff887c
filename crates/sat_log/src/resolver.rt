//! The clause of a chain while it is built.
ghost use Rattle.std.specs.Prelude.{◌≡◌, ◌&&◌, [], ◌∷◌, ◌++◌, Some, None, if◌then◌else◌, reverse, IsSome, IfOk, OnOk, OnErr};
ghost use Rattle.std.specs.List.{list_any};
ghost use Rattle.sat_base.specs.declared.literal.SatLit.{SatLit};
ghost use Rattle.sat_base.specs.Literal.{holds, same_literal};
ghost use Rattle.sat_log.specs.Resolution.{without_literal, each_once, HasNoRepeats, resolved, resolvent};
ghost use Rattle.sat_log.specs.Internal.Stamps.{stamp_of};
ghost use Rattle.sat_log.specs.Internal.Resolver.{is_live as is_live_in, live};

use crate::stamps::StampTable;
use sat_base::{Clause, SatLit, Var};
use std::alloc::{AllocError, Global};
use std::marker::Model;

/// A literal that was put into the clause, and how many were put there before it.
#[derive(Clone, Copy)]
pub struct Placed {
    pub literal: SatLit,
    pub stamp: usize,
}

/// A clause whose literals are moved to its front and to its back. A placed literal counts only where the table has
/// its number, so that to move or to remove a literal takes no walk over the others.
#[derive(Drop)]
pub struct Resolver {
    alloc: Global,
    front: Vec<Placed>,
    back: Vec<Placed>,
    table: StampTable,
}

impl Model for Resolver {
    ghost use Rattle.std.specs.Prelude.{List};
    ghost use Rattle.sat_base.specs.declared.literal.SatLit.{SatLit};
    ghost use Rattle.sat_log.specs.Internal.Resolver.{live, placed_in_order, IsStamped};

    ghost Value = { List SatLit };

    ghost view = { λ r. live r.table (placed_in_order r.front.items r.back.items) };

    ghost invariant = { λ r. IsStamped (placed_in_order r.front.items r.back.items) r.table };
}

impl Resolver {
    /// A resolver with the clause of no literal.
    pub fn new(alloc: Global) -> Self
        ensures { result ≡ [] }
    {
        Resolver {
            alloc,
            front: Vec::new(alloc),
            back: Vec::new(alloc),
            table: StampTable::new(alloc),
        }
    }

    /// Whether the literal is in the clause.
    pub fn contains(&self, literal: SatLit) -> bool
        ensures { result ≡ holds self.now literal }
    {
        self.table.get(literal).is_some()
    }

    /// Takes the literal out of the clause.
    pub fn remove(&mut self, literal: SatLit)
        ensures { self.new ≡ without_literal literal self.old }
    {
        self.table.forget(literal);
    }

    /// Puts the literal at the front, from wherever it was.
    pub fn move_to_front(&mut self, literal: SatLit) -> Result<(), AllocError>
        ensures ok { OnOk result (self.new ≡ literal ∷ without_literal literal self.old) }
        ensures err { OnErr result (self.new ≡ self.old) }
    {
        let stamp = self.front.len() + self.back.len();
        self.front.reserve(1)?;
        self.table.set(literal, stamp)?;
        self.front.push_reserved(Placed { literal, stamp });
        Ok(())
    }

    /// Puts the literal at the back, from wherever it was.
    pub fn move_to_back(&mut self, literal: SatLit) -> Result<(), AllocError>
        ensures ok { OnOk result (self.new ≡ without_literal literal self.old ++ literal ∷ []) }
        ensures err { OnErr result (self.new ≡ self.old) }
    {
        let stamp = self.front.len() + self.back.len();
        self.back.reserve(1)?;
        self.table.set(literal, stamp)?;
        self.back.push_reserved(Placed { literal, stamp });
        Ok(())
    }

    /// Puts the literal at the back where it is not in the clause yet.
    fn add(&mut self, literal: SatLit) -> Result<(), AllocError>
        requires { HasNoRepeats self.old }
        ensures ok { OnOk result (self.new ≡ each_once (self.old ++ literal ∷ [])) }
        ensures err { OnErr result (self.new ≡ self.old) }
    {
        if !self.contains(literal) {
            self.move_to_back(literal)?;
        }
        Ok(())
    }

    /// Takes the literals of a clause, where there are none yet.
    pub fn start(&mut self, literals: &[SatLit]) -> Result<(), AllocError>
        requires { self.old ≡ [] }
        ensures ok { OnOk result (self.new ≡ each_once literals.now) }
        ensures once { HasNoRepeats self.new }
    {
        for literal in literals {
            self.add(*literal)?;
        }
        Ok(())
    }

    /// Adds the other literals of a clause at the back.
    fn append_others(&mut self, literals: &[SatLit], dropped: SatLit) -> Result<(), AllocError>
        requires { HasNoRepeats self.old }
        ensures ok { OnOk result (self.new ≡ each_once (self.old ++ without_literal dropped literals.now)) }
        ensures once { HasNoRepeats self.new }
    {
        for literal in literals {
            if dropped != *literal {
                self.add(*literal)?;
            }
        }
        Ok(())
    }

    /// Moves the other literals of a clause to the front, in their order.
    fn prepend_others(&mut self, literals: &[SatLit], dropped: SatLit) -> Result<(), AllocError>
        requires { HasNoRepeats self.old }
        ensures ok { OnOk result (self.new ≡ each_once (without_literal dropped literals.now ++ self.old)) }
        ensures once { HasNoRepeats self.new }
    {
        for i in (0..literals.len()).rev() {
            let literal = literals[i];
            if dropped != literal {
                self.move_to_front(literal)?;
            }
        }
        Ok(())
    }

    /// Whether the clause holds a literal and another clause a second one.
    pub fn clashes(&self, own: SatLit, literals: &[SatLit], other: SatLit) -> bool
        ensures { result ≡ (holds self.now own && holds literals.now other) }
    {
        self.contains(own) && literals.contains(&other)
    }

    /// Resolves the clause with another one on a variable.
    pub fn resolve(&mut self, var: Var, literals: &[SatLit]) -> Result<(), AllocError>
        requires once { HasNoRepeats self.old }
        requires resolves { IsSome (resolved var self.old literals.now) }
        ensures ok { OnOk result (resolved var self.old literals.now ≡ Some self.new) }
        ensures once { HasNoRepeats self.new }
    {
        let positive = SatLit {
            var,
            positive: true,
        };
        let negative = positive.negated();
        if self.clashes(positive, literals, negative) {
            self.remove(positive);
            self.append_others(literals, negative)?;
        } else {
            self.remove(negative);
            self.prepend_others(literals, positive)?;
        }
        Ok(())
    }

    /// The resolvent on a variable of two clauses, whether or not they hold it and its negation. There is no literal before and after.
    pub fn resolvent_of(
        &mut self,
        var: Var,
        first: &[SatLit],
        second: &[SatLit],
    ) -> Result<Clause, AllocError>
        requires { self.old ≡ [] }
        ensures resolvent { IfOk result (λ clause. clause ≡ resolvent var first.now second.now) }
        ensures empty { OnOk result (self.new ≡ []) }
        ensures once { HasNoRepeats self.new }
    {
        let positive = SatLit {
            var,
            positive: true,
        };
        self.start(first)?;
        self.remove(positive);
        self.append_others(second, positive.negated())?;
        let clause = self.to_clause()?;
        self.clear();
        Ok(clause)
    }

    /// The clause.
    pub fn to_clause(&self) -> Result<Clause, AllocError>
        ensures { IfOk result (λ clause. clause ≡ self.now) }
    {
        let mut clause = Clause::new(self.alloc);
        push_live_reversed(&mut clause, &self.table, &self.front)?;
        push_live(&mut clause, &self.table, &self.back)?;
        Ok(clause)
    }

    /// Takes all literals out of the clause.
    pub fn clear(&mut self)
        ensures { self.new ≡ [] }
    {
        forget_all(&mut self.table, &self.front);
        forget_all(&mut self.table, &self.back);
        self.front.clear();
        self.back.clear();
    }
}

fn is_live(table: &StampTable, placed: Placed) -> bool
    ensures { result ≡ is_live_in table.now placed }
{
    table.get(placed.literal) == Some(placed.stamp)
}

fn push_live(clause: &mut Clause, table: &StampTable, placed: &[Placed]) -> Result<(), AllocError>
    ensures { OnOk result (clause.new ≡ clause.old ++ live table.now placed.now) }
{
    for p in placed {
        if is_live(table, *p) {
            clause.push(p.literal)?;
        }
    }
    Ok(())
}

fn push_live_reversed(
    clause: &mut Clause,
    table: &StampTable,
    placed: &[Placed],
) -> Result<(), AllocError>
    ensures { OnOk result (clause.new ≡ clause.old ++ live table.now (reverse placed.now)) }
{
    for i in (0..placed.len()).rev() {
        let p = placed[i];
        if is_live(table, p) {
            clause.push(p.literal)?;
        }
    }
    Ok(())
}

fn forget_all(table: &mut StampTable, placed: &[Placed])
    ensures { (l : SatLit) → stamp_of table.new l ≡ (if list_any (λ p. same_literal p.literal l) placed.now then None else stamp_of
        table.old l) }
{
    for p in placed {
        table.forget(p.literal);
    }
}
