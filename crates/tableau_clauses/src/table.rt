//! The clauses of the steps of a search, and the instances from which they come.
ghost use Rattle.std.specs.Prelude.{◌≡◌, ◌<◌, ◌-◌, ◌++◌, [], ◌∷◌, not, length, replicate, slice_get, Some, IfOk, OnOk, OnErr};
ghost use Rattle.std.specs.List.{list_any};
ghost use Rattle.search_spec.specs.Clauses.{same_clause, instance_clauses, with_clauses};
ghost use Rattle.search_spec.specs.Numbered.{numbers};
ghost use Rattle.tableau_clauses.specs.declared.origin.Origin.TheVariants.{Start, Instance as From};
ghost use Rattle.tableau_clauses.specs.Internal.Stepping.{with_steps, Adds};
ghost use Rattle.tableau_clauses.specs.Table.{the_clauses, the_origins, the_instances, EachComes, StandInOrder};

use crate::choice::clauses_of;
use crate::instances::Instances;
use crate::origin::Origin;
use crate::steps::Steps;
use literal_map::Instance;
use sat_base::{Clause, SatLit};
use std::alloc::{AllocError, Global};
use std::marker::Model;

/// The numbers of clauses that were added: from `start` on, and below `end`.
#[derive(Clone, Copy, PartialEq, Eq)]
pub struct NewClauses {
    pub start: usize,
    pub end: usize,
}

/// Start units and the clauses of instances, each there once. A clause's number is its place.
#[derive(Drop)]
pub struct StepTable {
    steps: Steps,
    instances: Instances,
    alloc: Global,
}

impl Model for StepTable {
    ghost use Rattle.tableau_clauses.specs.Table.{Table};

    ghost Value = { Table };

    ghost view = { λ t. (t.steps, t.instances) };

    ghost use Rattle.tableau_clauses.specs.Internal.Stepping.{IsRightTable};

    ghost invariant = { λ t. IsRightTable (t.steps, t.instances) };
}

impl StepTable {
    pub fn new(alloc: Global) -> StepTable
        ensures { result ≡ ([], []) }
    {
        StepTable {
            steps: Steps::new(alloc),
            instances: Instances::new(alloc),
            alloc,
        }
    }

    /// Each clause comes from its origin. This does nothing: what it says stands in its contract.
    pub fn clauses_come_from_origins(&self)
        ensures { EachComes self.now }
    {
        let _len = self.steps.len();
    }

    /// The clauses of the instances stand in the order of these. This does nothing: what it says stands in its contract.
    pub fn clauses_stand_in_order(&self)
        ensures { StandInOrder self.now }
    {
        let _len = self.steps.len();
    }

    /// How many clauses there are.
    pub fn len(&self) -> usize
        ensures { result ≡ length (the_clauses self.now) }
    {
        self.steps.len()
    }

    /// A copy of the clause with this number.
    pub fn clause(&self, n: usize) -> Result<Clause, AllocError>
        requires { n < length (the_clauses self.now) }
        ensures { IfOk result (λ clause. slice_get (the_clauses self.now) n ≡ Some clause) }
    {
        self.steps.clause(n)
    }

    /// Where the clause with this number comes from.
    pub fn origin(&self, n: usize) -> Origin
        requires { n < length (the_clauses self.now) }
        ensures { slice_get (the_origins self.now) n ≡ Some result }
    {
        self.steps.origin(n)
    }

    /// A copy of the instance with this number.
    pub fn instance(&self, k: usize) -> Result<Instance, AllocError>
        requires { k < length (the_instances self.now) }
        ensures { IfOk result (λ instance. slice_get (the_instances self.now) k ≡ Some instance) }
    {
        self.instances.get(k)
    }

    /// Adds a start unit: false where it is there.
    pub fn start(&mut self, lit: SatLit) -> Result<bool, AllocError>
        ensures clauses { OnOk result (the_clauses self.new ≡ with_clauses numbers (the_clauses self.old) ((lit ∷ []) ∷ [])) }
        ensures origins { IfOk result (λ is_new. the_origins self.new ≡ the_origins self.old ++ replicate
            (length (the_clauses self.new) - length (the_clauses self.old)) Start) }
        ensures instances { the_instances self.new ≡ the_instances self.old }
        ensures fresh { IfOk result (λ is_new. is_new ≡ not (list_any (same_clause numbers (lit ∷ [])) (the_clauses self.old))) }
        ensures err { OnErr result (self.new ≡ self.old) }
    {
        let mut clause = Clause::new(self.alloc);
        clause.push(lit)?;
        Ok(self.steps.add(clause, Origin::Start)?)
    }

    /// Keeps the instance, and adds those of its clauses that aren't there yet, in their order.
    pub fn add(&mut self, instance: Instance) -> Result<NewClauses, AllocError>
        ensures clauses { OnOk result (the_clauses self.new ≡ with_clauses numbers (the_clauses self.old)
            (instance_clauses numbers instance.principals instance.alternatives)) }
        ensures origins { IfOk result (λ new. the_origins self.new ≡ the_origins self.old ++ replicate (new.end - new.start)
            (From (length (the_instances self.old)))) }
        ensures instances { OnOk result (the_instances self.new ≡ the_instances self.old ++ instance ∷ []) }
        ensures start { IfOk result (λ new. new.start ≡ length (the_clauses self.old)) }
        ensures end { IfOk result (λ new. new.end ≡ length (the_clauses self.new)) }
        ensures err { OnErr result (self.new ≡ self.old) }
    {
        let start = self.len();
        let clauses = clauses_of(self.alloc, &instance)?;
        match add_unless_refused(&mut self.steps, &mut self.instances, clauses, &instance) {
            Ok(()) => Ok(NewClauses {
                start,
                end: self.len(),
            }),
            Err(error) => {
                self.steps.truncate(start);
                Err(error)
            }
        }
    }
}

/// Adds the clauses that aren't there yet, and keeps the instance. Where it is refused, some of the clauses may be there.
fn add_unless_refused(
    steps: &mut Steps,
    instances: &mut Instances,
    clauses: Vec<Clause>,
    instance: &Instance,
) -> Result<(), AllocError>
    ensures steps { OnOk result (steps.new ≡ with_steps (From (length instances.old)) steps.old clauses.items) }
    ensures adds { Adds (From (length instances.old)) steps.old steps.new }
    ensures instances { OnOk result (instances.new ≡ instances.old ++ instance.now ∷ []) }
    ensures err { OnErr result (instances.new ≡ instances.old) }
{
    steps.add_all(clauses, Origin::Instance(instances.len()))?;
    instances.push(instance)?;
    Ok(())
}
