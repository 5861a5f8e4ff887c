//! The tables of the search.

use crate::by_base::ByBase;
use crate::holes::OpenHoles;
use crate::plan::Plan;
use crate::set::{IdSet, LitSet};
use crate::stem::Stem;
use crate::waiting::Waiting;
use bank_normal::Normaliser;
use command_queue::Weigher;
use head_offers::Offers;
use instantiate::Enumerator;
use literal_map::LitTable;
use mating_rules::Index;
use sat_base::SatLit;
use sat_core::Solver;
use std::alloc::Global;
use stt_core::Types;
use tableau_clauses::StepTable;
use term_bank::Bank;
use witness_names::Witnesses;

/// Terms, the literals of formulas, and witnesses.
#[derive(Drop)]
pub struct Basis {
    pub bank: Bank,
    pub normal: Normaliser,
    pub lits: LitTable,
    pub witnesses: Witnesses,
}

/// What the search keeps beside the commands that wait: clauses, which the solver has too; the literals that were seen and those that were
/// processed, of these in an index those that can be partners, and the places of the universal ones by the types over which they range;
/// the terms by type; the predicates that were chosen by and those that were described, and the terms that were walked for these; what is
/// offered to holes, with the numbers of the base types and of the names that are, of these by their target types, and the numbers of the
/// witnesses by theirs; the partial terms by what they grew from, with their holes, their numbers by the base types of their first holes,
/// and their types; how many commands were carried out; and the moment from which delays count.
#[derive(Drop)]
pub struct Tables {
    pub basis: Basis,
    pub steps: StepTable,
    pub solver: Solver,
    pub seen: LitSet,
    pub noted: Vec<SatLit>,
    pub index: Index,
    pub universals: Enumerator,
    pub terms: Enumerator,
    pub chosen: IdSet,
    pub described: IdSet,
    pub walked: IdSet,
    pub offers: Offers,
    pub bases: Vec<u32>,
    pub names: Enumerator,
    pub takers: Enumerator,
    pub stems: Vec<Stem>,
    pub open_holes: OpenHoles,
    pub holes: ByBase,
    pub roots: Types,
    pub done: u32,
    pub moment: u32,
    pub alloc: Global,
}

/// The tables with the commands that wait.
#[derive(Drop)]
pub struct Core<W: Weigher<Waiting>> {
    pub tables: Tables,
    pub plan: Plan<W>,
}
