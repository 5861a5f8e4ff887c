//! Literals by the heads of their atoms.
ghost use Rattle.std.specs.Prelude.{◌≡◌, ◌<◌, not, [], length, IfOk, OnOk, OnErr, IfSome, IfNone};
ghost use Rattle.stt_core.specs.Lambda.{Lambda};
ghost use Rattle.mating_rules.specs.Noted.{kept_under};
ghost use Rattle.stt_core.specs.View.{the_head};
ghost use Rattle.term_bank.specs.NodeView.{the_shape};
ghost use Rattle.mating_rules.specs.Internal.Groups.{Keeps, notes_place, IsNewGroup};
ghost use Rattle.mating_rules.specs.Internal.Pairing.{is_pairing, pairing_head, kept_where, KeepsWhere};

use crate::key::Key;
use crate::partners::Partners;
use crate::signed::SignedLits;
use indexmap::IndexMap;
use sat_base::SatLit;
use std::alloc::{AllocError, Global};
use std::marker::Model;
use stt_core::{Head, Ty};
use term_bank::Node;

/// Whether formulas with this head and with arguments may have partners.
fn pairs(head: &Head) -> bool
    ensures { result ≡ is_pairing (the_head head.now) }
{
    match head {
        Head::Name(_) | Head::Wit(_) | Head::Choice(_) | Head::Desc(_) => true,
        Head::Eq(Ty::Base(n)) => *n > 0,
        _ => false,
    }
}

/// The literals under each head.
#[derive(Drop)]
pub(crate) struct Heads {
    lits: IndexMap<Key, SignedLits>,
    alloc: Global,
}

impl Model for Heads {
    ghost use Rattle.std.specs.Prelude.{List};
    ghost use Rattle.std.specs.Coded.{coded×, coded_list};
    ghost use Rattle.stt_core.specs.Lambda.{Lambda};
    ghost use Rattle.stt_core.specs.Internal.LambdaCode.{lambda_code};
    ghost use Rattle.mating_rules.specs.Noted.{Signed};
    ghost use Rattle.mating_rules.specs.Internal.NotesCode.{signed_code};

    ghost Value = { List (Lambda × Signed) };

    ghost coded = { coded_list (coded× lambda_code signed_code) };

    ghost view = { λ a. a.lits.entries };
}

impl Heads {
    pub(crate) fn new(alloc: Global) -> Heads
        ensures { result ≡ [] }
    {
        Heads {
            lits: IndexMap::new(alloc),
            alloc,
        }
    }

    /// The place of a head.
    fn place_of(&self, key: &Key) -> Option<usize>
        ensures place { IfSome result (λ place. place ≡ notes_place key.now self.now) }
        ensures within { IfSome result (λ place. place < length self.now) }
        ensures none { IfNone result (IsNewGroup key.now self.now) }
    {
        self.lits.get_index_of(key)
    }

    /// Keeps a literal under the head at a place. The answer are those of the other sign that are there.
    fn keep_at(&mut self, place: usize, lit: SatLit) -> Result<Partners, AllocError>
        requires { place < length self.old }
        ensures partners { IfOk result (λ found. (h : Lambda) → place ≡ notes_place h self.old
            → found ≡ kept_under h (not lit.positive) self.old) }
        ensures keeps { OnOk result ((h : Lambda) → place ≡ notes_place h self.old → Keeps h lit self.old self.new) }
        ensures err { OnErr result (self.new ≡ self.old) }
    {
        let (_, lits) = self.lits.pair_mut(place);
        let partners = Partners::from_slice(self.alloc, lits.of_sign(!lit.positive))?;
        lits.push(lit)?;
        Ok(partners)
    }

    /// Keeps a literal under a new head.
    fn keep_first(&mut self, key: Key, lit: SatLit) -> Result<(), AllocError>
        requires { IsNewGroup key self.old }
        ensures keeps { OnOk result (Keeps key lit self.old self.new) }
        ensures err { OnErr result (self.new ≡ self.old) }
    {
        let lits = SignedLits::of(self.alloc, lit)?;
        self.lits.insert(key, lits)?;
        Ok(())
    }

    /// Keeps a literal under a head. The answer are those of the other sign that are there.
    fn keep(&mut self, key: Key, lit: SatLit) -> Result<Partners, AllocError>
        ensures partners { IfOk result (λ found. found ≡ kept_under key (not lit.positive) self.old) }
        ensures keeps { OnOk result (Keeps key lit self.old self.new) }
        ensures err { OnErr result (self.new ≡ self.old) }
    {
        match self.place_of(&key) {
            Some(place) => self.keep_at(place, lit),
            None => {
                self.keep_first(key, lit)?;
                Ok(Partners::new(self.alloc))
            }
        }
    }

    /// The literals of a sign that are kept under the head at a place.
    fn kept_at(&self, place: usize, positive: bool) -> &[SatLit]
        requires { place < length self.now }
        ensures { (h : Lambda) → place ≡ notes_place h self.now → result.now ≡ kept_under h positive self.now }
    {
        match self.lits.get_index(place) {
            Some((_, lits)) => lits.of_sign(positive),
            None => unreachable!(),
        }
    }

    /// The literals of a sign that are kept under a head.
    fn kept(&self, key: &Key, positive: bool) -> &[SatLit]
        ensures { result.now ≡ kept_under key.now positive self.now }
    {
        match self.place_of(key) {
            Some(place) => self.kept_at(place, positive),
            None => &[],
        }
    }

    /// The literals of a sign that are kept under the head of an atom, where it can have partners.
    pub(crate) fn kept_for(&self, atom: &Node, positive: bool) -> Result<&[SatLit], AllocError>
        ensures { IfOk result (λ found. found.now ≡ kept_where (pairing_head (the_shape atom.now)) positive self.now) }
    {
        match atom {
            Node::App { head, args } => {
                if pairs(head) && args.len() > 0 {
                    let key = Key::new(self.alloc, head)?;
                    return Ok(self.kept(&key, positive));
                }
                Ok(&[])
            }
            Node::Lam { ty: _, body: _ } => Ok(&[]),
        }
    }

    /// Adds a literal under the head at a place.
    fn add_at(&mut self, place: usize, lit: SatLit) -> Result<(), AllocError>
        requires { place < length self.old }
        ensures keeps { OnOk result ((h : Lambda) → place ≡ notes_place h self.old → Keeps h lit self.old self.new) }
        ensures err { OnErr result (self.new ≡ self.old) }
    {
        let (_, lits) = self.lits.pair_mut(place);
        lits.push(lit)?;
        Ok(())
    }

    /// Adds a literal under a head.
    fn add(&mut self, key: Key, lit: SatLit) -> Result<(), AllocError>
        ensures keeps { OnOk result (Keeps key lit self.old self.new) }
        ensures err { OnErr result (self.new ≡ self.old) }
    {
        match self.place_of(&key) {
            Some(place) => self.add_at(place, lit),
            None => self.keep_first(key, lit),
        }
    }

    /// Adds a literal under the head of its atom, where it can have partners.
    pub(crate) fn add_under(&mut self, atom: &Node, lit: SatLit) -> Result<(), AllocError>
        ensures keeps { OnOk result (KeepsWhere (pairing_head (the_shape atom.now)) lit self.old self.new) }
        ensures err { OnErr result (self.new ≡ self.old) }
    {
        match atom {
            Node::App { head, args } => {
                if pairs(head) && args.len() > 0 {
                    let key = Key::new(self.alloc, head)?;
                    return self.add(key, lit);
                }
                Ok(())
            }
            Node::Lam { ty: _, body: _ } => Ok(()),
        }
    }

    /// Keeps a literal under the head of its atom, where it can have partners. The answer are those of the other sign that are there.
    pub(crate) fn keep_under(&mut self, atom: &Node, lit: SatLit) -> Result<Partners, AllocError>
        ensures partners { IfOk result (λ found. found ≡ kept_where (pairing_head (the_shape atom.now)) (not lit.positive) self.old) }
        ensures keeps { OnOk result (KeepsWhere (pairing_head (the_shape atom.now)) lit self.old self.new) }
        ensures err { OnErr result (self.new ≡ self.old) }
    {
        match atom {
            Node::App { head, args } => {
                if args.len() > 0 && pairs(head) {
                    let key = Key::new(self.alloc, head)?;
                    return self.keep(key, lit);
                }
                Ok(Partners::new(self.alloc))
            }
            Node::Lam { ty: _, body: _ } => Ok(Partners::new(self.alloc)),
        }
    }
}
