//! What statements say.

ghost use Rattle.std.specs.Prelude.{◌≡◌, ◌+◌, ◌-◌, ◌<◌, ◌≤◌, ◌^◌, length, OnOk};
ghost use Rattle.stt_core.specs.View.{the_term};
ghost use Rattle.thf_grammar.specs.View.{the_annotated, the_body, the_formula, the_surface_type};
ghost use Rattle.type_check.specs.Internal.Answers.{AnswersCheck, ReadsOn};
ghost use Rattle.type_check.specs.Statements as defined;
ghost use Rattle.type_check.specs.Internal.ReadingView.{the_reading};

use crate::declared::Declared;
use crate::refusal::{IllWhy, Refusal};
use crate::terms::read_closed;
use crate::types::read_type;
use outside::Bytes;
use std::alloc::{AllocError, Global};
use std::mem;
use stt_core::{Flags, Problem, Term, Terms, Ty};
use thf_grammar::{Annotated, Body, Surface, SurfaceTy};

/// What the statements say so far: what is declared, the formulas that are assumed, in order, with a mark for each that tells whether it is
/// a definition, and the conjecture, where there is one.
#[derive(Drop)]
pub(crate) struct Reading {
    pub(crate) declared: Declared,
    pub(crate) assumed: Terms,
    pub(crate) marked: Flags,
    pub(crate) conjecture: Option<Term>,
}

fn is_conjecture(role: &[u8]) -> bool
    ensures { result ≡ defined.is_conjecture role.now }
{
    role == b"conjecture".as_slice()
}

fn is_definition(role: &[u8]) -> bool
    ensures { result ≡ defined.is_definition role.now }
{
    role == b"definition".as_slice()
}

fn is_role(role: &[u8]) -> bool
    ensures { result ≡ defined.is_role role.now }
{
    role == b"type".as_slice()
        || role == b"conjecture".as_slice()
        || role == b"axiom".as_slice()
        || role == b"hypothesis".as_slice()
        || role == b"definition".as_slice()
        || role == b"assumption".as_slice()
        || role == b"lemma".as_slice()
        || role == b"theorem".as_slice()
        || role == b"corollary".as_slice()
        || role == b"plain".as_slice()
        || role == b"negated_conjecture".as_slice()
}

/// The byte place of a node's own token.
fn own_place(tree: &Surface) -> u32
    ensures { result ≡ defined.own_place (the_formula tree.now) }
{
    match tree {
        Surface::Name { at, .. } => *at,
        Surface::Var { at, .. } => *at,
        Surface::Truth { at, .. } => *at,
        Surface::Op { at, .. } => *at,
        Surface::Not { at, .. } => *at,
        Surface::Binary { at, .. } => *at,
        Surface::Equation { at, .. } => *at,
        Surface::Apply { at, .. } => *at,
        Surface::Quant { at, .. } => *at,
        Surface::Bind { at, .. } => *at,
    }
}

/// Reads a formula.
fn read_formula(alloc: Global, declared: &Declared, tree: &Surface) -> Result<Term, Refusal>
    ensures { AnswersCheck the_term result (defined.read_formula declared.now (the_formula tree.now)) }
{
    let x = read_closed(alloc, declared, tree)?;
    if x.ty.get().same(&Ty::Base(0)) {
        Ok(x.term)
    } else {
        Err(Refusal::At {
            at: own_place(tree),
            why: IllWhy::NotFormula,
        })
    }
}

impl Reading {
    pub(crate) fn new(alloc: Global) -> Reading
        ensures { the_reading result ≡ defined.empty_problem }
    {
        Reading {
            declared: Declared::new(alloc),
            assumed: Terms::new(alloc),
            marked: Flags::new(alloc),
            conjecture: None,
        }
    }

    /// Declares a base type.
    fn read_base(&mut self, alloc: Global, at: u32, name: &Bytes) -> Result<(), Refusal>
        requires { length self.old.declared.bases < 2 ^ 32 - 2 }
        ensures answer { ReadsOn (the_reading self.new) result (defined.read_base (the_reading self.old) at name.now) }
        ensures grows { OnOk result (length self.new.declared.bases + length self.new.declared.consts ≤ length self.old.declared.bases
            + length self.old.declared.consts + 1) }
    {
        if self.declared.find(name).is_some() {
            return Err(Refusal::At {
                at,
                why: IllWhy::Twice,
            });
        }
        let declared = mem::replace(&mut self.declared, Declared::new(alloc));
        self.declared = declared.with_base(name)?;
        Ok(())
    }

    /// Declares a constant.
    fn read_const(
        &mut self,
        alloc: Global,
        at: u32,
        name: &Bytes,
        ty: &SurfaceTy,
    ) -> Result<(), Refusal>
        requires { length self.old.declared.consts < 2 ^ 32 }
        ensures answer { ReadsOn (the_reading self.new) result (defined.read_const (the_reading self.old) at name.now
            (the_surface_type ty.now)) }
        ensures grows { OnOk result (length self.new.declared.bases + length self.new.declared.consts ≤ length self.old.declared.bases
            + length self.old.declared.consts + 1) }
    {
        if self.declared.find(name).is_some() {
            return Err(Refusal::At {
                at,
                why: IllWhy::Twice,
            });
        }
        let a = read_type(alloc, &self.declared, ty)?;
        let declared = mem::replace(&mut self.declared, Declared::new(alloc));
        self.declared = declared.with_const(name, a)?;
        Ok(())
    }

    /// Adds a formula: the conjecture, or one that is assumed.
    fn add_formula(&mut self, role: &[u8], t: Term) -> Result<(), AllocError>
        ensures formula { OnOk result (the_reading self.new ≡ defined.with_formula role.now (the_term t) (the_reading self.old)) }
        ensures same { OnOk result (self.new.declared ≡ self.old.declared) }
    {
        if is_conjecture(role) {
            self.conjecture = Some(t);
            return Ok(());
        }
        self.assumed.push(t)?;
        self.marked.push(is_definition(role))?;
        Ok(())
    }

    /// Reads what a statement declares or states.
    fn read_body(&mut self, alloc: Global, role: &[u8], body: &Body) -> Result<(), Refusal>
        requires bases { length self.old.declared.bases < 2 ^ 32 - 2 }
        requires consts { length self.old.declared.consts < 2 ^ 32 }
        ensures answer { ReadsOn (the_reading self.new) result (defined.read_body (the_reading self.old) role.now (the_body body.now)) }
        ensures grows { OnOk result (length self.new.declared.bases + length self.new.declared.consts ≤ length self.old.declared.bases
            + length self.old.declared.consts + 1) }
    {
        match body {
            Body::Base { at, name } => self.read_base(alloc, *at, name),
            Body::Typing { at, name, ty } => self.read_const(alloc, *at, name, ty),
            Body::Formula(tree) => {
                let t = read_formula(alloc, &self.declared, tree)?;
                Ok(self.add_formula(role, t)?)
            }
        }
    }

    /// Reads a statement. After a refusal what was read so far counts for nothing.
    pub(crate) fn read_statement(
        &mut self,
        alloc: Global,
        statement: &Annotated,
    ) -> Result<(), Refusal>
        requires bases { length self.old.declared.bases < 2 ^ 32 - 2 }
        requires consts { length self.old.declared.consts < 2 ^ 32 }
        ensures answer { ReadsOn (the_reading self.new) result (defined.read_statement (the_reading self.old)
            (the_annotated statement.now)) }
        ensures grows { OnOk result (length self.new.declared.bases + length self.new.declared.consts ≤ length self.old.declared.bases
            + length self.old.declared.consts + 1) }
    {
        let role = statement.role.as_slice();
        if !is_role(role) {
            return Err(Refusal::At {
                at: statement.role_at,
                why: IllWhy::RoleUnknown,
            });
        }
        if is_conjecture(role) && self.conjecture.is_some() {
            return Err(Refusal::At {
                at: statement.role_at,
                why: IllWhy::SecondConjecture,
            });
        }
        self.read_body(alloc, role, &statement.body)
    }

    /// The problem that was read.
    pub(crate) fn into_problem(self) -> Problem
        ensures { result ≡ the_reading self }
    {
        Problem {
            signature: self.declared.into_signature(),
            assumed: self.assumed,
            marked: self.marked,
            conjecture: self.conjecture,
        }
    }
}
