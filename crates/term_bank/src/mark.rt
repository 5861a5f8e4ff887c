//! The marks of a new node.

ghost use Rattle.std.specs.Prelude.{◌≡◌, ◌<◌, suc, length, map, IfOk, All};
ghost use Rattle.stt_core.specs.Lambda.{lam, applied};
ghost use Rattle.stt_core.specs.Internal.Missing.{missing_binders};
ghost use Rattle.stt_core.specs.Depth.{depth};
ghost use Rattle.stt_core.specs.SimpleType.{SimpleType};
ghost use Rattle.stt_core.specs.View.{the_head};
ghost use Rattle.term_bank.specs.Internal.Marks.{greatest_witness};
ghost use Rattle.term_bank.specs.Internal.MarksView.{AreMarksOf};
ghost use Rattle.term_bank.specs.NodeView.{the_shape};
ghost use Rattle.term_bank.specs.Terms.{term_at, shape_term, IsBelow};

use crate::bank::Bank;
use crate::marks::{Marks, after, greater_of, missing_at, witness_at};
use crate::node::{Id, Node};
use std::alloc::AllocError;
use stt_core::Head;

impl Bank {
    /// The marks of a function.
    fn lam_marks(&self, body: Id) -> Result<Marks, AllocError>
        requires { body < length self.now.terms }
        ensures { (a : SimpleType) → IfOk result (AreMarksOf (lam a (term_at self.now.terms body))) }
    {
        let marks = self.marks(body);
        Ok(Marks {
            depth: after(marks.depth)?,
            missing: marks.missing.saturating_sub(1),
            greatest: marks.greatest,
        })
    }

    /// The marks of a term, with the depth that it gives where it is an argument.
    fn argument_marks(&self, id: Id) -> Result<Marks, AllocError>
        requires { id < length self.now.terms }
        ensures depth { IfOk result (λ marks. marks.depth ≡ suc (depth (term_at self.now.terms id))) }
        ensures missing { IfOk result (λ marks. marks.missing ≡ missing_binders (term_at self.now.terms id)) }
        ensures greatest { IfOk result (λ marks. marks.greatest ≡ greatest_witness (term_at self.now.terms id)) }
    {
        let argument = self.marks(id);
        Ok(Marks {
            depth: after(argument.depth)?,
            missing: argument.missing,
            greatest: argument.greatest,
        })
    }

    /// The marks of a head with its arguments.
    fn app_marks(&self, head: &Head, args: &[Id]) -> Result<Marks, AllocError>
        requires { All (λ i. i < length self.now.terms) args.now }
        ensures { IfOk result (AreMarksOf (applied (the_head head.now) (map (term_at self.now.terms) args.now))) }
    {
        let mut marks = Marks {
            depth: 0,
            missing: missing_at(head)?,
            greatest: witness_at(head),
        };
        for i in 0..args.len() {
            let more = self.argument_marks(args[i])?;
            marks = Marks {
                depth: marks.depth.max(more.depth),
                missing: marks.missing.max(more.missing),
                greatest: greater_of(marks.greatest, more.greatest),
            };
        }
        Ok(marks)
    }

    /// The marks of the term of a node.
    pub(crate) fn node_marks(&self, node: &Node) -> Result<Marks, AllocError>
        requires { IsBelow (length self.now.terms) (the_shape node.now) }
        ensures { IfOk result (AreMarksOf (shape_term self.now.terms (the_shape node.now))) }
    {
        match node {
            Node::Lam { ty: _, body } => self.lam_marks(*body),
            Node::App { head, args } => self.app_marks(head, args.as_slice()),
        }
    }
}
