//! Copies of banks.

ghost use Rattle.std.specs.Prelude.{◌≡◌, map, IfOk};
ghost use Rattle.term_bank.specs.Internal.Copied.{shown};

use crate::bank::Bank;
use crate::marks::Marks;
use crate::node::Node;
use indexmap::IndexMap;
use std::alloc::{AllocError, Global};

/// The same nodes in the same order.
fn copy_nodes(
    alloc: Global,
    nodes: &IndexMap<Node, Marks>,
) -> Result<IndexMap<Node, Marks>, AllocError>
    ensures { IfOk result (λ copy. map shown copy.entries ≡ map shown nodes.now.entries) }
{
    let mut copy = IndexMap::new(alloc);
    for i in 0..nodes.len() {
        let Some((node, marks)) = nodes.get_index(i) else {
            unreachable!()
        };
        let node = node.try_clone(alloc)?;
        match copy.get_index_of(&node) {
            Some(_) => unreachable!(),
            None => copy.insert(node, *marks)?,
        };
    }
    Ok(copy)
}

impl Bank {
    /// A bank with the same terms at the same places.
    pub fn try_clone(&self, alloc: Global) -> Result<Bank, AllocError>
        ensures { IfOk result (λ bank. bank ≡ self.now) }
    {
        Ok(Bank {
            sig: self.sig.try_clone(alloc)?,
            wits: self.wits.try_clone(alloc)?,
            nodes: copy_nodes(alloc, &self.nodes)?,
            alloc,
        })
    }
}
