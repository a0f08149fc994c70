ghost use Rattle.std.specs.Prelude.{◌≡◌, List, ℕ, length, IfOk};

use crate::node::Node;
use std::alloc::{AllocError, Global};
use std::marker::Model;

/// A node in a box, so that moving it moves no bytes. A clause sees the bytes.
#[derive(Drop)]
pub(crate) struct BoxedNode {
    node: Box<Node>,
}

impl Model for BoxedNode {
    ghost Value = { List ℕ };

    ghost view = { λ boxed. boxed.node.value };
}

impl BoxedNode {
    pub(crate) fn new(alloc: Global, node: Node) -> Result<BoxedNode, AllocError>
        ensures { IfOk result (λ boxed. boxed ≡ node) }
    {
        Ok(BoxedNode {
            node: Box::new(alloc, node)?,
        })
    }

    pub(crate) fn as_slice(&self) -> &[u8]
        ensures bytes { result.now ≡ self.now }
        ensures long { length self.now ≡ 8192 }
    {
        self.node.as_slice()
    }
}
