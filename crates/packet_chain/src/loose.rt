//! A node in a block of its own that is in no chain.
ghost use Rattle.std.specs.Prelude.{◌≡◌};
ghost use Rattle.packet_chain.specs.declared.node.ChainNode.{ChainNode};
ghost use Rattle.packet_chain.specs.Ownership.{link_owns, link_lent};

use crate::node::ChainNode;
use std::alloc::Global;
use std::marker::{Model, Send, Sync};
use std_alloc::room::Vacant;

/// The node at `at`, and the right to free its block.
pub struct Loose {
    pub(crate) at: *mut ChainNode,
    pub(crate) alloc: Global,
    pub(crate) ghost node: { ChainNode },
}

impl Model for Loose {
    ghost also_owns = { λ l. link_owns (l.at, l.node) };

    ghost also_shares = { λ l _ κ. link_lent (l.at, l.node) κ };
}

unsafe impl Send for Loose {}

unsafe impl Sync for Loose {}

impl Loose {
    /// Puts the node into the block.
    pub(crate) fn fill(room: Vacant<ChainNode, Global>, node: ChainNode) -> Loose
        ensures { result.node ≡ node }
    {
        let Vacant { ptr, alloc } = room;
        unsafe {
            ptr.write(node);
        }
        Loose { at: ptr, alloc }
    }

    /// Gives the node up, and its block.
    pub(crate) fn empty(self) -> Vacant<ChainNode, Global> {
        let Loose { at, alloc } = self;
        Vacant { ptr: at, alloc }
    }

    /// The node with another stamp.
    pub(crate) fn stamped(self, stamp: u64) -> Loose
        ensures { result.node ≡ record self.node { stamp = stamp } }
    {
        let Loose { at, alloc } = self;
        unsafe {
            (*at).stamp = stamp;
        }
        Loose { at, alloc }
    }

    pub(crate) fn node(&self) -> &ChainNode
        ensures { result.now ≡ self.now.node }
    {
        unsafe { &*self.at }
    }
}
