//! The raw pointers: nodes that lie in blocks of their own, each leading to the one behind it.
ghost use Rattle.std.specs.Prelude.{◌≡◌, ◌<◌, List, [], ◌∷◌, ◌++◌, drop, length, slice_get, Some};
ghost use Rattle.packet_chain.specs.Links.{Link, IsLinked, stamped_of, place_of};
ghost use Rattle.packet_chain.specs.Ownership.{nodes_own, nodes_lent};

use crate::cell::PacketCell;
use crate::loose::Loose;
use crate::node::{ChainNode, NodePointer};
use std::alloc::Global;
use std::marker::{Model, Send, Sync};
use std::ptr;

/// The nodes from `head` to `tail`. With none, both are null.
pub struct ChainNodes {
    head: *mut ChainNode,
    tail: *mut ChainNode,
    pub(crate) ghost links: { List Link },
    ghost linked: { ∥ IsLinked head tail links ∥₁ },
}

impl Model for ChainNodes {
    ghost also_owns = { λ n. nodes_own n.links };

    ghost also_shares = { λ n _ κ. nodes_lent n.links κ };
}

// It frees nothing, so each node is taken out first.
impl Drop for ChainNodes {
    fn drop(self)
        requires { self.links ≡ [] }
    {
        let ChainNodes { head: _, tail: _ } = self;
    }
}

unsafe impl Send for ChainNodes {}

unsafe impl Sync for ChainNodes {}

impl ChainNodes {
    pub(crate) fn new() -> ChainNodes
        ensures { result.links ≡ [] }
    {
        ChainNodes {
            head: ptr::null_mut(),
            tail: ptr::null_mut(),
        }
    }

    /// The node alone.
    pub(crate) fn one(node: Loose) -> ChainNodes
        ensures { result.links ≡ (node.at, node.node) ∷ [] }
    {
        let Loose { at, alloc: _ } = node;
        ChainNodes { head: at, tail: at }
    }

    /// Links the other's nodes in behind the last.
    pub(crate) fn join(self, other: ChainNodes) -> ChainNodes
        requires { (0 < length self.links) × (0 < length other.links) }
        ensures { stamped_of result.links ≡ stamped_of self.links ++ stamped_of other.links }
    {
        let ChainNodes { head, tail } = self;
        let ChainNodes {
            head: behind,
            tail: end,
        } = other;
        unsafe {
            (*tail).next = behind;
        }
        ChainNodes { head, tail: end }
    }

    /// Takes the first of several nodes out, and gives it and the others.
    pub(crate) fn cut_front(self, alloc: Global) -> (Loose, ChainNodes)
        requires { 1 < length self.links }
        ensures { self.links ≡ (result.0.at, result.0.node) ∷ result.1.links }
    {
        let ChainNodes { head, tail } = self;
        let next = unsafe { (*head).next };
        (Loose { at: head, alloc }, ChainNodes { head: next, tail })
    }

    /// The only node.
    pub(crate) fn into_only(self, alloc: Global) -> Loose
        requires { length self.links ≡ 1 }
        ensures { self.links ≡ (result.at, result.node) ∷ [] }
    {
        let ChainNodes { head, tail: _ } = self;
        Loose { at: head, alloc }
    }

    pub(crate) fn head(&self) -> NodePointer
        ensures { result.at ≡ place_of self.now.links 0 }
    {
        NodePointer { at: self.head }
    }

    /// The node at a place, which is that of the `i`-th. Only the proof needs `i`.
    pub(crate) fn node(&self, place: NodePointer, i: usize) -> &ChainNode
        requires { (i < length self.now.links) × (place.at ≡ place_of self.now.links i) }
        ensures { slice_get self.now.links i ≡ Some (place.at, result.now) }
    {
        unsafe { &*place.at }
    }

    /// Takes the first of `len` nodes out, as a cell, and gives the others.
    pub(crate) fn pop(self, len: usize, alloc: Global) -> (PacketCell, ChainNodes)
        requires { (len ≡ length self.links) × (0 < len) }
        ensures { stamped_of self.links ≡ result.0 ∷ stamped_of result.1.links }
    {
        if len == 1 {
            let front = self.into_only(alloc);
            return (PacketCell { node: front }, ChainNodes::new());
        }
        let (front, behind) = self.cut_front(alloc);
        (PacketCell { node: front }, behind)
    }
}
