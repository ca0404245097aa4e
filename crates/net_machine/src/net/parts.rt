//! What a net is taken into, and made of again.
ghost use Rattle.std.specs.Prelude.{◌≡◌, ◌≤◌, ◌^◌, IfOk, length};
ghost use Rattle.net_machine.specs.Nodes.{reached};
ghost use Rattle.net_machine.specs.NetOf.{AreNetParts};

use super::Net;
use crate::nodes::Nodes;
use crate::places::LinkEnds;
use node_core::{Node, Outbox};
use scenario_image::limits::MOST_ROUTER_LINKS;
use sim_time::Time;
use std::alloc::{AllocError, Global};
use std::marker::Model;
use tournament::Timetable;

/// What a net needs beside its nodes and links, for so many nodes: room for their times, and a chain
/// for each outgoing link that a node can have, empty between steps.
#[derive(Drop)]
pub struct Spare {
    timetable: Timetable,
    out: Outbox,
    alloc: Global,
}

impl Model for Spare {
    ghost use Rattle.std.specs.Prelude.{◌≡◌, ℕ, [], length, replicate};

    ghost Value = { ℕ };

    ghost view = { λ s. length s.timetable };

    ghost invariant = { λ s. s.out ≡ replicate 16 [] };
}

impl Spare {
    /// For so many nodes.
    pub fn new(alloc: Global, nodes: usize) -> Result<Spare, AllocError>
        requires { nodes ≤ 2 ^ 12 }
        ensures { IfOk result (λ spare. spare ≡ nodes) }
    {
        Ok(Spare {
            timetable: Timetable::new(alloc, nodes)?,
            out: Outbox::new(alloc, MOST_ROUTER_LINKS)?,
            alloc,
        })
    }
}

/// What a net is made of.
#[derive(Drop)]
pub struct NetParts {
    /// The nodes, each at its number.
    pub nodes: Vec<Node>,
    /// Where each link leaves and ends, by its number.
    pub links: Vec<LinkEnds>,
    /// Events before this moment are run, in nanoseconds.
    pub end: Time,
    /// How many events were run.
    pub position: u64,
    /// What a net needs beside these.
    pub spare: Spare,
}

impl Net {
    /// The net that is made of these parts. No memory is taken.
    pub fn of_parts(parts: NetParts) -> Net
        requires parts { AreNetParts parts.nodes.items parts.links.items parts.end parts.position }
        requires room { parts.spare ≡ length parts.nodes.items }
        ensures { result ≡ reached parts.nodes.items parts.end parts.position }
    {
        let spare = parts.spare;
        Net {
            nodes: Nodes::of_parts(parts.nodes, spare.timetable),
            ends: parts.links,
            end: parts.end,
            position: parts.position,
            out: spare.out,
            alloc: spare.alloc,
        }
    }

    /// What the net is made of. No memory is taken.
    pub fn into_parts(self) -> NetParts
        ensures state { reached result.nodes.items result.end result.position ≡ self }
        ensures parts { AreNetParts result.nodes.items result.links.items result.end result.position }
        ensures room { result.spare ≡ length result.nodes.items }
    {
        let (nodes, timetable) = self.nodes.into_parts();
        NetParts {
            nodes,
            links: self.ends,
            end: self.end,
            position: self.position,
            spare: Spare {
                timetable,
                out: self.out,
                alloc: self.alloc,
            },
        }
    }
}
