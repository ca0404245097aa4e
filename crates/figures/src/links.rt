//! What is counted of the links that leave a node.
ghost use Rattle.std.specs.Prelude.{◌≡◌, ◌≢◌, ◌<◌, ◌≤◌, ◌-◌, ◌==◌, ℕ, true, false, length, slice_index_or, IfOk};
ghost use Rattle.sim_time.specs.Moment.{IsMoment};
ghost use Rattle.sim_time.specs.declared.limits.TheConstants.{MOST_EVENTS};
ghost use Rattle.node_core.specs.Part.{link_at};
ghost use Rattle.node_core.specs.TraceLine.{shown};
ghost use Rattle.net_machine.specs.Nodes.{node_at};
ghost use Rattle.figures.specs.declared.link.LinkFigures.{LinkFigures};
ghost use Rattle.figures.specs.declared.links.NodeLinks.{NodeLinks};
ghost use Rattle.figures.specs.Links.{is_free as free_is, IsFew, IsLinkAfterIf, AreLinksBegun, AreLinksAfter, OffersToOne, AreOffersCounted, IsOffered, IsUnoffered, IsFound, AllFreedOrOffered};

use crate::exits::LastLinks;
use crate::link::LinkFigures;
use node_core::link::Link;
use node_core::{Event, Line, Node, Timer};
use sim_time::Time;
use std::alloc::{AllocError, Global};

/// What is counted of the links that leave a node.
#[derive(Drop)]
pub struct NodeLinks {
    /// Of each link, in rising number.
    pub figures: Vec<LinkFigures>,
    /// At which of them is looked first.
    pub exits: LastLinks,
}

// Nothing is counted yet of some links, which are from a moment on.
fn links_begun(alloc: Global, links: &[Link], since: Time) -> Result<Vec<LinkFigures>, AllocError>
    ensures { IfOk result (λ all. AreLinksBegun since links.now all.items) }
{
    let mut all = Vec::new(alloc);
    for link in links {
        all.push(LinkFigures::new(alloc, link.port(), since))?;
    }
    Ok(all)
}

/// Whether an event is that some link has sent a packet whole.
pub(crate) fn is_free(event: &Event) -> bool
    ensures { result ≡ free_is event.now }
{
    match event {
        Event::Free(_) => true,
        Event::Start(_) | Event::Rto(_) | Event::DelAck(_) | Event::Arrive(_) => false,
    }
}

// An event was run that frees one of these links: the others are as they were.
#[inline(always)]
fn freed_after(figures: &mut [LinkFigures], links: &[Link], line: &Line)
    requires size { length figures.old ≡ length links.now }
    requires few { (i : ℕ) (other : LinkFigures) → i < length figures.old → IsFew MOST_EVENTS (slice_index_or figures.old i other) }
    requires moment { IsMoment line.now.key.time }
    requires order { (i : ℕ) (other : LinkFigures) → i < length figures.old → (slice_index_or figures.old i other).since ≤ line.now.key.time }
    requires sends { AllFreedOrOffered figures.old links.now (shown line.now) }
    requires free { free_is line.now.event ≡ true }
    ensures size_stays { length figures.new ≡ length figures.old }
    ensures figures { (i : ℕ) (other : LinkFigures) → i < length figures.old → IsLinkAfterIf (i == line.now.key.number - 3) (slice_index_or figures.old i other) (link_at links.now i).port (shown line.now) (slice_index_or figures.new i other) }
{
    let freed = line.key.number.saturating_sub(Timer::Free(0).number()) as usize;
    if freed < figures.len() {
        let figures = &mut figures[freed];
        figures.after_free(links[freed].port(), line);
    }
}

// Whether packets were offered to the link of an index.
#[inline(always)]
fn is_offered(figures: &[LinkFigures], links: &[Link], at: usize) -> bool
    requires size { length figures.now ≡ length links.now }
    requires within { at < length figures.now }
    ensures yes { result ≡ true → IsOffered figures.now links.now at }
    ensures no { result ≡ false → IsUnoffered figures.now links.now at }
{
    links[at].port().offered() != figures[at].offered
}

// The index of the first link to which packets were offered, or how many links there are where there is
// none.
fn find_offered(figures: &[LinkFigures], links: &[Link]) -> usize
    requires size { length figures.now ≡ length links.now }
    ensures { IsFound figures.now links.now result }
{
    let count = figures.len();
    for i in 0..count {
        if is_offered(figures, links, i) {
            return i;
        }
    }
    count
}

impl NodeLinks {
    /// Nothing is counted yet of some links, which are from a moment on.
    pub(crate) fn new(alloc: Global, links: &[Link], since: Time) -> Result<NodeLinks, AllocError>
        ensures { IfOk result (λ all. AreLinksBegun since links.now all.figures.items) }
    {
        Ok(NodeLinks {
            figures: links_begun(alloc, links, since)?,
            exits: LastLinks::new(alloc, links.len())?,
        })
    }

    // The index of the link to which an event has offered packets, or one past all of them where it has
    // offered none.
    #[inline(always)]
    fn offered(&mut self, links: &[Link], event: &Event) -> usize
        requires size { length self.old.figures.items ≡ length links.now }
        ensures figures { self.new.figures ≡ self.old.figures }
        ensures found { IsFound self.old.figures.items links.now result }
    {
        let first = if self.figures.len() == 1 {
            0
        } else {
            self.exits.seen(event)
        };
        if first < self.figures.len() {
            if is_offered(&self.figures, links, first) {
                return first;
            }
        }
        self.look_for(links, event)
    }

    // The same where it is not the one to which the last packet of the kind was offered.
    #[inline(never)]
    fn look_for(&mut self, links: &[Link], event: &Event) -> usize
        requires size { length self.old.figures.items ≡ length links.now }
        ensures figures { self.new.figures ≡ self.old.figures }
        ensures found { IsFound self.old.figures.items links.now result }
    {
        let found = find_offered(&self.figures, links);
        if found < self.figures.len() {
            self.exits.note(event, found);
        }
        found
    }

    // An event was run that frees none of the links: those to which it offered nothing are as they were.
    #[inline(always)]
    fn after_offers(&mut self, links: &[Link], line: &Line)
        requires size { length self.old.figures.items ≡ length links.now }
        requires few { (i : ℕ) (other : LinkFigures) → i < length self.old.figures.items → IsFew MOST_EVENTS (slice_index_or self.old.figures.items i other) }
        requires moment { IsMoment line.now.key.time }
        requires order { (i : ℕ) (other : LinkFigures) → i < length self.old.figures.items → (slice_index_or self.old.figures.items i other).since ≤ line.now.key.time }
        requires sends { AllFreedOrOffered self.old.figures.items links.now (shown line.now) }
        requires other { free_is line.now.event ≡ false }
        requires one { OffersToOne self.old.figures.items links.now }
        ensures size_stays { length self.new.figures.items ≡ length self.old.figures.items }
        ensures figures { AreOffersCounted self.old.figures.items links.now (shown line.now) self.new.figures.items }
    {
        let at = self.offered(links, &line.event);
        if at < self.figures.len() {
            let figures = &mut self.figures[at];
            figures.after_offers(links[at].port(), line);
        }
    }

    /// An event was run at the node of the links, of which the line tells, and they are so now.
    #[inline(always)]
    pub(crate) fn after(&mut self, links: &[Link], line: &Line)
        requires size { length self.old.figures.items ≡ length links.now }
        requires few { (i : ℕ) (other : LinkFigures) → i < length self.old.figures.items → IsFew MOST_EVENTS (slice_index_or self.old.figures.items i other) }
        requires moment { IsMoment line.now.key.time }
        requires order { (i : ℕ) (other : LinkFigures) → i < length self.old.figures.items → (slice_index_or self.old.figures.items i other).since ≤ line.now.key.time }
        requires sends { AllFreedOrOffered self.old.figures.items links.now (shown line.now) }
        requires one { free_is line.now.event ≡ false → OffersToOne self.old.figures.items links.now }
        ensures size_stays { length self.new.figures.items ≡ length self.old.figures.items }
        ensures figures { AreLinksAfter self.old.figures.items links.now (shown line.now) self.new.figures.items }
    {
        if is_free(&line.event) {
            freed_after(&mut self.figures, links, line);
        } else {
            self.after_offers(links, line);
        }
    }
}

/// An event was run, of which the line tells, and the nodes are so now.
#[inline(always)]
pub fn count_links(all: &mut Vec<NodeLinks>, nodes: &[Node], line: &Line)
    requires size { length all.old.items ≡ length nodes.now }
    requires sizes { (node : ℕ) (other : NodeLinks) → node < length all.old.items → length (slice_index_or all.old.items node other).figures.items ≡ length (node_at nodes.now node).part.links }
    requires few { (node : ℕ) (other : NodeLinks) (i : ℕ) (link : LinkFigures) → node < length all.old.items → i < length (slice_index_or all.old.items node other).figures.items → IsFew MOST_EVENTS (slice_index_or (slice_index_or all.old.items node other).figures.items i link) }
    requires moment { IsMoment line.now.key.time }
    requires order { (node : ℕ) (other : NodeLinks) (i : ℕ) (link : LinkFigures) → node < length all.old.items → i < length (slice_index_or all.old.items node other).figures.items → (slice_index_or (slice_index_or all.old.items node other).figures.items i link).since ≤ line.now.key.time }
    requires one { free_is line.now.event ≡ false → (other : NodeLinks) → line.now.key.node < length all.old.items → OffersToOne (slice_index_or all.old.items line.now.key.node other).figures.items (node_at nodes.now line.now.key.node).part.links }
    requires sends { (other : NodeLinks) → line.now.key.node < length all.old.items → AllFreedOrOffered (slice_index_or all.old.items line.now.key.node other).figures.items (node_at nodes.now line.now.key.node).part.links (shown line.now) }
    ensures size { length all.new.items ≡ length all.old.items }
    ensures sizes { (other : NodeLinks) → length (slice_index_or all.new.items line.now.key.node other).figures.items ≡ length (slice_index_or all.old.items line.now.key.node other).figures.items }
    ensures here { (other : NodeLinks) → line.now.key.node < length all.old.items → AreLinksAfter (slice_index_or all.old.items line.now.key.node other).figures.items (node_at nodes.now line.now.key.node).part.links (shown line.now) (slice_index_or all.new.items line.now.key.node other).figures.items }
    ensures elsewhere { (node : ℕ) (other : NodeLinks) → node ≢ line.now.key.node → slice_index_or all.new.items node other ≡ slice_index_or all.old.items node other }
{
    let place = usize::from(line.key.node);
    if place < all.len() {
        let links = &mut all[place];
        links.after(nodes[place].ports(), line);
    }
}
