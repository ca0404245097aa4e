//! Which of the packets offered to a link are lost.
ghost use Rattle.std.specs.Prelude.{◌≡◌, ◌+◌, ◌^◌, ◌<◌, ◌≤◌, ◌↔◌, All, length, slice_index, IsTrue, IfOk};
ghost use Rattle.std.specs.List.Sorted.{IsStrictlyIncreasing};
ghost use Rattle.port.specs.Losses.{is_lost};

use std::alloc::{AllocError, Global};
use std::marker::Model;

/// The packets offered to a link, counted, and those among them that are lost.
#[derive(Drop)]
pub(crate) struct Losses {
    /// The numbers of the packets that are lost, counted from 1, rising.
    numbers: Vec<u32>,
    /// How many packets were offered.
    offered: u128,
    /// Which of `numbers` is the next to come, so that none is looked for: the packets of all
    /// before it were offered.
    next: usize,
}

impl Model for Losses {
    ghost use Rattle.port.specs.Losses.{LossState, IsNextLoss};

    ghost Value = { LossState };

    ghost view = { λ l. record { lose = l.numbers.items; offered = l.offered } };

    ghost invariant = { λ l. IsNextLoss l.numbers.items l.offered l.next };
}

// Whether a place of the list has this number.
fn is_at(numbers: &[u32], place: usize, number: u128) -> bool
    ensures { IsTrue result ↔ ((place < length numbers.now) × (slice_index numbers.now place ≡ number)) }
{
    place < numbers.len() && u128::from(numbers[place]) == number
}

impl Losses {
    /// Of these packets, before any was offered.
    pub(crate) fn new(numbers: Vec<u32>) -> Losses
        requires rises { IsStrictlyIncreasing numbers.items }
        requires counted { All (λ number. 1 ≤ number) numbers.items }
        ensures { result ≡ record { lose = numbers.items; offered = 0 } }
    {
        Losses {
            numbers,
            offered: 0,
            next: 0,
        }
    }

    /// How many packets were offered.
    pub(crate) fn offered(&self) -> u128
        ensures { result ≡ self.now.offered }
    {
        self.offered
    }

    /// Counts one packet more, and tells whether it is lost.
    pub(crate) fn count(&mut self) -> bool
        requires { self.old.offered < 2 ^ 100 }
        ensures lost { result ≡ is_lost self.old.lose (self.old.offered + 1) }
        ensures state { self.new ≡ record self.old { offered = self.old.offered + 1 } }
    {
        self.offered += 1;
        let lost = is_at(&self.numbers, self.next, self.offered);
        if lost {
            self.next += 1;
        }
        lost
    }

    /// The same numbers and count.
    pub(crate) fn copy(&self, alloc: Global) -> Result<Losses, AllocError>
        ensures { IfOk result (λ copy. copy ≡ self.now) }
    {
        let numbers = Vec::from_slice(alloc, &self.numbers)?;
        Ok(Losses {
            numbers,
            offered: self.offered,
            next: self.next,
        })
    }
}
