//! How a run is shared out among workers.
ghost use Rattle.std.specs.Prelude.{◌≡◌, ◌<◌, ◌≤◌};

use std::marker::Model;

/// How a run is shared out: among how many workers, and by which groups.
#[derive(Drop)]
pub struct Sharing<'a> {
    /// How many workers run the groups.
    workers: usize,
    /// Which group each node is in, as the command line says it.
    groups: &'a str,
}

impl<'a> Model for Sharing<'a> {
    ghost use Rattle.std.specs.Prelude.{◌<◌, ◌≤◌};
    ghost use Rattle.command_line.specs.Sharing.{SharingValue};

    ghost Value = { SharingValue };

    ghost view = { λ s. record { workers = s.workers; groups = s.groups.now } };

    ghost invariant = { λ s. (0 < s.workers) × (s.workers ≤ 64) };
}

impl<'a> Sharing<'a> {
    /// Among so many workers, by these groups.
    pub fn new(workers: usize, groups: &'a str) -> Sharing<'a>
        requires few { (0 < workers) × (workers ≤ 64) }
        ensures { result ≡ record { workers = workers; groups = groups.now } }
    {
        Sharing { workers, groups }
    }

    /// How many workers run the groups.
    pub fn workers(&self) -> usize
        ensures workers { result ≡ self.now.workers }
        ensures few { (0 < result) × (result ≤ 64) }
    {
        self.workers
    }

    /// Which group each node is in, as the command line says it.
    pub fn groups(&self) -> &'a str
        ensures { result.now ≡ self.now.groups }
    {
        self.groups
    }
}
