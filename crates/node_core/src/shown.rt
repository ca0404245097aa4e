//! What a line of the trace shows of a sender.
ghost use Rattle.std.specs.Prelude.{◌≡◌};

use reno_sender::SenderFields;
use std::marker::Model;
use std::snapshot::Snapshot;

/// A sender as a line shows it. Clauses see all that the sender keeps; when the program runs, only what is written of
/// it is kept, which is a quarter of that.
#[derive(Drop)]
pub struct SenderShown {
    /// The first byte that is not acknowledged yet.
    una: u64,
    /// The next byte to send.
    nxt: u64,
    /// The congestion window, in bytes.
    cwnd: u64,
    /// The slow start threshold, in bytes.
    ssthresh: u64,
    /// Whether the sender is in fast recovery.
    recovery: bool,
    /// All that the sender keeps, for clauses alone: it takes no room.
    all: Snapshot<SenderFields>,
}

impl Model for SenderShown {
    ghost use Rattle.reno_sender.specs.declared.fields.SenderFields.{SenderFields};
    ghost use Rattle.node_core.specs.Shown.{IsShownOf};

    ghost Value = { SenderFields };

    ghost view = { λ s. s.all.value };

    ghost invariant = { λ s. IsShownOf s.all.value s.una s.nxt s.cwnd s.ssthresh s.recovery };
}

impl SenderShown {
    /// A sender that keeps these fields.
    #[inline(always)]
    pub fn of(fields: &SenderFields) -> SenderShown
        ensures { result ≡ fields.now }
    {
        SenderShown {
            una: fields.una,
            nxt: fields.nxt,
            cwnd: fields.cwnd,
            ssthresh: fields.ssthresh,
            recovery: fields.recovery,
            all: Snapshot::of(fields),
        }
    }

    /// Shows the sender that keeps these fields, where another was shown.
    #[inline(always)]
    pub(crate) fn set(&mut self, fields: &SenderFields)
        ensures { self.new ≡ fields.now }
    {
        self.una = fields.una;
        self.nxt = fields.nxt;
        self.cwnd = fields.cwnd;
        self.ssthresh = fields.ssthresh;
        self.recovery = fields.recovery;
        self.all = Snapshot::of(fields);
    }

    /// The first byte that is not acknowledged yet.
    #[inline(always)]
    pub fn una(&self) -> u64
        ensures { result ≡ self.now.una }
    {
        self.una
    }

    /// The next byte to send.
    #[inline(always)]
    pub fn nxt(&self) -> u64
        ensures { result ≡ self.now.nxt }
    {
        self.nxt
    }

    /// The congestion window, in bytes.
    #[inline(always)]
    pub fn cwnd(&self) -> u64
        ensures { result ≡ self.now.cwnd }
    {
        self.cwnd
    }

    /// The slow start threshold, in bytes.
    #[inline(always)]
    pub fn ssthresh(&self) -> u64
        ensures { result ≡ self.now.ssthresh }
    {
        self.ssthresh
    }

    /// Whether the sender is in fast recovery (RFC 5681 section 3.2).
    #[inline(always)]
    pub fn recovers(&self) -> bool
        ensures { result ≡ self.now.recovery }
    {
        self.recovery
    }
}
