//! Why packets are dropped, and what each reason is called.
ghost use Rattle.std.specs.Prelude.{◌≡◌, ◌≤◌, ◌<◌, Some, Contains, length, slice_get};
ghost use Rattle.aqm.specs.DropReasons.{all_reasons, count_name, reason_index, reason_word};
ghost use Rattle.aqm.specs.declared.drop_reason.DropReason.{DropReason};

/// Why a queue drops a packet as it is offered.
#[derive(Clone, Copy, PartialEq, Eq)]
pub enum OfferDrop {
    /// The queue held its capacity.
    Full,
}

/// Why a queue drops a packet that waits, where one is taken out of it.
#[derive(Clone, Copy, PartialEq, Eq)]
pub enum TakeDrop {
    /// CoDel dropped it (RFC 8289 section 5).
    Codel,
}

/// Why a packet was dropped.
#[derive(Clone, Copy, PartialEq, Eq)]
pub enum DropReason {
    /// The link's list of lost packets names it.
    Lost,
    /// Its queue dropped it as it was offered.
    Offer(OfferDrop),
    /// Its queue dropped it at a take.
    Take(TakeDrop),
}

/// The most letters of a reason's word.
pub const LONGEST_WORD: usize = 5;

/// How many reasons there are.
pub const REASONS: usize = 3;

/// Every reason, in the order of tables.
static ALL: [DropReason; REASONS] = [
    DropReason::Lost,
    DropReason::Offer(OfferDrop::Full),
    DropReason::Take(TakeDrop::Codel),
];

impl DropReason {
    /// Every reason, in the order of tables.
    pub fn all() -> &'static [DropReason]
        ensures value { result.now ≡ all_reasons }
        ensures count { length result.now ≡ REASONS }
        ensures every { (reason : DropReason) → Contains all_reasons reason }
    {
        &ALL
    }

    /// Its place among them, from 0 on.
    #[inline(always)]
    pub fn index(self) -> usize
        ensures value { result ≡ reason_index self }
        ensures place { slice_get all_reasons result ≡ Some self }
        ensures below { result < REASONS }
    {
        match self {
            DropReason::Lost => 0,
            DropReason::Offer(OfferDrop::Full) => 1,
            DropReason::Take(TakeDrop::Codel) => 2,
        }
    }

    /// Its word in a trace, behind `drop=`.
    pub fn word(self) -> &'static [u8]
        ensures value { result.now ≡ reason_word self }
        ensures short { length result.now ≤ LONGEST_WORD }
    {
        match self {
            DropReason::Lost => b"lost",
            DropReason::Offer(OfferDrop::Full) => b"full",
            DropReason::Take(TakeDrop::Codel) => b"codel",
        }
    }

    /// The name of its count in a table of figures.
    pub fn count_name(self) -> &'static [u8]
        ensures { result.now ≡ count_name self }
    {
        match self {
            DropReason::Lost => b"dropped as lost",
            DropReason::Offer(OfferDrop::Full) => b"dropped as full",
            DropReason::Take(TakeDrop::Codel) => b"dropped by CoDel",
        }
    }
}
