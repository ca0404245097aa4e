//! Which of the senders a flow has.

/// How large a sender's initial window is at most.
#[derive(Clone, Copy)]
pub enum Iw {
    /// Two to four segments (RFC 5681 section 3.1).
    Iw3,
    /// Ten segments (RFC 6928 section 2).
    Iw10,
}

/// Which sender a flow has.
#[derive(Clone, Copy)]
pub struct Variant {
    /// Whether a partial acknowledgement leaves recovery on (NewReno, RFC 6582), or ends it as each new
    /// acknowledgement does (Reno, RFC 5681 section 3.2).
    pub newreno: bool,
    /// How large its initial window is at most.
    pub iw: Iw,
}

/// The sender of a flow that names none: Reno with the smaller initial window.
pub const RENO: Variant = Variant {
    newreno: false,
    iw: Iw::Iw3,
};
