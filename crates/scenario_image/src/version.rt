//! The versions of images.

/// A version of images.
#[derive(Clone, Copy)]
pub enum Version {
    /// Says nothing of a flow's variant: each flow is reno with the smaller initial window.
    One,
    /// Has a byte at the end of each flow, for its variant.
    Two,
}
