//! Where a line stands among several lists.

/// A list, by its number, and where in it.
#[derive(Clone, Copy)]
pub struct Spot {
    /// The number of the list.
    pub list: usize,
    /// The number of the line in it.
    pub index: usize,
}
