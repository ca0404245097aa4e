//! Why figures that are asked for cannot be.

/// Why figures that are asked for cannot be.
#[derive(Clone, Copy, Debug)]
pub enum FiguresFault {
    /// What the command line names as the moment from which on is counted is none.
    NoMoment,
    /// What it names as the length of a step is none, or no step is named for rows by time alone.
    NoStep,
    /// There would be more rows by time than there may be.
    TooManyRows,
}
