//! Why a watched run ended.
ghost use Rattle.std.specs.Prelude.{◌≡◌};

/// Why a watched run ended, where each event could be run.
#[derive(Clone, Copy, PartialEq, Eq)]
pub enum RunEnd {
    /// The watcher said so of the last event.
    Stopped,
    /// The watcher said so before the next event.
    Held,
    /// No event is due.
    Done,
}
