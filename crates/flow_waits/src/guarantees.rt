//! What holds of what is told. Each function is a law: its contract is the statement, and its body is empty.
ghost use Rattle.flow_waits.specs.Laws.{StalledIsReported, StallsAreFound};

/// Of a flow that a node sends, it is told that it is stalled exactly where it is.
#[tactic(auto, using(crate::proofs::Reported::stalled_is_reported))]
pub fn the_stalled_are_reported()
    ensures { StalledIsReported }
{}

/// In every run a flow becomes stalled only by its start, by the arrival of a packet of it, or where a link that
/// becomes free drops one; and by such an event wherever it is stalled afterwards.
pub fn the_stalls_are_found()
    ensures { StallsAreFound }
{}
