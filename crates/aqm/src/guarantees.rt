//! What every take keeps to, whatever waits and whenever it comes: laws over the definitions
//! alone, each the contract of a function that does nothing, or calls the law that it rests on.
ghost use Rattle.aqm.specs.Laws.{TakesTheFront, DropsAtMostWhatWaits, GivesWhatWaits, QueuesOpenEmpty, QueuesStay, EntersLast, FullRefuses, DropTailKeepsWhatEntered, EveryDropHasACause, DropsStopAtTheFirstStop, DropsComeCloser, FirstWaitIsLongest, ScheduleStays};

use sim_time::gaps_shrink;

/// What is dropped is the front of the queue, in order; what is given is next, and the rest
/// stays. So no more is dropped than waits.
pub fn takes_the_front()
    ensures front { TakesTheFront }
    ensures most { DropsAtMostWhatWaits }
{}

/// Nothing is given exactly where nothing waits.
pub fn gives_what_waits()
    ensures { GivesWhatWaits }
{}

/// A queue is empty at first. It stays the one it is, with its capacity, whatever is taken from it
/// or offered to it; and where it refuses none, a packet that is offered is the last that waits. A full
/// queue refuses.
pub fn queues_stay()
    ensures opens { QueuesOpenEmpty }
    ensures stays { QueuesStay }
    ensures last { EntersLast }
    ensures full { FullRefuses }
{}

/// Drop-tail drops nothing at a take.
pub fn drop_tail_keeps_what_entered()
    ensures { DropTailKeepsWhatEntered }
{}

/// Each packet that a CoDel queue drops has waited for the target or longer, after packets have
/// been above target for an interval, and leaves more than maxpacket bytes behind it.
pub fn every_drop_has_a_cause()
    ensures { EveryDropHasACause }
{}

/// In drop state a take drops until a packet may not be dropped, or its drop isn't due yet.
pub fn drops_stop_at_the_first_stop()
    ensures { DropsStopAtTheFirstStop }
{}

/// In one drop state the time from a drop to the next never grows.
pub fn drops_come_closer()
    ensures closer { DropsComeCloser }
    ensures first { FirstWaitIsLongest }
    ensures schedule { ScheduleStays }
{
    gaps_shrink();
}
