//! What holds of every run of every scenario. Each function is a law: its contract is the
//! statement, and its body is empty.
ghost use Rattle.table_run.specs.Laws.{RunsAreSound, RoutersHaveRoutes, KeysRise, EffectsAreSoon, EffectsAreLocal, NumbersNeverFall, RunsGoOn, RunsPart, RunsEnd};

/// In every state of every run of every scenario each packet that waits or is under way is one of
/// its flow's, on a link of its way; what a receiver has, its sender sent; a timer is pending
/// exactly where its node has set it; packets arrive over a link in the order in which they were
/// sent; nothing pending is past; nodes and links are the scenario's; and a node's counts are
/// bounded by the events run at it.
pub fn every_run_is_sound()
    ensures { RunsAreSound }
{}

/// In every state of every run of every scenario each router has a route, over one of its own
/// links, for each packet that is on its way to it: no router ever drops a packet for want of a
/// route.
pub fn routers_have_routes()
    ensures { RoutersHaveRoutes }
{}

/// In every run of every scenario the keys of the events strictly rise.
pub fn keys_rise()
    ensures { KeysRise }
{}

/// In every run of every scenario all that an event sets or sends is due after it, by at most 100
/// seconds.
pub fn effects_are_soon()
    ensures { EffectsAreSoon }
{}

/// In every run of every scenario an event sets timers of its own node and sends over the links
/// that leave it, and what it sends comes later by more than the link's delay.
pub fn effects_are_local()
    ensures { EffectsAreLocal }
{}

/// Along every run of every scenario no number of a flow falls, and each node keeps its role.
pub fn numbers_never_fall()
    ensures { NumbersNeverFall }
{}

/// Two runs, the second from where the first came to, are one run.
pub fn runs_go_on()
    ensures { RunsGoOn }
{}

/// A run of m + n steps is one of m steps, and one of n steps from there.
pub fn runs_part()
    ensures { RunsPart }
{}

/// Every run of every scenario ends.
pub fn every_run_ends()
    ensures { RunsEnd }
{}
