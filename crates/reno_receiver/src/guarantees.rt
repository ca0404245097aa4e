//! What every receiver keeps, whatever comes and in whatever order: laws over the definitions
//! alone, each the contract of a function that does nothing.
ghost use Rattle.reno_receiver.specs.Laws.{NextLaw, InitialLaw, DataLaw, TimerLaw};

/// The next number is the least that is missing.
pub fn next_is_least_missing()
    ensures { NextLaw }
{}

/// A new receiver waits for byte 0.
pub fn initial_waits_for_byte_0()
    ensures { InitialLaw }
{}

/// What a segment leaves of the state before it, and what its answer says.
pub fn data_keeps()
    ensures { DataLaw }
{}

/// What a delayed answer leaves of the state before it, and what it says.
pub fn timer_keeps()
    ensures { TimerLaw }
{}
