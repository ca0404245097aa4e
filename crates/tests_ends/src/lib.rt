//! Tests of senders, receivers and queues, by public calls alone, so that no library is proved a second time with
//! its tests.
#![tactic(auto)]

#[cfg(test)]
mod queues;
#[cfg(test)]
mod receivers;
#[cfg(test)]
mod senders;
