//! What holds of all figures. Each function is a law: its contract is the statement, and its body is
//! empty.
ghost use Rattle.figures.specs.Laws.{PercentilesAreNear, PercentilesRise, SentAgainIsSent, OfferedArePlaced, EachSentHasItsWait, SentAsOffered, DeliveredIsOfTheFlow, EachDoublingHas32Classes, CountedLieBelow, ActsAreOfTheirLink, TripsAreTakenByTheTable};

/// A percentile that is answered is no less than the exact one, and at most a 32nd above it.
#[tactic(auto, using(crate::proofs::Near::percentiles_near))]
pub fn percentiles_are_near()
    ensures { PercentilesAreNear }
{}

/// The least value is no greater than a percentile from 1 on, this no greater than a higher one, and this
/// no greater than the greatest value.
#[tactic(auto, using(crate::proofs::Rise::percentiles_rise))]
pub fn percentiles_rise()
    ensures { PercentilesRise }
{}

/// No sender sends more segments again than it sends.
#[tactic(auto, using(crate::proofs::Again::sent_again_is_sent))]
pub fn no_more_is_sent_again_than_sent()
    ensures { SentAgainIsSent }
{}

/// In each state of each run of a scenario, and at each link: the packets that were offered are those
/// that were lost, dropped as the queue was full, dropped by CoDel and sent, and those that wait.
#[tactic(auto, using(crate::proofs::LinkLaws::offered_are_placed))]
pub fn every_packet_is_counted_once()
    ensures { OfferedArePlaced }
{}

/// In each state of each run of a scenario, and at each link: there are as many waits as packets that
/// were sent.
#[tactic(auto, using(crate::proofs::LinkLaws::each_sent_has_its_wait))]
pub fn each_packet_sent_has_its_wait()
    ensures { EachSentHasItsWait }
{}

/// At an idle link, where nothing waits, a packet that the queue takes in is given at once, after a wait
/// of 0.
#[tactic(auto, using(crate::proofs::AtOnce::sent_as_offered))]
pub fn a_packet_sent_as_offered_has_not_waited()
    ensures { SentAsOffered }
{}

/// In each state of each run of a scenario no receiver has more than all bytes of its flow.
#[tactic(auto, using(crate::proofs::Delivered::delivered_is_of_the_flow))]
pub fn no_more_is_delivered_than_the_flow()
    ensures { DeliveredIsOfTheFlow }
{}

/// A value below 64 is a class of its own. From there on each doubling of values has 32 classes, each of as
/// many values: leading zeros, by which a class is counted, give them.
#[tactic(auto, using(crate::proofs::Doublings::each_doubling))]
pub fn each_doubling_has_32_classes()
    ensures { EachDoublingHas32Classes }
{}

/// In each run of a scenario each wait at a link and each sample of a round trip is below 2^50
/// nanoseconds, for which there are classes.
#[tactic(auto, using(crate::proofs::Below::counted_lie_below))]
pub fn what_is_counted_lies_below_2_to_the_50th()
    ensures { CountedLieBelow }
{}

/// At each event of each run of a scenario, and at each link: the acts that are counted of the link are those
/// of the event's acts whose own link it is.
#[tactic(auto, using(crate::proofs::OwnActs::acts_are_of_their_link))]
pub fn acts_are_counted_of_their_link()
    ensures { ActsAreOfTheirLink }
{}

/// In each state of each run of a scenario the samples of a round trip that are counted are those that the sender's
/// table has taken: its srtt and rttvar are what they leave, one after another (RFC 6298 section 2).
#[tactic(auto, using(crate::proofs::Trips::trips_are_taken))]
pub fn trips_are_those_of_the_senders_table()
    ensures { TripsAreTakenByTheTable }
{}
