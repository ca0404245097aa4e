//! What every port keeps to, whatever is offered to it and whenever: laws over the definitions
//! alone, each the contract of a function that does nothing.
ghost use Rattle.port.specs.Laws.{EveryPacketHasOneFate, EveryPacketIsCounted, BusyLinkBeginsNothing, OneDepartsAtMost, ArrivalsRise, DropTailDropsNothingThatEntered, EveryCodelDropHasACause, IdleLinksKeepNothing, OfferingsDropNothing};

/// Every packet that waits at first or is offered is lost, dropped by its queue as it comes or at a
/// taking, sent, or waits at the end: one of these, in order and once.
pub fn every_packet_has_one_fate()
    ensures { EveryPacketHasOneFate }
{}

/// The link stays as it is, and each packet that is offered or sent is counted.
pub fn every_packet_is_counted()
    ensures { EveryPacketIsCounted }
{}

/// A busy link begins nothing; so of packets that are offered at one moment at most one departs,
/// and no other is sent.
pub fn a_busy_link_begins_nothing()
    ensures busy { BusyLinkBeginsNothing }
    ensures one { OneDepartsAtMost }
{}

/// What a link sends arrives one after another, where moments never fall and it takes just when
/// it has sent a packet.
pub fn arrivals_rise()
    ensures { ArrivalsRise }
{}

/// With drop-tail nothing that entered is dropped.
pub fn drop_tail_drops_nothing_that_entered()
    ensures { DropTailDropsNothingThatEntered }
{}

/// Each packet that CoDel drops has waited for the target or longer, after packets have been
/// above target for an interval, and leaves more than maxpacket bytes behind it.
pub fn every_codel_drop_has_a_cause()
    ensures { EveryCodelDropHasACause }
{}

/// Where nothing waits while a link is idle, so it stays, and an offering makes its queue drop
/// nothing that entered.
pub fn idle_links_keep_nothing()
    ensures kept { IdleLinksKeepNothing }
    ensures offerings { OfferingsDropNothing }
{}
