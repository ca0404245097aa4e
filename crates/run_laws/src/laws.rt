//! What a networker expects of a run, whatever its scenario. Each function is a law: its contract is the statement, and its
//! body is empty.
ghost use Rattle.run_laws.specs.Laws.{AcknowledgedWasReceived, WindowsHold, TimersRun, NoFlowHangs, SendsWithinWindow, ArrivalsKeepOrder, IdleLinksAreEmpty};
ghost use Rattle.run_laws.specs.Links.{PacketsAreConserved, PacketsArriveOnce, RatesHold, AtEachLink, LeavesInTurn, TurnsAwayByRule, SendsAllThatEntered, SendsOneByOne, DropsForCause, DropsOnTime, KeepsDropState, CountsDrops};
ghost use Rattle.run_laws.specs.Forwarding.{SendersOfferSegments, RoutersForward, ReceiversAcknowledge, DelayedAnswersAreDue};
ghost use Rattle.run_laws.specs.Timing.{LinksTakeTheirTime};
ghost use Rattle.run_laws.specs.Marks.{TakesAcknowledgements, SendsAtDuplicates, MarksLosses, TimesSegments};
ghost use Rattle.run_laws.specs.Waits.{WaitsFromOffer};
ghost use Rattle.run_laws.specs.Setup.{FlowsBeginAfresh, FlowsStayAsStated, LinksBeginIdle, LinksStayAsStated, RoutersStayAsStated};
ghost use Rattle.run_laws.specs.Senders.{AtEachSender, FitsWindows, IsSilentOnceComplete, EndsAfterRto, GoesByTimeouts, TimesNoneResent, SendersOfferWhatTheySend, AnswersTimeouts, AnswersDuplicates, ThresholdStaysWithoutLoss, GrowsByReno, KeepsRecovery, FillsWindows, RestartsTimer, MeasuresRoundTrips};

/// Each run begins with nothing sent and nothing received. Cwnd is the flow's initial window, of RFC 5681 section 3.1
/// or of RFC 6928 section 2. Ssthresh is the receiver's window, the timer is off, and the rto is a second (RFC 6298
/// section 2).
pub fn flows_begin_afresh()
    ensures { FlowsBeginAfresh }
{}

/// In every state of every run the two ends of a flow have the scenario's mss, and the sender its segments, receiver's
/// window and variant.
pub fn flows_stay_as_stated()
    ensures { FlowsStayAsStated }
{}

/// Each run begins with idle links that nothing waits for, and CoDel outside drop state.
pub fn links_begin_idle()
    ensures { LinksBeginIdle }
{}

/// In every state of every run a link goes from node to node as in the scenario, with its rate, delay and losses. Its
/// queue is of the scenario's kind, with its capacity and CoDel's parameters.
pub fn links_stay_as_stated()
    ensures { LinksStayAsStated }
{}

/// In every state of every run a router leads a flow's packets over the link of its route for the end of their path.
pub fn routers_stay_as_stated()
    ensures { RoutersStayAsStated }
{}

/// In every state of every run una <= nxt <= high <= the flow's bytes at each sender. Its receiver has what it knows to
/// be acknowledged, and in order a prefix of what was sent. A complete flow has delivered all (RFC 9293 section 3.4).
pub fn acknowledged_was_received()
    ensures { AcknowledgedWasReceived }
{}

/// In every state of every run cwnd and ssthresh are one segment at least. The receiver's window bounds what is in
/// flight (RFC 5681 sections 2 and 3.1).
pub fn windows_hold()
    ensures { WindowsHold }
{}

/// In every state of every run a sender's retransmission timer is set exactly while bytes are in flight. Its end is
/// then a pending event, and the timeout is from 1 to 60 seconds (RFC 6298 sections 2 and 5).
pub fn timers_run_while_bytes_are_in_flight()
    ensures { TimersRun }
{}

/// In every state of every run a flow that has started, and is not complete, has bytes in flight. Its retransmission
/// timer runs, so no flow can hang (RFC 6298 section 5.1).
pub fn no_flow_hangs()
    ensures { NoFlowHangs }
{}

/// In every state of every run all that was ever sent of a flow lies within the receiver's window beyond una (RFC 9293
/// section 3.8.6).
pub fn sent_fits_the_receivers_window()
    ensures { SendsWithinWindow }
{}

/// In every state of every run packets that are under way over one link arrive in the order in which they were sent.
pub fn arrivals_keep_the_order_of_sendings()
    ensures { ArrivalsKeepOrder }
{}

/// In every state of every run nothing waits at a link that sends nothing, and no more packets wait than the queue has
/// room for.
pub fn idle_links_are_empty()
    ensures { IdleLinksAreEmpty }
{}

/// At each position of every run each packet that was offered to a link was lost, dropped, sent, or waits. A drop is
/// the queue's, as the packet comes or at a take (RFC 8289). Each packet is counted once.
pub fn packets_are_conserved()
    ensures { PacketsAreConserved }
{}

/// At each event of every run a sender does what the row of its table says. New segments end at most at una + min(cwnd,
/// rwnd). Only at a first or second duplicate outside recovery they may end up to two segments past cwnd (RFC 5681
/// section 3.1, RFC 3042).
pub fn new_segments_fit_the_windows()
    ensures { AtEachSender FitsWindows }
{}

/// In every run a sender sends nothing more of a flow once all of it was acknowledged.
pub fn complete_flows_are_silent()
    ensures { AtEachSender IsSilentOnceComplete }
{}

/// In every run a retransmission timer that is set ends one rto later (RFC 6298 section 5).
pub fn timers_end_after_rto()
    ensures { AtEachSender EndsAfterRto }
{}

/// In every run each timeout doubles the rto, up to 60 seconds. Else the rto stays where no timed segment is
/// acknowledged (RFC 6298 sections 5.5 and 5.7).
pub fn rto_doubles_until_a_sample()
    ensures { AtEachSender GoesByTimeouts }
{}

/// In every run nothing that is sent again is timed (Karn's algorithm, RFC 6298 section 3).
pub fn nothing_resent_is_timed()
    ensures { AtEachSender TimesNoneResent }
{}

/// In every run a timeout sends una again and nothing else, and sets cwnd to one segment. Ssthresh becomes half of what
/// was in flight, two segments at least. A further timeout of the same segment leaves it (RFC 5681 section 3.1, RFC
/// 6298 section 5).
pub fn timeouts_are_answered()
    ensures { AtEachSender AnswersTimeouts }
{}

/// In every run duplicates are counted, anew after a new acknowledgement, and the third begins recovery, with NewReno
/// only past recover. Ssthresh is then half of what is in flight, without what limited transmit sent. Cwnd is three
/// segments more, and una is sent again. Recovery begins in no other way (RFC 5681 section 3.2, RFC 6582 section 3.2).
pub fn third_duplicates_are_answered()
    ensures { AtEachSender AnswersDuplicates }
{}

/// In every run ssthresh stays but where a timeout comes or recovery begins (RFC 5681 section 3.1).
pub fn ssthresh_stays_without_a_loss()
    ensures { AtEachSender ThresholdStaysWithoutLoss }
{}

/// In every run, outside recovery, a new acknowledgement lets cwnd grow. In slow start it grows by what is
/// acknowledged, one segment at most. Else it grows by mss * mss / cwnd, one byte at least. No other event but a
/// timeout changes it there (RFC 5681 section 3.1).
pub fn windows_grow_by_new_acknowledgements()
    ensures { AtEachSender GrowsByReno }
{}

/// In every run, in recovery, a duplicate lets cwnd grow by a segment, and a new acknowledgement ends it: cwnd is
/// ssthresh. But with NewReno one below recover is partial. Recovery goes on, and una is sent again. Cwnd falls by what
/// is acknowledged, and rises by a segment (RFC 5681 section 3.2, RFC 6582 section 3.2).
pub fn recovery_is_kept()
    ensures { AtEachSender KeepsRecovery }
{}

/// In every run a new acknowledgement moves una to what it acknowledges. Segments go from nxt on without a gap. Where a
/// recovery goes on, una is sent again, and one new segment that fits (RFC 6582 section 3.2). An old acknowledgement
/// does nothing (RFC 5681 section 3.1).
pub fn acknowledgements_are_taken()
    ensures { AtEachSender TakesAcknowledgements }
{}

/// In every run an early duplicate lets one new segment go within two more than cwnd, and it is counted (RFC 3042). In
/// recovery a duplicate lets one go within both windows. Any other sends nothing, but for una as recovery begins. The
/// timer stays (RFC 5681 section 3.2).
pub fn duplicates_let_segments_go()
    ensures { AtEachSender SendsAtDuplicates }
{}

/// In every run a timeout counts and times anew. NewReno's recover becomes high at a timeout and as recovery begins, and
/// stays else. The first partial acknowledgement of a recovery sets the timer anew, and no further one does (RFC 6582
/// section 3.2).
pub fn losses_are_marked()
    ensures { AtEachSender MarksLosses }
{}

/// In every run, where nothing is timed, a new segment that goes first is. SRTT and RTTVAR stay where nothing is
/// measured (RFC 6298 section 3).
pub fn segments_are_timed()
    ensures { AtEachSender TimesSegments }
{}

/// In every run a start, or a new acknowledgement outside recovery, leaves nothing unsent that fits the flow and both
/// windows (RFC 5681 section 3.1).
pub fn windows_are_filled()
    ensures { AtEachSender FillsWindows }
{}

/// In every run a new acknowledgement outside recovery that leaves bytes in flight sets the timer anew (RFC 6298 section
/// 5.3).
pub fn timers_are_restarted()
    ensures { AtEachSender RestartsTimer }
{}

/// In every run an acknowledgement of the timed segment measures its round trip. SRTT, RTTVAR and the rto go by it:
/// SRTT + max(1 ns, 4 RTTVAR), from 1 to 60 seconds (RFC 6298 section 2).
pub fn round_trips_are_measured()
    ensures { AtEachSender MeasuresRoundTrips }
{}

/// At each event of every run a sender's link is offered as many packets as the sender sends segments.
pub fn senders_offer_what_they_send()
    ensures { SendersOfferWhatTheySend }
{}

/// At each event of every run but those of its link a sender offers the segments of its row to its link. They come in
/// their order, 40 bytes longer than their data, and alone.
pub fn senders_offer_their_segments()
    ensures { SendersOfferSegments }
{}

/// In every run a router offers each packet that comes, as it came, to the link of its route, and nothing else.
pub fn routers_forward_what_comes()
    ensures { RoutersForward }
{}

/// In every run a receiver takes in each segment that comes. It acknowledges its next byte in that event, or after the
/// flow's delay (RFC 5681 section 4.2). It may wait only where the segment was the next
/// one, none above it has come, and no other answer waits.
pub fn receivers_acknowledge_what_comes()
    ensures { ReceiversAcknowledge }
{}

/// In every state of every run in which a receiver's answer waits, its end is a pending event, and the delay is the
/// flow's.
pub fn delayed_answers_are_due()
    ensures { DelayedAnswersAreDue }
{}

/// In every run the packets that a link begins to send arrive in turn and once. The first of them have arrived, and
/// each other one is under way.
pub fn packets_arrive_once()
    ensures { PacketsArriveOnce }
{}

/// At each event of every run packets leave a queue in the order in which they entered it. They are sent, or CoDel
/// drops them.
pub fn packets_leave_in_turn()
    ensures { AtEachLink LeavesInTurn }
{}

/// In every run what a packet waited at a link is the moment at which it leaves less the one at which it was offered.
/// An idle link sends the first that joins in that event: it waited for 0. While a link is busy, none leaves.
pub fn packets_wait_from_offer_to_sending()
    ensures { AtEachLink WaitsFromOffer }
{}

/// In every run a link loses the packets whose numbers its `lose` names, counted as they are offered, and no others. It
/// refuses a packet only where its queue is full.
pub fn links_turn_away_by_rule()
    ensures { AtEachLink TurnsAwayByRule }
{}

/// In every run a drop-tail queue drops nothing that entered it: what entered is sent.
pub fn drop_tail_sends_all_that_entered()
    ensures { AtEachLink SendsAllThatEntered }
{}

/// In every run a packet takes the time of its bits at the link's rate, rounded up to the nanosecond. So long the link
/// is busy, and one delay later the packet arrives at the link's end.
pub fn links_take_their_time()
    ensures { LinksTakeTheirTime }
{}

/// In every run a link sends one packet at a time.
pub fn links_send_one_by_one()
    ensures { AtEachLink SendsOneByOne }
{}

/// In every run the bits that a link has sent fit its rate and the time up to when the last one is out.
pub fn rates_hold()
    ensures { RatesHold }
{}

/// In every run a packet that CoDel drops has waited for the target at least. More than maxpacket bytes are behind it
/// (RFC 8289 section 5.6).
pub fn codel_drops_for_cause()
    ensures { AtEachLink DropsForCause }
{}

/// In every run CoDel's drops in drop state are due. Each moves the next one by a gap of the control law (RFC 8289
/// sections 5.4 and 5.5).
pub fn codel_drops_on_time()
    ensures { AtEachLink DropsOnTime }
{}

/// In every run CoDel drops the head and begins its drop state once heads were above target for an interval, and not
/// before. Above target is what waited for it with more than maxpacket bytes behind. Drop state ends where a packet
/// that is sent was not (RFC 8289 sections 5.5 and 5.6).
pub fn codel_drops_once_the_interval_is_over()
    ensures { AtEachLink KeepsDropState }
{}

/// In every run CoDel counts the drops of its drop state, which lasts while packets are above target. It begins with a
/// count of one, or with what the one before dropped after its first. The latter is so where that is more than one, and
/// less than 16 intervals passed since the next was due. The next drop is due a gap of the control law later (RFC 8289
/// sections 5.4 and 5.5).
pub fn codel_counts_its_drops()
    ensures { AtEachLink CountsDrops }
{}
