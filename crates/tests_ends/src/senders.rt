//! Worked rows, the caps, and the limits of fields.
ghost use Rattle.sim_time.specs.Moment.{IsMoment};

use reno_sender::{Plan, Sender, SenderFields, SenderSettings, Timing, Variant, after_sample};
use sim_time::{RENO, Time};
use std::process::Abort;
use std::test::Fail;

const NEWRENO: Variant = Variant {
    newreno: true,
    ..RENO
};

/// Nothing in flight.
const AT_REST: SenderFields = SenderFields {
    mss: 1_000,
    segments: 20,
    rwnd: 64_000,
    variant: RENO,
    una: 0,
    nxt: 0,
    high: 0,
    cwnd: 4_000,
    ssthresh: 64_000,
    dups: 0,
    lt: 0,
    recovery: false,
    recover: None,
    partial: false,
    timing: None,
    srtt: None,
    rttvar: 0,
    rto: 1_000_000_000,
    deadline: None,
    resent: false,
};

/// Ten segments of 1,000 bytes in flight.
const TEN_OUT: SenderFields = SenderFields {
    segments: 1_000,
    nxt: 10_000,
    high: 10_000,
    cwnd: 10_000,
    deadline: Some(1_000_000_000),
    ..AT_REST
};

/// The same, after a third duplicate with NewReno.
const RECOVERING: SenderFields = SenderFields {
    variant: NEWRENO,
    cwnd: 8_000,
    ssthresh: 5_000,
    dups: 3,
    recovery: true,
    recover: Some(10_000),
    ..TEN_OUT
};

/// The greatest congestion window and threshold.
const CWND: u64 = 1_099_511_627_776;

/// The last moment, and the longest span.
const LAST: u64 = 2_000_000_000_000_000;

fn acknowledge(rt: &impl Abort, sender: &mut Sender, ack: u64, now: Time) -> Plan
    requires { IsMoment now }
{
    let fields = sender.fields();
    assert!(rt; ack % fields.mss == 0);
    assert!(rt; ack <= fields.high);
    if let Some(timing) = fields.timing {
        assert!(rt; timing.sent_at <= now);
    }
    let plan = sender.on_ack(ack, now);
    sender.commit_lent(&plan);
    plan
}

fn time_out(rt: &impl Abort, sender: &mut Sender, now: Time) -> Plan
    requires { IsMoment now }
{
    assert!(rt; sender.fields().deadline.is_some());
    let plan = sender.on_rto(now);
    sender.commit_lent(&plan);
    plan
}

/// What is sent again, and the run of others.
fn sent(plan: &Plan) -> (Option<u64>, u64, u64) {
    (plan.resent(), plan.first(), plan.count())
}

#[test]
fn samples_give_the_timeout(rt: HostRuntime) {
    assert_eq!(rt;
        after_sample(None, 0, 400_000_000),
        (400_000_000, 200_000_000, 1_200_000_000)
    );
    assert_eq!(rt;
        after_sample(Some(400_000_000), 200_000_000, 400_000_000),
        (400_000_000, 150_000_000, 1_000_000_000)
    );
    assert_eq!(rt; after_sample(None, 0, 200_000_000).2, 1_000_000_000);
}

#[test]
fn a_flow_starts_with_the_initial_window(rt: HostRuntime) {
    let mut sender = Sender::new(SenderSettings {
        mss: 1_000,
        segments: 10,
        rwnd: 64_000,
        variant: RENO,
    });
    let plan = sender.start(0);
    assert_eq!(rt; (plan.resent(), plan.first(), plan.count()), (None, 0, 4));
    sender.commit_lent(&plan);
    let fields = sender.fields();
    assert_eq!(rt; (fields.una, fields.nxt, fields.high), (0, 4_000, 4_000));
    assert_eq!(rt;
        fields.timing.map(|timing| (timing.number, timing.sent_at)),
        Some((1_000, 0))
    );
    assert_eq!(rt; fields.deadline, Some(1_000_000_000));
}

#[test]
fn five_duplicates_and_the_end_of_recovery(rt: HostRuntime) -> Result<(), Fail> {
    let mut sender = Sender::of_fields(TEN_OUT).ok_or("sound")?;
    let plan = acknowledge(&rt, &mut sender, 0, 1);
    assert_eq!(rt;
        (plan.resent(), plan.first(), plan.count()),
        (None, 10_000, 1)
    );
    let plan = acknowledge(&rt, &mut sender, 0, 2);
    assert_eq!(rt;
        (plan.resent(), plan.first(), plan.count()),
        (None, 11_000, 1)
    );
    let plan = acknowledge(&rt, &mut sender, 0, 3);
    assert_eq!(rt; (plan.resent(), plan.count()), (Some(0), 0));
    assert_eq!(rt;
        (sender.fields().ssthresh, sender.fields().cwnd),
        (5_000, 8_000)
    );
    for cwnd in [9_000, 10_000] {
        let plan = acknowledge(&rt, &mut sender, 0, 4);
        assert_eq!(rt; (plan.resent(), plan.count()), (None, 0));
        assert_eq!(rt; sender.fields().cwnd, cwnd);
    }
    let plan = acknowledge(&rt, &mut sender, 12_000, 5);
    assert_eq!(rt;
        (plan.resent(), plan.first(), plan.count()),
        (None, 12_000, 5)
    );
    assert_eq!(rt;
        (sender.fields().cwnd, sender.fields().recovery),
        (5_000, false)
    );
    Ok(())
}

/// Five duplicates, a partial acknowledgement, two duplicates of that and the end of recovery.
fn recovered(rt: &impl Abort) -> Result<Sender, Fail> {
    let fields = SenderFields {
        variant: NEWRENO,
        ..TEN_OUT
    };
    let mut sender = Sender::of_fields(fields).ok_or("sound")?;
    for now in 1..6 {
        let _plan = acknowledge(rt, &mut sender, 0, now);
    }
    let fields = sender.fields();
    assert_eq!(rt; (fields.cwnd, fields.recover), (10_000, Some(12_000)));
    assert_eq!(rt;
        (fields.deadline, fields.partial),
        (Some(1_000_000_000), false)
    );
    // ack, now, what is sent, cwnd, deadline.
    let rows = [
        (6_000, 6, (Some(6_000), 12_000, 0), 5_000, 1_000_000_006),
        (6_000, 7, (None, 12_000, 0), 6_000, 1_000_000_006),
        (6_000, 8, (None, 12_000, 1), 7_000, 1_000_000_006),
        (12_000, 9, (None, 13_000, 4), 5_000, 1_000_000_009),
    ];
    for (ack, now, numbers, cwnd, deadline) in rows {
        let plan = acknowledge(rt, &mut sender, ack, now);
        let fields = sender.fields();
        assert_eq!(rt; sent(&plan), numbers);
        assert_eq!(rt; (fields.una, fields.cwnd), (ack, cwnd));
        assert_eq!(rt; fields.deadline, Some(deadline));
        assert_eq!(rt; (fields.recovery, fields.partial), (ack < 12_000, true));
        assert_eq!(rt; fields.recover, Some(12_000));
    }
    Ok(sender)
}

#[test]
fn a_partial_acknowledgement_sends_one_segment_again(rt: HostRuntime) -> Result<(), Fail> {
    let sender = recovered(&rt)?;
    assert_eq!(rt; (sender.fields().nxt, sender.fields().dups), (17_000, 0));
    Ok(())
}

#[test]
fn duplicates_behind_recover_start_nothing(rt: HostRuntime) -> Result<(), Fail> {
    let mut sender = recovered(&rt)?;
    let rows = [
        ((None, 17_000, 1), 1),
        ((None, 18_000, 1), 2),
        ((None, 19_000, 0), 3),
        ((None, 19_000, 0), 4),
    ];
    for (numbers, dups) in rows {
        let plan = acknowledge(&rt, &mut sender, 12_000, 10);
        let fields = sender.fields();
        assert_eq!(rt; sent(&plan), numbers);
        assert_eq!(rt; (fields.dups, fields.cwnd), (dups, 5_000));
        assert_eq!(rt; (fields.ssthresh, fields.recovery), (5_000, false));
    }
    // Above recover the third duplicate finds a loss again.
    let plan = acknowledge(&rt, &mut sender, 13_000, 11);
    assert_eq!(rt;
        (sent(&plan), sender.fields().cwnd),
        ((None, 19_000, 0), 5_200)
    );
    for numbers in [
        (None, 19_000, 1),
        (None, 20_000, 0),
        (Some(13_000), 20_000, 0),
    ] {
        let plan = acknowledge(&rt, &mut sender, 13_000, 12);
        assert_eq!(rt; sent(&plan), numbers);
    }
    let fields = sender.fields();
    assert_eq!(rt; (fields.ssthresh, fields.cwnd), (3_000, 6_000));
    assert_eq!(rt; (fields.recover, fields.partial), (Some(20_000), false));
    Ok(())
}

#[test]
fn a_new_segment_follows_the_one_sent_again(rt: HostRuntime) -> Result<(), Fail> {
    // cwnd before, the segments of the flow, and how many new segments are sent.
    for (cwnd, segments, count) in [(10_000, 1_000, 1), (9_000, 1_000, 0), (10_000, 10, 0)] {
        let fields = SenderFields {
            cwnd,
            segments,
            ..RECOVERING
        };
        let mut sender = Sender::of_fields(fields).ok_or("sound")?;
        let plan = acknowledge(&rt, &mut sender, 1_000, 5);
        assert_eq!(rt; sent(&plan), (Some(1_000), 10_000, count));
        // Only the new segment is timed.
        let timed = sender.fields().timing.map(|timing| timing.number);
        assert_eq!(rt; timed, if count == 1 { Some(11_000) } else { None });
    }
    Ok(())
}

#[test]
fn the_floor_of_a_deflated_window(rt: HostRuntime) -> Result<(), Fail> {
    for (ack, cwnd) in [
        (4_000, 5_000),
        (7_000, 2_000),
        (8_000, 1_000),
        (9_000, 1_000),
    ] {
        let mut sender = Sender::of_fields(RECOVERING).ok_or("sound")?;
        let plan = acknowledge(&rt, &mut sender, ack, 5);
        assert_eq!(rt;
            (sent(&plan), sender.fields().cwnd),
            ((Some(ack), 10_000, 0), cwnd)
        );
        assert_eq!(rt;
            (sender.fields().ssthresh, sender.fields().dups),
            (5_000, 3)
        );
    }
    Ok(())
}

#[test]
fn a_later_partial_acknowledgement_leaves_the_timer(rt: HostRuntime) -> Result<(), Fail> {
    let mut sender = Sender::of_fields(RECOVERING).ok_or("sound")?;
    for (ack, now, count) in [(1_000, 5, 0), (2_000, 6, 0), (9_000, 7, 1)] {
        let plan = acknowledge(&rt, &mut sender, ack, now);
        assert_eq!(rt; sent(&plan), (Some(ack), 10_000, count));
        assert_eq!(rt;
            (sender.deadline(), sender.fields().partial),
            (Some(1_000_000_005), true)
        );
    }
    Ok(())
}

#[test]
fn a_timeout_sets_recover(rt: HostRuntime) -> Result<(), Fail> {
    for fields in [
        RECOVERING,
        SenderFields {
            variant: NEWRENO,
            ..TEN_OUT
        },
    ] {
        let mut sender = Sender::of_fields(fields).ok_or("sound")?;
        let plan = time_out(&rt, &mut sender, 1_000_000_000);
        assert_eq!(rt; sent(&plan), (Some(0), 1_000, 0));
        assert_eq!(rt;
            (sender.fields().recover, sender.fields().recovery),
            (Some(10_000), false)
        );
        // What comes of the segments before it starts no recovery, up to recover itself.
        for _again in 0..4 {
            let plan = acknowledge(&rt, &mut sender, 0, 1_000_000_001);
            assert_eq!(rt; sent(&plan), (None, 1_000, 0));
        }
        assert_eq!(rt;
            (sender.fields().dups, sender.fields().recovery),
            (4, false)
        );
        assert_eq!(rt;
            (sender.fields().cwnd, sender.fields().ssthresh),
            (1_000, 5_000)
        );
    }
    let mut sender = Sender::of_fields(TEN_OUT).ok_or("sound")?;
    let _plan = time_out(&rt, &mut sender, 1_000_000_000);
    assert_eq!(rt; sender.fields().recover, None);
    Ok(())
}

#[test]
fn two_timeouts_lower_ssthresh_once(rt: HostRuntime) -> Result<(), Fail> {
    let mut sender = Sender::of_fields(TEN_OUT).ok_or("sound")?;
    for (now, rto) in [
        (1_000_000_000, 2_000_000_000),
        (3_000_000_000, 4_000_000_000),
    ] {
        let plan = time_out(&rt, &mut sender, now);
        assert_eq!(rt; (plan.resent(), plan.count()), (Some(0), 0));
        let fields = sender.fields();
        assert_eq!(rt;
            (fields.ssthresh, fields.cwnd, fields.rto),
            (5_000, 1_000, rto)
        );
        assert_eq!(rt; fields.deadline, Some(now + rto));
    }
    // What was sent before the timeouts is sent again, and none of it is timed.
    let plan = acknowledge(&rt, &mut sender, 1_000, 3_000_000_001);
    assert_eq!(rt;
        (plan.resent(), plan.first(), plan.count()),
        (None, 1_000, 2)
    );
    assert_eq!(rt;
        (sender.fields().timing.is_none(), sender.fields().high),
        (true, 10_000)
    );
    Ok(())
}

#[test]
fn avoidance_grows_by_a_segment_a_round(rt: HostRuntime) -> Result<(), Fail> {
    for (cwnd, grown) in [(10_000, 10_100), (1_000_001, 1_000_002)] {
        let fields = SenderFields {
            cwnd,
            ssthresh: 10_000,
            ..TEN_OUT
        };
        let mut sender = Sender::of_fields(fields).ok_or("sound")?;
        let _plan = acknowledge(&rt, &mut sender, 1_000, 1);
        assert_eq!(rt; sender.fields().cwnd, grown);
    }
    Ok(())
}

#[test]
fn the_window_and_the_duplicates_stop_at_their_caps(rt: HostRuntime) -> Result<(), Fail> {
    let starting = SenderFields {
        cwnd: CWND - 500,
        ssthresh: CWND,
        ..TEN_OUT
    };
    let avoiding = SenderFields {
        cwnd: CWND,
        ssthresh: CWND,
        ..TEN_OUT
    };
    for fields in [starting, avoiding] {
        let mut sender = Sender::of_fields(fields).ok_or("sound")?;
        let _plan = acknowledge(&rt, &mut sender, 1_000, 1);
        assert_eq!(rt; sender.fields().cwnd, CWND);
    }
    let recovering = SenderFields {
        dups: 4_294_967_294,
        recovery: true,
        ..starting
    };
    let mut sender = Sender::of_fields(recovering).ok_or("sound")?;
    for _again in 0..2 {
        let _plan = acknowledge(&rt, &mut sender, 0, 1);
        assert_eq!(rt;
            (sender.fields().dups, sender.fields().cwnd),
            (4_294_967_295, CWND)
        );
    }
    Ok(())
}

#[test]
fn a_run_of_many_segments_is_one_plan(rt: HostRuntime) -> Result<(), Fail> {
    let fields = SenderFields {
        mss: 1,
        segments: 1_000_000_000,
        rwnd: 1_073_741_824,
        ssthresh: CWND,
        cwnd: 13_000,
        dups: 3,
        recovery: true,
        ..TEN_OUT
    };
    let mut sender = Sender::of_fields(fields).ok_or("sound")?;
    let plan = acknowledge(&rt, &mut sender, 10_000, 1);
    assert_eq!(rt; (plan.first(), plan.count()), (10_000, 999_990_000));
    Ok(())
}

#[test]
fn sizes_have_limits(rt: HostRuntime) {
    // mss, segments, rwnd, and whether a sender can keep them.
    let rows = [
        (1, 1, 1, true),
        (0, 1, 1, false),
        (1, 0, 1, false),
        (2, 1, 1, false),
        (9_000, 1_000_000_000, 1_073_741_824, true),
        (9_001, 1_000_000_000, 1_073_741_824, false),
        (9_000, 1_000_000_001, 1_073_741_824, false),
        (9_000, 1_000_000_000, 1_073_741_825, false),
    ];
    for (mss, segments, rwnd, sound) in rows {
        let fields = SenderFields {
            mss,
            segments,
            rwnd,
            cwnd: 9_001,
            ..AT_REST
        };
        assert_eq!(rt; Sender::of_fields(fields).is_some(), sound);
    }
}

#[test]
fn windows_and_the_timeout_have_limits(rt: HostRuntime) {
    // cwnd, ssthresh, rto, rttvar, and whether a sender can keep them.
    let rows = [
        (1_000, 1_000, 1_000_000_000, 0, true),
        (999, 1_000, 1_000_000_000, 0, false),
        (1_000, 999, 1_000_000_000, 0, false),
        (1_000, 1_000, 999_999_999, 0, false),
        (CWND, CWND, 60_000_000_000, LAST, true),
        (CWND + 1, CWND, 60_000_000_000, LAST, false),
        (CWND, CWND + 1, 60_000_000_000, LAST, false),
        (CWND, CWND, 60_000_000_001, LAST, false),
        (CWND, CWND, 60_000_000_000, LAST + 1, false),
    ];
    for (cwnd, ssthresh, rto, rttvar, sound) in rows {
        let fields = SenderFields {
            cwnd,
            ssthresh,
            rto,
            rttvar,
            ..AT_REST
        };
        assert_eq!(rt; Sender::of_fields(fields).is_some(), sound);
    }
}

#[test]
fn byte_numbers_and_duplicates_have_limits(rt: HostRuntime) {
    // una, nxt, high, segments, rwnd, lt, dups, recovery, and whether a sender can keep them.
    let rows = [
        (1_000, 5_000, 6_000, 6, 4_000, 4_000, 2, false, true),
        (1_000, 5_000, 6_000, 6, 4_000, 4_000, 3, true, true),
        (1_000, 5_000, 6_000, 6, 4_000, 4_000, 2, true, false),
        (1_000, 5_000, 6_000, 6, 4_000, 4_000, 3, false, false),
        (1_000, 5_000, 6_000, 6, 4_000, 4_001, 0, false, false),
        (1_000, 5_000, 6_000, 6, 3_999, 0, 0, false, false),
        (1_000, 5_000, 6_000, 5, 4_000, 0, 0, false, false),
        (1_000, 6_000, 5_000, 6, 5_000, 0, 0, false, false),
        (5_000, 4_000, 6_000, 6, 4_000, 0, 0, false, false),
        (1_001, 5_000, 6_000, 6, 4_000, 0, 0, false, false),
        (1_000, 4_999, 6_000, 6, 4_000, 0, 0, false, false),
        (1_000, 5_000, 5_999, 6, 4_000, 0, 0, false, false),
    ];
    for (una, nxt, high, segments, rwnd, lt, dups, recovery, sound) in rows {
        let deadline = if una < nxt { Some(9) } else { None };
        let fields = SenderFields {
            una,
            nxt,
            high,
            segments,
            rwnd,
            lt,
            dups,
            recovery,
            deadline,
            ..AT_REST
        };
        assert_eq!(rt; Sender::of_fields(fields).is_some(), sound);
    }
}

#[test]
fn what_reno_keeps_of_losses_has_limits(rt: HostRuntime) {
    // dups, recovery, recover, partial, and whether a sender can keep them.
    let rows = [
        (2, false, None, false, true),
        (3, true, None, false, true),
        (2, true, None, false, false),
        (3, false, None, false, false),
        (3, true, Some(10_000), false, false),
        (2, false, Some(10_000), false, false),
        (3, true, None, true, false),
        (2, false, None, true, false),
    ];
    for (dups, recovery, recover, partial, sound) in rows {
        let fields = SenderFields {
            dups,
            recovery,
            recover,
            partial,
            ..TEN_OUT
        };
        assert_eq!(rt; Sender::of_fields(fields).is_some(), sound);
    }
}

#[test]
fn what_newreno_keeps_of_losses_has_limits(rt: HostRuntime) {
    // una, nxt, dups, recovery, recover, and whether a sender can keep them with high 10,000.
    let rows = [
        (1_000, 10_000, 2, false, None, true),
        (1_000, 10_000, 3, false, None, true),
        (1_000, 10_000, 9, false, Some(10_000), true),
        (1_000, 10_000, 2, false, Some(10_001), false),
        (1_000, 10_000, 3, true, Some(10_001), false),
        (1_000, 9_000, 2, false, None, false),
        (1_000, 9_000, 2, false, Some(9_000), false),
        (1_000, 9_000, 2, false, Some(10_000), true),
        (1_000, 9_000, 3, true, Some(10_000), false),
        (1_000, 10_000, 3, true, Some(10_000), true),
        (1_000, 10_000, 3, true, Some(1_001), true),
        (1_000, 10_000, 3, true, Some(1_000), false),
        (1_000, 10_000, 3, true, None, false),
        (1_000, 10_000, 2, true, Some(10_000), false),
    ];
    for (una, nxt, dups, recovery, recover, sound) in rows {
        for partial in [false, true] {
            let fields = SenderFields {
                una,
                nxt,
                dups,
                recovery,
                recover,
                partial,
                ..RECOVERING
            };
            assert_eq!(rt; Sender::of_fields(fields).is_some(), sound);
        }
    }
}

#[test]
fn times_have_limits(rt: HostRuntime) {
    // The timed number, when it was sent, srtt, the deadline, and whether a sender can keep them.
    let rows = [
        (1_001, 0, 0, Some(0), true),
        (6_000, LAST, LAST, Some(LAST), true),
        (1_000, LAST, LAST, Some(LAST), false),
        (6_001, LAST, LAST, Some(LAST), false),
        (6_000, LAST + 1, LAST, Some(LAST), false),
        (6_000, LAST, LAST + 1, Some(LAST), false),
        (6_000, LAST, LAST, Some(LAST + 1), false),
        (6_000, LAST, LAST, None, false),
    ];
    for (number, sent_at, srtt, deadline, sound) in rows {
        let fields = SenderFields {
            una: 1_000,
            nxt: 5_000,
            high: 6_000,
            timing: Some(Timing { number, sent_at }),
            srtt: Some(srtt),
            deadline,
            ..AT_REST
        };
        assert_eq!(rt; Sender::of_fields(fields).is_some(), sound);
    }
    let waiting_for_nothing = SenderFields {
        deadline: Some(1),
        ..AT_REST
    };
    assert!(rt; Sender::of_fields(waiting_for_nothing).is_none());
}

#[test]
fn readers_agree(rt: HostRuntime) -> Result<(), Fail> {
    let mut sender = Sender::of_fields(TEN_OUT).ok_or("sound")?;
    assert_eq!(rt; sender.deadline(), Some(1_000_000_000));
    assert_eq!(rt; sender.as_fields().cwnd, 10_000);
    let plan = sender.on_rto(1_000_000_000);
    assert_eq!(rt; plan.as_fields().cwnd, 1_000);
    sender.commit_lent(&plan);
    assert_eq!(rt; sender.deadline(), Some(3_000_000_000));
    Ok(())
}
