//! What a receiver answers, holds and puts off.
ghost use Rattle.std.specs.Prelude.{◌≡◌, ◌%◌, ◌≤◌};
ghost use Rattle.sim_time.specs.Moment.{IsMoment};

use reno_receiver::{Receiver, Reply};
use sim_time::Time;
use std::alloc::AllocError;
use std::process::Abort;
use std::test::Fail;

/// Whether an answer acknowledges at once, and the number or the moment that it has.
fn parts(reply: Reply) -> (bool, u64) {
    match reply {
        Reply::AckNow(number) => (true, number),
        Reply::Wait(time) => (false, time),
    }
}

/// A segment of 1,000 bytes comes, whose number was worked out with its answer and what is
/// then held. Where memory is refused, nothing has changed, and the segment comes again.
fn arrives(
    rt: &impl Abort,
    receiver: &mut Receiver,
    seq: u64,
    now: Time,
    answer: Reply,
    held: &[u64],
) -> Result<(), AllocError>
    requires segments { receiver.old.mss ≡ 1000 }
    requires multiple { seq % 1000 ≡ 0 }
    requires greatest { seq ≤ 9000000000000 }
    requires moment { IsMoment now }
    ensures { receiver.new.mss ≡ 1000 }
{
    let next = receiver.next();
    let before = receiver.held().len();
    let timer = receiver.timer();
    let reply = match receiver.on_data(seq, now) {
        Ok(reply) => reply,
        Err(_) => {
            assert_eq!(rt; receiver.next(), next);
            assert_eq!(rt; receiver.held().len(), before);
            assert_eq!(rt; receiver.timer(), timer);
            receiver.on_data(seq, now)?
        }
    };
    assert_eq!(rt; parts(reply), parts(answer), "at {seq}");
    assert_eq!(rt; receiver.held(), held, "at {seq}");
    Ok(())
}

#[test]
fn holes_are_filled_in_any_order(rt: HostRuntime) -> Result<(), Fail> {
    let mut receiver = Receiver::new(rt.alloc(), 1000, 200_000_000);
    let ack = Reply::AckNow;
    arrives(&rt, &mut receiver, 2000, 1, ack(0), &[2000])?;
    arrives(&rt, &mut receiver, 6000, 2, ack(0), &[2000, 6000])?;
    arrives(&rt, &mut receiver, 4000, 3, ack(0), &[2000, 4000, 6000])?;
    arrives(
        &rt,
        &mut receiver,
        3000,
        4,
        ack(0),
        &[2000, 3000, 4000, 6000],
    )?;
    arrives(
        &rt,
        &mut receiver,
        5000,
        5,
        ack(0),
        &[2000, 3000, 4000, 5000, 6000],
    )?;
    arrives(
        &rt,
        &mut receiver,
        0,
        6,
        ack(1000),
        &[2000, 3000, 4000, 5000, 6000],
    )?;
    arrives(
        &rt,
        &mut receiver,
        4000,
        7,
        ack(1000),
        &[2000, 3000, 4000, 5000, 6000],
    )?;
    arrives(&rt, &mut receiver, 1000, 8, ack(7000), &[])?;
    arrives(&rt, &mut receiver, 7000, 9, Reply::Wait(200_000_009), &[])?;
    arrives(&rt, &mut receiver, 9000, 10, ack(8000), &[9000])?;
    assert_eq!(rt; receiver.next(), 8000);
    assert_eq!(rt; receiver.timer(), None);
    Ok(())
}

#[test]
fn an_answer_waits_for_the_second_segment(rt: HostRuntime) -> Result<(), Fail> {
    let mut receiver = Receiver::new(rt.alloc(), 1000, 500_000_000);
    arrives(&rt, &mut receiver, 0, 70, Reply::Wait(500_000_070), &[])?;
    assert_eq!(rt; receiver.timer(), Some(500_000_070));
    arrives(&rt, &mut receiver, 2000, 80, Reply::AckNow(1000), &[2000])?;
    assert_eq!(rt; receiver.timer(), None);
    arrives(&rt, &mut receiver, 1000, 90, Reply::AckNow(3000), &[])?;
    arrives(&rt, &mut receiver, 0, 95, Reply::AckNow(3000), &[])?;
    arrives(&rt, &mut receiver, 3000, 100, Reply::Wait(500_000_100), &[])?;
    arrives(&rt, &mut receiver, 4000, 110, Reply::AckNow(5000), &[])?;
    assert_eq!(rt; receiver.timer(), None);
    Ok(())
}

#[test]
fn a_delayed_answer_is_due(rt: HostRuntime) -> Result<(), Fail> {
    let mut receiver = Receiver::new(rt.alloc(), 1000, 1);
    arrives(&rt, &mut receiver, 0, 5, Reply::Wait(6), &[])?;
    assert_eq!(rt; receiver.on_delack(), 1000);
    assert_eq!(rt; receiver.timer(), None);
    arrives(&rt, &mut receiver, 1000, 7, Reply::Wait(8), &[])?;
    Ok(())
}

#[test]
fn without_a_delay_no_answer_waits(rt: HostRuntime) -> Result<(), Fail> {
    let mut receiver = Receiver::new(rt.alloc(), 1000, 0);
    arrives(&rt, &mut receiver, 0, 5, Reply::AckNow(1000), &[])?;
    arrives(&rt, &mut receiver, 1000, 6, Reply::AckNow(2000), &[])?;
    Ok(())
}

#[test]
fn a_copy_goes_its_own_way(rt: HostRuntime) -> Result<(), Fail> {
    let mut receiver = Receiver::new(rt.alloc(), 1000, 1);
    arrives(&rt, &mut receiver, 2000, 5, Reply::AckNow(0), &[2000])?;
    let mut copy = match receiver.copy() {
        Ok(copy) => copy,
        Err(_) => receiver.copy()?,
    };
    arrives(&rt, &mut copy, 0, 6, Reply::AckNow(1000), &[2000])?;
    arrives(&rt, &mut copy, 1000, 7, Reply::AckNow(3000), &[])?;
    assert_eq!(rt; receiver.next(), 0);
    assert_eq!(rt; receiver.held(), [2000].as_slice());
    Ok(())
}
