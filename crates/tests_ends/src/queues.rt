//! Three worked histories of a CoDel queue, drop-tail at its capacity, and copies.
ghost use Rattle.std.specs.Prelude.{◌≤◌};
ghost use Rattle.sim_time.specs.Moment.{IsMoment};

use aqm::{Codel, DropTail, Offered, Queue};
use packet_chain::{Iter, Kind, Packet, PacketBytes, PacketCell, PacketChain};
use sim_time::Time;
use std::alloc::{AllocError, Global};
use std::process::Abort;
use std::test::Fail;

/// A cell with a packet of 1,040 bytes, known by its number.
fn cell(rt: &impl Abort, alloc: Global, number: u64) -> Result<PacketCell, AllocError> {
    let packet = Packet {
        flow: 0,
        kind: Kind::Data,
        number,
        bytes: PacketBytes::new(1040).expect(rt, "a size"),
    };
    let cell = PacketCell::new(alloc, packet)?;
    Ok(cell)
}

/// These packets come, and no others.
fn expect_numbers(rt: &impl Abort, mut packets: Iter<'_>, numbers: &[u64], now: Time) {
    for number in numbers {
        let (packet, _entered) = packets.next().expect(rt, "a packet");
        assert_eq!(rt; packet.number, *number, "at {now}");
    }
    assert!(rt; packets.next().is_none(), "at {now}");
}

/// Offers packets of these numbers, of which so many are refused.
fn enter(
    rt: &impl Abort,
    alloc: Global,
    queue: &mut Queue,
    numbers: &[u64],
    now: Time,
    refused: u64,
) -> Result<(), AllocError>
    requires { IsMoment now }
{
    let mut full: u64 = 0;
    for number in numbers {
        if let Offered::Dropped(_, _) = queue.offer(cell(rt, alloc, *number)?, now) {
            full = full.saturating_add(1);
        }
    }
    assert_eq!(rt; full, refused, "at {now}");
    Ok(())
}

/// Count, lastcount, drop_next and whether the queue is in drop state.
type Control = (u32, u32, Time, bool);

fn control(queue: &Queue) -> Option<Control> {
    match queue {
        Queue::DropTail(_) => None,
        Queue::Codel(codel) => Some((
            codel.count(),
            codel.lastcount(),
            codel.drop_next(),
            codel.dropping(),
        )),
    }
}

/// A moment of a take, the packets dropped and the one given, the control afterwards, and the
/// packets that are offered then, with the number of those that are refused.
type DropRow<'a> = (
    Time,
    &'a [u64],
    Option<u64>,
    Option<Control>,
    &'a [u64],
    u64,
);

/// Takes at the moment of each row, after these packets have entered at 0.
fn follow(
    rt: &impl Abort,
    alloc: Global,
    mut queue: Queue,
    first: &[u64],
    rows: &[DropRow<'_>],
) -> Result<(), AllocError> {
    enter(rt, alloc, &mut queue, first, 0, 0)?;
    for (now, numbers, given, after, offered, refused) in rows {
        assert!(rt; *now <= 1_000_000_000);
        assert_eq!(rt; queue.drops_at(*now), numbers.len(), "at {now}");
        let mut dropped = PacketChain::new(alloc);
        let taken = queue.take(*now, &mut dropped);
        expect_numbers(rt, dropped.iter(), numbers, *now);
        assert_eq!(rt; taken.map(|cell| cell.packet().number), *given, "at {now}");
        assert_eq!(rt; control(&queue), *after, "at {now}");
        enter(rt, alloc, &mut queue, offered, *now, *refused)?;
    }
    Ok(())
}

#[test]
fn drops_once_and_never_the_last_packet(rt: HostRuntime) -> Result<(), Fail> {
    let rows: [DropRow<'_>; 4] = [
        (10_000_000, &[], Some(0), Some((0, 0, 0, false)), &[], 0),
        (
            110_000_000,
            &[1],
            Some(2),
            Some((1, 1, 210_000_000, true)),
            &[],
            0,
        ),
        (
            120_000_000,
            &[],
            None,
            Some((1, 1, 210_000_000, false)),
            &[3],
            0,
        ),
        (
            900_000_000,
            &[],
            Some(3),
            Some((1, 1, 210_000_000, false)),
            &[],
            0,
        ),
    ];
    let codel = Codel::new(rt.alloc(), 20, 5_000_000, 100_000_000, 1000);
    follow(&rt, rt.alloc(), Queue::Codel(codel), &[0, 1, 2], &rows)?;
    Ok(())
}

#[test]
fn drops_ever_closer_and_goes_on_soon_after(rt: HostRuntime) -> Result<(), Fail> {
    let offered = [12, 13, 14, 15, 16, 17];
    let rows: [DropRow<'_>; 8] = [
        (10_000_000, &[], Some(0), Some((0, 0, 0, false)), &[], 0),
        (
            110_000_000,
            &[1],
            Some(2),
            Some((1, 1, 210_000_000, true)),
            &[],
            0,
        ),
        (
            210_000_000,
            &[3],
            Some(4),
            Some((2, 1, 280_710_678, true)),
            &[],
            0,
        ),
        (
            400_000_000,
            &[5, 6, 7],
            Some(8),
            Some((5, 1, 433_167_063, true)),
            &[],
            0,
        ),
        (
            420_000_000,
            &[],
            Some(9),
            Some((5, 1, 433_167_063, true)),
            &[],
            0,
        ),
        (
            425_000_000,
            &[],
            Some(10),
            Some((5, 1, 433_167_063, false)),
            &offered,
            0,
        ),
        (
            430_000_000,
            &[],
            Some(11),
            Some((5, 1, 433_167_063, false)),
            &[],
            0,
        ),
        (
            530_000_000,
            &[12],
            Some(13),
            Some((4, 4, 580_000_000, true)),
            &[],
            0,
        ),
    ];
    let first = [0, 1, 2, 3, 4, 5, 6, 7, 8, 9, 10, 11];
    let codel = Codel::new(rt.alloc(), 20, 5_000_000, 100_000_000, 1500);
    follow(&rt, rt.alloc(), Queue::Codel(codel), &first, &rows)?;
    Ok(())
}

/// Begins drop state at a moment after one in which five packets were dropped, the last of them due at 4,231,679.
fn goes_on(rt: &impl Abort, alloc: Global, now: Time, after: Control) -> Result<(), AllocError> {
    let rows: [DropRow<'_>; 6] = [
        (10, &[], Some(0), Some((0, 0, 0, false)), &[], 0),
        (
            1_000_010,
            &[1],
            Some(2),
            Some((1, 1, 2_000_010, true)),
            &[],
            0,
        ),
        (
            3_784_466,
            &[3, 4, 5, 6],
            Some(7),
            Some((5, 1, 4_231_679, true)),
            &[],
            0,
        ),
        (
            3_784_467,
            &[],
            Some(8),
            Some((5, 1, 4_231_679, false)),
            &[9, 10, 11, 12],
            0,
        ),
        (
            4_000_000,
            &[],
            Some(9),
            Some((5, 1, 4_231_679, false)),
            &[],
            0,
        ),
        (now, &[10], Some(11), Some(after), &[], 0),
    ];
    let codel = Codel::new(alloc, 20, 1, 1_000_000, 1000);
    let first = [0, 1, 2, 3, 4, 5, 6, 7, 8];
    follow(rt, alloc, Queue::Codel(codel), &first, &rows)
}

#[test]
fn a_drop_state_is_recent_below_16_intervals(rt: HostRuntime) -> Result<(), Fail> {
    let alloc = rt.alloc();
    goes_on(&rt, alloc, 20_231_678, (4, 4, 20_731_678, true))?;
    goes_on(&rt, alloc, 20_231_679, (1, 1, 21_231_679, true))?;
    goes_on(&rt, alloc, 20_231_680, (1, 1, 21_231_680, true))?;
    Ok(())
}

#[test]
fn drop_tail_refuses_what_is_beyond_its_capacity(rt: HostRuntime) -> Result<(), Fail> {
    let rows: [DropRow<'_>; 3] = [
        (8, &[], Some(0), None, &[2, 3], 1),
        (1_000_000_000, &[], Some(1), None, &[4, 5], 1),
        (1_000_000_000, &[], Some(2), None, &[], 0),
    ];
    let queue = Queue::DropTail(DropTail::new(rt.alloc(), 2));
    follow(&rt, rt.alloc(), queue, &[0, 1], &rows)?;
    Ok(())
}

// dev/refuse_tests.sh runs this with each request for memory refused in turn: the source stays,
// and a second copy is made. The gate refuses none: cells come from the C library's heap alone, and
// no test can make that refuse.
#[test]
fn copies_are_in_the_same_state(rt: HostRuntime) {
    let alloc = rt.alloc();
    let queues = [
        Queue::DropTail(DropTail::new(alloc, 3)),
        Queue::Codel(Codel::new(alloc, 3, 1, 1, 1)),
    ];
    for mut queue in queues {
        if enter(&rt, alloc, &mut queue, &[0, 1, 2], 4, 0).is_err() {
            return;
        }
        let copied = match queue.copy() {
            Ok(copied) => copied,
            Err(_) => {
                expect_numbers(&rt, queue.packets(), &[0, 1, 2], 4);
                queue.copy().expect(&rt, "one request is refused")
            }
        };
        expect_numbers(&rt, queue.packets(), &[0, 1, 2], 4);
        expect_numbers(&rt, copied.packets(), &[0, 1, 2], 4);
        assert_eq!(rt; control(&copied), control(&queue));
    }
}
