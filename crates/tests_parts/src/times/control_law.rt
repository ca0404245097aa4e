//! How far apart drops are.
ghost use Rattle.std.specs.Prelude.{◌≤◌};

use sim_time::{Time, gap};
use std::process::Abort;

// The gap behind so many drops.
fn expect(rt: &impl Abort, interval: Time, count: u32, wanted: Time)
    requires least { 1 ≤ interval }
    requires most { interval ≤ 10000000000 }
    requires counted { 1 ≤ count }
{
    assert_eq!(rt; gap(interval, count), wanted);
}

#[test]
fn the_gaps_of_a_tenth_of_a_second(rt: HostRuntime) {
    let gaps: [Time; 6] = [
        100_000_000,
        70_710_678,
        57_735_026,
        50_000_000,
        44_721_359,
        40_824_829,
    ];
    for count in 1..7u32 {
        expect(&rt, 100_000_000, count, gaps[count as usize - 1]);
    }
}

#[test]
fn gaps_are_exact_at_the_limits(rt: HostRuntime) {
    expect(&rt, 1, 2, 0);
    expect(&rt, 1, 4_294_967_295, 0);
    expect(&rt, 10_000_000_000, 1, 10_000_000_000);
    expect(&rt, 10_000_000_000, 2, 7_071_067_811);
    expect(&rt, 10_000_000_000, 4_294_967_295, 152_587);
}
