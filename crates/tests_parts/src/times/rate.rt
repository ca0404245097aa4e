//! Rates, and how long packets take.

use sim_time::{Rate, serial_ns};
use std::test::Fail;

#[test]
fn a_packet_takes_its_bits_rounded_up(rt: HostRuntime) -> Result<(), Fail> {
    let fast = Rate::new(10_000_000).ok_or("rate")?;
    let odd = Rate::new(3_000_000).ok_or("rate")?;
    assert_eq!(rt; serial_ns(1500, fast), 1_200_000);
    assert_eq!(rt; serial_ns(1040, odd), 2_773_334);
    Ok(())
}

#[test]
fn a_rate_has_limits(rt: HostRuntime) {
    assert!(rt; Rate::new(999).is_none());
    assert!(rt; Rate::new(1_000).is_some());
    assert!(rt; Rate::new(1_000_000_000_000).is_some());
    assert!(rt; Rate::new(1_000_000_000_001).is_none());
}
