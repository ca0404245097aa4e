//! Initial windows.

use sim_time::{Iw, initial_window};

#[test]
fn the_steps_are_at_1095_and_2190(rt: HostRuntime) {
    assert_eq!(rt; initial_window(1095, Iw::Iw3), 4380);
    assert_eq!(rt; initial_window(1096, Iw::Iw3), 3288);
    assert_eq!(rt; initial_window(2190, Iw::Iw3), 6570);
    assert_eq!(rt; initial_window(2191, Iw::Iw3), 4382);
}

#[test]
fn the_larger_window_has_its_steps(rt: HostRuntime) {
    assert_eq!(rt; initial_window(1, Iw::Iw10), 10);
    assert_eq!(rt; initial_window(1000, Iw::Iw10), 10_000);
    assert_eq!(rt; initial_window(1460, Iw::Iw10), 14_600);
    assert_eq!(rt; initial_window(1461, Iw::Iw10), 14_600);
    assert_eq!(rt; initial_window(7300, Iw::Iw10), 14_600);
    assert_eq!(rt; initial_window(7301, Iw::Iw10), 14_602);
    assert_eq!(rt; initial_window(9000, Iw::Iw10), 18_000);
}
