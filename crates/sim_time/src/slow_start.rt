//! The window that a sender begins with (RFC 5681 section 3.1, RFC 6928 section 2).
ghost use Rattle.std.specs.Prelude.{◌≡◌, ◌≤◌, ◌*◌};
ghost use Rattle.sim_time.specs.InitialWindow.{initial_window_of};

use crate::variant::Iw;

/// The initial window for segments of so many bytes, in bytes: two to four segments, the more
/// the smaller they are (RFC 5681 section 3.1), or ten, of which few are larger than a usual packet
/// (RFC 6928 section 2).
pub fn initial_window(mss: u64, iw: Iw) -> u64
    requires least { 1 ≤ mss }
    requires greatest { mss ≤ 9000 }
    ensures value { result ≡ initial_window_of mss iw }
    ensures least { mss ≤ result }
    ensures greatest { result ≤ 10 * mss }
{
    match iw {
        Iw::Iw3 => {
            if mss > 2190 {
                2 * mss
            } else if mss > 1095 {
                3 * mss
            } else {
                4 * mss
            }
        }
        Iw::Iw10 => (10 * mss).min((2 * mss).max(14_600)),
    }
}
