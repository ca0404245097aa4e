//! Congestion control: what the congestion window and the slow start threshold become (RFC 5681 sections 3.1 and 3.2,
//! with NewReno RFC 6582 section 3.2). Loss recovery asks it at each of its rows. Each way to grow is a module below this
//! one, and `window_at` alone chooses among them.
ghost use Rattle.std.specs.Prelude.{◌≡◌, ◌≤◌, ◌^◌};
ghost use Rattle.reno_sender.specs.Fields.{IsSound};
ghost use Rattle.reno_sender.specs.RenoGrowth.{enlarged};
ghost use Rattle.reno_sender.specs.CongestionControl.{halved, lowered_at, window_at};

mod reno;

use crate::fields::SenderFields;

/// The congestion window stops here, in bytes.
pub const MOST_CWND: u64 = 1_099_511_627_776;

/// What loss recovery says where it finds no loss.
pub(crate) enum Progress {
    /// So many bytes are newly acknowledged, outside recovery.
    NewData(u64),
    /// A further duplicate has come in recovery: a segment has left the network.
    FurtherDuplicate,
    /// So many bytes are newly acknowledged, and recovery goes on.
    PartialData(u64),
    /// A new acknowledgement ends recovery.
    RecoveryEnd,
}

/// How loss recovery found a loss.
pub(crate) enum Loss {
    /// By the third duplicate acknowledgement.
    ByDuplicates,
    /// By the retransmission timer.
    ByTimer,
}

/// What a loss leaves.
pub(crate) struct Lowered {
    /// The slow start threshold, in bytes.
    pub ssthresh: u64,
    /// The congestion window, in bytes.
    pub cwnd: u64,
}

/// The window with so many bytes more.
fn enlarged(cwnd: u64, bytes: u64) -> u64
    requires cwnd { cwnd ≤ MOST_CWND }
    requires bytes { bytes ≤ MOST_CWND }
    ensures { result ≡ enlarged cwnd bytes }
{
    (cwnd + bytes).min(MOST_CWND)
}

/// The threshold after a loss with so many bytes in flight: half of them, at least two segments
/// (RFC 5681 section 3.1, equation 4).
fn halved(flight: u64, mss: u64) -> u64
    requires { mss ≤ 9000 }
    ensures { result ≡ halved flight mss }
{
    (flight / 2).max(2 * mss)
}

/// The congestion window where no loss is found. The threshold stays.
#[inline(always)]
pub(crate) fn window_at(fields: &SenderFields, progress: Progress) -> u64
    requires { IsSound fields.now }
    ensures { result ≡ window_at fields.now progress }
{
    match progress {
        Progress::NewData(bytes) => reno::grown(fields, bytes),
        Progress::FurtherDuplicate => enlarged(fields.cwnd, fields.mss),
        Progress::PartialData(bytes) => {
            (fields.cwnd + fields.mss)
                .saturating_sub(bytes)
                .max(fields.mss)
        }
        Progress::RecoveryEnd => fields.ssthresh,
    }
}

/// The threshold and the window where a loss is found.
#[inline(always)]
pub(crate) fn lowered_at(fields: &SenderFields, loss: Loss) -> Lowered
    requires { IsSound fields.now }
    ensures { result ≡ lowered_at fields.now loss }
{
    let flight = fields.nxt - fields.una;
    match loss {
        Loss::ByDuplicates => {
            let ssthresh = halved(flight - fields.lt, fields.mss);
            Lowered {
                ssthresh,
                cwnd: ssthresh + 3 * fields.mss,
            }
        }
        Loss::ByTimer => {
            let ssthresh = if fields.resent {
                fields.ssthresh
            } else {
                halved(flight, fields.mss)
            };
            Lowered {
                ssthresh,
                cwnd: fields.mss,
            }
        }
    }
}
