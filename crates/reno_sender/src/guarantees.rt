//! What every row of the sender's table keeps. Each function does nothing: its contract is the law.
ghost use Rattle.reno_sender.specs.Laws.{AcknowledgementKeeps, AcknowledgementNeverTimesResent, FillIsAllAllowed, InitialIsSound, LossKeepsWindows, ProgressKeepsWindow, ReachableIsSound, RecoveryLasts, RtoStaysUntilSample, StartKeeps, StartNeverTimesResent, ThresholdAtFurtherTimeout, ThresholdAtRecovery, ThresholdAtTimeout, ThresholdStays, TimeoutDoublesRto, TimeoutKeeps, TimeoutNeverTimesResent};

/// The facts on fields hold in every state that a flow reaches.
pub fn reachable_is_sound()
    ensures { ReachableIsSound }
{}

/// Each row keeps the facts on fields; `una` and `high` never fall; what is sent lies within the
/// receiver's window and the flow.
pub fn rows_keep()
    ensures initial { InitialIsSound }
    ensures start { StartKeeps }
    ensures acknowledgement { AcknowledgementKeeps }
    ensures timeout { TimeoutKeeps }
{}

/// Whatever loss recovery says, congestion control leaves windows of one segment at least, within its limit.
pub fn control_keeps_windows()
    ensures progress { ProgressKeepsWindow }
    ensures loss { LossKeepsWindows }
{}

/// What may be sent is sent, and nothing else (RFC 5681 section 3.1).
pub fn fill_is_all_allowed()
    ensures { FillIsAllAllowed }
{}

/// `ssthresh` is at least two segments after a loss, moves at a loss alone, and stays at a
/// further timeout of the same segment (RFC 5681 section 3.1).
pub fn threshold_follows_losses()
    ensures at_recovery { ThresholdAtRecovery }
    ensures at_timeout { ThresholdAtTimeout }
    ensures at_further_timeout { ThresholdAtFurtherTimeout }
    ensures otherwise { ThresholdStays }
{}

/// A retransmission is never timed (RFC 6298 section 3).
pub fn resent_is_never_timed()
    ensures start { StartNeverTimesResent }
    ensures acknowledgement { AcknowledgementNeverTimesResent }
    ensures timeout { TimeoutNeverTimesResent }
{}

/// A timeout doubles the retransmission timeout, up to sixty seconds, and it stays until the
/// next sample (RFC 6298 section 5).
pub fn rto_backs_off()
    ensures doubles { TimeoutDoublesRto }
    ensures stays { RtoStaysUntilSample }
{}

/// In recovery a NewReno sender takes a new acknowledgement below `recover` for a partial one: recovery goes on
/// exactly then, and the first byte that is not acknowledged is sent again (RFC 6582 section 3.2 step 3).
pub fn recovery_lasts_until_recover()
    ensures { RecoveryLasts }
{}
