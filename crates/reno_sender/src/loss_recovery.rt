//! Loss recovery: when it begins and ends, and which of the two it is (RFC 5681 section 3.2, RFC 6582 section 3.2). Its
//! rows stand in the modules below; what the windows become they ask of congestion control.
ghost use Rattle.std.specs.Prelude.{◌≡◌};
ghost use Rattle.reno_sender.specs.Fields.{IsSound, is_newreno};
ghost use Rattle.reno_sender.specs.LossRecovery.{enters, is_partial, may_send_new, one_more, recover_at_loss};

pub(crate) mod acknowledgement;
mod duplicates;
mod partial;
pub(crate) mod timeout;

use crate::fields::SenderFields;

/// The count of duplicates stops here.
pub const MOST_DUPLICATES: u64 = 4_294_967_295;

/// Whether the sender recovers as NewReno does, or as Reno. Nothing else reads which.
#[inline(always)]
pub(crate) fn is_newreno(fields: &SenderFields) -> bool
    ensures { result ≡ is_newreno fields.now }
{
    fields.variant.newreno
}

/// One duplicate more.
fn one_more(dups: u64) -> u64
    ensures { result ≡ one_more dups }
{
    if dups < MOST_DUPLICATES {
        dups + 1
    } else {
        dups
    }
}

/// Whether a segment that was never sent may be sent now and ends within `end`.
fn may_send_new(fields: &SenderFields, end: u64) -> bool
    requires { IsSound fields.now }
    ensures { result ≡ may_send_new fields.now end }
{
    fields.nxt == fields.high
        && fields.nxt < fields.segments * fields.mss
        && fields.nxt + fields.mss <= end
}

/// Whether the third duplicate tells of a loss: with NewReno only where all that was sent when the last
/// one was found is acknowledged (RFC 6582 section 3.2 step 2).
fn enters(fields: &SenderFields) -> bool
    ensures { result ≡ enters fields.now }
{
    if is_newreno(fields) {
        match fields.recover {
            Some(recover) => fields.una > recover,
            None => true,
        }
    } else {
        true
    }
}

/// What `recover` is once a loss is found (RFC 6582 section 3.2 steps 2 and 4).
fn recover_at_loss(fields: &SenderFields) -> Option<u64>
    ensures { result ≡ recover_at_loss fields.now }
{
    if is_newreno(fields) {
        Some(fields.high)
    } else {
        fields.recover
    }
}

/// Whether a new acknowledgement leaves segments out that were sent before the loss was found (RFC 6582
/// section 3.2 step 3).
fn is_partial(fields: &SenderFields, ack: u64) -> bool
    ensures { result ≡ is_partial fields.now ack }
{
    is_newreno(fields)
        && fields.recovery
        && match fields.recover {
            Some(recover) => ack < recover,
            None => false,
        }
}
