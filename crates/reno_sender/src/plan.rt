//! What an event makes of a sender, before it is done.
ghost use Rattle.std.specs.Prelude.{◌≡◌, Option};
ghost use Rattle.reno_sender.specs.Fields.{IsSound};
ghost use Rattle.reno_sender.specs.PlanView.{IsWellMade, planned_of, plan_view};
ghost use Rattle.reno_sender.specs.LossRecovery.{nothing_sent};

use crate::fields::SenderFields;
use std::marker::Model;

/// The segments that a new acknowledgement lets go: consecutive ones.
#[derive(Clone, Copy)]
pub struct AckRun {
    /// The byte number of the first.
    pub first: u64,
    /// How many segments, each `mss` bytes after the one before.
    pub count: u64,
}

/// The new fields of a sender, and the byte numbers to send: at most one that is sent again, and
/// then a run of consecutive segments. Nothing has happened until the sender commits it.
#[derive(Clone, Copy)]
pub struct Plan {
    fields: SenderFields,
    resent: Option<u64>,
    first: u64,
    count: u64,
}

impl Model for Plan {
    ghost use Rattle.reno_sender.specs.PlanView.{PlanView, IsWellMade, plan_view};

    ghost Value = { PlanView };

    ghost view = { λ p. plan_view p.fields p.resent p.first p.count };

    ghost invariant = { λ p. IsWellMade (plan_view p.fields p.resent p.first p.count) };

    ghost inverse = { λ v. record { fields = v.fields; resent = v.resent; first = v.first; count = v.count } };
}

impl Plan {
    pub(crate) fn of(fields: SenderFields, resent: Option<u64>, first: u64, count: u64) -> Self
        requires { IsWellMade (plan_view fields resent first count) }
        ensures { result ≡ plan_view fields resent first count }
    {
        Plan {
            fields,
            resent,
            first,
            count,
        }
    }

    /// Sends nothing.
    #[inline(never)]
    pub(crate) fn nothing(fields: &SenderFields) -> Self
        requires { IsSound fields.now }
        ensures { planned_of result ≡ nothing_sent fields.now }
    {
        Plan::of(*fields, None, fields.nxt, 0)
    }

    /// What the sender keeps once this is committed, where it lies.
    pub fn as_fields(&self) -> &SenderFields
        ensures value { result.now ≡ self.now.fields }
        ensures well_made { IsWellMade self.now }
    {
        &self.fields
    }

    /// The byte number that is sent again, before the others.
    pub fn resent(&self) -> Option<u64>
        ensures value { result ≡ self.now.resent }
        ensures well_made { IsWellMade self.now }
    {
        self.resent
    }

    /// The first byte number of the run of new or further segments.
    pub fn first(&self) -> u64
        ensures value { result ≡ self.now.first }
        ensures well_made { IsWellMade self.now }
    {
        self.first
    }

    /// How many segments the run has, each `mss` bytes after the one before.
    pub fn count(&self) -> u64
        ensures value { result ≡ self.now.count }
        ensures well_made { IsWellMade self.now }
    {
        self.count
    }
}
