//! The sender itself: what it keeps, and the plan that each event makes.
ghost use Rattle.std.specs.Prelude.{◌≡◌, ◌≤◌, ◌+◌, IsSome, IfSome, SomeIff};
ghost use Rattle.reno_sender.specs.Fields.{IsSound};
ghost use Rattle.sim_time.specs.Moment.{IsMoment};
ghost use Rattle.reno_sender.specs.Laws.{IsAckFor, IsFlow};
ghost use Rattle.reno_sender.specs.AckRun.{IsAckRun};
ghost use Rattle.reno_sender.specs.PlanView.{planned_of, IsPlanOf, IsWellMade};
ghost use Rattle.reno_sender.specs.Table.{initial_fields, started, acknowledged, timed_out};

use crate::fields::SenderFields;
use crate::fill::fill;
use crate::loss_recovery::acknowledgement::{acknowledged, run_after, take_run};
use crate::loss_recovery::timeout::timed_out;
use crate::plan::{AckRun, Plan};
use crate::soundness::is_sound;
use crate::timer::LEAST_RTO;
use sim_time::{SenderSettings, Time, initial_window};
use std::marker::Model;

/// The sender of one flow: Reno or NewReno.
#[derive(Clone, Copy)]
pub struct Sender {
    fields: SenderFields,
}

impl Model for Sender {
    ghost use Rattle.reno_sender.specs.declared.fields.SenderFields.{SenderFields};
    ghost use Rattle.reno_sender.specs.Fields.{IsSound};

    ghost Value = { SenderFields };

    ghost view = { λ s. s.fields };

    ghost invariant = { λ s. IsSound s.fields };

    ghost inverse = { λ f. record { fields = f } };
}

impl Sender {
    /// A sender that has sent nothing yet (RFC 5681 section 3.1, RFC 6298 section 2.1).
    pub fn new(settings: SenderSettings) -> Self
        requires { IsFlow settings }
        ensures { result ≡ initial_fields settings }
    {
        Sender {
            fields: SenderFields {
                mss: settings.mss,
                segments: settings.segments,
                rwnd: settings.rwnd,
                variant: settings.variant,
                una: 0,
                nxt: 0,
                high: 0,
                cwnd: initial_window(settings.mss, settings.variant.iw),
                ssthresh: settings.rwnd,
                dups: 0,
                lt: 0,
                recovery: false,
                recover: None,
                partial: false,
                timing: None,
                srtt: None,
                rttvar: 0,
                rto: LEAST_RTO,
                deadline: None,
                resent: false,
            },
        }
    }

    /// The sender that keeps these fields; none where they are those of no sender.
    pub fn of_fields(fields: SenderFields) -> Option<Sender>
        ensures { SomeIff result (IsSound fields) fields }
    {
        if is_sound(&fields) {
            Some(Sender { fields })
        } else {
            None
        }
    }

    /// What the sender keeps.
    pub fn fields(&self) -> SenderFields
        ensures value { result ≡ self.now }
        ensures sound { IsSound self.now }
    {
        self.fields
    }

    /// What the sender keeps, where it lies.
    pub fn as_fields(&self) -> &SenderFields
        ensures value { result.now ≡ self.now }
        ensures sound { IsSound self.now }
    {
        &self.fields
    }

    /// When the retransmission timer ends, in nanoseconds; none where it is off.
    pub fn deadline(&self) -> Option<Time>
        ensures value { result ≡ self.now.deadline }
        ensures sound { IsSound self.now }
    {
        self.fields.deadline
    }

    /// The flow starts.
    #[tactic(auto, unfolding(crate::specs::Table::started))]
    pub fn start(&self, now: Time) -> Plan
        requires { IsMoment now }
        ensures planned { planned_of result ≡ started self.now now }
        ensures made { IsPlanOf self.now result }
        ensures well_made { IsWellMade result }
    {
        fill(&self.fields, now)
    }

    /// An acknowledgement has come, up to but not with the byte `ack`.
    pub fn on_ack(&self, ack: u64, now: Time) -> Plan
        requires moment { IsMoment now }
        requires ack { IsAckFor self.now ack now }
        ensures planned { planned_of result ≡ acknowledged self.now ack now }
        ensures made { IsPlanOf self.now result }
        ensures well_made { IsWellMade result }
    {
        acknowledged(&self.fields, ack, now)
    }

    /// Which segments an acknowledgement lets go, where it is new and not partial: the others are planned.
    #[inline(always)]
    pub fn run_for(&self, ack: u64) -> Option<AckRun>
        requires { ack ≤ self.now.high }
        ensures { IfSome result (IsAckRun self.now ack) }
    {
        run_after(&self.fields, ack)
    }

    /// Takes such an acknowledgement, which has come: the segments of its run are sent.
    #[inline(always)]
    pub fn take_run(&mut self, ack: u64, now: Time, run: AckRun)
        requires moment { IsMoment now }
        requires ack { IsAckFor self.old ack now }
        requires run { IsAckRun self.old ack run }
        ensures { self.new ≡ (acknowledged self.old ack now).fields }
    {
        take_run(&mut self.fields, ack, now, run);
    }

    /// The deadline has come.
    pub fn on_rto(&self, now: Time) -> Plan
        requires moment { IsMoment now }
        requires set { IsSome self.now.deadline }
        ensures planned { planned_of result ≡ timed_out self.now now }
        ensures made { IsPlanOf self.now result }
        ensures well_made { IsWellMade result }
    {
        timed_out(&self.fields, now)
    }

    /// Does what was planned, by a plan that is lent: it is copied once.
    #[inline(always)]
    pub fn commit_lent(&mut self, plan: &Plan)
        requires { IsPlanOf self.old plan.now }
        ensures { self.new ≡ plan.now.fields }
    {
        self.fields = *plan.as_fields();
    }
}
