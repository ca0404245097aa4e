//! How fast a link sends.
ghost use Rattle.std.specs.Prelude.{◌≡◌, ◌≤◌, SomeIff};
ghost use Rattle.sim_time.specs.Serial.{serial, IsLeastSerial, IsRate};

use crate::Time;
use std::marker::Model;

/// The least rate, in bits a second.
pub const LEAST_RATE: u64 = 1_000;

/// The greatest rate, in bits a second.
pub const GREATEST_RATE: u64 = 1_000_000_000_000;

/// The rate of a link: 1,000 to 10^12 bits a second.
#[derive(Clone, Copy)]
pub struct Rate {
    bits_a_second: u64,
}

impl Model for Rate {
    ghost use Rattle.std.specs.Prelude.{ℕ};
    ghost use Rattle.sim_time.specs.Serial.{IsRate};

    ghost Value = { ℕ };

    ghost view = { λ r. r.bits_a_second };

    ghost invariant = { λ r. IsRate r.bits_a_second };

    ghost inverse = { λ n. record { bits_a_second = n } };
}

impl Rate {
    /// The rate of so many bits a second; none below 1,000 or above 10^12.
    pub fn new(bits_a_second: u64) -> Option<Rate>
        ensures { SomeIff result (IsRate bits_a_second) bits_a_second }
    {
        if LEAST_RATE <= bits_a_second && bits_a_second <= GREATEST_RATE {
            Some(Rate { bits_a_second })
        } else {
            None
        }
    }

    /// Bits a second.
    pub fn bits_a_second(self) -> u64
        ensures value { result ≡ self }
        ensures rate { IsRate self }
    {
        self.bits_a_second
    }
}

/// How long a link of this rate takes to send a packet of so many bytes, in nanoseconds: the
/// time of its bits, rounded up.
pub fn serial_ns(bytes: u64, rate: Rate) -> Time
    requires least { 1 ≤ bytes }
    requires greatest { bytes ≤ 9040 }
    ensures value { result ≡ serial bytes rate }
    ensures least { IsLeastSerial bytes rate result }
    ensures positive { 1 ≤ result }
    ensures fits { result ≤ 72320000000 }
{
    (bytes * 8_000_000_000).div_ceil(rate.bits_a_second())
}
