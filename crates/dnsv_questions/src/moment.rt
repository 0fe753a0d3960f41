//! The moment at which signatures are judged.
ghost use Rattle.std.specs.Prelude.{◌≡◌, ◌≤◌, ℕ};
ghost use Rattle.std.specs.Option.{SomeIff};
ghost use Rattle.dnsv_questions.specs.Moment.{IsMoment};

use std::marker::Model;

/// A moment in seconds since 1970-01-01 00:00:00 UTC, from 0 to 2^48 - 1.
#[derive(Clone, Copy, Debug)]
pub struct Moment(u64);

impl Model for Moment {
    ghost Value = { ℕ };

    ghost view = { λ moment. moment.0 };

    ghost invariant = { λ moment. IsMoment moment.0 };

    ghost inverse = { λ seconds. record { 0 = seconds } };
}

impl Moment {
    /// The last moment, 2^48 - 1.
    pub const LAST: u64 = 281_474_976_710_655;

    /// The moment that many seconds after the first, or `None` past the last.
    pub fn new(seconds: u64) -> Option<Moment>
        ensures { SomeIff result (IsMoment seconds) seconds }
    {
        if seconds <= Moment::LAST {
            Some(Moment(seconds))
        } else {
            None
        }
    }

    /// The seconds since the first moment.
    pub fn seconds(&self) -> u64
        ensures value { result ≡ self.now }
        ensures bound { IsMoment result }
    {
        self.0
    }
}
