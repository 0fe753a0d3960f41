//! Ranges of moments.
ghost use Rattle.std.specs.Prelude.{◌≡◌};
ghost use Rattle.std.specs.Option.{SomeIff};
ghost use Rattle.dnsv_timeline.specs.Range.{IsRange};

use std::marker::Model;

/// Moments one after another, in seconds since 1970: fewer than 2^32 seconds from the first to the last.
#[derive(Clone, Copy, Debug)]
pub struct Range {
    from: u64,
    to: u64,
}

impl Model for Range {
    ghost use Rattle.dnsv_timeline.specs.Range.{IsRange, Moments};

    ghost Value = { Moments };

    ghost view = { λ range. record {
      from = range.from;
      to = range.to;
    } };

    ghost inverse = { λ moments. record {
      from = moments.from;
      to = moments.to;
    } };

    ghost invariant = { λ range. IsRange range.from range.to };
}

impl Range {
    /// The moments from the first to the last. `None` where the last is before the first, or 2^32 seconds behind it or
    /// more: the times of signatures are serial numbers of 32 bits, so all that they say repeats (RFC 4034 3.1.5).
    pub fn new(from: u64, to: u64) -> Option<Range>
        ensures { SomeIff result (IsRange from to) (record {
          from = from;
          to = to;
        }) }
    {
        if from > to || to - from > u64::from(u32::MAX) {
            return None;
        }
        Some(Range { from, to })
    }

    /// The first of them.
    pub fn from(&self) -> u64
        ensures value { result ≡ self.now.from }
        ensures range { IsRange self.now.from self.now.to }
    {
        self.from
    }

    /// The last of them.
    pub fn to(&self) -> u64
        ensures value { result ≡ self.now.to }
        ensures range { IsRange self.now.from self.now.to }
    {
        self.to
    }
}
