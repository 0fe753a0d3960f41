//! Lines that say how long what they stand for lasts.
ghost use Rattle.std.specs.Prelude.{◌≡◌};
ghost use Rattle.dnsv_lines.specs.Rows.{holds_row};
ghost use Rattle.dnsv_lines.specs.Sentence.{said_sentence};

use crate::sentence::Sentence;
use crate::sentence::field::{Field, Value};

/// Moments one after another, in seconds since 1970.
#[derive(Clone, Copy, Debug)]
pub struct Interval {
    /// The first of them.
    pub from: u64,
    /// The last of them.
    pub to: u64,
}

impl Interval {
    /// The line.
    pub fn sentence(&self) -> Sentence<'_>
        ensures { said_sentence result ≡ holds_row self.now }
    {
        Sentence::of(
            "holds",
            &[
                Field::same("from", Value::Number(self.from)),
                Field::same("to", Value::Number(self.to)),
            ],
        )
    }
}
