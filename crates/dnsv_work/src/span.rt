//! The moments that a request asks about.
ghost use Rattle.std.specs.Prelude.{◌≡◌, Err, IfErr, IfOk};
ghost use Rattle.dnsv_work.specs.Faults.{IsFaultOfRange};
ghost use Rattle.dnsv_timeline.specs.Range.{IsRange};
ghost use Rattle.dnsv_files.specs.Bounds.{begin_of, end_of};
ghost use Rattle.dnsv_work.specs.Span as specs;

use dnsv_answers::Moments;
use dnsv_files::{Fault, Place, Refusal};
use dnsv_questions::Moment;
use dnsv_timeline::Range;

/// One moment, or those of a range.
#[derive(Drop)]
pub enum Span {
    /// One moment.
    At(Moment),
    /// All moments of the range.
    Within(Range),
}

impl Span {
    /// The moments as lists and answers have them.
    pub fn moments(&self) -> Moments
        ensures { result ≡ specs.moments_of self.now }
    {
        match self {
            Span::At(moment) => Moments::At(moment.seconds()),
            Span::Within(range) => Moments::Between(range.from(), range.to()),
        }
    }

    /// The range of them; one moment is a range.
    pub fn range(&self) -> Range
        ensures from { result.from ≡ begin_of (specs.moments_of self.now) }
        ensures to { result.to ≡ end_of (specs.moments_of self.now) }
    {
        match self {
            Span::At(moment) => range_at(*moment),
            Span::Within(range) => *range,
        }
    }
}

/// The range that has this moment alone.
fn range_at(moment: Moment) -> Range
    ensures from { result.from ≡ moment }
    ensures to { result.to ≡ moment }
{
    let seconds = moment.seconds();
    let Some(range) = Range::new(seconds, seconds) else {
        unreachable!();
    };
    range
}

/// The range from the first moment to the last; the fault is that this is none. It is always told: no memory is taken.
pub fn range_between(from: Moment, to: Moment) -> Result<Range, Fault>
    ensures from { IfOk result (λ range. range.from ≡ from) }
    ensures to { IfOk result (λ range. range.to ≡ to) }
    ensures range { IfOk result (λ _. IsRange from to) }
    ensures fault { IfErr result (IsFaultOfRange from to) }
    ensures every_fault { (fault : Fault) → IsFaultOfRange from to fault → result ≡ Err fault }
{
    match Range::new(from.seconds(), to.seconds()) {
        Some(range) => Ok(range),
        None => Err(Fault::Refused(Refusal::BadRange, Place::NOWHERE)),
    }
}
