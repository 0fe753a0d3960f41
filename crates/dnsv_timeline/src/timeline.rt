//! The timeline of what a judge says.
ghost use Rattle.std.specs.Prelude.{◌≡◌, ◌<◌, ◌≤◌, ℕ, IfOk};
ghost use Rattle.dnsv_timeline.specs.Joined.{Goes, IsSteady};
ghost use Rattle.dnsv_timeline.specs.Points.{ArePoints};
ghost use Rattle.dnsv_timeline.specs.Timeline.{DependsOnWithin, IsTimelineBy};

use crate::judge::Judge;
use crate::points::points_of_change;
use crate::range::Range;
use crate::stretch::Stretch;
use crate::times::Times;
use std::alloc::{AllocError, Global};

/// The timeline of what the judge says, from the first moment of the range to its last. At the moments of the range, what
/// it says depends on the moment through the validity of the signatures alone, so it is asked at the first moment and at
/// each point of change. The judge stays what it is, also where memory is refused.
pub fn timeline_of<S: Drop, J: Judge<S>>(
    alloc: Global,
    range: Range,
    signatures: &[Times],
    judge: &mut J,
) -> Result<Vec<Stretch<S>>, AllocError>
    requires { DependsOnWithin range.from range.to (J.says judge.now) signatures.now }
    ensures timeline { IfOk result (λ stretches. IsTimelineBy (J.says judge.old) range.from range.to stretches.items) }
    ensures same { judge.new ≡ judge.old }
{
    let points = points_of_change(alloc, range, signatures)?;
    joined(alloc, range, &points, judge)
}

/// The same, where what the judge says changes at these moments alone.
fn joined<S: Drop, J: Judge<S>>(
    alloc: Global,
    range: Range,
    points: &[u64],
    judge: &mut J,
) -> Result<Vec<Stretch<S>>, AllocError>
    requires { IsSteady (J.says judge.now) range.from range.to points.now }
    ensures timeline { IfOk result (λ stretches. IsTimelineBy (J.says judge.old) range.from range.to stretches.items) }
    ensures same { judge.new ≡ judge.old }
{
    let mut stretches = Vec::new(alloc);
    let from = range.from();
    let mut last = Stretch {
        from,
        to: from,
        said: judge.said_at(alloc, from)?,
    };
    for point in points {
        let said = judge.said_at(alloc, *point)?;
        let same = judge.is_same(&last.said, &said);
        last = next(&mut stretches, last, *point, said, same)?;
    }
    last.to = range.to();
    stretches.push(last)?;
    Ok(stretches)
}

/// The stretch that the point is in: the last one, where that says the same, else a new one, and the last is added.
fn next<S: Drop>(
    stretches: &mut Vec<Stretch<S>>,
    mut last: Stretch<S>,
    point: u64,
    said: S,
    same: bool,
) -> Result<Stretch<S>, AllocError>
    requires { 0 < point }
    ensures { IfOk result (λ stretch. Goes same last point said stretches.old.items stretches.new.items stretch) }
{
    if same {
        last.to = point;
        return Ok(last);
    }
    last.to = point - 1;
    stretches.push(last)?;
    Ok(Stretch {
        from: point,
        to: point,
        said,
    })
}
