//! The text of a timeline.
ghost use Rattle.std.specs.Prelude.{◌≡◌, IfOk, string_bytes};
ghost use Rattle.dnsv_moments.specs.texts.Text.{IsTimelineText, pieces_text};

use crate::said::Said;
use crate::texts::json::timeline_json;
use crate::texts::lines::timeline_lines;
use crate::texts::pieces::{Piece, pieces_of};
use dnsv_canonical::Capture;
use dnsv_names::{Name, RecordType};
use dnsv_questions::Format;
use dnsv_timeline::{Range, Stretch};
use std::alloc::{AllocError, Global};

/// What a timeline is asked of.
#[derive(Clone, Copy)]
pub struct Question<'a> {
    /// The name that is asked for.
    pub name: &'a Name,
    /// The type that is asked for.
    pub rtype: RecordType,
    /// The moments that the timeline is of.
    pub range: Range,
}

/// The text of the timeline that has these stretches, whose texts are in the format: the question, and each interval with
/// its first moment, its last, and what is said at each of its moments. In front of each but the first stand the signatures
/// that derive the one before and aren't valid at its first moment, told with the moment before; then those that derive it
/// and weren't valid one second before, told with its first moment; each by RRset and then by signature.
///
/// Where kinds are shown alone, neighbours of one kind are joined, and nothing is told of what carries them. In JSON it is
/// one object, in which all borders stand behind all intervals. The error is that memory ran out.
pub fn timeline_text(
    alloc: Global,
    format: Format,
    kinds: bool,
    question: &Question<'_>,
    capture: &Capture<'_>,
    stretches: &[Stretch<Said>],
) -> Result<String, AllocError>
    ensures { IfOk result (λ text. IsTimelineText format kinds capture.now.rrsets question.now.name.now
        question.now.rtype.0 question.now.range.from question.now.range.to stretches.now (string_bytes text)) }
{
    let pieces = pieces_of(alloc, capture, kinds, stretches)?;
    pieces_text(alloc, format, kinds, question, &pieces)
}

/// The text of these intervals.
fn pieces_text(
    alloc: Global,
    format: Format,
    kinds: bool,
    question: &Question<'_>,
    pieces: &[Piece<'_>],
) -> Result<String, AllocError>
    ensures { IfOk result (λ text. string_bytes text ≡ pieces_text format kinds question.now.name.now
        question.now.rtype.0 question.now.range.from question.now.range.to pieces.now) }
{
    match format {
        Format::Lines => timeline_lines(alloc, kinds, question.name, question.rtype, pieces),
        Format::Json => timeline_json(alloc, kinds, question, pieces),
    }
}
