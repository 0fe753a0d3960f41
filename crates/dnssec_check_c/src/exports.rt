//! The exports. C gives each slice as a pointer, which is never null, and a length.
ghost use Rattle.std.specs.Prelude.{None, Some};
ghost use Rattle.dnssec_check_c.specs.Asked.{AsksEach, AsksOne, AsksOverTime, AsksToList, AsksToListRange, AsksToShow};
ghost use Rattle.dnssec_check_c.specs.Asked.{IsOneNamed, IsTimelineNamed, judged_files, listed_files, shown_files, timeline_files};
ghost use Rattle.dnssec_check_c.specs.Ends.{CallEnds, NamedCallEnds};

use crate::calls::{check, check_each, list, list_range, show, timeline};
use crate::options::Options;
use crate::outcome::Outcome;
use std::alloc::Global;

/// Shows every message of the capture.
#[unsafe(no_mangle)]
pub extern "C" fn dnssec_check_c_show(
    alloc: Global,
    capture: &[u8],
    buffer: &mut [u8],
    outcome: &mut Outcome,
) -> u32
    ensures { CallEnds AsksToShow (shown_files capture.now) buffer.old buffer.new outcome.new result }
{
    show(alloc, capture, buffer, outcome)
}

/// Lists what `listed` names: 0 is the signatures that a verifier still has to check, 1 the same with each octet once, and
/// 2 the signed octets of every signature, for which it doesn't matter what was verified.
#[unsafe(no_mangle)]
pub extern "C" fn dnssec_check_c_list(
    alloc: Global,
    capture: &[u8],
    verified: &[u8],
    options: &Options,
    listed: u32,
    buffer: &mut [u8],
    outcome: &mut Outcome,
) -> u32
    ensures { CallEnds (AsksToList options.now listed) (listed_files options.now capture.now verified.now)
        buffer.old buffer.new outcome.new result }
{
    list(alloc, capture, verified, options, listed, buffer, outcome)
}

/// Lists the signatures that a verifier still has to check for the moments of a range, in the form that `listed` names: 0 is
/// each with its octets, 1 with each octet once.
#[unsafe(no_mangle)]
pub extern "C" fn dnssec_check_c_list_range(
    alloc: Global,
    capture: &[u8],
    verified: &[u8],
    options: &Options,
    from: u64,
    to: u64,
    listed: u32,
    buffer: &mut [u8],
    outcome: &mut Outcome,
) -> u32
    ensures { CallEnds (AsksToListRange options.now from to listed) (listed_files options.now capture.now verified.now)
        buffer.old buffer.new outcome.new result }
{
    list_range(
        alloc, capture, verified, options, from, to, listed, buffer, outcome,
    )
}

/// Says what the capture proves of a question at each moment of a range, where no keys are given: with what carries each
/// verdict where `detail` is 0, and by its kind alone where it is 1.
#[unsafe(no_mangle)]
pub extern "C" fn dnssec_check_c_timeline(
    alloc: Global,
    capture: &[u8],
    anchors: &[u8],
    verified: &[u8],
    options: &Options,
    from: u64,
    to: u64,
    name: &[u8],
    rtype: u32,
    detail: u32,
    buffer: &mut [u8],
    outcome: &mut Outcome,
) -> u32
    ensures { NamedCallEnds (IsTimelineNamed options.now from to name.now rtype detail)
        (AsksOverTime options.now from to name.now rtype detail)
        (timeline_files options.now capture.now anchors.now verified.now)
        buffer.old buffer.new outcome.new result }
{
    timeline(
        alloc, capture, anchors, verified, options, from, to, name, rtype, detail, buffer, outcome,
    )
}

/// Says what the capture proves of a question.
#[unsafe(no_mangle)]
pub extern "C" fn dnssec_check_c_check(
    alloc: Global,
    capture: &[u8],
    anchors: &[u8],
    verified: &[u8],
    keys: &[u8],
    macs: &[u8],
    options: &Options,
    name: &[u8],
    rtype: u32,
    buffer: &mut [u8],
    outcome: &mut Outcome,
) -> u32
    ensures { NamedCallEnds (IsOneNamed options.now name.now rtype) (AsksOne options.now name.now rtype)
        (judged_files options.now capture.now anchors.now verified.now keys.now macs.now None)
        buffer.old buffer.new outcome.new result }
{
    check(
        alloc, capture, anchors, verified, keys, macs, options, name, rtype, buffer, outcome,
    )
}

/// Says what the capture proves of each question of a text.
#[unsafe(no_mangle)]
pub extern "C" fn dnssec_check_c_check_each(
    alloc: Global,
    capture: &[u8],
    anchors: &[u8],
    verified: &[u8],
    keys: &[u8],
    macs: &[u8],
    options: &Options,
    questions: &[u8],
    buffer: &mut [u8],
    outcome: &mut Outcome,
) -> u32
    ensures { CallEnds (AsksEach options.now)
        (judged_files options.now capture.now anchors.now verified.now keys.now macs.now (Some questions.now))
        buffer.old buffer.new outcome.new result }
{
    check_each(
        alloc, capture, anchors, verified, keys, macs, options, questions, buffer, outcome,
    )
}
