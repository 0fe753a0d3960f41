//! What each call does.
ghost use Rattle.std.specs.Prelude.{None, Some};
ghost use Rattle.dnssec_check_c.specs.Asked.{AsksEach, AsksOne, AsksOverTime, AsksToList, AsksToListRange, AsksToShow, Judges};
ghost use Rattle.dnssec_check_c.specs.Asked.{IsOneNamed, IsTimelineNamed, judged_files, listed_files, shown_files, timeline_files};
ghost use Rattle.dnssec_check_c.specs.Ends.{CallEnds, NamedCallEnds};

use crate::octets::Octets;
use crate::options::{Manner, Options, form_of, kinds_of, listing_of, type_of};
use crate::outcome::{Outcome, misuse, refuse};
use crate::running::run_over;
use dnsv_files::Fault;
use dnsv_program::{Asking, Known, Request};
use std::alloc::Global;

/// Shows every message of the capture.
pub fn show(alloc: Global, capture: &[u8], buffer: &mut [u8], outcome: &mut Outcome) -> u32
    ensures { CallEnds AsksToShow (shown_files capture.now) buffer.old buffer.new outcome.new result }
{
    let request = Request::Show {
        capture: String::new(alloc),
    };
    run_over(alloc, &request, &Octets::shown(capture), buffer, outcome)
}

/// Lists what the number names.
pub fn list<'a>(
    alloc: Global,
    capture: &'a [u8],
    verified: &'a [u8],
    options: &Options,
    listed: u32,
    buffer: &mut [u8],
    outcome: &mut Outcome,
) -> u32
    ensures { CallEnds (AsksToList options.now listed) (listed_files options.now capture.now verified.now)
        buffer.old buffer.new outcome.new result }
{
    let Some(manner) = options.list_manner() else {
        return misuse(outcome);
    };
    let Some(listing) = listing_of(listed) else {
        return misuse(outcome);
    };
    let request = Request::List {
        capture: String::new(alloc),
        moment: manner.moment,
        statements: None,
        listing,
        format: manner.format,
    };
    let octets = Octets::listed(options, capture, verified);
    run_over(alloc, &request, &octets, buffer, outcome)
}

/// Lists what is to be checked for the moments of a range, in the form that the number names.
pub fn list_range<'a>(
    alloc: Global,
    capture: &'a [u8],
    verified: &'a [u8],
    options: &Options,
    from: u64,
    to: u64,
    listed: u32,
    buffer: &mut [u8],
    outcome: &mut Outcome,
) -> u32
    ensures { CallEnds (AsksToListRange options.now from to listed) (listed_files options.now capture.now verified.now)
        buffer.old buffer.new outcome.new result }
{
    let Some(span) = options.list_span(from, to) else {
        return misuse(outcome);
    };
    let Some(form) = form_of(listed) else {
        return misuse(outcome);
    };
    let request = Request::ListRange {
        capture: String::new(alloc),
        from: span.from,
        to: span.to,
        statements: None,
        form,
        format: span.format,
    };
    let octets = Octets::listed(options, capture, verified);
    run_over(alloc, &request, &octets, buffer, outcome)
}

/// Says what the capture proves of a question at each moment of a range.
pub fn timeline<'a>(
    alloc: Global,
    capture: &'a [u8],
    anchors: &'a [u8],
    verified: &'a [u8],
    options: &Options,
    from: u64,
    to: u64,
    name: &[u8],
    rtype: u32,
    detail: u32,
    buffer: &mut [u8],
    outcome: &mut Outcome,
) -> u32
    ensures { NamedCallEnds (IsTimelineNamed options.now from to name.now rtype detail)
        (AsksOverTime options.now from to name.now rtype detail)
        (timeline_files options.now capture.now anchors.now verified.now)
        buffer.old buffer.new outcome.new result }
{
    let Some(span) = options.timeline_span(from, to) else {
        return misuse(outcome);
    };
    let Some(known) = options.known(alloc) else {
        return misuse(outcome);
    };
    let Some(kinds) = kinds_of(detail) else {
        return misuse(outcome);
    };
    let Some(rtype) = type_of(rtype) else {
        return misuse(outcome);
    };
    let Ok(name) = str::from_utf8(name) else {
        return misuse(outcome);
    };
    let Ok(name) = String::from_str(alloc, name) else {
        return refuse(&Fault::OutOfMemory, outcome);
    };
    let request = Request::Timeline {
        capture: String::new(alloc),
        anchors: String::new(alloc),
        from: span.from,
        to: span.to,
        name,
        rtype,
        known,
        kinds,
        format: span.format,
    };
    let octets = Octets::over_time(options, capture, anchors, verified);
    run_over(alloc, &request, &octets, buffer, outcome)
}

/// Says what the capture proves of a question.
pub fn check<'a>(
    alloc: Global,
    capture: &'a [u8],
    anchors: &'a [u8],
    verified: &'a [u8],
    keys: &'a [u8],
    macs: &'a [u8],
    options: &Options,
    name: &[u8],
    rtype: u32,
    buffer: &mut [u8],
    outcome: &mut Outcome,
) -> u32
    ensures { NamedCallEnds (IsOneNamed options.now name.now rtype) (AsksOne options.now name.now rtype)
        (judged_files options.now capture.now anchors.now verified.now keys.now macs.now None)
        buffer.old buffer.new outcome.new result }
{
    let Some(manner) = options.manner() else {
        return misuse(outcome);
    };
    let Some(known) = options.known(alloc) else {
        return misuse(outcome);
    };
    let Some(rtype) = type_of(rtype) else {
        return misuse(outcome);
    };
    let Ok(name) = str::from_utf8(name) else {
        return misuse(outcome);
    };
    let Ok(name) = String::from_str(alloc, name) else {
        return refuse(&Fault::OutOfMemory, outcome);
    };
    let asking = Asking::One { name, rtype };
    let request = judging(alloc, asking, known, manner, options.why);
    let octets = Octets::judged(options, capture, anchors, verified, keys, macs, None);
    run_over(alloc, &request, &octets, buffer, outcome)
}

/// Says what the capture proves of each question of a text.
pub fn check_each<'a>(
    alloc: Global,
    capture: &'a [u8],
    anchors: &'a [u8],
    verified: &'a [u8],
    keys: &'a [u8],
    macs: &'a [u8],
    options: &Options,
    questions: &'a [u8],
    buffer: &mut [u8],
    outcome: &mut Outcome,
) -> u32
    ensures { CallEnds (AsksEach options.now)
        (judged_files options.now capture.now anchors.now verified.now keys.now macs.now (Some questions.now))
        buffer.old buffer.new outcome.new result }
{
    let Some(manner) = options.manner() else {
        return misuse(outcome);
    };
    let Some(known) = options.known(alloc) else {
        return misuse(outcome);
    };
    let asking = Asking::Each {
        questions: String::new(alloc),
    };
    let request = judging(alloc, asking, known, manner, options.why);
    let octets = Octets::judged(
        options,
        capture,
        anchors,
        verified,
        keys,
        macs,
        Some(questions),
    );
    run_over(alloc, &request, &octets, buffer, outcome)
}

/// The request to judge what is asked.
fn judging(alloc: Global, asking: Asking, known: Known, manner: Manner, why: bool) -> Request
    ensures { Judges asking known manner.moment manner.format why result }
{
    Request::Check {
        capture: String::new(alloc),
        anchors: String::new(alloc),
        moment: manner.moment,
        asking,
        known,
        keys: None,
        macs: None,
        format: manner.format,
        why,
    }
}
