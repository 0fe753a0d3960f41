//! The lines of what keeps a question from being answered or denied.
ghost use Rattle.std.specs.Prelude.{◌≡◌, MatchOption, Option};
ghost use Rattle.dnsv_lines.specs.declared.line.Line.{Line};
ghost use Rattle.dnsv_remedies.specs.declared.said.Said.TheVariants as said;
ghost use Rattle.dnsv_gaps.specs.Asking.{asking};
ghost use Rattle.dnsv_reasons.specs.Lines.{IsDnameLine, IsSaidLine};

use dnsv_canonical::{RecordNumber, SignatureNumber};
use dnsv_gaps::AskedQuestion;
use dnsv_lines::{
    CloserName, DenialUnproved, DnameAbove, DsUnproved, Line, MissingAnswer, Reason, UnusableNsec3,
    WhyNsec3,
};
use dnsv_remedies::CutNumber;
use dnsv_trust_reasons::{above, shown};

/// That a closer name than the wildcard behind the signature may be there, the one with so many labels (RFC 4035 5.3.4).
pub fn closer_line(
    question: &AskedQuestion<'_, '_>,
    number: SignatureNumber,
    labels: usize,
) -> Option<Line>
    ensures { MatchOption result
        ((each : Line) → ¬ IsSaidLine (asking question.now) (said.NoCloser number labels) each)
        (IsSaidLine (asking question.now) (said.NoCloser number labels)) }
{
    let Some(name) = above(question.name, labels) else {
        return None;
    };
    let Some(signature) = shown(question.facts.capture(), number) else {
        return None;
    };
    Some(Line::Reason(Reason::NoCloser(CloserName { signature, name })))
}

/// That the name with so many labels owns the DNAME RRset, or is that of the record of a denial, at the place, with the type
/// DNAME (RFC 6672).
pub fn dname_line(
    question: &AskedQuestion<'_, '_>,
    labels: usize,
    rrset: usize,
    place: Option<usize>,
) -> Option<Line>
    ensures { MatchOption result ((each : Line) → ¬ IsDnameLine (asking question.now) labels rrset place each)
        (IsDnameLine (asking question.now) labels rrset place) }
{
    let Some(name) = above(question.name, labels) else {
        return None;
    };
    Some(Line::Reason(Reason::Dname(DnameAbove { name, rrset, place })))
}

/// That the NSEC3 record can't be used (RFC 5155 8.1, 8.2, 10.3).
pub fn unusable_line(
    question: &AskedQuestion<'_, '_>,
    why: WhyNsec3,
    number: RecordNumber,
) -> Option<Line>
    ensures { MatchOption result ((each : Line) → ¬ IsSaidLine (asking question.now) (said.Nsec3 why number) each)
        (IsSaidLine (asking question.now) (said.Nsec3 why number)) }
{
    let Some(rrset) = question.facts.capture().rrset(number.rrset) else {
        return None;
    };
    Some(Line::Reason(Reason::Nsec3(UnusableNsec3 {
        why,
        owner: rrset.owner().clone().unwrap(),
        number,
    })))
}

/// That there is neither an answer nor a denial of the zone that should speak, the one with so many labels, if there is one.
pub fn missing_line(question: &AskedQuestion<'_, '_>, zone: Option<usize>) -> Option<Line>
    ensures { MatchOption result
        ((each : Line) → ¬ IsSaidLine (asking question.now) (said.AnswerMissing zone) each) (IsSaidLine (asking question.now) (said.AnswerMissing zone)) }
{
    let Some(labels) = zone else {
        return Some(Line::Reason(Reason::AnswerMissing(MissingAnswer {
            name: question.name.clone().unwrap(),
            rtype: question.rtype,
            zone: None,
        })));
    };
    let Some(zone) = above(question.name, labels) else {
        return None;
    };
    Some(Line::Reason(Reason::AnswerMissing(MissingAnswer {
        name: question.name.clone().unwrap(),
        rtype: question.rtype,
        zone: Some(zone),
    })))
}

/// That there is no answer, and the denials of the zone with so many labels prove nothing.
pub fn unproved_line(question: &AskedQuestion<'_, '_>, labels: usize) -> Option<Line>
    ensures { MatchOption result
        ((each : Line) → ¬ IsSaidLine (asking question.now) (said.DenialUnproved labels) each) (IsSaidLine (asking question.now) (said.DenialUnproved labels)) }
{
    let Some(zone) = above(question.name, labels) else {
        return None;
    };
    Some(Line::Reason(Reason::DenialUnproved(DenialUnproved {
        name: question.name.clone().unwrap(),
        rtype: question.rtype,
        zone,
    })))
}

/// That a name may be an unsigned delegation, and the zone doesn't prove it (RFC 4035 5.2).
pub fn cut_line(question: &AskedQuestion<'_, '_>, cut: CutNumber) -> Option<Line>
    ensures { MatchOption result ((each : Line) → ¬ IsSaidLine (asking question.now) (said.DsUnproved cut) each)
        (IsSaidLine (asking question.now) (said.DsUnproved cut)) }
{
    let Some(name) = above(question.name, cut.name) else {
        return None;
    };
    let Some(zone) = above(question.name, cut.zone) else {
        return None;
    };
    Some(Line::Reason(Reason::DsUnproved(DsUnproved { name, zone })))
}
