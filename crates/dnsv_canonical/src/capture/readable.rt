//! Which records can be read.
ghost use Rattle.std.specs.Prelude.{◌≡◌, ◌↔◌, ◌+◌, ◌<◌, length, IsTrue, OnOk, IfErr, MatchOption};
ghost use Rattle.std.specs.List.{AllByRecursion};
ghost use Rattle.dnsv_message.specs.Message.{records_of};
ghost use Rattle.dnsv_canonical.specs.Evidence.{Evidence, IsWhole, IsReadable, IsFirstBad, IsReasonAgainst};
ghost use Rattle.dnsv_canonical.specs.Rdata.{IsLaidOut};
ghost use Rattle.dnsv_canonical.specs.Kept.{IsBadAfter};

use crate::capture::CaptureError;
use crate::placed_record::{PlacedRecord, Sections};
use dnsv_message::{Class, Message};
use dnsv_names::RecordType;
use dnsv_records::{Dnskey, Ds, Nsec, Nsec3, Rrsig};

/// Whether all of the message's DNSSEC records of class IN can be read: else `BadRdata` names the first that can't, by its
/// number through the three sections, from 1 on.
pub fn check_rdata(message: &Message<'_>, sections: &Sections<'_>) -> Result<(), CaptureError>
    requires answer { sections.now.answer.items ≡ message.now.answer }
    requires authority { sections.now.authority.items ≡ message.now.authority }
    requires additional { sections.now.additional.items ≡ message.now.additional }
    ensures ok { OnOk result (AllByRecursion IsReadable (records_of message.now)) }
    ensures refused { (held : Evidence) → IsWhole message.now → IfErr result (IsReasonAgainst held message.now) }
{
    let answer = sections.answer.as_slice();
    let authority = sections.authority.as_slice();
    let additional = sections.additional.as_slice();
    check_section(0, answer)?;
    check_section(answer.len(), authority)?;
    check_section(answer.len() + authority.len(), additional)
}

/// Whether the records of a section can be read, before which so many stand.
fn check_section(earlier: usize, records: &[PlacedRecord<'_>]) -> Result<(), CaptureError>
    requires { earlier + length records.now < u64.MAX }
    ensures ok { OnOk result (AllByRecursion IsReadable records.now) }
    ensures refused { IfErr result (IsBadAfter earlier records.now) }
{
    match first_bad(records) {
        Some(place) => Err(CaptureError::BadRdata(earlier + place)),
        None => Ok(()),
    }
}

/// Which of the records is the first that can't be read, from 1 on.
fn first_bad(records: &[PlacedRecord<'_>]) -> Option<usize>
    ensures { MatchOption result (AllByRecursion IsReadable records.now) (IsFirstBad records.now) }
{
    for (index, candidate) in records.iter().enumerate() {
        if !is_readable(candidate) {
            return Some(index + 1);
        }
    }
    None
}

/// Whether the candidate's RDATA can be read.
fn is_readable(candidate: &PlacedRecord<'_>) -> bool
    ensures { IsTrue result ↔ IsReadable candidate.now }
{
    if candidate.class != Class::IN {
        return true;
    }
    is_laid_out(candidate.rtype, candidate.rdata())
}

/// Whether the RDATA is laid out as the type says.
fn is_laid_out(rtype: RecordType, rdata: &[u8]) -> bool
    ensures { IsTrue result ↔ IsLaidOut rtype.0 rdata.now }
{
    match rtype {
        RecordType::DS => Ds::read(rdata).is_ok(),
        RecordType::RRSIG => Rrsig::read(rdata).is_ok(),
        RecordType::NSEC => Nsec::read(rdata).is_ok(),
        RecordType::DNSKEY => Dnskey::read(rdata).is_ok(),
        RecordType::NSEC3 => Nsec3::read(rdata).is_ok(),
        _ => true,
    }
}
