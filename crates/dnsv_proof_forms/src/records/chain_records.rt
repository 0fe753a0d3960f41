//! The records of one chain of a zone, as a proof is looked for among them.
ghost use Rattle.std.specs.FinSet as set;
ghost use Rattle.std.specs.Prelude.{◌≡◌, ◌<◌, length, map};
ghost use Rattle.dnsv_proof_forms.specs.records.Numbers.{number_at};
ghost use Rattle.dnsv_proof_forms.specs.records.Record.{read_entry, read_nsec3};
ghost use Rattle.dnsv_proof_forms.specs.words.SaidAt.{IsSaidAt};

use crate::records::entry::{Nsec3Entry, NsecEntry};
use crate::records::hashed_records::HashedRecords;
use dnsv_canonical::RecordNumber;
use dnsv_records::TypeBitmap;

/// The records of one chain of a zone that evidence has, in the order of their numbers.
#[derive(Clone, Copy, Debug)]
pub enum ChainRecords<'a> {
    /// NSEC records of the zone (RFC 4034 4).
    Nsec(&'a [NsecEntry<'a>]),
    /// NSEC3 records of the zone, and the hashes of the asked names with their parameters (RFC 5155 3).
    Nsec3(&'a HashedRecords<'a>),
}

impl<'a> ChainRecords<'a> {
    ghost use Rattle.dnsv_proof_forms.specs.records.Numbers.{numbers_of, record_count};
    ghost use Rattle.dnsv_proof_forms.specs.words.ChainSaid.{IsTypesAt};

    /// The number of the record at the place.
    pub fn number(&self, place: usize) -> RecordNumber
        requires { place < record_count self.now }
        ensures { result ≡ number_at (numbers_of self.now) place }
    {
        match self {
            ChainRecords::Nsec(entries) => nsec_number(place, entries),
            ChainRecords::Nsec3(hashed) => nsec3_number(place, hashed.entries.as_slice()),
        }
    }

    /// The types that the record at the place lists.
    pub fn types(&self, place: usize) -> &'a TypeBitmap<'a>
        requires { place < record_count self.now }
        ensures { IsTypesAt self.now place (λ t. set.contains result.now t) }
    {
        match self {
            ChainRecords::Nsec(entries) => nsec_types(place, entries),
            ChainRecords::Nsec3(hashed) => nsec3_types(place, hashed.entries.as_slice()),
        }
    }
}

/// The number of the NSEC record at the place.
fn nsec_number(place: usize, entries: &[NsecEntry<'_>]) -> RecordNumber
    requires { place < length entries.now }
    ensures { result ≡ number_at (map (λ entry. entry.number) entries.now) place }
{
    entries[place].number
}

/// The number of the NSEC3 record at the place.
fn nsec3_number(place: usize, entries: &[Nsec3Entry<'_>]) -> RecordNumber
    requires { place < length entries.now }
    ensures { result ≡ number_at (map (λ entry. entry.number) entries.now) place }
{
    entries[place].number
}

/// The types that the NSEC record at the place lists.
fn nsec_types<'a>(place: usize, entries: &[NsecEntry<'a>]) -> &'a TypeBitmap<'a>
    requires { place < length entries.now }
    ensures { IsSaidAt (λ entry. (read_entry entry).types ≡ (λ t. set.contains result.now t)) entries.now place }
{
    let nsec = entries[place].nsec;
    &nsec.types
}

/// The types that the NSEC3 record at the place lists.
fn nsec3_types<'a>(place: usize, entries: &[Nsec3Entry<'a>]) -> &'a TypeBitmap<'a>
    requires { place < length entries.now }
    ensures { IsSaidAt (λ entry. (read_nsec3 entry).types ≡ (λ t. set.contains result.now t)) entries.now place }
{
    entries[place].types
}
