//! Lines that say why a zone isn't trusted.
ghost use Rattle.std.specs.Prelude.{◌≡◌};
ghost use Rattle.dnsv_lines.specs.Rows.{ds_unproved_row, entry_fault_row, not_self_signed_row, not_vouched_row, zone_fault_row};
ghost use Rattle.dnsv_lines.specs.Sentence.{reason_word, said, said_sentence};
ghost use Rattle.dnsv_lines.specs.Words as words;

use crate::line::derivation::{KeyName, ds_place, ds_rrset};
use crate::sentence::field::{Field, Value};
use crate::sentence::{ReasonWord, Sentence};
use dnsv_canonical::RecordNumber;
use dnsv_names::Name;
use dnsv_records::DigestType;

/// What a zone lacks.
#[derive(Clone, Copy, Debug)]
pub enum WhyZone {
    /// A trust anchor at or above it.
    NoAnchor,
    /// A DNSKEY RRset.
    DnskeyMissing,
    /// A trust anchor and a DS RRset of its own.
    DsMissing,
}

impl WhyZone {
    /// The word, and the number of the extended DNS error (RFC 8914).
    pub fn word(self) -> ReasonWord
        ensures { reason_word result ≡ words.zone_word self }
    {
        match self {
            WhyZone::NoAnchor => ReasonWord::of("no-anchor", 5),
            WhyZone::DnskeyMissing => ReasonWord::of("dnskey-missing", 9),
            WhyZone::DsMissing => ReasonWord::of("ds-missing", 12),
        }
    }
}

/// That a zone lacks something.
#[derive(Debug, Drop)]
pub struct ZoneFault {
    pub why: WhyZone,
    pub zone: Name,
}

impl ZoneFault {
    /// The line.
    pub fn sentence(&self) -> Sentence<'_>
        ensures { said_sentence result ≡ zone_fault_row self.now }
    {
        let word = self.why.word();
        Sentence::reason(word, &[Field::plain("zone", Value::Name(&self.zone))])
    }
}

/// A trust anchor by its number, or a record of a DS RRset.
#[derive(Clone, Copy, Debug)]
pub enum EntryNumber {
    Anchor(usize),
    Ds(RecordNumber),
}

impl EntryNumber {
    /// The number of the trust anchor.
    fn anchor(self) -> Value<'static>
        ensures { said result ≡ words.entry_anchor_said self }
    {
        match self {
            EntryNumber::Anchor(anchor) => Value::count(anchor),
            EntryNumber::Ds(_) => Value::Nothing,
        }
    }

    /// The DS record.
    fn ds(self) -> Option<RecordNumber>
        ensures { result ≡ words.entry_ds self }
    {
        match self {
            EntryNumber::Anchor(_) => None,
            EntryNumber::Ds(number) => Some(number),
        }
    }
}

/// A trust anchor or a DS record, and the key that it asks for.
#[derive(Debug, Drop)]
pub struct Entry {
    pub zone: Name,
    pub number: EntryNumber,
    pub key: KeyName,
    /// Where it is a DS record.
    pub digest_type: Option<DigestType>,
}

impl Entry {
    /// The digest type.
    fn digest_type(&self) -> Value<'_>
        ensures { said result ≡ words.entry_digest_said self.now.digest_type }
    {
        match self.digest_type {
            Some(digest_type) => Value::Number(u64::from(digest_type.0)),
            None => Value::Nothing,
        }
    }
}

/// Why a trust anchor or a DS record matches no key (RFC 4034 5.2, RFC 4035 5.2, RFC 4509 3).
#[derive(Clone, Copy, Debug)]
pub enum WhyEntry {
    /// Its algorithm isn't supported.
    Algorithm,
    /// Its digest type isn't supported.
    DigestType,
    /// Its DS RRset holds a stronger digest type.
    DigestIgnored,
    /// No key has the tag; or the anchor is a DNSKEY record that isn't there.
    KeyMissing,
    /// A key has the tag, and none that has it the algorithm.
    KeyAlgorithm,
    /// A key has tag and algorithm, and the digest is that of none that has.
    DigestDiffers,
}

impl WhyEntry {
    /// The word, and the number of the extended DNS error (RFC 8914).
    pub fn word(self) -> ReasonWord
        ensures { reason_word result ≡ words.entry_word self }
    {
        match self {
            WhyEntry::Algorithm => ReasonWord::of("algorithm", 1),
            WhyEntry::DigestType => ReasonWord::of("digest-type", 2),
            WhyEntry::DigestIgnored => ReasonWord::of("digest-ignored", 9),
            WhyEntry::KeyMissing => ReasonWord::of("key-missing", 9),
            WhyEntry::KeyAlgorithm => ReasonWord::of("key-algorithm", 9),
            WhyEntry::DigestDiffers => ReasonWord::of("digest-differs", 9),
        }
    }
}

/// That a trust anchor or a DS record matches no key, and why.
#[derive(Debug, Drop)]
pub struct EntryFault {
    pub why: WhyEntry,
    pub entry: Entry,
}

impl EntryFault {
    /// The line.
    pub fn sentence(&self) -> Sentence<'_>
        ensures { said_sentence result ≡ entry_fault_row self.now }
    {
        let word = self.why.word();
        let entry = &self.entry;
        let ds = entry.number.ds();
        Sentence::reason(
            word,
            &[
                Field::plain("zone", Value::Name(&entry.zone)),
                Field::same("anchor", entry.number.anchor()),
                Field::same("rrset", ds_rrset(ds)),
                Field::same("record", ds_place(ds)),
                Field::under("wants", "tag", Value::Number(u64::from(entry.key.tag.0))),
                Field::plain("algorithm", Value::Number(u64::from(entry.key.algorithm.0))),
                Field::under("digest", "digest_type", entry.digest_type()),
            ],
        )
    }
}

/// That a DNSKEY RRset has signatures, and none with the tag and the algorithm of this key in it, but such as are good under
/// another key there.
#[derive(Debug, Drop)]
pub struct KeyWithoutSignature {
    pub zone: Name,
    pub rrset: usize,
    pub key: KeyName,
}

impl KeyWithoutSignature {
    /// The line.
    pub fn sentence(&self) -> Sentence<'_>
        ensures { said_sentence result ≡ not_self_signed_row self.now }
    {
        Sentence::reason(
            ReasonWord::of("not-self-signed", 10),
            &[
                Field::plain("zone", Value::Name(&self.zone)),
                Field::same("rrset", Value::Rrset(self.rrset)),
                Field::under("key", "tag", Value::Number(u64::from(self.key.tag.0))),
                Field::plain("algorithm", Value::Number(u64::from(self.key.algorithm.0))),
            ],
        )
    }
}

/// That a DNSKEY RRset has no key which a trust anchor or a DS record fits, though there are some.
#[derive(Debug, Drop)]
pub struct KeysNotVouched {
    pub zone: Name,
    pub rrset: usize,
}

impl KeysNotVouched {
    /// The line.
    pub fn sentence(&self) -> Sentence<'_>
        ensures { said_sentence result ≡ not_vouched_row self.now }
    {
        Sentence::reason(
            ReasonWord::of("not-vouched", 9),
            &[
                Field::plain("zone", Value::Name(&self.zone)),
                Field::same("rrset", Value::Rrset(self.rrset)),
            ],
        )
    }
}

/// That the name may be a delegation to a zone that isn't signed, and nothing proves it.
#[derive(Debug, Drop)]
pub struct DsUnproved {
    pub name: Name,
    pub zone: Name,
}

impl DsUnproved {
    /// The line.
    pub fn sentence(&self) -> Sentence<'_>
        ensures { said_sentence result ≡ ds_unproved_row self.now }
    {
        Sentence::reason(
            ReasonWord::of("ds-unproved", 12),
            &[
                Field::plain("name", Value::Name(&self.name)),
                Field::same("zone", Value::Name(&self.zone)),
            ],
        )
    }
}
