//! Lines that say which keys a zone in question has.
ghost use Rattle.std.specs.Prelude.{◌≡◌};
ghost use Rattle.dnsv_lines.specs.Rows.{key_row};
ghost use Rattle.dnsv_lines.specs.Sentence.{said_sentence};

use crate::line::derivation::{KeyName, ds_place, ds_rrset};
use crate::sentence::Sentence;
use crate::sentence::field::{Field, Value};
use dnsv_canonical::RecordNumber;
use dnsv_names::Name;
use dnsv_records::DnskeyFlags;

/// A DNSKEY record, with what is good under it and what matches it.
#[derive(Debug, Drop)]
pub struct ShownKey {
    pub zone: Name,
    pub number: RecordNumber,
    pub key: KeyName,
    pub flags: DnskeyFlags,
    /// The number of the lowest signature of its RRset that is good under the key.
    pub signature: Option<usize>,
    /// The number of the lowest trust anchor that matches it.
    pub anchor: Option<usize>,
    /// The lowest DS record that can be used and matches it, signed or not.
    pub ds: Option<RecordNumber>,
}

impl ShownKey {
    /// The line.
    pub fn sentence(&self) -> Sentence<'_>
        ensures { said_sentence result ≡ key_row self.now }
    {
        Sentence::of(
            "key",
            &[
                Field::plain("zone", Value::Name(&self.zone)),
                Field::same("rrset", Value::Rrset(self.number.rrset)),
                Field::same("record", Value::count(self.number.place)),
                Field::same("tag", Value::Number(u64::from(self.key.tag.0))),
                Field::same("algorithm", Value::Number(u64::from(self.key.algorithm.0))),
                Field::same("flags", Value::Number(u64::from(self.flags.0))),
                Field::same("signature", Value::given_count(self.signature)),
                Field::same("anchor", Value::given_count(self.anchor)),
                Field::under("ds", "ds_rrset", ds_rrset(self.ds)),
                Field::plain("ds_record", ds_place(self.ds)),
            ],
        )
    }
}
