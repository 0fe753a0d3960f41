//! The RDATA of DS (RFC 4034 5).
use crate::error::{Field, RecordError};
use crate::number::{Algorithm, DigestType, KeyTag};
use crate::octets::Octets;
use dnsv_names::u16_at;

/// A delegation's link to a key of the zone below (RFC 4034 5.1).
#[derive(Debug, PartialEq, Eq, Drop)]
pub struct Ds<'b> {
    /// The tag of the key.
    pub key_tag: KeyTag,
    /// The algorithm of the key.
    pub algorithm: Algorithm,
    /// The hash that made the digest.
    pub digest_type: DigestType,
    pub digest: Octets<'b>,
}

impl<'b> Ds<'b> {
    ghost use Rattle.std.specs.Prelude.{◌≡◌, IfOk};
    ghost use Rattle.dnsv_records.specs.Ds.{IsDs, DsFault};
    ghost use Rattle.dnsv_records.specs.Reading.{IsFirstFault};

    /// Reads a DS's RDATA. `BadRdata` names the head where fewer than 4 octets are there.
    pub fn read(rdata: &'b [u8]) -> Result<Ds<'b>, RecordError>
        ensures found { IfOk result (IsDs rdata.now) }
        ensures every { (ds : Ds) → IsDs rdata.now ds → result ≡ Ok ds }
        ensures fault { IsFirstFault result (DsFault rdata.now) }
        ensures every_fault { (field : Field) → DsFault rdata.now field
            → result ≡ Err (RecordError.BadRdata field) }
    {
        if rdata.len() < 4 {
            return Err(RecordError::BadRdata(Field::Head));
        }
        Ok(Ds {
            key_tag: KeyTag(u16_at(rdata, 0)),
            algorithm: Algorithm(rdata[2]),
            digest_type: DigestType(rdata[3]),
            digest: Octets::of(&rdata[4..]),
        })
    }
}
