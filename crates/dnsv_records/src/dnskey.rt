//! The RDATA of DNSKEY (RFC 4034 2).

pub mod tag;

use crate::error::{Field, RecordError};
use crate::number::Algorithm;
use crate::octets::Octets;
use dnsv_names::u16_at;

/// The flags of a DNSKEY (RFC 4034 2.1.1).
#[derive(Clone, Copy, Debug, PartialEq, Eq, PartialOrd, Ord, Hash)]
pub struct DnskeyFlags(pub u16);

impl DnskeyFlags {
    ghost use Rattle.std.specs.Prelude.{IsTrue, ◌↔◌, IsBitSet};

    /// Whether the key may sign a zone's records: the Zone Key flag, of value 256 (RFC 4034 2.1.1).
    pub fn is_zone_key(self) -> bool
        ensures { IsTrue result ↔ IsBitSet self.0 8 }
    {
        self.0 & 256 != 0
    }
}

/// A public key (RFC 4034 2.1).
#[derive(Debug, PartialEq, Eq, Drop)]
pub struct Dnskey<'b> {
    pub flags: DnskeyFlags,
    /// 3, in a key that DNSSEC uses (RFC 4034 2.1.2).
    pub protocol: u8,
    pub algorithm: Algorithm,
    /// The key itself, in the format of its algorithm.
    pub key: Octets<'b>,
}

impl<'b> Dnskey<'b> {
    ghost use Rattle.std.specs.Prelude.{◌<◌, ◌≡◌, ◌⊎◌, ◌↔◌, IfOk, length};
    ghost use Rattle.dnsv_records.specs.Dnskey.{IsDnskey, DnskeyFault};
    ghost use Rattle.dnsv_records.specs.Reading.{IsFirstFault};

    /// Reads a DNSKEY's RDATA. `BadRdata` names the head where fewer than 4 octets are there.
    pub fn read(rdata: &'b [u8]) -> Result<Dnskey<'b>, RecordError>
        ensures found { IfOk result (IsDnskey rdata.now) }
        ensures every { (key : Dnskey) → IsDnskey rdata.now key → result ≡ Ok key }
        ensures fault { IsFirstFault result (DnskeyFault rdata.now) }
        ensures every_fault { (field : Field) → DnskeyFault rdata.now field
            → result ≡ Err (RecordError.BadRdata field) }
    {
        if rdata.len() < 4 {
            return Err(RecordError::BadRdata(Field::Head));
        }
        Ok(Dnskey {
            flags: DnskeyFlags(u16_at(rdata, 0)),
            protocol: rdata[2],
            algorithm: Algorithm(rdata[3]),
            key: Octets::of(&rdata[4..]),
        })
    }
}
