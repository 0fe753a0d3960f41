//! The RDATA of RRSIG (RFC 4034 3).
use crate::error::{Field, RecordError};
use crate::number::{Algorithm, KeyTag};
use crate::octets::Octets;
use crate::time::{Expiration, Inception};
use dnsv_names::{RecordType, Ttl, WireName, u16_at, u32_at};

/// How many octets stand before the signer's name.
const HEAD: usize = 18;

/// A signature over an RRset (RFC 4034 3.1).
#[derive(Debug, Drop)]
pub struct Rrsig<'b> {
    /// The type of the records that are signed.
    pub type_covered: RecordType,
    pub algorithm: Algorithm,
    /// How many labels the owner's name had when it was signed, the root and a leftmost `*` not counted.
    pub labels: u8,
    /// The time to live of the records when they were signed.
    pub original_ttl: Ttl,
    pub expiration: Expiration,
    pub inception: Inception,
    /// The tag of the key that signed.
    pub key_tag: KeyTag,
    /// The zone whose key signed, as it is spelled.
    pub signer: WireName<'b>,
    pub signature: Octets<'b>,
}

impl<'b> Rrsig<'b> {
    ghost use Rattle.std.specs.Prelude.{◌≡◌, IfOk};
    ghost use Rattle.dnsv_records.specs.Rrsig.{IsRrsig, RrsigFault};
    ghost use Rattle.dnsv_records.specs.Reading.{IsFirstFault};

    /// Reads an RRSIG's RDATA. `BadRdata` names the head where fewer than 18 octets are there, and
    /// the name where no uncompressed name follows.
    pub fn read(rdata: &'b [u8]) -> Result<Rrsig<'b>, RecordError>
        ensures found { IfOk result (IsRrsig rdata.now) }
        ensures every { (rrsig : Rrsig) → IsRrsig rdata.now rrsig → result ≡ Ok rrsig }
        ensures fault { IsFirstFault result (RrsigFault rdata.now) }
        ensures every_fault { (field : Field) → RrsigFault rdata.now field
            → result ≡ Err (RecordError.BadRdata field) }
    {
        if rdata.len() < HEAD {
            return Err(RecordError::BadRdata(Field::Head));
        }
        let Some((signer, length)) = WireName::read(&rdata[HEAD..]) else {
            return Err(RecordError::BadRdata(Field::Name));
        };
        let signature = Octets::of(&rdata[HEAD + length..]);
        Ok(Rrsig {
            type_covered: RecordType(u16_at(rdata, 0)),
            algorithm: Algorithm(rdata[2]),
            labels: rdata[3],
            original_ttl: Ttl(u32_at(rdata, 4)),
            expiration: Expiration(u32_at(rdata, 8)),
            inception: Inception(u32_at(rdata, 12)),
            key_tag: KeyTag(u16_at(rdata, 16)),
            signer,
            signature,
        })
    }
}
