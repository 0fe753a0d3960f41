//! The RDATA of NSEC (RFC 4034 4).
use crate::bitmap::TypeBitmap;
use crate::error::{Field, RecordError};
use dnsv_names::WireName;

/// Which types an owner has, and which owner is the next of the zone (RFC 4034 4.1).
#[derive(Debug, Drop)]
pub struct Nsec<'b> {
    /// The next owner in canonical order, as it is spelled, where it stands; behind the last one the apex.
    pub next: WireName<'b>,
    /// The types that the owner has.
    pub types: TypeBitmap<'b>,
}

impl<'b> Nsec<'b> {
    ghost use Rattle.std.specs.Prelude.{◌≡◌, IfOk};
    ghost use Rattle.dnsv_records.specs.Nsec.{IsNsec, NsecFault};
    ghost use Rattle.dnsv_records.specs.Reading.{IsFirstFault};

    /// Reads an NSEC's RDATA. `BadRdata` names the name where no uncompressed name is at the front,
    /// and the bitmap where what follows is none.
    pub fn read(rdata: &'b [u8]) -> Result<Nsec<'b>, RecordError>
        ensures found { IfOk result (IsNsec rdata.now) }
        ensures every { (nsec : Nsec) → IsNsec rdata.now nsec → result ≡ Ok nsec }
        ensures fault { IsFirstFault result (NsecFault rdata.now) }
        ensures every_fault { (field : Field) → NsecFault rdata.now field
            → result ≡ Err (RecordError.BadRdata field) }
    {
        let Some((next, length)) = WireName::read(rdata) else {
            return Err(RecordError::BadRdata(Field::Name));
        };
        let types = TypeBitmap::read(&rdata[length..])?;
        Ok(Nsec { next, types })
    }
}
