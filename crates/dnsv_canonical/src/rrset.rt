//! RRsets: the records of one message, section, owner and type.
ghost use Rattle.std.specs.Prelude.{◌≡◌, ◌<◌, ℕ, List, Some, None, if◌then◌else◌, IfOk, length, map, slice_index_or};
ghost use Rattle.std.specs.List.{AllByRecursion, AllZip};
ghost use Rattle.std.specs.Option.{option_map};
ghost use Rattle.dnsv_message.specs.declared.record.Section.{Section};
ghost use Rattle.dnsv_records.specs.Dnskey.{IsDnskey};
ghost use Rattle.dnsv_records.specs.Ds.{IsDs};
ghost use Rattle.dnsv_records.specs.Nsec.{IsNsec};
ghost use Rattle.dnsv_records.specs.Nsec3.{IsNsec3};
ghost use Rattle.dnsv_records.specs.Rrsig.{IsRrsig};
ghost use Rattle.dnsv_canonical.specs.Canonical.{IsCanonical};
ghost use Rattle.dnsv_canonical.specs.CanonicalRdata.{canonical_form};
ghost use Rattle.dnsv_canonical.specs.Rdata.{IsRdata, IsWellFormed, rdata_of_type};
ghost use Rattle.dnsv_canonical.specs.SignedData.{IsSignedData};

use crate::canonical::canonical_rdata;
use crate::form::{canonical_forms, slices};
use crate::received::Received;
use crate::records::{Records, read_each, read_records};
use crate::signed::{SigningRoom, make_signed_octets};
use dnsv_message::Section;
use dnsv_names::{Name, RecordType};
use dnsv_records::{Dnskey, Ds, Nsec, Nsec3, Rrsig};
use std::alloc::{AllocError, Global};
use std::marker::Model;

/// An RRset: the IN records of one message, section, owner and type, and the signatures that cover it there. Its
/// owner and RDATA stand in the arena.
///
/// Owners are equal without regard to case. Records of the types 0, OPT, RRSIG and 128 to 255 form no RRset, nor
/// do those of MD, MF, MB, MG, MR, MINFO, RP, AFSDB, RT, SIG, PX, NXT, NAPTR, KX and A6.
#[derive(Drop)]
pub struct Rrset<'b> {
    received: Received<'b>,
    records: Records<'b>,
    signatures: Vec<Rrsig<'b>>,
}

impl<'b> Model for Rrset<'b> {
    ghost use Rattle.dnsv_canonical.specs.Rrsets.{ReceivedRrset};

    ghost Value = { ReceivedRrset };

    ghost use Rattle.dnsv_canonical.specs.Records.{IsKept};

    ghost view = { λ rrset. rrset.received };

    ghost invariant = { λ rrset. IsKept rrset.received rrset.records rrset.signatures.items };
}

impl<'b> Rrset<'b> {
    /// The RRset with its records and signatures read.
    fn of(alloc: Global, received: Received<'b>) -> Result<Rrset<'b>, AllocError>
        requires { IsWellFormed received }
        ensures { IfOk result (λ rrset. rrset ≡ received.entry) }
    {
        let records = read_records(alloc, received.rtype(), received.rdata())?;
        let signatures = read_each(alloc, received.signatures())?;
        Ok(Rrset {
            received,
            records,
            signatures,
        })
    }

    /// The number of its message, from 1 on.
    pub fn message(&self) -> usize
        ensures { result ≡ self.now.message }
    {
        self.received.message
    }

    /// The section that its records stand in.
    pub fn section(&self) -> Section
        ensures { result ≡ self.now.section }
    {
        self.received.section
    }

    /// The owner as its first record spells it.
    pub fn owner(&self) -> &Name
        ensures { result.now ≡ self.now.owner }
    {
        self.received.owner
    }

    /// The type of its records.
    pub fn rtype(&self) -> RecordType
        ensures { result.0 ≡ self.now.rtype }
    {
        self.received.rtype()
    }

    /// How many records it has: at least one. Equal ones count each.
    pub fn len(&self) -> usize
        ensures count { result ≡ length self.now.rdata }
        ensures well_formed { IsWellFormed self.now }
    {
        self.received.rdata().len()
    }

    /// The RDATA of the record at the place, from 0 on, as received.
    pub fn rdata(&self, place: usize) -> &'b [u8]
        requires { place < length self.now.rdata }
        ensures value { (other : List ℕ) → slice_index_or self.now.rdata place other ≡ result.now }
        ensures well_formed { IsRdata self.now.rtype result.now }
    {
        self.received.rdata()[place]
    }

    /// The keys of a DNSKEY RRset, in the order of its RDATA; none of an RRset of another type.
    pub fn dnskeys(&self) -> &[Dnskey<'b>]
        ensures { AllZip IsDnskey (rdata_of_type 48 self.now) result.now }
    {
        match &self.records {
            Records::Dnskeys(keys) => keys,
            _ => &[],
        }
    }

    /// The records of a DS RRset, in the order of its RDATA; none of an RRset of another type.
    pub fn ds_records(&self) -> &[Ds<'b>]
        ensures { AllZip IsDs (rdata_of_type 43 self.now) result.now }
    {
        match &self.records {
            Records::DsRecords(digests) => digests,
            _ => &[],
        }
    }

    /// The records of an NSEC RRset, in the order of its RDATA; none of an RRset of another type.
    pub fn nsecs(&self) -> &[Nsec<'b>]
        ensures { AllZip IsNsec (rdata_of_type 47 self.now) result.now }
    {
        match &self.records {
            Records::Nsecs(nsecs) => nsecs,
            _ => &[],
        }
    }

    /// The records of an NSEC3 RRset, in the order of its RDATA; none of an RRset of another type.
    pub fn nsec3s(&self) -> &[Nsec3<'b>]
        ensures { AllZip IsNsec3 (rdata_of_type 50 self.now) result.now }
    {
        match &self.records {
            Records::Nsec3s(nsec3s) => nsec3s,
            _ => &[],
        }
    }

    /// The IN RRSIG records of its message, section and owner that cover its type, in order, of those with equal
    /// RDATA the first. They are numbered from 1.
    pub fn signatures(&self) -> &[Rrsig<'b>]
        ensures { AllZip IsRrsig self.now.signatures result.now }
    {
        &self.signatures
    }
}

/// The RRset's RDATA in canonical form and order: rising as unsigned octets, a missing octet before any other,
/// and of equal ones one (RFC 4034 6.2, 6.3).
pub fn canonical_rrset(alloc: Global, rrset: &Rrset<'_>) -> Result<Vec<Vec<u8>>, AllocError>
    ensures { IfOk result (λ canonical. IsCanonical (map (canonical_form rrset.now.rtype) rrset.now.rdata)
        (map (λ r. r.items) canonical.items)) }
{
    let received = rrset.received.rdata();
    let forms = canonical_forms(alloc, rrset.rtype(), received)?;
    let forms = slices(alloc, forms.as_slice())?;
    let sorted = canonical_rdata(alloc, forms.as_slice())?;
    copies(alloc, sorted.as_slice())
}

/// The octets that the signature signs over the RRset (RFC 4034 3.1.8.1, 6.2, 6.3; RFC 4035 5.3.2): the RRSIG's RDATA
/// without the signature, and each record once in canonical form and order, with the original TTL and the owner that Labels
/// gives. `None` where Labels is above the owner's count of labels.
pub fn signed_data(
    alloc: Global,
    rrset: &Rrset<'_>,
    rrsig: &Rrsig<'_>,
) -> Result<Option<Vec<u8>>, AllocError>
    ensures { IfOk result (λ answer. IsSignedData rrset.now.owner rrset.now.rtype rrset.now.rdata rrsig.now
        (option_map (λ octets. octets.items) answer)) }
{
    let mut room = SigningRoom::new(alloc);
    if !make_signed_data(alloc, &mut room, rrset, rrsig)? {
        return Ok(None);
    }
    Ok(Some(room.octets))
}

/// The same in room that is used again and again, `octets` of it. The answer is whether the signature signs any.
pub fn make_signed_data(
    alloc: Global,
    room: &mut SigningRoom,
    rrset: &Rrset<'_>,
    rrsig: &Rrsig<'_>,
) -> Result<bool, AllocError>
    ensures { IfOk result (λ signs. IsSignedData rrset.now.owner rrset.now.rtype rrset.now.rdata rrsig.now
        (if signs then Some room.new.octets.items else None)) }
{
    let received = rrset.received.rdata();
    make_signed_octets(alloc, room, rrset.owner(), rrset.rtype(), received, rrsig)
}

/// The RRsets with their records and signatures read.
pub fn to_rrsets<'b>(
    alloc: Global,
    received: Vec<Received<'b>>,
) -> Result<Vec<Rrset<'b>>, AllocError>
    requires { AllByRecursion IsWellFormed received.items }
    ensures { IfOk result (λ rrsets. rrsets.items ≡ received.entry.items) }
{
    let mut rrsets = Vec::with_capacity(alloc, received.len())?;
    for each in received {
        rrsets.push(Rrset::of(alloc, each)?)?;
    }
    Ok(rrsets)
}

/// The octets in vectors of their own.
fn copies(alloc: Global, slices: &[&[u8]]) -> Result<Vec<Vec<u8>>, AllocError>
    ensures { IfOk result (λ copies. map (λ r. r.items) copies.items ≡ map (λ r. r.now) slices.now) }
{
    let mut copies = Vec::new(alloc);
    for octets in slices {
        copies.push(Vec::from_slice(alloc, octets)?)?;
    }
    Ok(copies)
}
