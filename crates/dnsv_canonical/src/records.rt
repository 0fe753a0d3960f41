//! The records of an RRset as they are read from their RDATA.
ghost use Rattle.std.specs.Prelude.{◌≡◌, List, ℕ, IfOk, Ok, map};
ghost use Rattle.std.specs.List.{AllByRecursion, AllZip};
ghost use Rattle.dnsv_canonical.specs.Rdata.{IsLaidOut};

use dnsv_names::RecordType;
use dnsv_records::{Dnskey, Ds, Nsec, Nsec3, RecordError, Rrsig};
use std::alloc::{AllocError, Global};

/// The records of an RRset, in the order of its RDATA.
#[derive(Drop)]
pub enum Records<'b> {
    Dnskeys(Vec<Dnskey<'b>>),
    DsRecords(Vec<Ds<'b>>),
    Nsecs(Vec<Nsec<'b>>),
    Nsec3s(Vec<Nsec3<'b>>),
    /// RDATA of other types isn't read.
    Unread,
}

/// A record that is read from its RDATA.
pub trait FromRdata<'b>: Drop + Sized {
    /// The RDATA is this record.
    ghost is_read: { List ℕ → Self → Type 0 };

    /// Reads RDATA that is such a record.
    fn from_rdata(rdata: &'b [u8]) -> Result<Self, RecordError>
        ensures found { IfOk result (is_read rdata.now) }
        ensures every { (value : Self) → is_read rdata.now value → result ≡ Ok value };
}

impl<'b> FromRdata<'b> for Dnskey<'b> {
    ghost use Rattle.dnsv_records.specs.Dnskey.{IsDnskey};

    ghost is_read = { IsDnskey };

    fn from_rdata(rdata: &'b [u8]) -> Result<Dnskey<'b>, RecordError> {
        Dnskey::read(rdata)
    }
}

impl<'b> FromRdata<'b> for Ds<'b> {
    ghost use Rattle.dnsv_records.specs.Ds.{IsDs};

    ghost is_read = { IsDs };

    fn from_rdata(rdata: &'b [u8]) -> Result<Ds<'b>, RecordError> {
        Ds::read(rdata)
    }
}

impl<'b> FromRdata<'b> for Nsec<'b> {
    ghost use Rattle.dnsv_records.specs.Nsec.{IsNsec};

    ghost is_read = { IsNsec };

    fn from_rdata(rdata: &'b [u8]) -> Result<Nsec<'b>, RecordError> {
        Nsec::read(rdata)
    }
}

impl<'b> FromRdata<'b> for Nsec3<'b> {
    ghost use Rattle.dnsv_records.specs.Nsec3.{IsNsec3};

    ghost is_read = { IsNsec3 };

    fn from_rdata(rdata: &'b [u8]) -> Result<Nsec3<'b>, RecordError> {
        Nsec3::read(rdata)
    }
}

impl<'b> FromRdata<'b> for Rrsig<'b> {
    ghost use Rattle.dnsv_records.specs.Rrsig.{IsRrsig};

    ghost is_read = { IsRrsig };

    fn from_rdata(rdata: &'b [u8]) -> Result<Rrsig<'b>, RecordError> {
        Rrsig::read(rdata)
    }
}

ghost use Rattle.dnsv_canonical.specs.Records.{AreRecords};

/// Reads the RDATA of records of the type.
pub fn read_records<'b>(
    alloc: Global,
    rtype: RecordType,
    received: &[&'b [u8]],
) -> Result<Records<'b>, AllocError>
    requires { AllByRecursion (IsLaidOut rtype.0) (map (λ r. r.now) received.now) }
    ensures { IfOk result (AreRecords rtype.0 (map (λ r. r.now) received.now)) }
{
    match rtype {
        RecordType::DNSKEY => Ok(Records::Dnskeys(read_each(alloc, received)?)),
        RecordType::DS => Ok(Records::DsRecords(read_each(alloc, received)?)),
        RecordType::NSEC => Ok(Records::Nsecs(read_each(alloc, received)?)),
        RecordType::NSEC3 => Ok(Records::Nsec3s(read_each(alloc, received)?)),
        _ => Ok(Records::Unread),
    }
}

/// Reads RDATA of one kind.
pub fn read_each<'b, T: FromRdata<'b>>(
    alloc: Global,
    received: &[&'b [u8]],
) -> Result<Vec<T>, AllocError>
    requires { AllByRecursion (λ rdata. (value : T) × T.is_read rdata value) (map (λ r. r.now) received.now) }
    ensures { IfOk result (λ records. AllZip T.is_read (map (λ r. r.now) received.now) records.items) }
{
    let mut records = Vec::with_capacity(alloc, received.len())?;
    for rdata in received {
        records.push(read_one(rdata))?;
    }
    Ok(records)
}

/// Reads RDATA that is a record of the kind.
fn read_one<'b, T: FromRdata<'b>>(rdata: &'b [u8]) -> T
    requires { (value : T) × T.is_read rdata.now value }
    ensures { T.is_read rdata.now result }
{
    match T::from_rdata(rdata) {
        Ok(value) => value,
        Err(RecordError::BadRdata(_)) => unreachable!(),
    }
}
