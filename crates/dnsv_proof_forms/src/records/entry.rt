//! NSEC and NSEC3 records as they are gathered for a proof.
use dnsv_canonical::RecordNumber;
use dnsv_names::{Hash20, Name};
use dnsv_records::{Nsec, Nsec3Parameters, TypeBitmap};

/// An NSEC record with its owner. Entries stand in the order of their records' numbers.
#[derive(Debug, Drop)]
pub struct NsecEntry<'a> {
    /// Which record of the evidence it is.
    pub number: RecordNumber,
    /// The owner of the record.
    pub owner: &'a Name,
    /// The RDATA of the record.
    pub nsec: &'a Nsec<'a>,
}

/// A usable NSEC3 record. Entries stand in the order of their records' numbers.
#[derive(Debug, Drop)]
pub struct Nsec3Entry<'a> {
    /// Which record of the evidence it is.
    pub number: RecordNumber,
    /// The hash that the owner's first label spells (RFC 5155 3).
    pub hash: Hash20,
    /// Whether unsigned delegations may be left out between the owner and the next hash (RFC 5155 3.1.2.1).
    pub is_opt_out: bool,
    /// What the hashes are made with.
    pub parameters: &'a Nsec3Parameters<'a>,
    /// The next owner's hash; behind the last one the first.
    pub next_hash: Hash20,
    /// The types that the name with the owner's hash has.
    pub types: &'a TypeBitmap<'a>,
}
