//! The RDATA of NSEC3 (RFC 5155 3).
use crate::bitmap::TypeBitmap;
use crate::error::{Field, RecordError};
use crate::number::split_counted;
use crate::octets::Octets;
use dnsv_names::{Hash20, u16_at};

/// How many octets stand before the salt's length.
const HEAD: usize = 4;

/// How many octets a hash by SHA-1 has (RFC 5155 11).
const HASH_LENGTH: usize = 20;

/// The number of an algorithm that hashes names (RFC 5155 11).
#[derive(Clone, Copy, Debug, PartialEq, Eq, PartialOrd, Ord, Hash)]
pub struct HashAlgorithm(pub u8);

impl HashAlgorithm {
    /// SHA-1 (RFC 5155 11).
    pub const SHA1: HashAlgorithm = HashAlgorithm(1);
}

/// The flags of an NSEC3 record (RFC 5155 3.1.2).
#[derive(Clone, Copy, Debug, PartialEq, Eq, PartialOrd, Ord, Hash)]
pub struct Nsec3Flags(pub u8);

impl Nsec3Flags {
    ghost use Rattle.std.specs.Prelude.{IsTrue, ◌↔◌, IsBitSet};

    /// Whether unsigned delegations may be left out between the owner and the next hash: the Opt-Out
    /// flag, of value 1 (RFC 5155 3.1.2.1).
    pub fn is_opt_out(self) -> bool
        ensures { IsTrue result ↔ IsBitSet self.0 0 }
    {
        self.0 & 1 != 0
    }
}

/// How many more times than once a name is hashed (RFC 5155 3.1.3).
#[derive(Clone, Copy, Debug, PartialEq, Eq, PartialOrd, Ord, Hash)]
pub struct Iterations(pub u16);

impl Iterations {
    /// The most that a record may ask for and be used.
    pub const LIMIT: Iterations = Iterations(500);
}

/// The NSEC3 parameters of a record: what its hash was made with (RFC 5155 3.1.3, 3.1.5). They are ordered by
/// iterations, and then by the octets of the salt.
#[derive(Debug, PartialEq, Eq, PartialOrd, Ord, Drop)]
pub struct Nsec3Parameters<'b> {
    pub iterations: Iterations,
    /// The octets that each hash is made with besides.
    pub salt: Octets<'b>,
}

/// Which types the name with the owner's hash has, and which hash is the next of the zone (RFC 5155 3.1).
#[derive(Debug, Drop)]
pub struct Nsec3<'b> {
    pub algorithm: HashAlgorithm,
    pub flags: Nsec3Flags,
    pub parameters: Nsec3Parameters<'b>,
    /// The next owner's hash; behind the last one the first.
    pub next_hash: Octets<'b>,
    /// The types that the name has.
    pub types: TypeBitmap<'b>,
}

impl<'b> Nsec3<'b> {
    ghost use Rattle.std.specs.Prelude.{◌≡◌, IfOk, IsTrue, ◌↔◌, MatchOption};
    ghost use Rattle.dnsv_records.specs.Nsec3.{IsNsec3, Nsec3Fault, IsUsable, IsUsed};
    ghost use Rattle.dnsv_records.specs.Reading.{IsFirstFault};

    /// Reads an NSEC3's RDATA. `BadRdata` names the first of head, salt, hash and bitmap that is not
    /// there or is wrong. A hash of no octets is read too.
    pub fn read(rdata: &'b [u8]) -> Result<Nsec3<'b>, RecordError>
        ensures found { IfOk result (IsNsec3 rdata.now) }
        ensures every { (nsec3 : Nsec3) → IsNsec3 rdata.now nsec3 → result ≡ Ok nsec3 }
        ensures fault { IsFirstFault result (Nsec3Fault rdata.now) }
        ensures every_fault { (field : Field) → Nsec3Fault rdata.now field
            → result ≡ Err (RecordError.BadRdata field) }
    {
        if rdata.len() < HEAD {
            return Err(RecordError::BadRdata(Field::Head));
        }
        let Some((salt, behind_salt)) = split_counted(&rdata[HEAD..]) else {
            return Err(RecordError::BadRdata(Field::Salt));
        };
        let Some((next_hash, bits)) = split_counted(behind_salt) else {
            return Err(RecordError::BadRdata(Field::Hash));
        };
        let types = TypeBitmap::read(bits)?;
        Ok(Nsec3 {
            algorithm: HashAlgorithm(rdata[0]),
            flags: Nsec3Flags(rdata[1]),
            parameters: Nsec3Parameters {
                iterations: Iterations(u16_at(rdata, 2)),
                salt: Octets::of(salt),
            },
            next_hash: Octets::of(next_hash),
            types,
        })
    }

    /// Whether the record may carry a denial: it hashes by SHA-1 (RFC 5155 8.1) with at most 500 iterations (RFC 5155
    /// 10.3, RFC 9276 3.2), has no flags but Opt-Out (RFC 5155 8.2), and its next hash has 20 octets.
    pub fn is_usable(&self) -> bool
        ensures { IsTrue result ↔ IsUsable self.now }
    {
        self.algorithm == HashAlgorithm::SHA1
            && self.flags.0 <= 1
            && self.next_hash.as_slice().len() == HASH_LENGTH
            && self.parameters.iterations <= Iterations::LIMIT
    }

    /// The record as one that may carry a denial; `None` where it isn't [usable](Nsec3::is_usable).
    pub fn usable<'a>(&'a self) -> Option<UsableNsec3<'a>>
        ensures { MatchOption result (¬ IsUsable self.now) (IsUsed self.now) }
    {
        if !self.is_usable() {
            return None;
        }
        let next_hash = <[u8; HASH_LENGTH]>::try_from(self.next_hash.as_slice()).ok()?;
        Some(UsableNsec3 {
            is_opt_out: self.flags.is_opt_out(),
            parameters: &self.parameters,
            next_hash: Hash20::new(next_hash),
            types: &self.types,
        })
    }
}

/// An NSEC3 record that may carry a denial.
#[derive(Clone, Copy, Debug)]
pub struct UsableNsec3<'a> {
    /// Whether unsigned delegations may be left out between the owner and the next hash (RFC 5155 3.1.2.1).
    pub is_opt_out: bool,
    pub parameters: &'a Nsec3Parameters<'a>,
    /// The next owner's hash; behind the last one the first.
    pub next_hash: Hash20,
    /// The types that the name with the owner's hash has.
    pub types: &'a TypeBitmap<'a>,
}
