//! The RDATA of TSIG (RFC 8945 4.2).
ghost use Rattle.std.specs.Prelude.{◌≡◌, ◌<◌, ◌^◌, List, ℕ, length, IfSome, MatchOption};
ghost use Rattle.dnsv_tsig.specs.Tsig.{AreParts};

use dnsv_names::{Name, u16_at, u48_at};
use std::marker::Model;

/// How many octets of numbers stand between the algorithm's name and the MAC.
const BEFORE_MAC: usize = 10;

/// How many octets of numbers stand between the MAC and the other data.
const AFTER_MAC: usize = 6;

/// What the RDATA of a TSIG record says.
#[derive(Debug, Drop)]
pub struct Tsig<'a> {
    /// The name of the algorithm, as it is spelled.
    pub algorithm: Name,
    /// The moment of signing, in seconds since 1970.
    pub time_signed: u64,
    /// By how many seconds the moment may be off.
    pub fudge: u16,
    pub mac: &'a [u8],
    /// The identifier that the message had when it was signed.
    pub original_id: u16,
    pub error: u16,
    pub other: &'a [u8],
}

impl<'a> Model for Tsig<'a> {
    ghost use Rattle.std.specs.Prelude.{◌<◌, ◌^◌, length};
    ghost use Rattle.dnsv_tsig.specs.Tsig.{TsigFields};

    ghost Value = { TsigFields };

    ghost view = { λ tsig. record {
      algorithm = tsig.algorithm;
      time_signed = tsig.time_signed;
      fudge = tsig.fudge;
      mac = tsig.mac.now;
      original_id = tsig.original_id;
      error = tsig.error;
      other = tsig.other.now;
    } };

    ghost invariant = { λ tsig. length tsig.other.now < 2 ^ 16 };
}

impl<'a> Tsig<'a> {
    ghost use Rattle.dnsv_tsig.specs.Tsig.{TsigFields, IsTsig};

    /// Reads a TSIG record's RDATA; `None` where it isn't laid out so. The name is uncompressed, and nothing
    /// stands behind the other data.
    pub fn read(rdata: &'a [u8]) -> Option<Tsig<'a>>
        ensures { MatchOption result ((tsig : TsigFields) → IsTsig rdata.now tsig → ⊥) (IsTsig rdata.now) }
    {
        let (algorithm, length) = Name::read(rdata)?;
        let parts = Parts::read(&rdata[length..])?;
        Some(Tsig {
            algorithm,
            time_signed: u48_at(parts.before_mac, 0),
            fudge: u16_at(parts.before_mac, 6),
            mac: parts.mac,
            original_id: u16_at(parts.after_mac, 0),
            error: u16_at(parts.after_mac, 2),
            other: parts.other,
        })
    }
}

/// What stands behind the algorithm's name.
#[derive(Drop)]
struct Parts<'a> {
    before_mac: &'a [u8],
    mac: &'a [u8],
    after_mac: &'a [u8],
    other: &'a [u8],
}

impl<'a> Parts<'a> {
    /// Takes the octets apart; `None` where a part is missing or octets are left over.
    fn read(octets: &'a [u8]) -> Option<Parts<'a>>
        ensures parts { MatchOption result
            ((before_mac mac after_mac other : List ℕ) → AreParts octets.now before_mac mac after_mac other → ⊥)
            (λ parts. AreParts octets.now parts.before_mac.now parts.mac.now parts.after_mac.now parts.other.now) }
        ensures fits { IfSome result (λ parts. length parts.other.now < 2 ^ 16) }
    {
        if octets.len() < BEFORE_MAC {
            return None;
        }
        let (before_mac, rest) = octets.split_at(BEFORE_MAC);
        let mac_size = u16_at(before_mac, 8) as usize;
        if rest.len() < mac_size + AFTER_MAC {
            return None;
        }
        let (mac, rest) = rest.split_at(mac_size);
        let (after_mac, other) = rest.split_at(AFTER_MAC);
        if other.len() != u16_at(after_mac, 4) as usize {
            return None;
        }
        Some(Parts {
            before_mac,
            mac,
            after_mac,
            other,
        })
    }
}
