//! The numbers in the heads of records, and how they are read.
ghost use Rattle.std.specs.Prelude.{◌≡◌, IfSome, IfNone};
ghost use Rattle.dnsv_records.specs.Layout.{IsCounted, BeginsWithCounted};

/// The number of a DNSSEC algorithm (RFC 4034 appendix A.1).
#[derive(Clone, Copy, Debug, PartialEq, Eq, PartialOrd, Ord, Hash)]
pub struct Algorithm(pub u8);

impl Algorithm {
    ghost use Rattle.dnsv_records.specs.Algorithm.{is_supported};

    /// Whether signatures of the algorithm count: RSA with SHA-1, SHA-256 or SHA-512, ECDSA on P-256 or P-384,
    /// Ed25519 and Ed448 (RFC 3110, RFC 5155 2, RFC 5702, RFC 6605, RFC 8080).
    pub fn is_supported(self) -> bool
        ensures { result ≡ is_supported self.0 }
    {
        SUPPORTED.contains(&self.0)
    }
}

/// The numbers of the algorithms whose signatures count.
const SUPPORTED: [u8; 8] = [5, 7, 8, 10, 13, 14, 15, 16];

/// The number of the hash that makes a DS record's digest (RFC 4034 appendix A.2).
#[derive(Clone, Copy, Debug, PartialEq, Eq, PartialOrd, Ord, Hash)]
pub struct DigestType(pub u8);

/// The number that names a DNSKEY in short (RFC 4034 appendix B). Several keys may have the same.
#[derive(Clone, Copy, Debug, PartialEq, Eq, PartialOrd, Ord, Hash)]
pub struct KeyTag(pub u16);

/// The octets that stand at the front behind their count in 8 bits, and the octets behind them;
/// `None` where not all of them are there.
pub fn split_counted(octets: &[u8]) -> Option<(&[u8], &[u8])>
    ensures found { IfSome result (λ parts. IsCounted octets.now parts.0.now parts.1.now) }
    ensures none { IfNone result (¬ BeginsWithCounted octets.now) }
{
    let (count, rest) = octets.split_first()?;
    let count = usize::from(*count);
    if rest.len() < count {
        return None;
    }
    Some(rest.split_at(count))
}
