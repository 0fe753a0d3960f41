//! The key tag of a DNSKEY (RFC 4034 appendix B).
ghost use Rattle.std.specs.Prelude.{◌≡◌};
ghost use Rattle.dnsv_records.specs.Dnskey.KeyTag.{key_tag_of};

/// The key tag of a DNSKEY record with this RDATA, of any algorithm but 1 (RFC 4034 appendix B).
///
/// The octets may be any, of any length.
pub fn key_tag(rdata: &[u8]) -> u16
    ensures { result ≡ key_tag_of rdata.now }
{
    // The tag depends on the low 32 bits of the sum alone.
    let mut sum: u32 = 0;
    for (place, octet) in rdata.iter().enumerate() {
        let weight = if place % 2 == 0 { 256 } else { 1 };
        sum = sum.wrapping_add(u32::from(*octet) * weight);
    }
    (sum.wrapping_add(sum / 65536) % 65536) as u16
}
