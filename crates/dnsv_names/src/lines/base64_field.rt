//! Octets in base64 as a field of a text file.
ghost use Rattle.std.specs.Prelude.{◌≡◌, ◌≤◌, ◌↔◌, ℕ, Some, length, IfOk, IfSome, IsTrue};
ghost use Rattle.base64.specs.Engines.{standard};
ghost use Rattle.base64.specs.GeneralPurpose.{encode_of};
ghost use Rattle.dnsv_names.specs.Lines.Base64Field.{IsBase64};
ghost use Rattle.dnsv_names.specs.Lines.LineReading.{SaysOctets};
ghost use Rattle.dnsv_names.specs.Octets.{AreOctets};

use base64::engine::general_purpose::STANDARD;
use std::alloc::{AllocError, Global};

/// Whether a field is octets in base64 with padding (RFC 4648 4). It takes no memory: groups of four symbols are
/// looked at one by one, since the decoder asks for memory before it reads.
pub fn is_base64(field: &[u8]) -> bool
    ensures { IsTrue result ↔ IsBase64 field.now }
{
    let mut rest = field;
    while rest.len() > 4 {
        let (group, behind) = rest.split_at(4);
        if !says_three(group) {
            return false;
        }
        rest = behind;
    }
    octets_said(rest).is_some()
}

/// The octets that a field is in base64 with padding (RFC 4648 4). The error is that memory was refused.
pub fn base64_octets(alloc: Global, field: &[u8]) -> Result<Vec<u8>, AllocError>
    requires { IsBase64 field.now }
    ensures { IfOk result (λ octets. AreOctets octets.items × (field.now ≡ encode_of standard octets.items)) }
{
    match STANDARD.decode(alloc, field) {
        Ok(octets) => Ok(octets),
        Err(_) => Err(AllocError),
    }
}

/// Whether a group says three octets, as each group but the last has to.
fn says_three(group: &[u8]) -> bool
    requires { length group.now ≤ 4 }
    ensures { IsTrue result ↔ SaysOctets group.now 3 }
{
    match octets_said(group) {
        Some(count) => count == 3,
        None => false,
    }
}

/// How many octets a group of at most four symbols says, `None` where it says none.
fn octets_said(group: &[u8]) -> Option<usize>
    requires { length group.now ≤ 4 }
    ensures said { IfSome result (SaysOctets group.now) }
    ensures every { (count : ℕ) → SaysOctets group.now count → result ≡ Some count }
{
    match STANDARD.decode_slice(group, &mut [0; 3]) {
        Ok(count) => Some(count),
        Err(_) => None,
    }
}
