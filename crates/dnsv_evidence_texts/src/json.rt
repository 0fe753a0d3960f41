//! JSON as the program writes it: one object on one line (RFC 8259).
ghost use Rattle.std.specs.Prelude.{◌≡◌, ◌++◌, OnOk, string_bytes};
ghost use Rattle.dnsv_evidence_texts.specs.Json.{octets_json};

pub mod compact;
pub mod moments;
pub mod question;
pub mod refused;
pub mod todo;

use crate::hex_text::{push_hex, push_signed_hex};
use dnsv_verifier::SignedData;
use std::alloc::AllocError;

/// Adds octets as a string of hex.
pub fn push_octets(text: &mut String, octets: &[u8]) -> Result<(), AllocError>
    ensures { OnOk result (string_bytes text.new ≡ string_bytes text.old ++ octets_json octets.now) }
{
    text.push_str("\"")?;
    push_hex(text, octets)?;
    text.push_str("\"")?;
    Ok(())
}

/// Adds signed data as such a string.
pub fn push_signed(text: &mut String, signed: &SignedData<'_>) -> Result<(), AllocError>
    ensures { OnOk result (string_bytes text.new ≡ string_bytes text.old ++ octets_json signed.now) }
{
    text.push_str("\"")?;
    push_signed_hex(text, signed)?;
    text.push_str("\"")?;
    Ok(())
}
