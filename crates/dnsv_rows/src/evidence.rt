//! Keys of the evidence that rows write, and the verifier of its signatures.

pub mod verifying;

ghost use Rattle.std.specs.Prelude.{IfOk};
ghost use Rattle.dnsv_records.specs.Dnskey.{IsDnskey};

use dnsv_records::Dnskey;
use dnsv_row_text::RowError;

/// What the RDATA of a DNSKEY record says.
pub fn dnskey_of(rdata: &[u8]) -> Result<Dnskey<'_>, RowError>
    ensures { IfOk result (IsDnskey rdata.now) }
{
    match Dnskey::read(rdata) {
        Ok(dnskey) => Ok(dnskey),
        Err(_) => Err(RowError::Malformed),
    }
}
