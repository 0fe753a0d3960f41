//! Files of keys.
ghost use Rattle.std.specs.Prelude.{◌≡◌};
ghost use Rattle.dnsv_tsig.specs.Errors.{key_file_error_code};
ghost use Rattle.dnsv_files.specs.Status.{fault_number};
ghost use Rattle.dnsv_files.specs.Told.{IsKeysFault};

use crate::files::text::{FromText, refused_line};
use crate::status::{Fault, Refusal};
use dnsv_tsig::{KeyFileError, KeyRing};
use std::alloc::Global;

impl FromText for KeyRing {
    ghost use Rattle.dnsv_tsig.specs.KeyFile.{BeginsWithKey};
    ghost use Rattle.dnsv_files.specs.Opening.Keys.{AreKeysRefused, HasKeys};

    ghost says = { HasKeys };

    ghost is_refused = { AreKeysRefused };

    ghost begins = { BeginsWithKey };

    ghost waits = { BeginsWithKey };

    fn from_text(alloc: Global, text: &[u8]) -> Result<KeyRing, Fault> {
        match KeyRing::parse(alloc, text) {
            Ok(ring) => Ok(ring),
            Err(error) => Err(keys_fault(error)),
        }
    }
}

/// The fault of a text that is no keys.
fn keys_fault(error: KeyFileError) -> Fault
    ensures told { IsKeysFault error result }
    ensures number { fault_number result ≡ key_file_error_code error }
{
    match error {
        KeyFileError::OutOfMemory => Fault::OutOfMemory,
        KeyFileError::Syntax(line) | KeyFileError::DuplicateKey(line) => {
            refused_line(Refusal::KeyLine(error), line)
        }
    }
}
