//! The verifier of the rows of evidence, which tells by a signature's first octet, so that a row need not write what the
//! signature signs.
use dnsv_verifier::{Answer, Entry, Verifier};

/// A signature whose first octet is 00 is bad, one with ff isn't known, and all others are good.
#[derive(Drop)]
pub struct ByFirstOctet;

impl Verifier for ByFirstOctet {
    ghost use Rattle.std.specs.Prelude.{◌==◌, if◌then◌else◌, get_or};
    ghost use Rattle.dnsv_verifier.specs.declared.answer.Answer.TheVariants.{Invalid, Unknown, Valid};

    ghost meaning = { λ _ entry. if get_or entry.signature 0 1 == 0 then Invalid
        else if get_or entry.signature 0 1 == 255 then Unknown else Valid };

    fn answer(&self, entry: &Entry<'_>) -> Answer {
        match entry.signature.as_slice().first().copied().unwrap_or(1) {
            0 => Answer::Invalid,
            255 => Answer::Unknown,
            _ => Answer::Valid,
        }
    }
}
