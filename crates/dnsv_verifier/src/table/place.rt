//! Where the parts of signatures stand, by the numbers of these.
ghost use Rattle.std.specs.Prelude.{◌≡◌, Contains, IfSome};
ghost use Rattle.dnsv_verifier.specs.Numbers.{signature_number_cmp};

use dnsv_canonical::SignatureNumber;
use dnsv_records::Algorithm;
use std::cmp::Ordering;

/// A signature of the evidence by its numbers, with its algorithm and the number of what it gives to its entries.
#[derive(Clone, Copy)]
pub(crate) struct SignaturePlace {
    pub(crate) number: SignatureNumber,
    pub(crate) algorithm: Algorithm,
    pub(crate) part: u32,
}

/// The place of the signature with these numbers, if it is found: the places are to rise by RRset, and then by signature.
pub(crate) fn place_of(places: &[SignaturePlace], number: SignatureNumber) -> Option<SignaturePlace>
    ensures { IfSome result (λ place. Contains places.now place × (place.number ≡ number)) }
{
    match places.binary_search_by(|place| compared(place.number, number)) {
        Ok(place) => Some(places[place]),
        Err(_) => None,
    }
}

/// How the numbers stand to the others, RRsets first.
fn compared(number: SignatureNumber, other: SignatureNumber) -> Ordering
    ensures { result ≡ signature_number_cmp number other }
{
    number
        .rrset
        .cmp(&other.rrset)
        .then_with(|| number.signature.cmp(&other.signature))
}
