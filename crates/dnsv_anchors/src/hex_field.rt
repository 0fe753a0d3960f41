//! Octets as a field of a text file.
ghost use Rattle.std.specs.Prelude.{◌≡◌, ◌↔◌, ◌/◌, ◌<◌, Ok, IfOk, IsOk, IsSome, IsTrue, MatchOption, OnErr, OnOk, length};
ghost use Rattle.std.specs.List.{AllPass};
ghost use Rattle.hex.specs.Hex.{decode_of, hex_digit_value, is_hex_digit};
ghost use Rattle.dnsv_anchors.specs.HexField.{AddsDecoded, AreDigitsOf, hex_value};

use bumpalo::Bump;
use dnsv_records::Octets;
use std::alloc::AllocError;

/// The octets that a field of a text file says: two hex digits for each, in either case, or `-` for no
/// octets, in the arena. `None` where it says none. Memory is asked for only where it says octets.
pub fn hex_octets<'b>(bump: &'b Bump, field: &[u8]) -> Result<Option<Octets<'b>>, AllocError>
    ensures value { IfOk result (λ octets. octets ≡ hex_value field.now) }
    ensures refused { OnErr result (IsSome (hex_value field.now)) }
{
    let Some(digits) = digits_of(field) else {
        return Ok(None);
    };
    Ok(Some(decoded(bump, digits)?))
}

/// The digits of the octets that a field says, `None` where it says none.
#[tactic(auto, using(crate::proofs::HexFieldLemmas::dash_says_none))]
pub fn digits_of(field: &[u8]) -> Option<&[u8]>
    ensures { MatchOption result (hex_value field.now ≡ None) (λ digits. AreDigitsOf field.now digits.now) }
{
    match field {
        [] => None,
        [b'-'] => Some(&[]),
        digits if are_pairs(digits) => Some(digits),
        _ => None,
    }
}

/// Whether the octets are pairs of hex digits.
#[tactic(auto, using(crate::proofs::HexFieldLemmas::even_decodes))]
fn are_pairs(octets: &[u8]) -> bool
    ensures { IsTrue result ↔ IsOk (decode_of octets.now) }
{
    octets.len() % 2 == 0 && are_digits(octets)
}

/// Whether the octets are hex digits, in either case. All are looked at, so that many can be at once.
#[tactic(auto, using(crate::proofs::HexFieldLemmas::digits_more))]
fn are_digits(octets: &[u8]) -> bool
    ensures { IsTrue result ↔ AllPass is_hex_digit octets.now }
{
    let mut all = true;
    for octet in octets {
        all = all & is_digit(*octet);
    }
    all
}

/// Whether the octet is a hex digit, in either case.
fn is_digit(octet: u8) -> bool
    ensures { IsTrue result ↔ IsTrue (is_hex_digit octet) }
{
    octet.is_ascii_hexdigit()
}

/// The octets of pairs of hex digits, in the arena.
fn decoded<'b>(bump: &'b Bump, digits: &[u8]) -> Result<Octets<'b>, AllocError>
    requires { IsOk (decode_of digits.now) }
    ensures { IfOk result (λ octets. decode_of digits.now ≡ Ok octets) }
{
    // As many octets as will be written.
    let octets = bump.try_alloc_slice_copy(&digits[..digits.len() / 2])?;
    decode(digits, octets);
    Ok(Octets::of(octets))
}

/// Adds the octets of pairs of hex digits.
pub fn push_decoded(octets: &mut Vec<u8>, digits: &[u8]) -> Result<(), AllocError>
    requires { IsOk (decode_of digits.now) }
    ensures { OnOk result (AddsDecoded digits.now octets.old.items octets.new.items) }
{
    let place = octets.len();
    octets.resize(place + digits.len() / 2, 0)?;
    decode(digits, &mut octets[place..]);
    Ok(())
}

/// Writes the octets of pairs of hex digits, which were tested.
fn decode(digits: &[u8], octets: &mut [u8])
    requires twice { length octets.old ≡ length digits.now / 2 }
    requires decodes { IsOk (decode_of digits.now) }
    ensures { decode_of digits.now ≡ Ok octets.new }
{
    for place in 0..octets.len() {
        octets[place] = value_of(digits[2 * place]) * 16 + value_of(digits[2 * place + 1]);
    }
}

/// The value of a hex digit, in either case.
#[tactic(auto, using(crate::proofs::HexFieldLemmas::value_is, crate::proofs::HexFieldLemmas::value_small))]
fn value_of(digit: u8) -> u8
    requires { IsTrue (is_hex_digit digit) }
    ensures value { hex_digit_value digit ≡ Some result }
    ensures small { result < 16 }
{
    digit % 16 + 9 * (digit / 64)
}
