//! Octets as the program writes them.
ghost use Rattle.std.specs.Prelude.{◌≡◌, ◌++◌, ◌*◌, ◌<◌, ◌≤◌, OnOk, length, slice_index, string_bytes};
ghost use Rattle.hex.specs.Hex.{encode_lower, lower_digits};
ghost use Rattle.dnsv_evidence_texts.specs.Hex as specs;

use dnsv_verifier::SignedData;
use std::alloc::AllocError;
use std::str;

/// How far `a` stands from where it would follow `9`.
const LETTERS_APART: u8 = b'a' - b'9' - 1;

/// How many octets are written at once.
const PIECE: usize = 128;

/// Adds the octets in lower case hex, and `-` where there are none.
pub fn push_hex_text(text: &mut String, octets: &[u8]) -> Result<(), AllocError>
    ensures { OnOk result (string_bytes text.new ≡ string_bytes text.old ++ specs.hex_text octets.now) }
{
    if octets.is_empty() {
        text.push_str("-")
    } else {
        push_hex(text, octets)
    }
}

/// Adds signed data in lower case hex, and `-` where it has no octets.
pub fn push_signed_text(text: &mut String, signed: &SignedData<'_>) -> Result<(), AllocError>
    ensures { OnOk result (string_bytes text.new ≡ string_bytes text.old ++ specs.hex_text signed.now) }
{
    if signed.is_empty() {
        text.push_str("-")
    } else {
        push_signed_hex(text, signed)
    }
}

/// Adds signed data in lower case hex, one piece behind the other.
pub fn push_signed_hex(text: &mut String, signed: &SignedData<'_>) -> Result<(), AllocError>
    ensures { OnOk result (string_bytes text.new ≡ string_bytes text.old ++ encode_lower signed.now) }
{
    let (front, records) = signed.pieces();
    push_hex(text, front)?;
    push_hex(text, records)?;
    Ok(())
}

/// Adds the octets in lower case hex. They are written where they are to stand, so that no other memory is taken.
pub fn push_hex(text: &mut String, octets: &[u8]) -> Result<(), AllocError>
    ensures { OnOk result (string_bytes text.new ≡ string_bytes text.old ++ encode_lower octets.now) }
{
    let mut rest = octets;
    while PIECE < rest.len() {
        let (piece, behind) = rest.split_at(PIECE);
        push_piece(text, piece)?;
        rest = behind;
    }
    push_piece(text, rest)
}

/// Adds a few octets in lower case hex.
fn push_piece(text: &mut String, octets: &[u8]) -> Result<(), AllocError>
    requires { length octets.now ≤ PIECE }
    ensures { OnOk result (string_bytes text.new ≡ string_bytes text.old ++ encode_lower octets.now) }
{
    let mut room = [0; 2 * PIECE];
    let digits = &mut room[..2 * octets.len()];
    write_digits(octets, digits);
    text.push_str(str::from_utf8(digits).unwrap())
}

/// Writes the two digits of each octet.
fn write_digits(octets: &[u8], digits: &mut [u8])
    requires { length digits.old ≡ 2 * length octets.now }
    ensures { digits.new ≡ encode_lower octets.now }
{
    for place in 0..octets.len() {
        digits[2 * place] = digit(octets[place] / 16);
        digits[2 * place + 1] = digit(octets[place] % 16);
    }
}

/// The digit of a value, without a branch, so that many are had at once.
fn digit(value: u8) -> u8
    requires { value < 16 }
    ensures { result ≡ slice_index lower_digits value }
{
    b'0' + value + LETTERS_APART * (value > 9) as u8
}
