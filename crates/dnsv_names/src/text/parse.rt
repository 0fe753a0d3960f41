//! Reading the text of a name from the left (RFC 1035 5.1).
ghost use Rattle.std.specs.Prelude.{◌≡◌, ◌≢◌, List, ℕ, [], ◌∷◌, length, IfOk, IfErr, map};
ghost use Rattle.std.specs.Option.{option_map};
ghost use Rattle.dnsv_names.specs.Name.{Labels, IsName, IsLabel};
ghost use Rattle.dnsv_names.specs.Text.Reading.{decimal_of, escaped_of, octet_of, BeginsLabel, LabelFault};
ghost use Rattle.dnsv_names.specs.Name.Spelling.{SpellsName, labels_of};
ghost use Rattle.dnsv_names.specs.Text.{text_of, IsTextOf, FirstFault};
ghost use Rattle.dnsv_names.specs.declared.error.NameError.{NameError};

use crate::error::NameError;
use crate::name::{LABEL_LIMIT, Name, WIRE_LIMIT};
use crate::wire::copied;
use arrayvec::ArrayVec;

impl Name {
    /// Reads the text of a name, which ends with the dot of the root. The text is octets and need not
    /// be UTF-8.
    ///
    /// The first fault from the left counts: `BadEscape` where neither an octet nor a dot is spelled,
    /// `EmptyLabel` at a dot that follows no octet, unless the text is `.` alone, `LongLabel` at the
    /// 64th octet of a label, `LongName` at a dot behind a label with which the wire form passes 255
    /// octets, and `NotAbsolute` at the end of a text that doesn't end with a dot.
    pub fn parse(text: &[u8]) -> Result<Name, NameError>
        // What is found is a name, and the text spells it.
        ensures name { IfOk result (λ name. IsName name × IsTextOf text.now name) }
        // Whatever name the text spells is found.
        ensures every { (labels : Labels) → IsName labels → IsTextOf text.now labels
            → result ≡ Ok labels }
        // The text that is written for a name is read as that name.
        ensures written { (labels : Labels) → IsName labels → text.now ≡ text_of labels
            → result ≡ Ok labels }
        // A refusal is the first fault, and the first fault is refused.
        ensures fault { IfErr result (λ fault. FirstFault text.now fault) }
        ensures every_fault { (fault : NameError) → FirstFault text.now fault → result ≡ Err fault }
    {
        let octets = wire_of(text)?;
        Ok(Name { octets })
    }
}

/// The wire form of the name that the text spells.
fn wire_of(text: &[u8]) -> Result<ArrayVec<u8, WIRE_LIMIT>, NameError>
    ensures name { IfOk result (λ octets. SpellsName octets.items
        × IsTextOf text.now (labels_of octets.items)) }
    ensures fault { IfErr result (λ fault. FirstFault text.now fault) }
{
    match text {
        b"." => Ok(copied(b"\0")),
        _ => wire_of_labels(text),
    }
}

/// The same for a text that isn't a dot alone, so that it has to spell a label.
fn wire_of_labels(text: &[u8]) -> Result<ArrayVec<u8, WIRE_LIMIT>, NameError>
    requires { text.now ≢ 46 ∷ [] }
    ensures name { IfOk result (λ octets. SpellsName octets.items
        × IsTextOf text.now (labels_of octets.items)) }
    ensures fault { IfErr result (λ fault. FirstFault text.now fault) }
{
    let mut octets = ArrayVec::new();
    let mut rest = text;
    while !rest.is_empty() {
        let (label, behind) = label_of(rest)?;
        // The label's length and the root's octet have to fit too.
        if octets.len() + 1 + label.len() + 1 > WIRE_LIMIT {
            return Err(NameError::LongName);
        }
        octets.push(label.len() as u8);
        octets.try_extend_from_slice(label.as_slice()).unwrap();
        rest = behind;
    }
    if octets.is_empty() {
        return Err(NameError::NotAbsolute);
    }
    octets.push(0);
    Ok(octets)
}

/// The label that the front of the text spells, and the text behind its dot.
fn label_of(text: &[u8]) -> Result<(ArrayVec<u8, LABEL_LIMIT>, &[u8]), NameError>
    requires { text.now ≢ [] }
    ensures label { IfOk result (λ found. IsLabel found.0.items) }
    ensures text { IfOk result (λ found. BeginsLabel text.now found.0.items found.1.now) }
    ensures fault { IfErr result (λ fault. LabelFault text.now fault) }
{
    let mut label = ArrayVec::new();
    let mut rest = text;
    loop {
        match rest {
            [] => return Err(NameError::NotAbsolute),
            [b'.', ..] if label.is_empty() => return Err(NameError::EmptyLabel),
            [b'.', behind @ ..] => return Ok((label, behind)),
            _ => {}
        }
        let (octet, behind) = octet_of(rest).ok_or(NameError::BadEscape)?;
        if label.is_full() {
            return Err(NameError::LongLabel);
        }
        label.push(octet);
        rest = behind;
    }
}

/// A law of the text of names: each name is spelled by the text that is written for it.
pub fn names_are_spelled_by_their_text()
    ensures { (labels : Labels) → IsName labels → IsTextOf (text_of labels) labels }
{}

/// A law of the text of names: a text spells at most one name, or has one first fault, and not both.
pub fn a_text_has_one_reading()
    ensures name { (text : List ℕ) (a b : Labels) → IsName a → IsName b
        → IsTextOf text a → IsTextOf text b → a ≡ b }
    ensures fault { (text : List ℕ) (a b : NameError) → FirstFault text a → FirstFault text b
        → a ≡ b }
    ensures apart { (text : List ℕ) (labels : Labels) (fault : NameError) → IsName labels
        → IsTextOf text labels → FirstFault text fault → ⊥ }
{}

/// The octet that the front of the text spells, and the text behind it.
fn octet_of(text: &[u8]) -> Option<(u8, &[u8])>
    ensures { option_map (λ found. (found.0, found.1.now)) result ≡ octet_of text.now }
{
    let (&first, rest) = text.split_first()?;
    if first == b'\\' {
        return escaped_of(rest);
    }
    (first.is_ascii_graphic() && first != b'.').then_some((first, rest))
}

/// The octet that the text behind a backslash spells, and the text behind that.
fn escaped_of(text: &[u8]) -> Option<(u8, &[u8])>
    ensures { option_map (λ found. (found.0, found.1.now)) result ≡ escaped_of text.now }
{
    let (&first, rest) = text.split_first()?;
    if first.is_ascii_digit() {
        return decimal_of(text);
    }
    first.is_ascii_graphic().then_some((first, rest))
}

/// The octet that three decimal digits in front of the text spell, and the text behind them.
fn decimal_of(text: &[u8]) -> Option<(u8, &[u8])>
    ensures { option_map (λ found. (found.0, found.1.now)) result ≡ decimal_of text.now }
{
    let [x, y, z, rest @ ..] = text else {
        return None;
    };
    if !(x.is_ascii_digit() && y.is_ascii_digit() && z.is_ascii_digit()) {
        return None;
    }
    let value = 100 * u16::from(x - b'0') + 10 * u16::from(y - b'0') + u16::from(z - b'0');
    let octet = u8::try_from(value).ok()?;
    Some((octet, rest))
}
