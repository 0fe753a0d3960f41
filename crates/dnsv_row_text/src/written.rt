//! How rows write octets and numbers.

use crate::row::RowError;
use std::alloc::Global;
use std::collections::BTreeMap;

/// The octets that a text writes: parts behind one another, parted by `,`. A part is hex, text between two `'`, `-` for
/// no octets, or `$NAME` for octets that a row before has named; with `^N` behind it, it stands N times. In text, `|`
/// is a blank and `;` a newline.
pub fn octets_of(
    alloc: Global,
    text: &str,
    named: &BTreeMap<String, Vec<u8>>,
) -> Result<Vec<u8>, RowError> {
    let mut octets = Vec::new(alloc);
    for part in text.split(',') {
        append(&mut octets, part, named)?;
    }
    Ok(octets)
}

/// Appends what a part writes.
fn append(
    octets: &mut Vec<u8>,
    part: &str,
    named: &BTreeMap<String, Vec<u8>>,
) -> Result<(), RowError> {
    let (text, times) = match part.split_once('^') {
        Some((text, times)) => (text, number_of(times)?),
        None => (part, 1),
    };
    let once = part_of(*octets.allocator(), text, named)?;
    for _ in 0..times {
        octets.extend_from_slice(once.as_slice())?;
    }
    Ok(())
}

/// The octets of a part without its count.
fn part_of(
    alloc: Global,
    text: &str,
    named: &BTreeMap<String, Vec<u8>>,
) -> Result<Vec<u8>, RowError> {
    if text == "-" {
        return Ok(Vec::new(alloc));
    }
    if let Some(name) = text.strip_prefix('$') {
        let Some(octets) = named.get(name) else {
            return Err(RowError::Malformed);
        };
        return Ok(Vec::from_slice(alloc, octets.as_slice())?);
    }
    if let Some(quoted) = text.strip_prefix('\'') {
        return octets_of_text(alloc, quoted);
    }
    match hex::decode(alloc, text) {
        Ok(octets) => Ok(octets),
        Err(_) => Err(RowError::Malformed),
    }
}

/// The octets of a text that ends with `'`.
fn octets_of_text(alloc: Global, quoted: &str) -> Result<Vec<u8>, RowError> {
    let Some((text, "")) = quoted.split_once('\'') else {
        return Err(RowError::Malformed);
    };
    let mut octets = Vec::new(alloc);
    for octet in text.bytes() {
        octets.push(octet_of(octet))?;
    }
    Ok(octets)
}

fn octet_of(written: u8) -> u8 {
    match written {
        b'|' => b' ',
        b';' => b'\n',
        other => other,
    }
}

/// The number that a text is, in decimal.
pub fn number_of(text: &str) -> Result<u64, RowError> {
    match text.parse::<u64>() {
        Ok(number) => Ok(number),
        Err(_) => Err(RowError::Malformed),
    }
}
