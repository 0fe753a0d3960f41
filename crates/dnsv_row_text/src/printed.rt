//! How answers are printed.

use crate::row::RowError;
use std::alloc::{AllocError, Global};
use std::cmp::Ordering;

/// What is printed where there is no value.
pub fn none_text(alloc: Global) -> Result<String, AllocError> {
    String::from_str(alloc, "none")
}

/// `true` or `false`.
pub fn truth_text(alloc: Global, holds: bool) -> Result<String, AllocError> {
    format!(in alloc; "{holds}")
}

/// Octets in hex, `-` where there are none.
pub fn octets_text(alloc: Global, octets: &[u8]) -> Result<String, AllocError> {
    if octets.is_empty() {
        return String::from_str(alloc, "-");
    }
    hex::encode(alloc, octets)
}

/// The texts parted by blanks, `none` for none.
pub fn list_text(alloc: Global, texts: &[String]) -> Result<String, RowError> {
    let Some((first, others)) = texts.split_first() else {
        return Ok(none_text(alloc)?);
    };
    let mut listed = String::from_str(alloc, first.as_str())?;
    for text in others {
        listed.push_str(" ")?;
        listed.push_str(text.as_str())?;
    }
    Ok(listed)
}

/// Lists of octets in hex, parted by blanks.
pub fn octets_list_text(alloc: Global, all: &[Vec<u8>]) -> Result<String, RowError> {
    let mut texts = Vec::new(alloc);
    for each in all {
        texts.push(octets_text(alloc, each.as_slice())?)?;
    }
    list_text(alloc, texts.as_slice())
}

/// The sign of an order: `<`, `=` or `>`.
pub fn order_sign(order: Ordering) -> char {
    match order {
        Ordering::Less => '<',
        Ordering::Equal => '=',
        Ordering::Greater => '>',
    }
}
