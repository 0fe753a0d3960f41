//! How the fields of records are printed.

use dnsv_names::RecordType;
use dnsv_records::{Field, Octets, RecordError, TypeBitmap};
use dnsv_row_text::{Row, RowError, octets_text};
use std::alloc::{AllocError, Global};

/// From how many octets on the same octet is printed once, with a count.
const LONG: usize = 64;

/// Octets in hex; many of the same octet as rows write them, `01^65531`.
pub fn octets(alloc: Global, octets: &Octets<'_>) -> Result<String, AllocError> {
    let all = octets.as_slice();
    let count = all.len();
    match all.first() {
        Some(first) if count >= LONG && are_all(all, *first) => {
            let once = hex::encode(alloc, [*first].as_slice())?;
            format!(in alloc; "{once}^{count}")
        }
        _ => octets_text(alloc, all),
    }
}

fn are_all(octets: &[u8], one: u8) -> bool {
    for octet in octets {
        if *octet != one {
            return false;
        }
    }
    true
}

/// How many octets spell the set, and which of the types that the row names from the place on are in it.
pub fn types(row: &Row, from: usize, types: &TypeBitmap<'_>) -> Result<String, RowError> {
    let alloc = row.alloc();
    let size = types.write().len();
    let mut text = format!(in alloc; "octets {size} types")?;
    for place in from..row.count() {
        let number = row.number16(place)?;
        if types.contains(RecordType(number)) {
            text.push_str(format!(in alloc; " {number}")?.as_str())?;
        }
    }
    Ok(text)
}

/// The refusal, with the field that it names.
pub fn refused(alloc: Global, error: &RecordError) -> Result<String, AllocError> {
    let RecordError::BadRdata(field) = error;
    String::from_str(alloc, refused_field(*field))
}

fn refused_field(field: Field) -> &'static str {
    match field {
        Field::Head => "refused head",
        Field::Name => "refused name",
        Field::Salt => "refused salt",
        Field::Hash => "refused hash",
        Field::Bitmap => "refused bitmap",
    }
}
