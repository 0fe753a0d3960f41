//! Calls of `dnsv_digest`.

use dnsv_digest::{Digest, DigestAlgorithm, ds_digest, hmac_sha256, nsec3_hash};
use dnsv_names::Count;
use dnsv_row_text::{Row, RowError, none_text, octets_text, truth_text};

/// What the library answers, where it has the call.
pub fn answer(row: &Row) -> Result<Option<String>, RowError> {
    if row.calls("ds_digest") {
        return Ok(Some(digest_told(row)?));
    }
    if row.calls("is_same_digest") {
        return Ok(Some(is_same_digest(row)?));
    }
    if row.calls("is_stronger_than") {
        return Ok(Some(is_stronger_than(row)?));
    }
    if row.calls("nsec3_hash") {
        return Ok(Some(hash_told(row)?));
    }
    if row.calls("hmac_sha256") {
        return Ok(Some(mac_told(row)?));
    }
    Ok(None)
}

/// `ds_digest TYPE OWNER RDATA`: the digest of the key, `none` where the digest type isn't supported.
fn digest_told(row: &Row) -> Result<String, RowError> {
    match digest_of(row, 2)? {
        Some(digest) => Ok(octets_text(row.alloc(), digest.octets())?),
        None => Ok(none_text(row.alloc())?),
    }
}

/// The digest by the first argument, of the owner behind it and the RDATA at the place.
fn digest_of(row: &Row, place: usize) -> Result<Option<Digest>, RowError> {
    let rdata = row.octets(place)?;
    Ok(ds_digest(row.number8(0)?, &row.name(1)?, rdata.as_slice()))
}

/// `is_same_digest TYPE OWNER RDATA RDATA`: whether a clone of the one key's digest is that of the other key.
fn is_same_digest(row: &Row) -> Result<String, RowError> {
    let (Some(one), Some(other)) = (digest_of(row, 2)?, digest_of(row, 3)?) else {
        return Ok(none_text(row.alloc())?);
    };
    let is_same = one.clone()? == other;
    Ok(truth_text(row.alloc(), is_same)?)
}

/// `is_stronger_than TYPE TYPE`: whether the one digest type goes before the other.
fn is_stronger_than(row: &Row) -> Result<String, RowError> {
    let (Some(one), Some(other)) = (
        DigestAlgorithm::from_number(row.number8(0)?),
        DigestAlgorithm::from_number(row.number8(1)?),
    ) else {
        return Ok(none_text(row.alloc())?);
    };
    Ok(truth_text(row.alloc(), one.is_stronger_than(other))?)
}

/// `nsec3_hash NAME SALT ITERATIONS`: the hash of the name, and how many hashes were counted for it.
fn hash_told(row: &Row) -> Result<String, RowError> {
    let alloc = row.alloc();
    let salt = row.octets(1)?;
    let mut count = Count::new();
    let hash = nsec3_hash(&row.name(0)?, salt.as_slice(), row.number16(2)?, &mut count);
    let octets = hex::encode(alloc, hash.octets().as_slice())?;
    let count = count.value();
    Ok(format!(in alloc; "{octets} {count}")?)
}

/// `hmac_sha256 KEY PIECE ..`: the MAC of a text in pieces.
fn mac_told(row: &Row) -> Result<String, RowError> {
    let alloc = row.alloc();
    let key = row.octets(0)?;
    let mut pieces = Vec::new(alloc);
    for place in 1..row.count() {
        pieces.push(row.octets(place)?)?;
    }
    let mut slices = Vec::new(alloc);
    for piece in pieces.iter() {
        slices.push(piece.as_slice())?;
    }
    let mac = hmac_sha256(key.as_slice(), slices.as_slice());
    Ok(hex::encode(alloc, mac.as_slice())?)
}
