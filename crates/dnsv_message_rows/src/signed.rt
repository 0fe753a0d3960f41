//! Calls of `dnsv_tsig`.

use bumpalo::Bump;
use dnsv_message::DecodeError;
use dnsv_names::Name;
use dnsv_row_text::{Row, RowError, truth_text};
use dnsv_tsig::{KeyFileError, KeyRing, Opened, TsigError, open};
use std::alloc::{AllocError, Global};

/// What the library answers, where it has the call.
pub fn answer(row: &Row) -> Result<Option<String>, RowError> {
    if row.calls("open") {
        return Ok(Some(open_message(row)?));
    }
    if row.calls("opened") {
        return Ok(Some(opened(row)?));
    }
    if row.calls("keys") {
        return Ok(Some(keys(row)?));
    }
    if row.calls("debug_has") {
        return Ok(Some(debug_has(row)?));
    }
    Ok(None)
}

/// `open MESSAGE KEYS NOW MAC`: the name of the key that signed the message, and the octets of the message inside. The
/// last is the MAC of the request, or `-`.
fn open_message(row: &Row) -> Result<String, RowError> {
    let asked = asked_by(row)?;
    let bump = Bump::new(row.alloc());
    key_and_message(row.alloc(), &asked, &bump)
}

fn key_and_message(alloc: Global, asked: &Asked, bump: &Bump) -> Result<String, RowError> {
    match opened_in(alloc, asked, bump) {
        Ok(opened) => {
            let octets = hex::encode(alloc, opened.message())?;
            Ok(format!(in alloc; "{} {octets}", opened.key())?)
        }
        Err(error) => refused(alloc, &error),
    }
}

/// `opened MESSAGE KEYS NOW MAC INSIDE`: the same, but whether the octets of the message inside are these.
fn opened(row: &Row) -> Result<String, RowError> {
    let inside = row.octets(4)?;
    let asked = asked_by(row)?;
    let bump = Bump::new(row.alloc());
    key_and_whether_inside(row.alloc(), &asked, &inside, &bump)
}

fn key_and_whether_inside(
    alloc: Global,
    asked: &Asked,
    inside: &[u8],
    bump: &Bump,
) -> Result<String, RowError> {
    match opened_in(alloc, asked, bump) {
        Ok(opened) => {
            let is_so = opened.message() == inside;
            Ok(format!(in alloc; "{} {is_so}", opened.key())?)
        }
        Err(error) => refused(alloc, &error),
    }
}

fn opened_in<'b>(alloc: Global, asked: &Asked, bump: &'b Bump) -> Result<Opened<'b>, TsigError> {
    open(
        alloc,
        &asked.octets,
        &asked.keys,
        asked.now,
        asked.request_mac.as_ref(),
        bump,
    )
}

/// What `open` is asked with.
#[derive(Drop)]
struct Asked {
    octets: Vec<u8>,
    keys: KeyRing,
    now: u64,
    request_mac: Option<[u8; 32]>,
}

/// What the row asks `open` with.
fn asked_by(row: &Row) -> Result<Asked, RowError> {
    let octets = row.octets(0)?;
    let Ok(keys) = KeyRing::parse(row.alloc(), &row.octets(1)?) else {
        return Err(RowError::Malformed);
    };
    let now = row.number(2)?;
    let mac = row.octets(3)?;
    let request_mac = if mac.is_empty() {
        None
    } else {
        Some(mac_of(&mac)?)
    };
    Ok(Asked {
        octets,
        keys,
        now,
        request_mac,
    })
}

fn mac_of(octets: &[u8]) -> Result<[u8; 32], RowError> {
    if octets.len() != 32 {
        return Err(RowError::Malformed);
    }
    let mut mac = [0; 32];
    mac.copy_from_slice(octets);
    Ok(mac)
}

fn refused(alloc: Global, error: &TsigError) -> Result<String, RowError> {
    let code = error.code();
    match error {
        TsigError::Unreadable(DecodeError::BadRdata(number)) => {
            Ok(format!(in alloc; "refused {code} record {number}")?)
        }
        _ => Ok(format!(in alloc; "refused {code}")?),
    }
}

/// `keys TEXT NAME ..`: the file's key of each of the names, as the file spells it, or `-`.
fn keys(row: &Row) -> Result<String, RowError> {
    match KeyRing::parse(row.alloc(), &row.octets(0)?) {
        Ok(ring) => names_in(row, &ring),
        Err(error) => Ok(refused_file(row.alloc(), &error)?),
    }
}

fn names_in(row: &Row, ring: &KeyRing) -> Result<String, RowError> {
    let mut text = String::from_str(row.alloc(), "ok")?;
    for place in 1..row.count() {
        push_name(&mut text, ring, &row.name(place)?)?;
    }
    Ok(text)
}

fn push_name(text: &mut String, ring: &KeyRing, name: &Name) -> Result<(), AllocError> {
    match ring.key_named(name) {
        Some(key) => write!(text, " {}", key.name()),
        None => text.push_str(" -"),
    }
}

fn refused_file(alloc: Global, error: &KeyFileError) -> Result<String, AllocError> {
    let code = error.code();
    match error {
        KeyFileError::Syntax(line) | KeyFileError::DuplicateKey(line) => {
            Ok(format!(in alloc; "refused {code} line {line}")?)
        }
        KeyFileError::OutOfMemory => Ok(format!(in alloc; "refused {code}")?),
    }
}

/// `debug_has TEXT PART`: whether what is printed of the file's ring for a report of a fault has the part in it.
fn debug_has(row: &Row) -> Result<String, RowError> {
    let Ok(ring) = KeyRing::parse(row.alloc(), &row.octets(0)?) else {
        return Err(RowError::Malformed);
    };
    let Ok(part) = String::from_utf8(row.octets(1)?) else {
        return Err(RowError::Malformed);
    };
    let text = format!(in row.alloc(); "{ring:?}")?;
    Ok(truth_text(row.alloc(), text.as_str().contains(part.as_str()))?)
}
