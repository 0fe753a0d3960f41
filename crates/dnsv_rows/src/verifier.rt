//! Calls of `dnsv_verifier`.

use crate::evidence::dnskey_of;
use bumpalo::Bump;
use dnsv_canonical::{Capture, Rrset, SignatureNumber};
use dnsv_names::Count;
use dnsv_record_rows::{capture, signature};
use dnsv_records::{Algorithm, Octets};
use dnsv_row_text::{Row, RowError, list_text, octets_text};
use dnsv_statements::{Statements, StatementsError};
use dnsv_timeline::Range;
use dnsv_verifier::{
    Answer, Entry, KeyRecord, Panel, SignedData, Table, Verifier, ask_all, ask_within,
    is_admissible, is_verifiable, may_have_made,
};
use std::alloc::Global;

/// What the library answers, where it has the call.
pub fn answer(row: &Row) -> Result<Option<String>, RowError> {
    if row.calls("statements") {
        return Ok(Some(statements(row)?));
    }
    if row.calls("panel") {
        return Ok(Some(panel(row)?));
    }
    if row.calls("asked") {
        return Ok(Some(asked(row)?));
    }
    if row.calls("table") {
        return Ok(Some(table(row)?));
    }
    if row.calls("within") {
        return Ok(Some(within(row)?));
    }
    if row.calls("hopeful") {
        return Ok(Some(hopeful(row)?));
    }
    if row.calls("answer_at") {
        return Ok(Some(answer_at(row)?));
    }
    if row.calls("admissible") {
        return Ok(Some(admissible(row)?));
    }
    Ok(None)
}

/// `statements TEXT ALGORITHM KEY DATA SIGNATURE`: what the file of statements says, or its refusal.
fn statements(row: &Row) -> Result<String, RowError> {
    match Statements::parse(row.alloc(), row.octets(0)?.as_slice()) {
        Ok(statements) => {
            let bump = Bump::new(row.alloc());
            let said = said_by(&statements, &entry(row, 1, &bump)?);
            Ok(format!(in row.alloc(); "{said:?}")?)
        }
        Err(error) => refused(row.alloc(), &error),
    }
}

fn refused(alloc: Global, error: &StatementsError) -> Result<String, RowError> {
    let code = error.code();
    match error {
        StatementsError::Syntax(line) | StatementsError::Contradiction(line) => {
            Ok(format!(in alloc; "refused {code} line {line}")?)
        }
        StatementsError::OutOfMemory => Ok(format!(in alloc; "refused {code}")?),
    }
}

/// `panel ALGORITHM KEY DATA SIGNATURE TEXT ..`: what the files of statements say together.
fn panel(row: &Row) -> Result<String, RowError> {
    let mut members: Vec<Box<dyn Verifier>> = Vec::new(row.alloc());
    for place in 4..row.count() {
        members.push(Box::new(row.alloc(), statements_of(row, place)?)?)?;
    }
    let bump = Bump::new(row.alloc());
    let said = said_by(&Panel::new(members), &entry(row, 0, &bump)?);
    Ok(format!(in row.alloc(); "{said:?}")?)
}

/// `asked CAPTURE MOMENT STATEMENTS`: how many entries are asked of the statements and are counted, and how many
/// they know nothing of.
fn asked(row: &Row) -> Result<String, RowError> {
    let bump = Bump::new(row.alloc());
    let capture = capture(row, 0, &bump)?;
    asked_of(row, &bump, &capture)
}

fn asked_of(row: &Row, bump: &Bump, capture: &Capture<'_>) -> Result<String, RowError> {
    let mut count = Count::new();
    let table = table_of(row, bump, capture, &mut count)?;
    let (asked, counted, unknown) = (
        table.len(),
        count.value(),
        table.unknown(row.alloc())?.len(),
    );
    Ok(format!(in row.alloc(); "{asked} {counted} {unknown}")?)
}

/// `table CAPTURE MOMENT STATEMENTS`: the entries that are still to be verified, as `ALGORITHM:KEY:DATA:SIGNATURE`.
fn table(row: &Row) -> Result<String, RowError> {
    let bump = Bump::new(row.alloc());
    let capture = capture(row, 0, &bump)?;
    unknown_of(row, &bump, &capture)
}

fn unknown_of(row: &Row, bump: &Bump, capture: &Capture<'_>) -> Result<String, RowError> {
    let table = table_of(row, bump, capture, &mut Count::new())?;
    unknown_in(row.alloc(), &table)
}

fn unknown_in(alloc: Global, table: &Table<'_>) -> Result<String, RowError> {
    let mut texts = Vec::new(alloc);
    let unknown = table.unknown(alloc)?;
    for place in 0..unknown.len() {
        texts.push(text_of(alloc, &unknown.at(place))?)?;
    }
    list_text(alloc, texts.as_slice())
}

fn text_of(alloc: Global, entry: &Entry<'_>) -> Result<String, RowError> {
    let algorithm = entry.algorithm.0;
    let key = octets_text(alloc, entry.key.as_slice())?;
    let (front, records) = entry.signed_data.pieces();
    let mut octets = Vec::from_slice(alloc, front)?;
    octets.extend_from_slice(records)?;
    let signed_data = octets_text(alloc, octets.as_slice())?;
    let signature = octets_text(alloc, entry.signature.as_slice())?;
    Ok(format!(in alloc; "{algorithm}:{key}:{signed_data}:{signature}")?)
}

/// `within CAPTURE MOMENT STATEMENTS FROM TO`: how many entries are asked at the moments of the range, how many of those
/// at the moment, and these as `table` writes them.
fn within(row: &Row) -> Result<String, RowError> {
    let bump = Bump::new(row.alloc());
    let capture = capture(row, 0, &bump)?;
    within_of(row, &bump, &capture)
}

fn within_of(row: &Row, bump: &Bump, capture: &Capture<'_>) -> Result<String, RowError> {
    let (alloc, statements) = (row.alloc(), statements_of(row, 2)?);
    let Some(range) = Range::new(row.number(3)?, row.number(4)?) else {
        return Err(RowError::Malformed);
    };
    let table = ask_within(alloc, bump, capture, range, &statements, &mut Count::new())?;
    let at = table.at(alloc, row.number(1)?)?;
    let (asked, left, unknown) = (table.len(), at.len(), unknown_in(alloc, &at)?);
    Ok(format!(in alloc; "{asked} {left} {unknown}")?)
}

/// `hopeful CAPTURE MOMENT STATEMENTS ALGORITHM KEY DATA SIGNATURE`: what the table says of the entry, and the hopeful
/// one, and the moment, entries and unknown entries of the latter.
fn hopeful(row: &Row) -> Result<String, RowError> {
    let bump = Bump::new(row.alloc());
    let capture = capture(row, 0, &bump)?;
    let entry = entry(row, 3, &bump)?;
    hoped_of(row, &bump, &capture, &entry)
}

fn hoped_of(
    row: &Row,
    bump: &Bump,
    capture: &Capture<'_>,
    entry: &Entry<'_>,
) -> Result<String, RowError> {
    let table = table_of(row, bump, capture, &mut Count::new())?;
    let hopeful = table.hopeful(row.alloc())?;
    let (said, hoped) = (said_by(&table, entry), said_by(&hopeful, entry));
    let (moment, entries) = (hopeful.moment(), hopeful.len());
    let unknown = hopeful.unknown(row.alloc())?.len();
    Ok(format!(in row.alloc(); "{said:?} {hoped:?} {moment} {entries} {unknown}")?)
}

/// `answer_at CAPTURE MOMENT STATEMENTS RRSET SIGNATURE KEYRRSET KEY`: what the table says of the signature with these
/// numbers under the key; `-` where a verifier is asked nothing of it.
fn answer_at(row: &Row) -> Result<String, RowError> {
    let bump = Bump::new(row.alloc());
    let capture = capture(row, 0, &bump)?;
    said_at(row, &bump, &capture)
}

fn said_at(row: &Row, bump: &Bump, capture: &Capture<'_>) -> Result<String, RowError> {
    let table = table_of(row, bump, capture, &mut Count::new())?;
    let (Ok(rrset), Ok(signature)) = (
        usize::try_from(row.number(3)?),
        usize::try_from(row.number(4)?),
    ) else {
        return Err(RowError::Malformed);
    };
    let set = dnsv_record_rows::rrset(row, 5, capture)?;
    let rdata = key_rdata(row, 6, set)?;
    let dnskey = dnskey_of(rdata)?;
    let key = KeyRecord::new(set.owner(), rdata, &dnskey);
    match table.answer_at(row.alloc(), SignatureNumber { rrset, signature }, &key)? {
        Some(answer) => Ok(format!(in row.alloc(); "{answer:?}")?),
        None => Ok(format!(in row.alloc(); "-")?),
    }
}

/// `admissible CAPTURE MOMENT RRSET SIGNATURE KEYRRSET KEY`: whether the key may be used to verify the signature, and
/// what is asked of it: whether some key may, and whether the key may have made it.
fn admissible(row: &Row) -> Result<String, RowError> {
    let bump = Bump::new(row.alloc());
    admissible_in(row, &capture(row, 0, &bump)?)
}

fn admissible_in(row: &Row, capture: &Capture<'_>) -> Result<String, RowError> {
    let moment = row.number(1)?;
    let rrset = dnsv_record_rows::rrset(row, 2, capture)?;
    let rrsig = signature(row, 3, rrset)?;
    let set = dnsv_record_rows::rrset(row, 4, capture)?;
    let rdata = key_rdata(row, 5, set)?;
    let dnskey = dnskey_of(rdata)?;
    let key = KeyRecord::new(set.owner(), rdata, &dnskey);
    let admissible = is_admissible(moment, rrset, rrsig, &key);
    let (verifiable, made) = (
        is_verifiable(moment, rrset, rrsig),
        may_have_made(&key, rrsig),
    );
    Ok(format!(in row.alloc(); "{admissible} {verifiable} {made}")?)
}

/// The RDATA of the key of the RRset whose number, from 1 on, the argument is.
fn key_rdata<'a>(row: &Row, place: usize, rrset: &'a Rrset<'a>) -> Result<&'a [u8], RowError> {
    let number = row.number(place)?.saturating_sub(1);
    let Ok(index) = usize::try_from(number) else {
        return Err(RowError::Malformed);
    };
    if index >= rrset.dnskeys().len() || index >= rrset.len() {
        return Err(RowError::Malformed);
    }
    Ok(rrset.rdata(index))
}

/// What the statements of the row say of the capture at its moment.
fn table_of<'b>(
    row: &Row,
    bump: &'b Bump,
    capture: &'b Capture<'b>,
    count: &mut Count,
) -> Result<Table<'b>, RowError> {
    let (moment, statements) = (row.number(1)?, statements_of(row, 2)?);
    Ok(ask_all(row.alloc(), bump, capture, moment, &statements, count)?)
}

/// The statements of the file that the argument writes.
pub fn statements_of(row: &Row, place: usize) -> Result<Statements, RowError> {
    match Statements::parse(row.alloc(), row.octets(place)?.as_slice()) {
        Ok(statements) => Ok(statements),
        Err(_) => Err(RowError::Malformed),
    }
}

/// The entry that four arguments write, from the place on.
fn entry<'b>(row: &Row, place: usize, bump: &'b Bump) -> Result<Entry<'b>, RowError> {
    let Ok(algorithm) = u8::try_from(row.number(place)?) else {
        return Err(RowError::Malformed);
    };
    Ok(Entry {
        algorithm: Algorithm(algorithm),
        key: placed(row, place.saturating_add(1), bump)?,
        signed_data: SignedData::of(placed(row, place.saturating_add(2), bump)?.as_slice()),
        signature: placed(row, place.saturating_add(3), bump)?,
    })
}

/// The octets that the argument writes, in the arena.
fn placed<'b>(row: &Row, place: usize, bump: &'b Bump) -> Result<Octets<'b>, RowError> {
    let octets = row.octets(place)?;
    Ok(Octets::of(bump.try_alloc_slice_copy(&octets)?))
}

/// What the verifier says of the entry.
fn said_by<V: Verifier>(verifier: &V, entry: &Entry<'_>) -> Answer {
    verifier.answer(entry)
}
