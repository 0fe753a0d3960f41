//! Calls of `dnsv_denial`.
ghost use Rattle.std.specs.Prelude.{◌≡◌};
ghost use Rattle.dnsv_chain.specs.Trust.{SecuredIn};
ghost use Rattle.dnsv_denial.specs.gathering.ByZone.{AreDenialRecords};

mod each;
mod evidence;
mod places;

use crate::chain::trust_in;
use bumpalo::Bump;
use dnsv_canonical::Capture;
use dnsv_chain::Trust;
use dnsv_denial::{Proof, View};
use dnsv_names::{Count, Name, RecordType};
use dnsv_proof_forms::Hashes;
use dnsv_record_rows::capture_or_refusal;
use dnsv_row_text::{Row, RowError, none_text};
use evidence::{Evidence, evidence_in};
use std::alloc::Global;

/// What the library answers, where it has the call.
pub fn answer(row: &Row) -> Result<Option<String>, RowError> {
    if row.calls("deny") {
        return Ok(Some(deny(row)?));
    }
    if row.calls("retrust") {
        return Ok(Some(retrust(row)?));
    }
    if row.calls("closer") {
        return Ok(Some(closer(row)?));
    }
    if row.calls("hashes") {
        return Ok(Some(hashes(row)?));
    }
    if row.calls("hash") {
        return Ok(Some(hash(row)?));
    }
    if row.calls("lacks") {
        return Ok(Some(each::lacks(row)?));
    }
    if row.calls("closers") {
        return Ok(Some(each::closers(row)?));
    }
    places::answer(row)
}

/// `deny CAPTURE ANCHORS MOMENT NAME TYPE`: the zone and the records of the proof that there is no such name, those of
/// the proof that the type isn't there, and the unsigned cut.
fn deny(row: &Row) -> Result<String, RowError> {
    let bump = Bump::new(row.alloc());
    match capture_or_refusal(row, 0, &bump)? {
        Ok(capture) => denied(row, &bump, &capture),
        Err(refusal) => Ok(refusal),
    }
}

fn denied(row: &Row, bump: &Bump, capture: &Capture<'_>) -> Result<String, RowError> {
    let evidence = evidence_in(row, bump, capture)?;
    let name = row.name(3)?;
    let view = view_of(row.alloc(), &evidence, &name)?;
    denials(row.alloc(), &view, rtype_of(row.text(4)?)?)
}

/// `retrust CAPTURE ANCHORS MOMENT NAME TYPE BEFORE`: what `deny` prints, by the hashes that a view under the anchors
/// BEFORE was made with.
fn retrust(row: &Row) -> Result<String, RowError> {
    let bump = Bump::new(row.alloc());
    match capture_or_refusal(row, 0, &bump)? {
        Ok(capture) => denied_again(row, &bump, &capture),
        Err(refusal) => Ok(refusal),
    }
}

fn denied_again(row: &Row, bump: &Bump, capture: &Capture<'_>) -> Result<String, RowError> {
    let evidence = evidence_in(row, bump, capture)?;
    let before = trust_in(row, bump, evidence.capture, 5)?;
    let name = row.name(3)?;
    let view = view_with_hashes_of(row.alloc(), &evidence, &before, &name)?;
    denials(row.alloc(), &view, rtype_of(row.text(4)?)?)
}

/// The view of the evidence for the name, by the hashes that a view under another trust was made with.
fn view_with_hashes_of<'a>(
    alloc: Global,
    evidence: &'a Evidence<'a>,
    before: &Trust<'_>,
    name: &Name,
) -> Result<View<'a, 'a>, RowError> {
    let hashes = Hashes::new(alloc, evidence.capture, name, &mut Count::new())?;
    make_view(alloc, evidence.capture, before, &hashes)?;
    Ok(View::with(alloc, evidence.capture, &evidence.trust, &hashes)?)
}

/// Makes a view by the hashes, of which nothing is asked.
fn make_view<'a>(
    alloc: Global,
    capture: &'a Capture<'a>,
    trust: &Trust<'_>,
    hashes: &Hashes<'a>,
) -> Result<(), RowError>
    requires { hashes.now.rrsets ≡ capture.now.rrsets }
{
    View::with(alloc, capture, trust, hashes)?;
    Ok(())
}

/// `closer CAPTURE ANCHORS MOMENT NAME ZONE LABELS`: the zone and the record of the proof that the zone has no closer
/// name than so many labels, and the next closer name that may be left out.
fn closer(row: &Row) -> Result<String, RowError> {
    let bump = Bump::new(row.alloc());
    match capture_or_refusal(row, 0, &bump)? {
        Ok(capture) => closer_in(row, &bump, &capture),
        Err(refusal) => Ok(refusal),
    }
}

fn closer_in(row: &Row, bump: &Bump, capture: &Capture<'_>) -> Result<String, RowError> {
    let evidence = evidence_in(row, bump, capture)?;
    let name = row.name(3)?;
    let view = view_of(row.alloc(), &evidence, &name)?;
    closer_names(row, &view)
}

fn closer_names(row: &Row, view: &View<'_, '_>) -> Result<String, RowError> {
    let alloc = row.alloc();
    let zone = row.name(4)?;
    let Ok(labels) = usize::try_from(row.number(5)?) else {
        return Err(RowError::Malformed);
    };
    let no_closer = told(alloc, view.no_closer(&zone, labels))?;
    let loose_closer = named(alloc, view.loose_closer(&zone, labels))?;
    Ok(format!(in alloc; "{no_closer}, {loose_closer}")?)
}

/// `hashes CAPTURE ANCHORS MOMENT NAME`: how many hashes a view for the name makes.
fn hashes(row: &Row) -> Result<String, RowError> {
    let bump = Bump::new(row.alloc());
    match capture_or_refusal(row, 0, &bump)? {
        Ok(capture) => hash_count(row, &bump, &capture),
        Err(refusal) => Ok(refusal),
    }
}

fn hash_count(row: &Row, bump: &Bump, capture: &Capture<'_>) -> Result<String, RowError> {
    let evidence = evidence_in(row, bump, capture)?;
    let mut count = Count::new();
    let name = row.name(3)?;
    View::new(
        row.alloc(),
        evidence.capture,
        &evidence.trust,
        &name,
        &mut count,
    )?;
    let value = count.value();
    Ok(format!(in row.alloc(); "{value}")?)
}

/// `hash CAPTURE NAME ITERATIONS SALT OTHER`: the hash of the other name among those that are kept for the name.
fn hash(row: &Row) -> Result<String, RowError> {
    let bump = Bump::new(row.alloc());
    match capture_or_refusal(row, 0, &bump)? {
        Ok(capture) => hash_in(row, &capture),
        Err(refusal) => Ok(refusal),
    }
}

fn hash_in(row: &Row, capture: &Capture<'_>) -> Result<String, RowError> {
    let name = row.name(1)?;
    let hashes = Hashes::new(row.alloc(), capture, &name, &mut Count::new())?;
    kept_hash(row, &hashes)
}

fn kept_hash(row: &Row, hashes: &Hashes<'_>) -> Result<String, RowError> {
    let iterations = row.number16(2)?;
    let salt = row.octets(3)?;
    let other = row.name(4)?;
    match hashes.get(iterations, salt.as_slice(), &other) {
        Some(hash) => Ok(hex::encode(row.alloc(), hash.octets().as_slice())?),
        None => Ok(none_text(row.alloc())?),
    }
}

/// The view of the evidence for the name.
fn view_of<'a>(
    alloc: Global,
    evidence: &'a Evidence<'a>,
    name: &Name,
) -> Result<View<'a, 'a>, RowError> {
    Ok(View::new(
        alloc,
        evidence.capture,
        &evidence.trust,
        name,
        &mut Count::new(),
    )?)
}

/// The same view, through the records that were gathered for all names.
fn view_through<'a>(
    alloc: Global,
    evidence: &'a Evidence<'a>,
    name: &Name,
) -> Result<View<'a, 'a>, RowError>
    requires { AreDenialRecords (SecuredIn evidence.now.trust) evidence.now.capture.now.rrsets evidence.now.denials }
{
    let hashes = Hashes::new(alloc, evidence.capture, name, &mut Count::new())?;
    Ok(View::through(
        alloc,
        evidence.capture,
        &evidence.trust,
        &evidence.denials,
        &hashes,
    )?)
}

/// The type with the number that a text is.
fn rtype_of(text: &str) -> Result<RecordType, RowError> {
    match text.parse::<u16>() {
        Ok(number) => Ok(RecordType(number)),
        Err(_) => Err(RowError::Malformed),
    }
}

fn denials(alloc: Global, view: &View<'_, '_>, rtype: RecordType) -> Result<String, RowError> {
    let no_name = told(alloc, view.no_name())?;
    let no_data = told(alloc, view.no_data(rtype))?;
    let cut = named(alloc, view.unsigned_cut())?;
    Ok(format!(in alloc; "{no_name}, {no_data}, {cut}")?)
}

/// The zone of a proof, and its records as `RRSET.PLACE`.
fn told(alloc: Global, proof: Option<Proof>) -> Result<String, RowError> {
    let Some(proof) = proof else {
        return Ok(String::from_str(alloc, "none")?);
    };
    let zone = proof.zone();
    let mut text = format!(in alloc; "{zone}")?;
    for number in proof.records() {
        let (rrset, place) = (number.rrset, number.place);
        text = format!(in alloc; "{text} {rrset}.{place}")?;
    }
    Ok(text)
}

/// The name, if there is one.
fn named(alloc: Global, name: Option<Name>) -> Result<String, RowError> {
    match name {
        Some(name) => Ok(format!(in alloc; "{name}")?),
        None => Ok(String::from_str(alloc, "none")?),
    }
}
