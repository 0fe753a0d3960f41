//! Questions of many names of a zone in one row.

use super::evidence::evidence_in;
use crate::denial::{rtype_of, view_through};
use bumpalo::Bump;
use dnsv_canonical::Capture;
use dnsv_denial::View;
use dnsv_names::Name;
use dnsv_record_rows::capture_or_refusal;
use dnsv_row_text::{Row, RowError};
use std::alloc::{AllocError, Global};

/// `lacks CAPTURE ANCHORS MOMENT TYPES NAME..`: for each name, parted by `/`: `+` where it is proved that there is no
/// such name, those of the types that are proved not to be there, and how many labels the unsigned cut has. `-` stands
/// for what isn't proved. Types are parted by `,`.
pub fn lacks(row: &Row) -> Result<String, RowError> {
    let bump = Bump::new(row.alloc());
    match capture_or_refusal(row, 0, &bump)? {
        Ok(capture) => lacks_in(row, &bump, &capture),
        Err(refusal) => Ok(refusal),
    }
}

fn lacks_in(row: &Row, bump: &Bump, capture: &Capture<'_>) -> Result<String, RowError> {
    let evidence = evidence_in(row, bump, capture)?;
    let mut text = String::new(row.alloc());
    for place in 4..row.count() {
        let name = row.name(place)?;
        let view = view_through(row.alloc(), &evidence, &name)?;
        append(&mut text, " ", lacked(row, &view)?.as_str())?;
    }
    Ok(text)
}

/// What a name lacks.
fn lacked(row: &Row, view: &View<'_, '_>) -> Result<String, RowError> {
    let alloc = row.alloc();
    let no_name = if view.no_name().is_some() { "+" } else { "-" };
    let types = lacked_types(alloc, row.text(3)?, view)?;
    let cut = match view.unsigned_cut() {
        Some(cut) => labels_of(alloc, &cut)?,
        None => String::from_str(alloc, "-")?,
    };
    Ok(format!(in alloc; "{no_name}/{types}/{cut}")?)
}

/// Those of the types that are proved not to be there.
fn lacked_types(alloc: Global, types: &str, view: &View<'_, '_>) -> Result<String, RowError> {
    let mut text = String::new(alloc);
    for each in types.split(',') {
        if view.no_data(rtype_of(each)?).is_some() {
            append(&mut text, ",", each)?;
        }
    }
    if text.as_str().is_empty() {
        text.push_str("-")?;
    }
    Ok(text)
}

fn labels_of(alloc: Global, name: &Name) -> Result<String, AllocError> {
    let labels = name.labels();
    format!(in alloc; "{labels}")
}

/// Appends an item, behind the mark where it isn't the first.
fn append(text: &mut String, mark: &str, item: &str) -> Result<(), AllocError> {
    if !text.as_str().is_empty() {
        text.push_str(mark)?;
    }
    text.push_str(item)
}

/// `closers CAPTURE ANCHORS MOMENT ZONE NAME..`: for each name, and each number of labels from 0 to below its own: `+`
/// where it is proved that the zone has no closer name, `~` where that name may be left out, `*` where both, else `-`.
pub fn closers(row: &Row) -> Result<String, RowError> {
    let bump = Bump::new(row.alloc());
    match capture_or_refusal(row, 0, &bump)? {
        Ok(capture) => closers_in(row, &bump, &capture),
        Err(refusal) => Ok(refusal),
    }
}

fn closers_in(row: &Row, bump: &Bump, capture: &Capture<'_>) -> Result<String, RowError> {
    let evidence = evidence_in(row, bump, capture)?;
    let zone = row.name(3)?;
    let mut text = String::new(row.alloc());
    for place in 4..row.count() {
        let name = row.name(place)?;
        let view = view_through(row.alloc(), &evidence, &name)?;
        append(
            &mut text,
            " ",
            closers_of(row, &view, &zone, name.labels())?.as_str(),
        )?;
    }
    Ok(text)
}

fn closers_of(
    row: &Row,
    view: &View<'_, '_>,
    zone: &Name,
    count: usize,
) -> Result<String, RowError> {
    let mut text = String::new(row.alloc());
    for labels in 0..count {
        let is_shown = view.no_closer(zone, labels).is_some();
        let is_opted_out = view.loose_closer(zone, labels).is_some();
        text.push_str(mark_of(is_shown, is_opted_out))?;
    }
    Ok(text)
}

fn mark_of(is_shown: bool, is_opted_out: bool) -> &'static str {
    match (is_shown, is_opted_out) {
        (true, false) => "+",
        (false, true) => "~",
        (true, true) => "*",
        (false, false) => "-",
    }
}
