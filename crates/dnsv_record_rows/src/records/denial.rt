//! Records that deny, and their sets of types.

use super::told;
use dnsv_records::{Nsec, Nsec3, Nsec3Parameters, TypeBitmap, UsableNsec3};
use dnsv_row_text::{Row, RowError, none_text, octets_text};
use std::alloc::{AllocError, Global};
use std::cmp::Ordering;

/// What the library answers, where it has the call.
pub fn answer(row: &Row) -> Result<Option<String>, RowError> {
    if row.calls("bitmap") {
        return Ok(Some(bitmap(row)?));
    }
    if row.calls("bitmap_written") {
        return Ok(Some(bitmap_written(row)?));
    }
    if row.calls("nsec") {
        return Ok(Some(nsec(row)?));
    }
    if row.calls("nsec3") {
        return Ok(Some(nsec3(row)?));
    }
    if row.calls("usable_nsec3") {
        return Ok(Some(usable_nsec3(row)?));
    }
    if row.calls("nsec3_parameters") {
        return Ok(Some(parameters_compared(row)?));
    }
    Ok(None)
}

/// `bitmap OCTETS TYPE ..`: how many octets spell the set that the octets are, and which of the types are in it.
fn bitmap(row: &Row) -> Result<String, RowError> {
    let alloc = row.alloc();
    let octets = row.octets(0)?;
    match TypeBitmap::read(octets.as_slice()) {
        Ok(types) => told::types(row, 1, &types),
        Err(error) => Ok(told::refused(alloc, &error)?),
    }
}

/// `bitmap_written OCTETS`: the octets that spell the set again.
fn bitmap_written(row: &Row) -> Result<String, RowError> {
    let alloc = row.alloc();
    let octets = row.octets(0)?;
    match TypeBitmap::read(octets.as_slice()) {
        Ok(types) => Ok(octets_text(alloc, types.write())?),
        Err(error) => Ok(told::refused(alloc, &error)?),
    }
}

/// `nsec OCTETS TYPE ..`: next name of the RDATA, and its types as those of `bitmap`.
fn nsec(row: &Row) -> Result<String, RowError> {
    let alloc = row.alloc();
    let rdata = row.octets(0)?;
    match Nsec::read(rdata.as_slice()) {
        Ok(nsec) => nsec_told(row, &nsec),
        Err(error) => Ok(told::refused(alloc, &error)?),
    }
}

fn nsec_told(row: &Row, nsec: &Nsec<'_>) -> Result<String, RowError> {
    let next = nsec.next.to_name();
    let types = told::types(row, 1, &nsec.types)?;
    Ok(format!(in row.alloc(); "next {next} {types}")?)
}

/// `nsec3 OCTETS TYPE ..`: algorithm, flags, parameters and next hash of the RDATA, and its types as those of `bitmap`.
fn nsec3(row: &Row) -> Result<String, RowError> {
    let alloc = row.alloc();
    let rdata = row.octets(0)?;
    match Nsec3::read(rdata.as_slice()) {
        Ok(nsec3) => nsec3_told(row, &nsec3),
        Err(error) => Ok(told::refused(alloc, &error)?),
    }
}

fn nsec3_told(row: &Row, nsec3: &Nsec3<'_>) -> Result<String, RowError> {
    let alloc = row.alloc();
    let algorithm = nsec3.algorithm.0;
    let flags = nsec3.flags.0;
    let parameters = parameters_told(alloc, &nsec3.parameters)?;
    let hash = told::octets(alloc, &nsec3.next_hash)?;
    let types = told::types(row, 1, &nsec3.types)?;
    Ok(format!(in alloc; "algorithm {algorithm} flags {flags} {parameters} next {hash} {types}")?)
}

fn parameters_told(alloc: Global, parameters: &Nsec3Parameters<'_>) -> Result<String, AllocError> {
    let iterations = parameters.iterations.0;
    let salt = told::octets(alloc, &parameters.salt)?;
    format!(in alloc; "iterations {iterations} salt {salt}")
}

/// `usable_nsec3 OCTETS TYPE ..`: what the record says where it may carry a denial, and else `none`.
fn usable_nsec3(row: &Row) -> Result<String, RowError> {
    let alloc = row.alloc();
    let rdata = row.octets(0)?;
    let nsec3 = match Nsec3::read(rdata.as_slice()) {
        Ok(nsec3) => nsec3,
        Err(error) => return Ok(told::refused(alloc, &error)?),
    };
    match nsec3.usable() {
        Some(usable) if nsec3.is_usable() => usable_told(row, &usable),
        _ => Ok(none_text(alloc)?),
    }
}

fn usable_told(row: &Row, usable: &UsableNsec3<'_>) -> Result<String, RowError> {
    let alloc = row.alloc();
    let is_opt_out = usable.is_opt_out;
    let parameters = parameters_told(alloc, usable.parameters)?;
    let hash = hex::encode(alloc, usable.next_hash.octets().as_slice())?;
    let types = told::types(row, 1, usable.types)?;
    Ok(format!(in alloc; "opt_out {is_opt_out} {parameters} next {hash} {types}")?)
}

/// `nsec3_parameters OCTETS OCTETS`: how the parameters of two records compare.
fn parameters_compared(row: &Row) -> Result<String, RowError> {
    let (one, other) = (row.octets(0)?, row.octets(1)?);
    let one = nsec3_of(one.as_slice())?;
    let other = nsec3_of(other.as_slice())?;
    let order = match one.parameters.cmp(&other.parameters) {
        Ordering::Less => "<",
        Ordering::Equal => "=",
        Ordering::Greater => ">",
    };
    Ok(String::from_str(row.alloc(), order)?)
}

/// The record whose RDATA the octets are.
fn nsec3_of(rdata: &[u8]) -> Result<Nsec3<'_>, RowError> {
    match Nsec3::read(rdata) {
        Ok(nsec3) => Ok(nsec3),
        Err(_) => Err(RowError::Malformed),
    }
}
