//! Where the RRsets stand that lines name.
ghost use Rattle.std.specs.Prelude.{◌↔◌, ℕ, Contains, IfOk, OnOk};
ghost use Rattle.std.specs.List.Sorted.{IsStrictlyIncreasing};
ghost use Rattle.dnsv_derivations.specs.Places.{AddsPlace, ArePlacedBy, ArePlacesOf, NamesRrset};

use dnsv_canonical::{Capture, Rrset, numbered};
use dnsv_lines::{Line, RrsetPlace, push_rrsets};
use std::alloc::{AllocError, Global};

/// Where each RRset stands that the lines name by its number: each once, by rising number.
pub fn places_named(
    alloc: Global,
    capture: &Capture<'_>,
    lines: &[Line],
) -> Result<Vec<RrsetPlace>, AllocError>
    ensures { IfOk result (λ places. ArePlacesOf capture.now.rrsets lines.now places.items) }
{
    let numbers = numbers_named(alloc, lines)?;
    Ok(places_of(alloc, capture.rrsets(), &numbers)?)
}

/// Where the RRsets with the numbers stand.
fn places_of(
    alloc: Global,
    rrsets: &[Rrset<'_>],
    numbers: &[usize],
) -> Result<Vec<RrsetPlace>, AllocError>
    ensures { IfOk result (λ places. ArePlacedBy rrsets.now numbers.now places.items) }
{
    let mut places = Vec::new(alloc);
    for number in numbers {
        push_place(&mut places, rrsets, *number)?;
    }
    Ok(places)
}

/// The numbers of RRsets that the lines have, each once and rising.
fn numbers_named(alloc: Global, lines: &[Line]) -> Result<Vec<usize>, AllocError>
    ensures rising { IfOk result (λ numbers. IsStrictlyIncreasing numbers.items) }
    ensures members { IfOk result (λ numbers. (number : ℕ)
        → Contains numbers.items number ↔ NamesRrset lines.now number) }
{
    let mut numbers = all_named(alloc, lines)?;
    numbers.sort_unstable();
    numbers.dedup();
    Ok(numbers)
}

/// The numbers of RRsets that the lines have, as they come.
fn all_named(alloc: Global, lines: &[Line]) -> Result<Vec<usize>, AllocError>
    ensures { IfOk result (λ numbers. (number : ℕ) → Contains numbers.items number ↔ NamesRrset lines.now number) }
{
    let mut numbers = Vec::new(alloc);
    for line in lines {
        push_rrsets(&mut numbers, line)?;
    }
    Ok(numbers)
}

/// Adds the place of the RRset with the number, if there is one.
fn push_place(
    places: &mut Vec<RrsetPlace>,
    rrsets: &[Rrset<'_>],
    number: usize,
) -> Result<(), AllocError>
    ensures { OnOk result (AddsPlace rrsets.now number places.old.items places.new.items) }
{
    let Some(rrset) = numbered(rrsets, number) else {
        return Ok(());
    };
    places.push(RrsetPlace {
        rrset: number,
        message: rrset.message(),
        section: rrset.section(),
        owner: rrset.owner().clone()?,
        rtype: rrset.rtype(),
    })?;
    Ok(())
}
