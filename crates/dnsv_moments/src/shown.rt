//! Which signatures lines show.
ghost use Rattle.std.specs.Prelude.{◌≡◌, [], IfOk, OnOk, map};
ghost use Rattle.dnsv_derivations.specs.intervals.Holding.{signature_shown};
ghost use Rattle.dnsv_moments.specs.Shown.{Shows, number_of};
ghost use Rattle.dnsv_moments.specs.validity.Said.{AreShownIn};
ghost use Rattle.dnsv_verifier.specs.Asking.{AddsJust, ComesOfSome};

use dnsv_canonical::SignatureNumber;
use dnsv_lines::Line;
use std::alloc::{AllocError, Global};

/// A signature by the numbers of its RRset and its own.
#[derive(Clone, Copy, Debug, PartialEq, Eq, PartialOrd, Ord)]
pub(crate) struct Shown {
    pub(crate) rrset: usize,
    pub(crate) signature: usize,
}

/// The signatures that the lines show, each once, rising.
pub(crate) fn signatures_shown(
    alloc: Global,
    lines: &[Line],
) -> Result<Vec<SignatureNumber>, AllocError>
    ensures { IfOk result (λ by. AreShownIn lines.now by.items) }
{
    let mut shown = all_shown(alloc, lines)?;
    shown.sort_unstable();
    shown.dedup();
    let numbers = numbers_of(alloc, &shown)?;
    Ok(numbers)
}

/// Those that each line shows.
fn all_shown(alloc: Global, lines: &[Line]) -> Result<Vec<Shown>, AllocError>
    ensures { IfOk result (λ shown. AddsJust (ComesOfSome Shows lines.now) [] shown.items) }
{
    let mut shown = Vec::new(alloc);
    for line in lines {
        push_shown(&mut shown, line)?;
    }
    Ok(shown)
}

/// Adds the one that the line shows, if it shows one.
fn push_shown(shown: &mut Vec<Shown>, line: &Line) -> Result<(), AllocError>
    ensures { OnOk result (AddsJust (Shows line.now) shown.old.items shown.new.items) }
{
    let Some(number) = signature_shown(line) else {
        return Ok(());
    };
    shown.push(Shown {
        rrset: number.rrset,
        signature: number.signature,
    })?;
    Ok(())
}

/// The signature that the line shows.
fn signature_shown(line: &Line) -> Option<SignatureNumber>
    ensures { result ≡ signature_shown line.now }
{
    match line {
        Line::Trusted(keys) => Some(keys.signature),
        Line::Signed(signed) => Some(signed.signature),
        _ => None,
    }
}

/// The numbers of each.
fn numbers_of(alloc: Global, shown: &[Shown]) -> Result<Vec<SignatureNumber>, AllocError>
    ensures { IfOk result (λ numbers. numbers.items ≡ map number_of shown.now) }
{
    let mut numbers = Vec::with_capacity(alloc, shown.len())?;
    for each in shown {
        numbers.push(SignatureNumber {
            rrset: each.rrset,
            signature: each.signature,
        })?;
    }
    Ok(numbers)
}
