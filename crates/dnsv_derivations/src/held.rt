//! How far trust holds on the way to a name.
ghost use Rattle.std.specs.Prelude.{◌↔◌, IfOk, IsTrue, OnOk};
ghost use Rattle.dnsv_derivations.specs.Explained.{setting_in};
ghost use Rattle.dnsv_derivations.specs.Saying.{Adds, AreEach};
ghost use Rattle.dnsv_derivations.specs.derivations.HeldTo.{IsFirstDerived, IsHeldAt, IsHeldTo, IsLowestDerived};
ghost use Rattle.dnsv_derivations.specs.derivations.Ways.{IsTrustedSet};

use crate::derivations::own::add_derivation;
use crate::derivations::ways::trusted_line;
use crate::derivations::{derive_keys, lowest_secured};
use crate::evidence::Evidence;
use dnsv_lines::Line;
use dnsv_names::{Name, RecordType};
use std::alloc::{AllocError, Global};

/// Adds, for each ancestor of the name, the root first and the name last, the derivation of each DS RRset there that is
/// signed, and that of the first DNSKEY RRset there that is trusted.
pub fn add_held(
    alloc: Global,
    evidence: &Evidence<'_>,
    lines: &mut Vec<Line>,
    name: &Name,
) -> Result<(), AllocError>
    ensures { OnOk result (Adds (IsHeldTo (setting_in evidence.now) name.now) lines.old.items lines.new.items) }
{
    for count in 0..name.labels() + 1 {
        add_held_at(alloc, evidence, lines, &name.suffix(count))?;
    }
    Ok(())
}

/// Adds what is derived at the name itself.
fn add_held_at(
    alloc: Global,
    evidence: &Evidence<'_>,
    lines: &mut Vec<Line>,
    name: &Name,
) -> Result<(), AllocError>
    ensures { OnOk result (Adds (IsHeldAt (setting_in evidence.now) name.now) lines.old.items lines.new.items) }
{
    let capture = evidence.capture();
    let signed = capture.at(name, RecordType::DS);
    add_signed(alloc, evidence, lines, signed)?;
    let keys = capture.at(name, RecordType::DNSKEY);
    add_first(alloc, evidence, lines, keys)?;
    Ok(())
}

/// Adds the derivation of each of the RRsets with these numbers, by its lowest signature that is good under a trusted key.
fn add_signed(
    alloc: Global,
    evidence: &Evidence<'_>,
    lines: &mut Vec<Line>,
    numbers: &[usize],
) -> Result<(), AllocError>
    ensures { OnOk result (Adds (AreEach (IsLowestDerived (setting_in evidence.now)) numbers.now) lines.old.items
        lines.new.items) }
{
    for number in numbers {
        add_lowest(alloc, evidence, lines, *number)?;
    }
    Ok(())
}

/// Adds that of the RRset with the number, if it has such a signature.
fn add_lowest(
    alloc: Global,
    evidence: &Evidence<'_>,
    lines: &mut Vec<Line>,
    number: usize,
) -> Result<(), AllocError>
    ensures { OnOk result (Adds (IsLowestDerived (setting_in evidence.now) number) lines.old.items lines.new.items) }
{
    let Some(lowest) = lowest_secured(evidence, number) else {
        return Ok(());
    };
    add_derivation(alloc, evidence, lines, lowest)?;
    Ok(())
}

/// Adds the derivation of the first of the DNSKEY RRsets with these numbers that is trusted.
fn add_first(
    alloc: Global,
    evidence: &Evidence<'_>,
    lines: &mut Vec<Line>,
    numbers: &[usize],
) -> Result<(), AllocError>
    ensures { OnOk result (Adds (IsFirstDerived (setting_in evidence.now) numbers.now) lines.old.items lines.new.items) }
{
    for number in numbers {
        if is_trusted(alloc, evidence, *number)? {
            let mut more = derive_keys(alloc, evidence, lines, *number)?;
            lines.append(&mut more)?;
            return Ok(());
        }
    }
    Ok(())
}

/// Whether the DNSKEY RRset with the number is trusted.
fn is_trusted(alloc: Global, evidence: &Evidence<'_>, number: usize) -> Result<bool, AllocError>
    ensures { IfOk result (λ trusted. IsTrue trusted ↔ IsTrustedSet (setting_in evidence.now) number) }
{
    Ok(trusted_line(alloc, evidence, number)?.is_some())
}
