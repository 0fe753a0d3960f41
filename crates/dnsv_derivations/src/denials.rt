//! The lines of denials: the derivation of their records, the case, the proof and its parts.

pub mod case;
pub mod part;
pub mod proof;

ghost use Rattle.std.specs.Prelude.{OnOk};
ghost use Rattle.dnsv_derivations.specs.Denials.{IsDenialTold, IsShownDenial};
ghost use Rattle.dnsv_derivations.specs.Explained.{setting_in};
ghost use Rattle.dnsv_derivations.specs.Saying.{Adds};

use crate::denials::case::add_case_for;
use crate::denials::part::add_parts;
use crate::denials::proof::add_proof;
use crate::derivations::own::add_records;
use crate::evidence::Evidence;
use dnsv_denial::ShownDenial;
use dnsv_lines::Line;
use dnsv_names::Name;
use std::alloc::{AllocError, Global};

/// Adds the lines of a denial of the name: the derivation of each of its records, but for what was said before, the case
/// and the proof, each where its form has one, and the parts in the order of the form.
pub fn add_denial(
    alloc: Global,
    evidence: &Evidence<'_>,
    lines: &mut Vec<Line>,
    name: &Name,
    shown: &ShownDenial,
) -> Result<(), AllocError>
    requires { IsShownDenial (setting_in evidence.now) name.now shown.now }
    ensures { OnOk result (Adds (IsDenialTold (setting_in evidence.now) name.now shown.now) lines.old.items lines.new.items) }
{
    add_records(
        alloc,
        evidence,
        lines,
        shown.proof.zone(),
        shown.proof.records(),
    )?;
    add_case_for(lines, name, shown)?;
    add_proof(lines, name, shown)?;
    add_parts(evidence, lines, name, &shown.parts())?;
    Ok(())
}
