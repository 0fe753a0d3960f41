//! The line of a case.
ghost use Rattle.std.specs.Prelude.{◌≡◌, OnOk};
ghost use Rattle.dnsv_derivations.specs.Denials.{FitsCase, IsCaseFor, told_case};
ghost use Rattle.dnsv_derivations.specs.Saying.{Adds};
ghost use Rattle.dnsv_derivations.specs.unsigned_cuts.UnsignedCuts.{IsCaseTold};

use dnsv_canonical::RecordNumber;
use dnsv_denial::ShownDenial;
use dnsv_lines::{Cut, InsecureCase, Line};
use dnsv_names::Name;
use dnsv_proof_forms::{PartName, ProofForm};
use std::alloc::AllocError;

/// Adds the line of the case, where the form has one.
pub fn add_case_for(
    lines: &mut Vec<Line>,
    name: &Name,
    shown: &ShownDenial,
) -> Result<(), AllocError>
    requires { FitsCase name.now (told_case shown.now.form) }
    ensures { OnOk result (Adds (IsCaseFor (told_case shown.now.form) name.now shown.now.proof.zone) lines.old.items
        lines.new.items) }
{
    let Some(which) = told_case(&shown.form) else {
        return Ok(());
    };
    let zone = shown.proof.zone();
    let at = which.1.of(name);
    add_case(lines, which.0, &at, Some(zone.clone()?))?;
    Ok(())
}

fn told_case(form: &ProofForm<RecordNumber>) -> Option<(InsecureCase, PartName)>
    ensures { result ≡ told_case form.now }
{
    match form {
        ProofForm::NoName(_) => None,
        ProofForm::NoData(_) => None,
        ProofForm::EmptyNonTerminal(_) => None,
        ProofForm::WildcardNoData(_) => None,
        ProofForm::EmptyWildcard(_) => None,
        ProofForm::NoCloser { .. } => None,
        ProofForm::Delegation { labels, .. } => {
            Some((InsecureCase::UnsignedDelegation, PartName::Cut(*labels)))
        }
        ProofForm::OptOut { labels, .. } => Some((
            InsecureCase::OptOut,
            PartName::NextCloser(*labels),
        )),
        ProofForm::WildcardOptOut(parts) => {
            Some((InsecureCase::OptOut, PartName::NextCloser(parts.labels)))
        }
        ProofForm::OptOutCloser { labels, .. } => {
            Some((InsecureCase::OptOutWildcard, PartName::NextCloser(*labels)))
        }
    }
}

/// Adds the line of a case.
pub fn add_case(
    lines: &mut Vec<Line>,
    case: InsecureCase,
    name: &Name,
    zone: Option<Name>,
) -> Result<(), AllocError>
    ensures { OnOk result (Adds (IsCaseTold case name.now zone) lines.old.items lines.new.items) }
{
    let cut = Cut {
        case,
        name: name.clone()?,
        zone,
    };
    lines.push(Line::Case(cut))?;
    Ok(())
}
