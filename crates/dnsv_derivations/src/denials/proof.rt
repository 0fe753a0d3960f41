//! The line of a proof.
ghost use Rattle.std.specs.Prelude.{◌≡◌, ◌↔◌, IsTrue, OnOk};
ghost use Rattle.std.specs.Option.{option_map};
ghost use Rattle.dnsv_names.specs.Name.{rightmost};
ghost use Rattle.dnsv_proof_forms.specs.forms.ProofForms.{form_encloser};
ghost use Rattle.dnsv_derivations.specs.Denials.{FitsEncloser, IsProofLine, IsProofSaid, IsProofTold, IsSameProof, SameEncloser, told_chain, told_form};
ghost use Rattle.dnsv_derivations.specs.Saying.{Adds};

use dnsv_canonical::RecordNumber;
use dnsv_denial::ShownDenial;
use dnsv_lines::{Chain, Form, Line, Proof};
use dnsv_names::Name;
use dnsv_proof_forms::{ChainKind, ProofForm};
use std::alloc::AllocError;

/// Adds the line of the proof, where its form has one, but for where a line before says the same.
pub fn add_proof(lines: &mut Vec<Line>, name: &Name, shown: &ShownDenial) -> Result<(), AllocError>
    requires { FitsEncloser name.now (form_encloser shown.now.form) }
    ensures { OnOk result (Adds (IsProofTold name.now shown.now) lines.old.items lines.new.items) }
{
    let Some(form) = told_form(&shown.form) else {
        return Ok(());
    };
    let proof = proof_line(form, name, shown);
    if is_proof_said(lines, &proof) {
        return Ok(());
    }
    lines.push(Line::Proof(proof))?;
    Ok(())
}

/// How the denial of the name, which has the form, is reported.
fn proof_line(form: Form, name: &Name, shown: &ShownDenial) -> Proof
    requires { FitsEncloser name.now (form_encloser shown.now.form) }
    ensures { IsProofLine form name.now shown.now result }
{
    Proof {
        form,
        chain: told_chain(shown.chain),
        zone: shown.proof.zone().clone().unwrap(),
        encloser: encloser_of(name, &shown.form),
    }
}

fn told_form(form: &ProofForm<RecordNumber>) -> Option<Form>
    ensures { result ≡ told_form form.now }
{
    match form {
        ProofForm::NoName(_) => Some(Form::NoName),
        ProofForm::NoData(_) => Some(Form::NoData1),
        ProofForm::EmptyNonTerminal(_) => Some(Form::NoData2),
        ProofForm::WildcardNoData(_) => Some(Form::NoData3),
        ProofForm::EmptyWildcard(_) => Some(Form::NoData4),
        ProofForm::NoCloser { .. } => Some(Form::NoCloser),
        ProofForm::Delegation { .. } => None,
        ProofForm::OptOut { .. } => Some(Form::OptOut),
        ProofForm::WildcardOptOut(_) => Some(Form::OptOut),
        ProofForm::OptOutCloser { .. } => Some(Form::OptOut),
    }
}

fn told_chain(kind: ChainKind) -> Chain
    ensures { result ≡ told_chain kind }
{
    match kind {
        ChainKind::Nsec => Chain::Nsec,
        ChainKind::Nsec3 => Chain::Nsec3,
    }
}

/// The closest encloser of the name, where the form speaks of one.
fn encloser_of(name: &Name, form: &ProofForm<RecordNumber>) -> Option<Name>
    requires { FitsEncloser name.now (form_encloser form.now) }
    ensures { result ≡ option_map (rightmost name.now) (form_encloser form.now) }
{
    let Some(labels) = form.encloser() else {
        return None;
    };
    Some(name.suffix(labels))
}

/// Whether a line says the same as that of the proof.
fn is_proof_said(lines: &[Line], proof: &Proof) -> bool
    ensures { IsTrue result ↔ IsProofSaid proof.now lines.now }
{
    lines.iter().any(|line| match line {
        Line::Proof(said) => is_same_proof(said, proof),
        _ => false,
    })
}

/// Whether the two have the same text.
fn is_same_proof(a: &Proof, b: &Proof) -> bool
    ensures { IsTrue result ↔ IsSameProof a.now b.now }
{
    a.form == b.form
        && a.chain == b.chain
        && a.zone == b.zone
        && is_same_encloser(&a.encloser, &b.encloser)
}

/// Whether the two are of the same name, or there is none.
fn is_same_encloser(a: &Option<Name>, b: &Option<Name>) -> bool
    ensures { IsTrue result ↔ SameEncloser a.now b.now }
{
    let Some(a) = a else {
        return b.is_none();
    };
    let Some(b) = b else {
        return false;
    };
    *a == *b
}
