//! What carries a verdict: its lines, or its members in JSON.
ghost use Rattle.std.specs.Prelude.{◌≡◌, ◌++◌, OnOk, string_bytes};
ghost use Rattle.dnsv_texts.specs.Checking.{cut_text, entries_text, proof_text, reason_text, signature_text};

use crate::{checking, json};
use dnsv_canonical::{RecordNumber, Rrset};
use dnsv_names::Name;
use dnsv_questions::Format;
use dnsv_verdict::Verdict;
use dnsv_verifier::Entries;
use std::alloc::AllocError;

/// Adds what carries the verdict: its lines, or in JSON its members behind others. Entries that are still to be checked are
/// reported where they are to be reported whole.
pub fn push_reason(
    text: &mut String,
    format: Format,
    rrsets: &[Rrset<'_>],
    verdict: &Verdict<'_>,
    whole: bool,
) -> Result<(), AllocError>
    ensures { OnOk result (string_bytes text.new
        ≡ string_bytes text.old ++ reason_text format rrsets.now verdict.now whole) }
{
    match verdict {
        Verdict::SecureAnswer { rrset, signature } | Verdict::SecureAlias { rrset, signature } => {
            push_signature(text, format, *rrset, *signature)
        }
        Verdict::SecureNoName(proof) | Verdict::SecureNoData(proof) => {
            push_proof(text, format, rrsets, proof.records())
        }
        Verdict::Insecure(cut) => push_cut(text, format, cut),
        Verdict::Pending(entries) => push_entries(text, format, entries, whole),
        Verdict::Bogus | Verdict::Indeterminate => Ok(()),
    }
}

/// Adds the numbers of an RRset and of its signature.
fn push_signature(
    text: &mut String,
    format: Format,
    rrset: usize,
    signature: usize,
) -> Result<(), AllocError>
    ensures { OnOk result (string_bytes text.new ≡ string_bytes text.old ++ signature_text format rrset signature) }
{
    match format {
        Format::Lines => checking::push_signature(text, rrset, signature),
        Format::Json => json::checking::push_signature(text, rrset, signature),
    }
}

/// Adds the records of a proof.
fn push_proof(
    text: &mut String,
    format: Format,
    rrsets: &[Rrset<'_>],
    records: &[RecordNumber],
) -> Result<(), AllocError>
    ensures { OnOk result (string_bytes text.new
        ≡ string_bytes text.old ++ proof_text format rrsets.now records.now) }
{
    match format {
        Format::Lines => checking::push_proof(text, rrsets, records),
        Format::Json => json::checking::push_records(text, rrsets, records),
    }
}

/// Adds the name at which a zone that isn't signed may begin.
fn push_cut(text: &mut String, format: Format, cut: &Name) -> Result<(), AllocError>
    ensures { OnOk result (string_bytes text.new ≡ string_bytes text.old ++ cut_text format cut.now) }
{
    match format {
        Format::Lines => checking::push_cut(text, cut),
        Format::Json => json::checking::push_cut(text, cut),
    }
}

/// Adds the entries that are still to be checked, where they are to be reported whole.
fn push_entries(
    text: &mut String,
    format: Format,
    entries: &Entries<'_>,
    whole: bool,
) -> Result<(), AllocError>
    ensures { OnOk result (string_bytes text.new ≡ string_bytes text.old ++ entries_text whole format entries.now) }
{
    if !whole {
        return Ok(());
    }
    match format {
        Format::Lines => dnsv_evidence_texts::push_entries(text, entries),
        Format::Json => json::checking::push_todo(text, entries),
    }
}
