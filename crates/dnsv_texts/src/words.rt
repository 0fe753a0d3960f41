//! The lines of `check` on one line: each behind a space, and without its end.
ghost use Rattle.std.specs.Prelude.{◌≡◌, ◌++◌, OnOk, Some, flat_map, string_bytes};
ghost use Rattle.dnsv_texts.specs.Told as specs;

use dnsv_canonical::{RecordNumber, Rrset, numbered};
use dnsv_names::Name;
use dnsv_verdict::{Link, Verdict};
use std::alloc::AllocError;

/// Adds each alias.
pub fn push_aliases(text: &mut String, links: &[Link]) -> Result<(), AllocError>
    ensures { OnOk result (string_bytes text.new ≡ string_bytes text.old ++ flat_map specs.alias_words links.now) }
{
    for link in links {
        push_alias(text, link)?;
    }
    Ok(())
}

/// Adds the name of an alias, and the numbers of its RRset and its signature.
fn push_alias(text: &mut String, link: &Link) -> Result<(), AllocError>
    ensures { OnOk result (string_bytes text.new ≡ string_bytes text.old ++ specs.alias_words link.now) }
{
    let name = link.name.to_lower();
    write!(text, " alias {name}")?;
    push_signature(text, link.rrset, link.signature)
}

/// Adds what carries the verdict, without the entries that are still to be checked.
pub fn push_reason(
    text: &mut String,
    rrsets: &[Rrset<'_>],
    verdict: &Verdict<'_>,
) -> Result<(), AllocError>
    ensures { OnOk result (string_bytes text.new ≡ string_bytes text.old ++ specs.reason_words rrsets.now verdict.now) }
{
    match verdict {
        Verdict::SecureAnswer { rrset, signature } | Verdict::SecureAlias { rrset, signature } => {
            push_signature(text, *rrset, *signature)
        }
        Verdict::SecureNoName(proof) | Verdict::SecureNoData(proof) => {
            push_proof(text, rrsets, proof.records())
        }
        Verdict::Insecure(cut) => push_cut(text, cut),
        Verdict::Pending(_) | Verdict::Bogus | Verdict::Indeterminate => Ok(()),
    }
}

/// Adds the numbers of an RRset and of its signature.
fn push_signature(text: &mut String, rrset: usize, signature: usize) -> Result<(), AllocError>
    ensures { OnOk result (string_bytes text.new ≡ string_bytes text.old ++ specs.signature_words rrset signature) }
{
    write!(text, " rrset {rrset} signature {signature}")?;
    Ok(())
}

/// Adds the name at which a zone that isn't signed may begin.
fn push_cut(text: &mut String, cut: &Name) -> Result<(), AllocError>
    ensures { OnOk result (string_bytes text.new ≡ string_bytes text.old ++ specs.cut_words cut.now) }
{
    let name = cut.to_lower();
    write!(text, " cut {name}")?;
    Ok(())
}

/// Adds each record of a proof.
fn push_proof(
    text: &mut String,
    rrsets: &[Rrset<'_>],
    records: &[RecordNumber],
) -> Result<(), AllocError>
    ensures { OnOk result (string_bytes text.new ≡ string_bytes text.old ++ specs.proof_words rrsets.now records.now) }
{
    for number in records {
        push_number(text, rrsets, number)?;
    }
    Ok(())
}

/// Adds the record with this number.
fn push_number(
    text: &mut String,
    rrsets: &[Rrset<'_>],
    number: &RecordNumber,
) -> Result<(), AllocError>
    ensures { OnOk result (string_bytes text.new
        ≡ string_bytes text.old ++ specs.number_words rrsets.now number.now) }
{
    if let Some(rrset) = numbered(rrsets, number.rrset) {
        push_record(text, rrset)?;
    }
    Ok(())
}

/// Adds the owner and type of a record of the RRset.
fn push_record(text: &mut String, rrset: &Rrset<'_>) -> Result<(), AllocError>
    ensures { OnOk result (string_bytes text.new ≡ string_bytes text.old ++ specs.record_words (Some rrset.now)) }
{
    let owner = rrset.owner().to_lower();
    let rtype = rrset.rtype().0;
    write!(text, " record {owner} {rtype}")?;
    Ok(())
}
