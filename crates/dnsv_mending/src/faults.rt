//! What is reported of a signature.
ghost use Rattle.std.specs.Prelude.{◌≡◌, ◌++◌, ◌∷◌, [], IfOk, OnOk};
ghost use Rattle.dnsv_mending.specs.Faults.{answer_lines, consequence, expired_lines, fault_lines, lines_under, not_yet_lines, or_else, self_lines, signature_lines, unnamed_lines, when};

use crate::facts::keys::{HeldKey, SelfSignature};
use crate::facts::signature::{KeyAnswer, NamedKey, SignatureFacts, SignatureFaults};
use crate::mend::is_none;
use crate::told::Told;
use dnsv_canonical::SignatureNumber;
use dnsv_lines::{SignatureTimes, WhySignature};
use std::alloc::{AllocError, Global};

/// Adds the line where something is so.
fn push_when(lines: &mut Vec<Told>, is: bool, line: Told) -> Result<(), AllocError>
    ensures { OnOk result (lines.new.items ≡ lines.old.items ++ when is line) }
{
    if is {
        lines.push(line)?;
    }
    Ok(())
}

/// Adds the line of a signature whose inception is still to come.
fn push_not_yet(
    lines: &mut Vec<Told>,
    number: SignatureNumber,
    times: Option<SignatureTimes>,
) -> Result<(), AllocError>
    ensures { OnOk result (lines.new.items ≡ lines.old.items ++ not_yet_lines number times) }
{
    if let Some(times) = times {
        lines.push(Told::Signature(WhySignature::NotYet(times), number))?;
    }
    Ok(())
}

/// Adds the line of a signature whose expiration is over.
fn push_expired(
    lines: &mut Vec<Told>,
    number: SignatureNumber,
    times: Option<SignatureTimes>,
) -> Result<(), AllocError>
    ensures { OnOk result (lines.new.items ≡ lines.old.items ++ expired_lines number times) }
{
    if let Some(times) = times {
        lines.push(Told::Signature(WhySignature::Expired(times), number))?;
    }
    Ok(())
}

/// All that is wrong with a signature, whichever key made it.
fn fault_lines(
    alloc: Global,
    number: SignatureNumber,
    faults: SignatureFaults,
) -> Result<Vec<Told>, AllocError>
    ensures { IfOk result (λ lines. lines.items ≡ fault_lines number faults) }
{
    let mut lines = Vec::new(alloc);
    push_when(
        &mut lines,
        faults.labels,
        Told::Signature(WhySignature::Labels, number),
    )?;
    push_when(
        &mut lines,
        faults.signer,
        Told::Signature(WhySignature::Signer, number),
    )?;
    push_when(
        &mut lines,
        faults.expanded,
        Told::Signature(WhySignature::Expanded, number),
    )?;
    push_when(
        &mut lines,
        faults.algorithm,
        Told::Signature(WhySignature::Algorithm, number),
    )?;
    push_not_yet(&mut lines, number, faults.not_yet)?;
    push_expired(&mut lines, number, faults.expired)?;
    Ok(lines)
}

/// All that is wrong with a signature, but for what a verifier says.
pub fn signature_lines(alloc: Global, signature: &SignatureFacts) -> Result<Vec<Told>, AllocError>
    ensures { IfOk result (λ lines. lines.items ≡ signature_lines signature.now) }
{
    let number = signature.number;
    let mut lines = fault_lines(alloc, number, signature.faults)?;
    push_when(
        &mut lines,
        signature.key_missing,
        Told::Signature(WhySignature::KeyMissing, number),
    )?;
    push_when(
        &mut lines,
        signature.not_zone_key,
        Told::Signature(WhySignature::NotZoneKey, number),
    )?;
    Ok(lines)
}

/// Adds what a verifier says of a signature, where nothing else is wrong with it.
#[tactic(auto, using(crate::proofs::Lines::none_before, crate::proofs::Lines::some_before))]
pub fn push_answer(
    lines: &mut Vec<Told>,
    number: SignatureNumber,
    answer: KeyAnswer,
) -> Result<(), AllocError>
    ensures { OnOk result (lines.new.items ≡ or_else lines.old.items (answer_lines number answer)) }
{
    if !is_none(lines) {
        return Ok(());
    }
    match answer {
        KeyAnswer::Good => {}
        KeyAnswer::Bad => lines.push(Told::Signature(WhySignature::Bad, number))?,
        KeyAnswer::Unanswered => lines.push(Told::Signature(WhySignature::Unanswered, number))?,
    }
    Ok(())
}

/// Adds the line where there is none.
#[tactic(auto, using(crate::proofs::Lines::none_before, crate::proofs::Lines::some_before))]
fn push_else(lines: &mut Vec<Told>, line: Told) -> Result<(), AllocError>
    ensures { OnOk result (lines.new.items ≡ or_else lines.old.items (line ∷ [])) }
{
    if !is_none(lines) {
        return Ok(());
    }
    lines.push(line)?;
    Ok(())
}

/// What follows for a signature with which nothing is wrong: its signer is trusted, and the key isn't in a trusted RRset; or
/// the signer isn't trusted.
fn consequence(is_trusted: bool, number: SignatureNumber) -> Told
    ensures { result ≡ consequence is_trusted number }
{
    if is_trusted {
        Told::Signature(WhySignature::KeyUntrusted, number)
    } else {
        Told::Follows(number)
    }
}

/// What is reported of a signature that names no zone key of its signer.
pub fn unnamed_lines(alloc: Global, signature: &SignatureFacts) -> Result<Vec<Told>, AllocError>
    ensures { IfOk result (λ lines. lines.items ≡ unnamed_lines signature.now) }
{
    let mut lines = signature_lines(alloc, signature)?;
    push_else(&mut lines, Told::Follows(signature.number))?;
    Ok(lines)
}

/// What is reported of a signature under a zone key of its signer.
pub fn lines_under(
    alloc: Global,
    is_trusted: bool,
    signature: &SignatureFacts,
    key: NamedKey,
) -> Result<Vec<Told>, AllocError>
    ensures { IfOk result (λ lines. lines.items ≡ lines_under is_trusted signature.now key) }
{
    let mut lines = signature_lines(alloc, signature)?;
    push_answer(&mut lines, signature.number, key.answer)?;
    push_else(&mut lines, consequence(is_trusted, signature.number))?;
    Ok(lines)
}

/// What is reported of a signature of a DNSKEY RRset, as one by a key in it.
pub fn self_lines(
    alloc: Global,
    key: &HeldKey,
    signature: SelfSignature,
) -> Result<Vec<Told>, AllocError>
    ensures { IfOk result (λ lines. lines.items ≡ self_lines key.now signature) }
{
    let number = signature.number;
    let mut lines = fault_lines(alloc, number, signature.faults)?;
    push_when(
        &mut lines,
        !key.is_zone_key,
        Told::Signature(WhySignature::NotZoneKey, number),
    )?;
    push_answer(&mut lines, number, signature.answer)?;
    Ok(lines)
}
