//! How much an RRset and a capture may have.
ghost use Rattle.std.specs.Prelude.{◌≡◌, ◌↔◌, ◌+◌, ◌<◌, ◌≤◌, ℕ, List, [], ◌∷◌, ◌++◌, length, map, Contains, IfErr, IfOk, IsTrue, OnOk, MatchOption};
ghost use Rattle.std.specs.List.{AllByRecursion, AllZip};
ghost use Rattle.dnsv_message.specs.Message.{records_of};
ghost use Rattle.dnsv_records.specs.Nsec3.{IsNsec3};
ghost use Rattle.dnsv_canonical.specs.Evidence.{AreParameters, IsSmall, AtMost, nsec3_rdata};
ghost use Rattle.dnsv_canonical.specs.Kept.{IsParametersRefusal};

use crate::canonical::canonical_rdata;
use crate::capture::CaptureError;
use crate::received::Received;
use crate::rrset::Rrset;
use dnsv_message::{Message, Section};
use dnsv_names::RecordType;
use dnsv_records::{Nsec3, Nsec3Parameters, record_laws};
use std::alloc::{AllocError, Global};

/// How many messages a capture has at most.
pub const MESSAGE_LIMIT: usize = 64;

/// How many records the messages of a capture have at most, of all sections, classes and types.
pub const RECORD_LIMIT: usize = 4096;

/// How many keys a DNSKEY RRset has at most, equal ones counted once.
pub const KEY_LIMIT: usize = 16;

/// How many signatures an RRset has at most, equal ones counted once.
pub const SIGNATURE_LIMIT: usize = 16;

/// How many NSEC3 parameters the usable NSEC3 records of a capture have at most, equal ones counted once.
pub const PARAMETERS_LIMIT: usize = 8;

/// So many records and those of the message, or `None` above the limit.
pub fn records_with(records: usize, message: &Message<'_>) -> Option<usize>
    ensures { MatchOption result (4096 < records + length (records_of message.now))
        (λ total. (total ≡ records + length (records_of message.now)) × (total ≤ 4096)) }
{
    let total = records
        .saturating_add(message.records(Section::Answer).len())
        .saturating_add(message.records(Section::Authority).len())
        .saturating_add(message.records(Section::Additional).len());
    if total > RECORD_LIMIT {
        None
    } else {
        Some(total)
    }
}

/// Whether each RRset is within its limits.
pub fn are_small(alloc: Global, rrsets: &[Received<'_>]) -> Result<bool, AllocError>
    ensures { IfOk result (λ answer. IsTrue answer ↔ AllByRecursion IsSmall rrsets.now) }
{
    for rrset in rrsets {
        if !is_small(alloc, rrset)? {
            return Ok(false);
        }
    }
    Ok(true)
}

/// Whether the RRset is within its limits.
fn is_small(alloc: Global, rrset: &Received<'_>) -> Result<bool, AllocError>
    ensures { IfOk result (λ answer. IsTrue answer ↔ IsSmall rrset.now) }
{
    if rrset.signatures().len() > SIGNATURE_LIMIT {
        return Ok(false);
    }
    if rrset.rtype() != RecordType::DNSKEY {
        return Ok(true);
    }
    has_few_keys(alloc, rrset.rdata())
}

/// Whether the RDATA is at most 16, equal ones counted once.
fn has_few_keys(alloc: Global, received: &[&[u8]]) -> Result<bool, AllocError>
    ensures { IfOk result (λ answer. IsTrue answer ↔ AtMost 16 (Contains (map (λ r. r.now) received.now))) }
{
    let keys = canonical_rdata(alloc, received)?;
    Ok(keys.as_slice().len() <= KEY_LIMIT)
}

/// The parameters of the RRsets' NSEC3 records that can be used, each once, but for those that are kept. The ninth
/// are refused where they are met, so that no more than 8 are ever held.
pub fn fresh_parameters<'b>(
    alloc: Global,
    kept: &[Nsec3Parameters<'b>],
    rrsets: &[Rrset<'b>],
) -> Result<Vec<Nsec3Parameters<'b>>, CaptureError>
    ensures all { IfOk result (λ fresh. (earlier : List (List ℕ)) → AreParameters earlier kept.now
        → AreParameters (earlier ++ nsec3_rdata rrsets.now) (kept.now ++ fresh.items)) }
    ensures few { IfOk result (λ fresh. length kept.now ≤ 8 → length (kept.now ++ fresh.items) ≤ 8) }
    ensures refused { (earlier : List (List ℕ)) → AreParameters earlier kept.now
        → IfErr result (IsParametersRefusal (earlier ++ nsec3_rdata rrsets.now)) }
{
    let mut fresh = Vec::new(alloc);
    for rrset in rrsets {
        add_rrset(kept, &mut fresh, rrset)?;
    }
    Ok(fresh)
}

/// Adds the parameters of the RRset, where it has NSEC3 records, that are not among the others.
fn add_rrset<'b>(
    kept: &[Nsec3Parameters<'b>],
    fresh: &mut Vec<Nsec3Parameters<'b>>,
    rrset: &Rrset<'b>,
) -> Result<(), CaptureError>
    ensures all { OnOk result ((earlier : List (List ℕ)) → AreParameters earlier (kept.now ++ fresh.old.items)
        → AreParameters (earlier ++ nsec3_rdata (rrset.now ∷ [])) (kept.now ++ fresh.new.items)) }
    ensures few { OnOk result (length (kept.now ++ fresh.old.items) ≤ 8
        → length (kept.now ++ fresh.new.items) ≤ 8) }
    ensures refused { (earlier : List (List ℕ)) → AreParameters earlier (kept.now ++ fresh.old.items)
        → IfErr result (IsParametersRefusal (earlier ++ nsec3_rdata (rrset.now ∷ []))) }
{
    add_records(kept, fresh, rrset.nsec3s())
}

/// Adds the parameters of NSEC3 records that are not among the others.
fn add_records<'b>(
    kept: &[Nsec3Parameters<'b>],
    fresh: &mut Vec<Nsec3Parameters<'b>>,
    nsec3s: &[Nsec3<'b>],
) -> Result<(), CaptureError>
    ensures all { OnOk result ((earlier received : List (List ℕ)) → AllZip IsNsec3 received nsec3s.now
        → AreParameters earlier (kept.now ++ fresh.old.items)
        → AreParameters (earlier ++ received) (kept.now ++ fresh.new.items)) }
    ensures few { OnOk result (length (kept.now ++ fresh.old.items) ≤ 8
        → length (kept.now ++ fresh.new.items) ≤ 8) }
    ensures refused { (earlier received : List (List ℕ)) → AllZip IsNsec3 received nsec3s.now
        → AreParameters earlier (kept.now ++ fresh.old.items)
        → IfErr result (IsParametersRefusal (earlier ++ received)) }
{
    for nsec3 in nsec3s {
        add_record(kept, fresh, nsec3)?;
    }
    Ok(())
}

/// Adds the parameters of an NSEC3 record, if it can be used and they are not among the others. The ninth are refused.
fn add_record<'b>(
    kept: &[Nsec3Parameters<'b>],
    fresh: &mut Vec<Nsec3Parameters<'b>>,
    nsec3: &Nsec3<'b>,
) -> Result<(), CaptureError>
    ensures all { OnOk result ((earlier : List (List ℕ)) (rdata : List ℕ) → IsNsec3 rdata nsec3.now
        → AreParameters earlier (kept.now ++ fresh.old.items)
        → AreParameters (earlier ++ rdata ∷ []) (kept.now ++ fresh.new.items)) }
    ensures few { OnOk result (length (kept.now ++ fresh.old.items) ≤ 8
        → length (kept.now ++ fresh.new.items) ≤ 8) }
    ensures refused { (earlier : List (List ℕ)) (rdata : List ℕ) → IsNsec3 rdata nsec3.now
        → AreParameters earlier (kept.now ++ fresh.old.items)
        → IfErr result (IsParametersRefusal (earlier ++ rdata ∷ [])) }
{
    record_laws();
    let parameters = &nsec3.parameters;
    if !nsec3.is_usable() {
        return Ok(());
    }
    if is_among(kept, fresh.as_slice(), parameters) {
        return Ok(());
    }
    if kept.len().saturating_add(fresh.len()) >= PARAMETERS_LIMIT {
        return Err(CaptureError::Limit);
    }
    fresh.push(Nsec3Parameters {
        iterations: parameters.iterations,
        salt: parameters.salt.copied(),
    })?;
    Ok(())
}

/// Whether the parameters are among those of the two lists.
fn is_among<'b>(
    kept: &[Nsec3Parameters<'b>],
    fresh: &[Nsec3Parameters<'b>],
    parameters: &Nsec3Parameters<'b>,
) -> bool
    ensures { IsTrue result ↔ Contains (kept.now ++ fresh.now) parameters.now }
{
    kept.contains(parameters) || fresh.contains(parameters)
}
