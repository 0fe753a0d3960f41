//! What is so of the RRsets of some records.
ghost use Rattle.std.specs.Prelude.{◌↔◌, ℕ, Contains, IfOk};
ghost use Rattle.std.specs.List.{AllByRecursion, AllZip};
ghost use Rattle.std.specs.List.Sorted.{IsStrictlySortedBy};
ghost use Rattle.std.specs.Ordering.{nat_cmp};
ghost use Rattle.dnsv_faults.specs.Rrsets.{AreRrsetFacts};
ghost use Rattle.dnsv_chain.specs.Basis.{basis_by};
ghost use Rattle.dnsv_gaps.specs.Parts.{AreFactsOf, HasSuch, IsInEvidence, IsRrset};

use dnsv_canonical::RecordNumber;
use dnsv_faults::CaseFacts;
use dnsv_mending::RrsetFacts;
use std::alloc::{AllocError, Global};

/// What is so of the RRsets with these records: of each once, by their numbers.
pub fn facts_of_numbers(
    alloc: Global,
    facts: &CaseFacts<'_>,
    numbers: &[RecordNumber],
) -> Result<Vec<RrsetFacts>, AllocError>
    requires { AllByRecursion (IsInEvidence facts.now.rrsets) numbers.now }
    ensures { IfOk result (λ found. AreFactsOf (basis_by facts.now) (Contains numbers.now) found.items) }
{
    let rrsets = rrsets_of(alloc, numbers)?;
    Ok(facts_of_rrsets(alloc, facts, &rrsets)?)
}

/// The numbers of their RRsets, rising, each once.
fn rrsets_of(alloc: Global, numbers: &[RecordNumber]) -> Result<Vec<usize>, AllocError>
    ensures order { IfOk result (λ rrsets. IsStrictlySortedBy nat_cmp rrsets.items) }
    ensures members { IfOk result (λ rrsets. (k : ℕ) → Contains rrsets.items k ↔ HasSuch (Contains numbers.now) k) }
{
    let mut rrsets = Vec::with_capacity(alloc, numbers.len())?;
    for number in numbers {
        rrsets.push(number.rrset)?;
    }
    rrsets.sort_unstable();
    rrsets.dedup();
    Ok(rrsets)
}

/// What is so of the RRsets with these numbers.
fn facts_of_rrsets(
    alloc: Global,
    facts: &CaseFacts<'_>,
    rrsets: &[usize],
) -> Result<Vec<RrsetFacts>, AllocError>
    requires { AllByRecursion (IsRrset facts.now.rrsets) rrsets.now }
    ensures { IfOk result (λ found. AllZip (AreRrsetFacts (basis_by facts.now)) rrsets.now found.items) }
{
    let mut found = Vec::with_capacity(alloc, rrsets.len())?;
    for number in rrsets {
        found.push(facts_of_rrset(alloc, facts, *number)?)?;
    }
    Ok(found)
}

/// What is so of the RRset with the number.
pub fn facts_of_rrset(
    alloc: Global,
    facts: &CaseFacts<'_>,
    number: usize,
) -> Result<RrsetFacts, AllocError>
    requires { IsRrset facts.now.rrsets number }
    ensures { IfOk result (AreRrsetFacts (basis_by facts.now) number) }
{
    let Some(found) = facts.rrset_facts(alloc, number)? else {
        unreachable!();
    };
    Ok(found)
}
