//! What is so of an RRset.
ghost use Rattle.std.specs.Prelude.{◌≡◌, ℕ, IfOk, MatchOption, map};
ghost use Rattle.std.specs.List.{AllByRecursion, AllZip};
ghost use Rattle.dnsv_canonical.specs.Rrsets.{IsNumbered, ReceivedRrset};
ghost use Rattle.dnsv_chain.specs.Basis.{basis_by};
ghost use Rattle.dnsv_faults.specs.Rrsets.{AreInOrder, AreRrsetFacts, rank_cmp};
ghost use Rattle.dnsv_faults.specs.Rrsets.RrsetSearch.{IsSignatureOf, rank, seen_signature};
ghost use Rattle.dnsv_faults.specs.Signatures.{AreSignatureFacts};

use crate::case_facts::CaseFacts;
use crate::signature::signature_facts;
use dnsv_canonical::{Rrset, SignatureNumber};
use dnsv_mending::{RrsetFacts, SignatureFacts};
use dnsv_records::Rrsig;
use std::alloc::{AllocError, Global};
use std::cmp::Ordering;

/// A signature with its number.
#[derive(Drop)]
pub struct NumberedSignature<'a> {
    number: usize,
    rrsig: &'a Rrsig<'a>,
}

impl NumberedSignature<'_> {
    /// How it stands to the other: those by signers with most labels come first, and of those the lowest.
    fn stands_to(&self, other: &NumberedSignature<'_>) -> Ordering
        ensures { result ≡ rank_cmp (rank self.now) (rank other.now) }
    {
        let (number, other_number) = (self.number, other.number);
        other
            .rrsig
            .signer
            .labels()
            .cmp(&self.rrsig.signer.labels())
            .then_with(|| number.cmp(&other_number))
    }
}

impl<'a> CaseFacts<'a> {
    /// What is so of the RRset with the number, from 1 on, and of its signatures: those by signers with most labels first.
    /// `None` where no RRset has the number.
    pub fn rrset_facts(
        &self,
        alloc: Global,
        number: usize,
    ) -> Result<Option<RrsetFacts>, AllocError>
        ensures { IfOk result (λ facts. MatchOption facts ((rrset : ReceivedRrset) → ¬ IsNumbered self.now.rrsets number rrset)
            (AreRrsetFacts (basis_by self.now) number)) }
    {
        let Some(rrset) = self.capture().rrset(number) else {
            return Ok(None);
        };
        Ok(Some(facts_of(alloc, self, number, rrset)?))
    }
}

/// What is so of the RRset, which has the number.
pub fn facts_of(
    alloc: Global,
    facts: &CaseFacts<'_>,
    number: usize,
    rrset: &Rrset<'_>,
) -> Result<RrsetFacts, AllocError>
    requires { IsNumbered facts.now.rrsets number rrset.now }
    ensures { IfOk result (AreRrsetFacts (basis_by facts.now) number) }
{
    let order = in_order(alloc, rrset)?;
    Ok(RrsetFacts {
        number,
        signatures: facts_of_each(alloc, facts, number, rrset, &order)?,
    })
}

/// The signatures of the RRset, those by signers with most labels first.
fn in_order<'a>(
    alloc: Global,
    rrset: &'a Rrset<'a>,
) -> Result<Vec<NumberedSignature<'a>>, AllocError>
    ensures order { IfOk result (λ order. AreInOrder rrset.now (map seen_signature order.items)) }
    ensures each { IfOk result (λ order. AllByRecursion (IsSignatureOf rrset.now) order.items) }
{
    let mut order = Vec::new(alloc);
    for (place, rrsig) in rrset.signatures().iter().enumerate() {
        order.push(NumberedSignature {
            number: place + 1,
            rrsig,
        })?;
    }
    order.sort_unstable_by(|a, b| a.stands_to(b));
    Ok(order)
}

/// What is so of each of the signatures.
fn facts_of_each(
    alloc: Global,
    facts: &CaseFacts<'_>,
    number: usize,
    rrset: &Rrset<'_>,
    order: &[NumberedSignature<'_>],
) -> Result<Vec<SignatureFacts>, AllocError>
    requires { AllByRecursion (IsSignatureOf rrset.now) order.now }
    ensures { IfOk result (λ each. AllZip (λ signature known. AreSignatureFacts (basis_by facts.now) number rrset.now
        signature.number known) order.now each.items) }
{
    let mut each = Vec::with_capacity(alloc, order.len())?;
    for signature in order {
        let its = SignatureNumber {
            rrset: number,
            signature: signature.number,
        };
        each.push(signature_facts(alloc, facts, its, rrset, signature.rrsig)?)?;
    }
    Ok(each)
}
