//! A case: what any number of questions are judged by.

mod hashed_name;
mod judging;
pub mod open_case;
pub mod shared;
mod tracing;

ghost use Rattle.std.specs.Prelude.{◌≡◌, ℕ, IfOk, List, length};
ghost use Rattle.dnsv_canonical.specs.Rrsets.{ReceivedRrset};
ghost use Rattle.dnsv_chain.specs.Trust.{SecuredIn};
ghost use Rattle.dnsv_denial.specs.gathering.ByZone.{AreDenialRecords};
ghost use Rattle.dnsv_chain.specs.Basis.{HasTrust, IsCaseOf, IsCaseWith, basis_of};
ghost use Rattle.dnsv_verifier.specs.Asked.{IsNumberAsked};
ghost use Rattle.dnsv_verifier.specs.Table.{IsTableOf, hopeful};
ghost use Rattle.dnsv_verifier.specs.declared.answer.Answer.{Answer};
ghost use Rattle.dnsv_verifier.specs.declared.entry.Entry.{Entry};

use bumpalo::Bump;
use dnsv_canonical::Capture;
use dnsv_chain::{Anchors, Trust, trusted};
use dnsv_denial::DenialRecords;
use dnsv_names::Count;
use dnsv_verifier::{Table, Verifier, ask_all};
use std::alloc::{AllocError, Global};
use std::marker::Model;

/// What questions are judged by: the evidence, the trust anchors, what a verifier says at a moment, and the trust that
/// these give. Any number of questions can be judged by one case, in any order and each as often as one likes: nothing
/// is asked of the verifier again, and no question changes the case.
#[derive(Drop)]
pub struct Case<'a> {
    anchors: &'a Anchors<'a>,
    table: Table<'a>,
    trust: Trust<'a>,
    /// The records of denials that zones secured by the trust, gathered once for all names that are asked.
    denials: DenialRecords<'a>,
}

impl<'a> Model for Case<'a> {
    ghost use Rattle.dnsv_chain.specs.Trust.{SecuredIn};
    ghost use Rattle.dnsv_denial.specs.gathering.ByZone.{AreDenialRecords};
    ghost use Rattle.dnsv_chain.specs.Basis.{CaseContents, HasTrust};

    ghost Value = { CaseContents };

    ghost view = { λ case. record {
      rrsets = case.table.rrsets;
      anchors = case.anchors.now;
      table = case.table;
      trust = case.trust;
    } };

    ghost invariant = { λ case. HasTrust (record {
      rrsets = case.table.rrsets;
      anchors = case.anchors.now;
      table = case.table;
      trust = case.trust;
    }) × AreDenialRecords (SecuredIn case.trust) case.table.rrsets case.denials };
}

impl<'a> Case<'a> {
    /// The case of a capture and trust anchors at a moment, in seconds since 1970, under what the verifier says. It is
    /// asked here, once for each distinct entry that may be verified at the moment, and never again. What it is asked
    /// lies in the arena.
    pub fn new<V: Verifier>(
        alloc: Global,
        bump: &'a Bump,
        capture: &'a Capture<'a>,
        anchors: &'a Anchors<'a>,
        moment: u64,
        verifier: &V,
    ) -> Result<Case<'a>, AllocError>
        ensures of { IfOk result (IsCaseOf (basis_of capture.now.rrsets anchors.now moment (V.meaning verifier.now))) }
        ensures asked { IfOk result (λ case. IsNumberAsked moment capture.now.rrsets (length case.table.answers)) }
    {
        let mut asked = Count::new();
        let table = ask_all(alloc, bump, capture, moment, verifier, &mut asked)?;
        let case = Case::of(alloc, anchors, table)?;
        Ok(case)
    }

    /// The case of the evidence that the table is of, and trust anchors: the table says what a verifier says of it at a
    /// moment. Nobody is asked.
    pub fn of(
        alloc: Global,
        anchors: &'a Anchors<'a>,
        table: Table<'a>,
    ) -> Result<Case<'a>, AllocError>
        ensures of { IfOk result (IsCaseWith table.entry.rrsets anchors.now table.entry) }
        // Whoever the table is of, it is that verifier's case.
        ensures basis { (meaning : Entry → Answer) (moment : ℕ) (rrsets : List ReceivedRrset)
            → IsTableOf meaning moment rrsets table.entry
            → IfOk result (IsCaseOf (basis_of rrsets anchors.now moment meaning)) }
    {
        let trust = trusted(alloc, anchors, &table)?;
        let denials = DenialRecords::of(alloc, table.capture(), &trust)?;
        Ok(Case {
            anchors,
            table,
            trust,
            denials,
        })
    }

    /// The same evidence and trust anchors with the best that may come of the table.
    pub(crate) fn hopeful(&self, alloc: Global) -> Result<Case<'a>, AllocError>
        ensures { IfOk result (IsCaseWith self.now.rrsets self.now.anchors (hopeful self.now.table)) }
    {
        let table = self.table.hopeful(alloc)?;
        let case = Case::of(alloc, self.anchors, table)?;
        Ok(case)
    }

    /// The evidence.
    pub fn capture(&self) -> &'a Capture<'a>
        ensures { result.now.rrsets ≡ self.now.rrsets }
    {
        self.table.capture()
    }

    /// The trust anchors.
    pub fn anchors(&self) -> &'a Anchors<'a>
        ensures { result.now ≡ self.now.anchors }
    {
        self.anchors
    }

    /// What the verifier says, and at which moment.
    pub fn table(&self) -> &Table<'a>
        ensures { result.now ≡ self.now.table }
    {
        &self.table
    }

    /// What the evidence, the anchors and the table make trusted.
    pub fn trust(&self) -> &Trust<'a>
        ensures value { result.now ≡ self.now.trust }
        ensures of { HasTrust self.now }
    {
        &self.trust
    }

    /// The records of denials that zones secured by the trust.
    pub fn denials(&self) -> &DenialRecords<'a>
        ensures { AreDenialRecords (SecuredIn self.now.trust) self.now.rrsets result.now }
    {
        &self.denials
    }

    /// How many entries the verifier was asked, each once: those of the table.
    pub fn asked(&self) -> u64
        ensures { result ≡ length self.now.table.answers }
    {
        self.table.len() as u64
    }
}
