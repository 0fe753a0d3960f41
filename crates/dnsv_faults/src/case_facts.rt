//! What facts are found in: a case, and its keys by what signatures name them by.
ghost use Rattle.std.specs.Prelude.{◌≡◌, IfOk};
ghost use Rattle.dnsv_verifier.specs.Table.{table_answer};
ghost use Rattle.dnsv_chain.specs.Basis.{HasTrust};
ghost use Rattle.dnsv_chain.specs.Trust.{IsTrustOf};
ghost use Rattle.dnsv_zone_keys.specs.Keys.KeySearch.{AreNamedOf};

use dnsv_canonical::Capture;
use dnsv_chain::{Anchor, Anchors, Trust};
use dnsv_records::Rrsig;
use dnsv_verifier::Table;
use dnsv_zone_keys::{KeyIndex, PlacedKey};
use std::alloc::{AllocError, Global};
use std::marker::Model;

/// A case whose facts are found: its keys are put in order once, for all signatures of its RRsets. It is seen as the case.
#[derive(Drop)]
pub struct CaseFacts<'a> {
    capture: &'a Capture<'a>,
    anchors: &'a Anchors<'a>,
    table: &'a Table<'a>,
    trust: &'a Trust<'a>,
    keys: KeyIndex<'a>,
}

impl<'a> Model for CaseFacts<'a> {
    ghost use Rattle.dnsv_chain.specs.Basis.{CaseContents, HasTrust};
    ghost use Rattle.dnsv_zone_keys.specs.Keys.Index.{AreIndexed};

    ghost Value = { CaseContents };

    ghost view = { λ facts. record {
      rrsets = facts.capture.now.rrsets;
      anchors = facts.anchors.now;
      table = facts.table.now;
      trust = facts.trust.now;
    } };

    ghost invariant = { λ facts. HasTrust (record {
      rrsets = facts.capture.now.rrsets;
      anchors = facts.anchors.now;
      table = facts.table.now;
      trust = facts.trust.now;
    }) × AreIndexed facts.capture.now.rrsets facts.keys };
}

impl<'a> CaseFacts<'a> {
    /// The case of the capture, with the trust that it gives under the anchors and the table's answers. Its keys are put in
    /// order.
    pub fn of(
        alloc: Global,
        capture: &'a Capture<'a>,
        anchors: &'a Anchors<'a>,
        table: &'a Table<'a>,
        trust: &'a Trust<'a>,
    ) -> Result<CaseFacts<'a>, AllocError>
        requires { IsTrustOf (table_answer table.now) table.now.moment capture.now.rrsets anchors.now trust.now }
        ensures { IfOk result (λ facts. facts ≡ record {
          rrsets = capture.now.rrsets;
          anchors = anchors.now;
          table = table.now;
          trust = trust.now;
        }) }
    {
        Ok(CaseFacts {
            capture,
            anchors,
            table,
            trust,
            keys: KeyIndex::of(alloc, capture)?,
        })
    }

    /// The evidence.
    pub fn capture(&self) -> &'a Capture<'a>
        ensures { result.now.rrsets ≡ self.now.rrsets }
    {
        self.capture
    }

    /// The trust anchors.
    pub fn anchors(&self) -> &'a [Anchor<'a>]
        ensures { result.now ≡ self.now.anchors }
    {
        self.anchors.as_slice()
    }

    /// What the verifier says, and at which moment.
    pub fn table(&self) -> &Table<'a>
        ensures { result.now ≡ self.now.table }
    {
        self.table
    }

    /// What is trusted.
    pub fn trust(&self) -> &Trust<'a>
        ensures value { result.now ≡ self.now.trust }
        ensures of { HasTrust self.now }
    {
        self.trust
    }

    /// The keys that the signature names: those of its signer with its tag and its algorithm.
    pub fn named_by(&self, rrsig: &Rrsig<'_>) -> &[PlacedKey<'a>]
        ensures { AreNamedOf self.now.rrsets rrsig.now result.now }
    {
        self.keys.named_by(rrsig)
    }
}
