//! What explanations stand on.
ghost use Rattle.std.specs.Prelude.{◌≡◌, ◌↔◌, [], IfOk, IsTrue, MatchOption};
ghost use Rattle.std.specs.Option.{option_map_or};
ghost use Rattle.dnsv_verifier.specs.Admissible.{IsGood};
ghost use Rattle.dnsv_verifier.specs.Table.{table_answer};
ghost use Rattle.dnsv_chain.specs.Trust.{AreSecured, IsTrustOf};
ghost use Rattle.dnsv_derivations.specs.Explained.{IsTodo, setting_in};
ghost use Rattle.dnsv_derivations.specs.derivations.WaySearch.{AreFirstWays, HasNewKeys, IsWayOf};

use crate::derivations::ways::FoundWay;
use crate::derivations::ways::kept::{KeptWay, NewKey};
use crate::todo::{do_rise, number_among};
use dnsv_canonical::{Capture, Rrset, numbered};
use dnsv_chain::{Anchor, Anchors, Trust, is_good};
use dnsv_lines::Todo;
use dnsv_records::Rrsig;
use dnsv_verifier::{Entries, KeyRecord, Table};
use std::alloc::{AllocError, Global};
use std::marker::Model;

/// What is explained: the RRsets of a capture, the trust anchors, what the verifier says at the moment, the trust that
/// these give, and the entries of which lines tell the numbers.
#[derive(Drop)]
pub struct Evidence<'a> {
    capture: &'a Capture<'a>,
    anchors: &'a Anchors<'a>,
    table: &'a Table<'a>,
    trust: &'a Trust<'a>,
    todo: Option<&'a Entries<'a>>,
    /// Whether those entries are known to rise, so that one is looked up by halves.
    rises: bool,
    /// The first way into each RRset by its number, once they are worked out: each is asked for by many lines.
    ways: &'a [KeptWay],
}

impl<'a> Model for Evidence<'a> {
    ghost use Rattle.std.specs.Prelude.{[]};
    ghost use Rattle.std.specs.Option.{option_map_or};
    ghost use Rattle.dnsv_derivations.specs.Explained.{Explained};
    ghost use Rattle.dnsv_derivations.specs.derivations.KeptWays.{AreOfEvidence};

    ghost Value = { Explained };

    ghost view = { λ evidence. record {
      rrsets = evidence.capture.now.rrsets;
      anchors = evidence.anchors.now;
      table = evidence.table.now;
      todo = option_map_or (λ entries. entries.now) evidence.todo [];
    } };

    ghost invariant = { λ evidence. AreOfEvidence (record {
      rrsets = evidence.capture.now.rrsets;
      anchors = evidence.anchors.now;
      table = evidence.table.now;
      todo = option_map_or (λ entries. entries.now) evidence.todo [];
    }) evidence.trust.now evidence.ways.now evidence.rises };
}

impl<'a> Evidence<'a> {
    /// The evidence of the capture, with the trust that it gives under the anchors and the table's answers. Lines tell
    /// the numbers of the entries, if there are any.
    pub fn new(
        capture: &'a Capture<'a>,
        anchors: &'a Anchors<'a>,
        table: &'a Table<'a>,
        trust: &'a Trust<'a>,
        todo: Option<&'a Entries<'a>>,
    ) -> Evidence<'a>
        requires { IsTrustOf (table_answer table.now) table.now.moment capture.now.rrsets anchors.now trust.now }
        ensures { result ≡ record {
          rrsets = capture.now.rrsets;
          anchors = anchors.now;
          table = table.now;
          todo = option_map_or (λ entries. entries.now) todo.entry [];
        } }
    {
        Evidence {
            capture,
            anchors,
            table,
            trust,
            todo,
            rises: do_rise(todo),
            ways: &[],
        }
    }

    /// The same evidence, with the first ways into its RRsets.
    pub fn with_ways(&self, ways: &'a [KeptWay]) -> Evidence<'a>
        requires { AreFirstWays (setting_in self.now) ways.now }
        ensures { result ≡ self.now }
    {
        Evidence {
            capture: self.capture,
            anchors: self.anchors,
            table: self.table,
            trust: self.trust,
            todo: self.todo,
            rises: self.rises,
            ways,
        }
    }

    /// The first way into the RRset with the number, `None` where the ways aren't worked out.
    pub(crate) fn kept_way(&self, number: usize) -> Option<Option<FoundWay>>
        ensures { MatchOption result (Unit {0}) (IsWayOf (setting_in self.now) number) }
    {
        let Some(kept) = numbered(self.ways, number) else {
            return None;
        };
        Some(kept.way)
    }

    /// The keys that the RRset with the number, if it is a trusted DNSKEY RRset, is the first of its owner to have; `None`
    /// where the ways aren't worked out.
    pub(crate) fn new_keys(&self, number: usize) -> Option<&[NewKey]>
        ensures { MatchOption result (Unit {0}) (λ keys. HasNewKeys (setting_in self.now) number keys.now) }
    {
        let Some(known) = numbered(self.ways, number) else {
            return None;
        };
        Some(known.new_keys.as_slice())
    }

    pub fn capture(&self) -> &'a Capture<'a>
        ensures { result.now.rrsets ≡ self.now.rrsets }
    {
        self.capture
    }

    /// The moment that is asked of, in seconds since 1970.
    pub fn moment(&self) -> u64
        ensures { result ≡ self.now.table.moment }
    {
        self.table.moment()
    }

    /// What the verifier says.
    pub(crate) fn table(&self) -> &Table<'_>
        ensures { result.now ≡ self.now.table }
    {
        self.table
    }

    /// The RRsets, which are numbered from 1.
    pub fn rrsets(&self) -> &'a [Rrset<'a>]
        ensures { result.now ≡ self.now.rrsets }
    {
        self.capture.rrsets()
    }

    /// The trust anchors, which are numbered from 1.
    pub fn anchors(&self) -> &'a [Anchor<'a>]
        ensures { result.now ≡ self.now.anchors }
    {
        self.anchors.as_slice()
    }

    /// The numbers of those signatures of the RRset with the number that are good under a trusted key, rising.
    pub(crate) fn secured(&self, rrset: usize) -> &[usize]
        ensures { AreSecured (table_answer self.now.table) self.now.table.moment self.now.rrsets self.now.anchors rrset
            result.now }
    {
        self.trust.signed(rrset)
    }

    /// Whether the signature of the RRset is good under the key.
    pub(crate) fn is_good(
        &self,
        alloc: Global,
        rrset: &Rrset<'_>,
        rrsig: &Rrsig<'_>,
        key: &KeyRecord<'_>,
    ) -> Result<bool, AllocError>
        ensures { IfOk result (λ good. IsTrue good
            ↔ IsGood (table_answer self.now.table) self.now.table.moment rrset.now rrsig.now key.now) }
    {
        Ok(is_good(alloc, self.table, rrset, rrsig, key)?)
    }

    /// The number of what is asked of the signature of the RRset under the key, among the entries of which lines tell the
    /// numbers.
    pub(crate) fn todo_of(
        &self,
        alloc: Global,
        rrset: &Rrset<'_>,
        rrsig: &Rrsig<'_>,
        key: &KeyRecord<'_>,
    ) -> Result<Todo, AllocError>
        ensures { IfOk result (λ todo. (good : IsGood (table_answer self.now.table) self.now.table.moment rrset.now rrsig.now
            key.now) → IsTodo self.now.todo good.entry todo.0) }
    {
        let Some(entries) = self.todo else {
            return Ok(Todo(None));
        };
        Ok(Todo(number_among(alloc, entries, self.rises, rrset, rrsig, key)?))
    }
}
