//! What questions are judged by at each moment of a range.
ghost use Rattle.std.specs.Prelude.{◌≡◌, ◌≤◌, List, IfOk, IfSome, OnErr, length};
ghost use Rattle.dnsv_canonical.specs.Rrsets.{ReceivedRrset};
ghost use Rattle.dnsv_names.specs.Count.{counted};
ghost use Rattle.dnsv_timeline.specs.Range.{IsRange};
ghost use Rattle.dnsv_moments.specs.Moments.{AreMomentsBy, AreMomentsOf, IsOfEvidence, IsSaidBy};
ghost use Rattle.dnsv_chain.specs.Basis.{IsCaseOf, Basis, basis_of};
ghost use Rattle.dnsv_verifier.specs.Within.{IsTableWithin};
ghost use Rattle.dnsv_verifier.specs.declared.answer.Answer.{Answer};
ghost use Rattle.dnsv_verifier.specs.declared.entry.Entry.{Entry};

use bumpalo::Bump;
use dnsv_canonical::Capture;
use dnsv_chain::Anchors;
use dnsv_holding::Deriver;
use dnsv_names::Count;
use dnsv_timeline::Range;
use dnsv_verdict::Case;
use dnsv_verifier::{Table, Verifier, ask_within};
use std::alloc::{AllocError, Global};
use std::marker::Model;

/// What any number of questions are judged by at each moment of a range: the evidence, the trust anchors, and what a
/// verifier says at some moment of it.
#[derive(Drop)]
pub struct Moments<'a> {
    anchors: &'a Anchors<'a>,
    range: Range,
    table: Table<'a>,
}

impl<'a> Model for Moments<'a> {
    ghost use Rattle.dnsv_timeline.specs.Range.{IsRange};
    ghost use Rattle.dnsv_verifier.specs.Within.{IsTableWithin};
    ghost use Rattle.dnsv_verifier.specs.declared.answer.Answer.{Answer};
    ghost use Rattle.dnsv_verifier.specs.declared.entry.Entry.{Entry};
    ghost use Rattle.dnsv_moments.specs.Moments.{MomentsContents};

    ghost Value = { MomentsContents };

    ghost view = { λ moments. record {
      rrsets = moments.table.rrsets;
      anchors = moments.anchors.now;
      from = moments.range.from;
      to = moments.range.to;
      table = moments.table;
    } };

    ghost invariant = { λ moments. IsRange moments.range.from moments.range.to
        × ((meaning : Entry → Answer) × IsTableWithin meaning moments.range.from moments.range.to moments.table.rrsets
        moments.table) };
}

impl<'a> Moments<'a> {
    /// The moments of the range, under what the verifier says. It is asked here, once for each distinct entry that may be
    /// verified at some moment of the range, and never again; the count grows by so many, and not where memory is
    /// refused. What it is asked lies in the arena.
    pub fn new<V: Verifier>(
        alloc: Global,
        bump: &'a Bump,
        capture: &'a Capture<'a>,
        anchors: &'a Anchors<'a>,
        range: Range,
        verifier: &V,
        count: &mut Count,
    ) -> Result<Moments<'a>, AllocError>
        ensures of { IfOk result (AreMomentsBy capture.now.rrsets anchors.now range.from range.to (V.meaning verifier.now)) }
        ensures count { IfOk result (λ moments. count.new ≡ counted count.old (length moments.table.answers)) }
        ensures refused { OnErr result (count.new ≡ count.old) }
    {
        let table = ask_within(alloc, bump, capture, range, verifier, count)?;
        Ok(Moments::of(anchors, range, table))
    }

    /// The moments of the range, under a table of what some verifier says of its evidence within it. Nobody is asked.
    pub fn of(anchors: &'a Anchors<'a>, range: Range, table: Table<'a>) -> Moments<'a>
        requires { (meaning : Entry → Answer) × (rrsets : List ReceivedRrset)
            × IsTableWithin meaning range.from range.to rrsets table }
        ensures of { AreMomentsOf table.entry.rrsets anchors.now range.from range.to table.entry result }
        // Whoever the table is of, they are that verifier's.
        ensures by { (meaning : Entry → Answer) (rrsets : List ReceivedRrset)
            → IsTableWithin meaning range.from range.to rrsets table.entry → IsSaidBy meaning result }
    {
        // What is true of every range.
        let _first = range.from();
        Moments {
            anchors,
            range,
            table,
        }
    }

    /// The evidence.
    pub fn capture(&self) -> &'a Capture<'a>
        ensures { result.now.rrsets ≡ self.now.rrsets }
    {
        self.table.capture()
    }

    /// The trust anchors.
    pub fn anchors(&self) -> &'a Anchors<'a>
        ensures { result.now ≡ self.now.anchors }
    {
        self.anchors
    }

    /// The first moment and the last, and those between them.
    pub fn range(&self) -> Range
        ensures from { result.from ≡ self.now.from }
        ensures to { result.to ≡ self.now.to }
        ensures range { IsRange self.now.from self.now.to }
    {
        self.range
    }

    /// What the verifier says within the range.
    pub fn table(&self) -> &Table<'a>
        ensures { result.now ≡ self.now.table }
    {
        &self.table
    }

    /// Who explains questions at the moment, or at the nearest one of the range. It goes on with the hashes for names of
    /// whoever explained at another moment.
    pub(crate) fn deriver_at(
        &self,
        alloc: Global,
        moment: u64,
        before: Option<Deriver<'a>>,
    ) -> Result<Deriver<'a>, AllocError>
        requires { IfSome before (IsOfEvidence self.now) }
        ensures case { (meaning : Entry → Answer) → IsSaidBy meaning self.now → self.now.from ≤ moment
            → moment ≤ self.now.to
            → IfOk result (IsCaseOf (basis_of self.now.rrsets self.now.anchors moment meaning)) }
        ensures evidence { IfOk result (IsOfEvidence self.now) }
    {
        let nearest = nearest(self.range, moment);
        let table = self.table.at(alloc, nearest)?;
        let case = Case::of(alloc, self.anchors, table)?;
        let deriver = going_on(alloc, before, case)?;
        Ok(deriver)
    }
}

/// What derives questions of the case, going on with what another deriver of the same evidence kept.
fn going_on<'a>(
    alloc: Global,
    before: Option<Deriver<'a>>,
    case: Case<'a>,
) -> Result<Deriver<'a>, AllocError>
    requires case { (basis : Basis) × IsCaseOf basis case }
    requires evidence { IfSome before (λ deriver. case.rrsets ≡ deriver.rrsets) }
    ensures contents { IfOk result (λ deriver. deriver ≡ case.entry) }
    ensures basis { (basis : Basis) → IsCaseOf basis case.entry → IfOk result (IsCaseOf basis) }
{
    match before {
        Some(deriver) => Ok(deriver.with_case(alloc, case)?),
        None => Ok(Deriver::of(alloc, case)?),
    }
}

/// The moment of the range that is nearest to the moment.
fn nearest(range: Range, moment: u64) -> u64
    ensures from { range.from ≤ result }
    ensures to { result ≤ range.to }
    ensures same { range.from ≤ moment → moment ≤ range.to → result ≡ moment }
{
    let from = range.from();
    let to = range.to();
    if moment < from {
        return from;
    }
    if to < moment {
        return to;
    }
    moment
}
