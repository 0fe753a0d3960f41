//! What the evidence says of one question: that there is no such name or type, or that it is unsigned.
ghost use Rattle.std.specs.Prelude.{◌≡◌, ◌≢◌, ◌≤◌, ◌⊎◌, ◌↔◌, ◌+◌, ℕ, IfOk, IfSome, IsSome, List, MatchOption};
ghost use Rattle.dnsv_names.specs.Count.{counted};
ghost use Rattle.dnsv_names.specs.Name.{Labels, IsAtOrBelow, rightmost};
ghost use Rattle.dnsv_names.specs.Tree.{wildcard_of};
ghost use Rattle.dnsv_records.specs.declared.nsec3.Nsec3Parameters.{Nsec3Parameters};
ghost use Rattle.dnsv_zones.specs.chains.HashedNames.{hashes_for};
ghost use Rattle.dnsv_zones.specs.zones.Lookup.{IsLookup};
ghost use Rattle.dnsv_zones.specs.zones.Lookup.Answer.{Held, NoData, NoName};
ghost use Rattle.dnsv_zones.specs.zones.TypeNumbers.{rrsig, nsec};
ghost use Rattle.dnsv_zones.specs.zones.Types.{IsUnsignedDelegation};
ghost use Rattle.dnsv_zones.specs.zones.Zone.{Zone, Holds};
ghost use Rattle.dnsv_canonical.specs.Evidence.{AreParameters, nsec3_rdata};
ghost use Rattle.dnsv_chain.specs.Trust.{SecuredIn};
ghost use Rattle.dnsv_denial.specs.gathering.ByZone.{AreDenialRecords};
ghost use Rattle.dnsv_denial.specs.gathering.Kept.{AreZones};
ghost use Rattle.dnsv_denial.specs.proving.FirstProof.{CanProveNoCloser, CanProveNoData, CanProveNoName, IsFirstNoCloser, IsFirstNoData, IsFirstNoName};
ghost use Rattle.dnsv_denial.specs.proving.ProofMeaning.{HasProofRecords, HasProofWithoutCollision};
ghost use Rattle.dnsv_denial.specs.proving.WholeChain.{HasWholeChainWithoutOptOut, HasWholeChain, HasWholeNsec3Chain, IsJustChainWithoutOptOut};
ghost use Rattle.dnsv_denial.specs.unsigned_cuts.CutMeaning.{IsCoveredEnd, MeansCut};
ghost use Rattle.dnsv_denial.specs.unsigned_cuts.Cuts.{HasOptedOutNextCloser, HasUnsignedCut, IsUnsignedCut};
ghost use Rattle.dnsv_denial.specs.gathering.EvidenceWords.{Chain, evidence_said};

use crate::gathering::denial_records::DenialRecords;
use crate::gathering::expanded::expanded_types;
use crate::gathering::zone_records::ZoneRecords;
use crate::gathering::zones::{lent_zones, own_zones};
use crate::proving::proof::Proof;
use crate::proving::shown_denial::proof_of;
use crate::unsigned_cuts::kept_cuts::{opted_out_next_closer, unsigned_cut};
use crate::wildcard_answers::{WildcardAnswers, is_not_opted_out, wildcard_answers};
use dnsv_canonical::Capture;
use dnsv_chain::Trust;
use dnsv_names::{Count, Name, RecordType};
use dnsv_proof_forms::{Hashes, NameHashes};
use std::alloc::{AllocError, Global};
use std::marker::Model;
use std::rc::Rc;

mod evidence;
mod shown;

/// The secured NSEC and NSEC3 records of a capture that can speak of a question's name: those of the zones at or above
/// it.
#[derive(Drop)]
pub struct View<'c, 't> {
    capture: &'c Capture<'c>,
    trust: &'t Trust<'t>,
    name: Name,
    /// In the order of their parameters, shared with the `Hashes` that the view was made with.
    sets: Rc<Vec<NameHashes<'c>>>,
    /// One for each number of the name's rightmost labels, from the root on.
    zones: Vec<ZoneRecords<'c, 't>>,
    /// What they show against answers from wildcards to the name.
    answers: WildcardAnswers,
}

impl<'c, 't> Model for View<'c, 't> {
    ghost use Rattle.dnsv_chain.specs.Trust.{SecuredIn};
    ghost use Rattle.dnsv_denial.specs.Viewed.{Viewed};
    ghost use Rattle.dnsv_denial.specs.WildcardAnswers.{AreAnswers};
    ghost use Rattle.dnsv_denial.specs.gathering.Kept.{IsViewOf};

    ghost Value = { Viewed };

    ghost view = { λ view. record {
      rrsets = view.capture.now.rrsets;
      trust = view.trust.now;
      name = view.name;
    } };

    ghost invariant = { λ view. IsViewOf (SecuredIn view.trust.now) view.capture.now.rrsets view.name
        view.sets.value.items view.zones.items
        × AreAnswers (SecuredIn view.trust.now) view.capture.now.rrsets view.name view.answers };
}

impl<'c, 't> View<'c, 't> {
    /// Gathers the records for the question's name. `trust` is that of the capture. `count` grows by the hashes that
    /// are made: one more than the iterations for the name, for each of its ancestors and for each wildcard right below
    /// one of its proper ancestors, with each iterations and salt of a usable NSEC3 record of the capture (RFC 5155 5).
    pub fn new(
        alloc: Global,
        capture: &'c Capture<'c>,
        trust: &'t Trust<'t>,
        name: &Name,
        count: &mut Count,
    ) -> Result<View<'c, 't>, AllocError>
        ensures value { IfOk result (λ view. view
            ≡ record { rrsets = capture.now.rrsets; trust = trust.now; name = name.now }) }
        // Whatever the order of the parameters.
        ensures count { IfOk result (λ view. (all : List Nsec3Parameters)
            → AreParameters (nsec3_rdata capture.now.rrsets) all
            → count.new ≡ counted count.old (hashes_for name.now all)) }
        // Where memory is refused, too.
        ensures grown { count.old ≤ count.new }
    {
        let hashes = Hashes::new(alloc, capture, name, count)?;
        View::with(alloc, capture, trust, &hashes)
    }

    /// Gathers the records for the name that the hashes are kept for, which are those of the capture. Nothing is hashed.
    pub fn with(
        alloc: Global,
        capture: &'c Capture<'c>,
        trust: &'t Trust<'t>,
        hashes: &Hashes<'c>,
    ) -> Result<View<'c, 't>, AllocError>
        requires hashes { hashes.now.rrsets ≡ capture.now.rrsets }
        ensures { IfOk result (λ view. view
            ≡ record { rrsets = capture.now.rrsets; trust = trust.now; name = hashes.now.name }) }
    {
        let zones = own_zones(alloc, capture, trust, hashes.name())?;
        let types = expanded_types(alloc, capture)?;
        View::of_zones(alloc, capture, trust, zones, &types, hashes)
    }

    /// The same view, for which nothing is gathered: it looks through `denials`, the records that the zones of the
    /// capture secured by the trust. For many questions of one capture these are gathered once.
    pub fn through(
        alloc: Global,
        capture: &'c Capture<'c>,
        trust: &'t Trust<'t>,
        denials: &'t DenialRecords<'t>,
        hashes: &Hashes<'c>,
    ) -> Result<View<'c, 't>, AllocError>
        requires denials { AreDenialRecords (SecuredIn trust.now) capture.now.rrsets denials.now }
        requires hashes { hashes.now.rrsets ≡ capture.now.rrsets }
        ensures { IfOk result (λ view. view
            ≡ record { rrsets = capture.now.rrsets; trust = trust.now; name = hashes.now.name }) }
    {
        let zones = lent_zones(alloc, denials, hashes.name())?;
        View::of_zones(alloc, capture, trust, zones, denials.expanded(), hashes)
    }

    /// The view that looks through the records of these zones, at or above the name that the hashes are kept for. Of
    /// answers from wildcards those of these types are looked up.
    fn of_zones(
        alloc: Global,
        capture: &'c Capture<'c>,
        trust: &'t Trust<'t>,
        zones: Vec<ZoneRecords<'c, 't>>,
        types: &[RecordType],
        hashes: &Hashes<'c>,
    ) -> Result<View<'c, 't>, AllocError>
        requires zones { AreZones (SecuredIn trust.now) capture.now.rrsets hashes.now.name zones.items }
        requires hashes { hashes.now.rrsets ≡ capture.now.rrsets }
        ensures { IfOk result (λ view. view
            ≡ record { rrsets = capture.now.rrsets; trust = trust.now; name = hashes.now.name }) }
    {
        let sets = hashes.share()?;
        let answers = wildcard_answers(alloc, capture, trust, hashes.name(), types, &zones, &sets)?;
        Ok(View {
            capture,
            trust,
            name: hashes.name().clone()?,
            sets,
            zones,
            answers,
        })
    }

    /// The first proof that there is no such name (RFC 4035 5.4, RFC 5155 8.4); `None` where the evidence has none.
    pub fn no_name(&self) -> Option<Proof>
        ensures first { MatchOption result
            (¬ CanProveNoName (SecuredIn self.now.trust) self.now.rrsets self.now.name)
            (IsFirstNoName (SecuredIn self.now.trust) self.now.rrsets self.now.name) }
        // Each zone that has the records in its chain, for NSEC3 without a collision of hashes, has no such name,
        // whatever type is asked.
        ensures meaning { IfSome result (λ proof. (zone : Zone) (t : ℕ)
            → HasProofWithoutCollision self.now.rrsets self.now.name proof zone
            → IsLookup zone self.now.name t NoName) }
        // Where the evidence has just a zone's whole chain without Opt-Out, there is a proof exactly where the zone has
        // no such name.
        ensures exactly { (zone : Zone) (t : ℕ)
            → IsJustChainWithoutOptOut (SecuredIn self.now.trust) self.now.rrsets self.now.name zone
            → IsSome result ↔ IsLookup zone self.now.name t NoName }
        // Whatever else the evidence has, such a chain proves what the zone denies.
        ensures whole { (zone : Zone) (t : ℕ)
            → HasWholeChainWithoutOptOut (SecuredIn self.now.trust) self.now.rrsets self.now.name zone
            → IsLookup zone self.now.name t NoName → IsSome result }
    {
        proof_of(self.shown_no_name())
    }

    /// The first proof that the type isn't at the name, nor at a wildcard that stands for it (RFC 4035 5.4, RFC 5155
    /// 8.5 to 8.7); `None` where the evidence has none.
    pub fn no_data(&self, rtype: RecordType) -> Option<Proof>
        ensures first { MatchOption result
            (¬ CanProveNoData (SecuredIn self.now.trust) self.now.rrsets self.now.name rtype.0)
            (IsFirstNoData (SecuredIn self.now.trust) self.now.rrsets self.now.name rtype.0) }
        // Each zone that has the records in its chain, for NSEC3 without a collision of hashes, answers that there is
        // no data of the type.
        ensures meaning { IfSome result (λ proof. (zone : Zone)
            → HasProofWithoutCollision self.now.rrsets self.now.name proof zone
            → (source : Labels) × IsLookup zone self.now.name rtype.0 (NoData source)) }
        // Where the evidence has just a zone's whole chain without Opt-Out, there is a proof exactly where the zone has
        // no data of the type. The types that come with a chain are left out.
        ensures exactly { (zone : Zone) → rtype.0 ≢ rrsig → rtype.0 ≢ nsec
            → IsJustChainWithoutOptOut (SecuredIn self.now.trust) self.now.rrsets self.now.name zone
            → IsSome result ↔ ((source : Labels) × IsLookup zone self.now.name rtype.0 (NoData source)) }
        // Whatever else the evidence has, such a chain proves what the zone denies.
        ensures whole { (zone : Zone) (source : Labels) → rtype.0 ≢ rrsig → rtype.0 ≢ nsec
            → HasWholeChainWithoutOptOut (SecuredIn self.now.trust) self.now.rrsets self.now.name zone
            → IsLookup zone self.now.name rtype.0 (NoData source) → IsSome result }
    {
        proof_of(self.shown_no_data(rtype))
    }

    /// The first proof that an answer of the zone from the wildcard below the name's so many rightmost labels has no
    /// closer name against it (RFC 4035 5.3.4, RFC 5155 8.8); `None` where the evidence has none, or these labels are
    /// no proper ancestor of the name at or below the zone.
    pub fn no_closer(&self, zone: &Name, labels: usize) -> Option<Proof>
        ensures first { MatchOption result
            (¬ CanProveNoCloser (SecuredIn self.now.trust) self.now.rrsets self.now.name labels zone.now)
            (IsFirstNoCloser (SecuredIn self.now.trust) self.now.rrsets self.now.name labels zone.now) }
        // In each zone that has the records in its chain, the answer to a type that the wildcard has is the wildcard's,
        // whatever hashes collide.
        ensures meaning { IfSome result (λ proof. (signer : Zone) (t : ℕ)
            → HasProofRecords self.now.rrsets proof signer
            → Holds signer (wildcard_of (rightmost self.now.name labels)) t
            → IsLookup signer self.now.name t (Held (wildcard_of (rightmost self.now.name labels)))) }
    {
        proof_of(self.shown_no_closer(zone, labels))
    }

    /// The name from which on the question's name may be unsigned: the highest delegation without DS; else the highest
    /// whose DS records can't be used; else the next closer name of the closest encloser with most labels where Opt-Out may
    /// leave out a delegation (RFC 4035 5.2, RFC 5155 8.6, 8.9, 9.2). `None` where the evidence shows none.
    pub fn unsigned_cut(&self) -> Option<Name>
        ensures first { MatchOption result
            (¬ HasUnsignedCut (SecuredIn self.now.trust) self.now.rrsets self.now.name)
            (IsUnsignedCut (SecuredIn self.now.trust) self.now.rrsets self.now.name) }
        // Each zone that has the record in its chain has that delegation; and a name that Opt-Out may leave out is no
        // node of it, or a delegation without DS, or exists through such alone.
        ensures meaning { IfSome result (MeansCut (SecuredIn self.now.trust) self.now.rrsets self.now.name) }
        // Where the evidence has a zone's whole chain, with Opt-Out or without, it shows one for each name at or below
        // a delegation of the zone without DS.
        ensures delegation { (zone : Zone) (cut : Labels)
            → HasWholeChain (SecuredIn self.now.trust) self.now.rrsets self.now.name zone
            → IsAtOrBelow self.now.name cut → IsUnsignedDelegation (Holds zone cut) → IsSome result }
        // With Opt-Out it shows one where the zone denies what the evidence doesn't prove.
        ensures missing_name { (zone : Zone) (t : ℕ)
            → HasWholeNsec3Chain (SecuredIn self.now.trust) self.now.rrsets self.now.name zone
            → IsLookup zone self.now.name t NoName
            → CanProveNoName (SecuredIn self.now.trust) self.now.rrsets self.now.name ⊎ IsSome result }
        ensures missing_type { (zone : Zone) (source : Labels) (t : ℕ) → t ≢ rrsig → t ≢ nsec
            → HasWholeNsec3Chain (SecuredIn self.now.trust) self.now.rrsets self.now.name zone
            → IsLookup zone self.now.name t (NoData source)
            → CanProveNoData (SecuredIn self.now.trust) self.now.rrsets self.now.name t ⊎ IsSome result }
    {
        unsigned_cut(
            self.capture,
            self.trust,
            &self.name,
            &self.zones,
            &self.sets,
        )
    }

    /// The next closer name to the name's so many rightmost labels, if Opt-Out may leave out an unsigned delegation of
    /// the zone there, against an answer from the wildcard (RFC 5155 8.8). `None` where the evidence shows none, or
    /// these labels are no proper ancestor of the name at or below the zone.
    pub fn loose_closer(&self, zone: &Name, labels: usize) -> Option<Name>
        ensures next_closer { MatchOption result
            (¬ HasOptedOutNextCloser (SecuredIn self.now.trust) self.now.rrsets self.now.name labels zone.now)
            (λ next_closer. HasOptedOutNextCloser (SecuredIn self.now.trust) self.now.rrsets self.now.name labels
            zone.now
            × (next_closer ≡ rightmost self.now.name (labels + 1))) }
        // In each zone that has the record in its chain, the name is no node, or a delegation without DS, or exists
        // through such alone.
        ensures meaning { IfSome result (λ next_closer. (chain : Chain) × IsCoveredEnd self.now.rrsets
            zone.now ((evidence_said (SecuredIn self.now.trust) self.now.rrsets zone.now chain).OptedOut) next_closer) }
    {
        if is_not_opted_out(&self.answers, &self.name, zone, labels) {
            return None;
        }
        opted_out_next_closer(&self.name, zone, labels, &self.zones, &self.sets)
    }
}
