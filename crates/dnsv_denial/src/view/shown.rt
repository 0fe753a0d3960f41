//! How the evidence shows what a view says of its question.
ghost use Rattle.std.specs.Prelude.{IfSome, MatchOption};
ghost use Rattle.dnsv_chain.specs.Trust.{SecuredIn};
ghost use Rattle.dnsv_denial.specs.proving.FirstProof.{CanProveNoCloser, CanProveNoData, CanProveNoName};
ghost use Rattle.dnsv_denial.specs.proving.FirstProof.{IsFirstNoCloser, IsFirstNoData, IsFirstNoName};
ghost use Rattle.dnsv_denial.specs.proving.ShownDenials.{IsShownNoCloser, IsShownNoData, IsShownNoName};
ghost use Rattle.dnsv_denial.specs.unsigned_cuts.Cuts.{HasOptedOutNextCloser, HasUnsignedCut, IsUnsignedCut};
ghost use Rattle.dnsv_denial.specs.unsigned_cuts.ShownCut.{IsShownCut, IsShownOptOutCloser, cut_name};

use crate::proving::first_proof::{first_proof, no_closer};
use crate::proving::shown_denial::ShownDenial;
use crate::unsigned_cuts::shown_cut::{ShownCut, shown_cut, shown_loose_closer};
use crate::view::View;
use crate::wildcard_answers::{is_not_opted_out, may_have_closer};
use dnsv_names::{Name, RecordType};
use dnsv_proof_forms::Denial;

impl View<'_, '_> {
    /// How the first proof that there is no such name shows it, with the record for each part; `None` where `no_name` has
    /// none.
    pub fn shown_no_name(&self) -> Option<ShownDenial>
        ensures first { MatchOption result
            (¬ CanProveNoName (SecuredIn self.now.trust) self.now.rrsets self.now.name)
            (IsShownNoName (SecuredIn self.now.trust) self.now.rrsets self.now.name) }
        // Its proof is the first.
        ensures proof { IfSome result (λ shown.
            IsFirstNoName (SecuredIn self.now.trust) self.now.rrsets self.now.name shown.proof) }
    {
        first_proof(Denial::NoName, &self.name, &self.zones, &self.sets)
    }

    /// How the first proof that the type isn't there shows it, with the record for each part; `None` where `no_data` has
    /// none.
    pub fn shown_no_data(&self, rtype: RecordType) -> Option<ShownDenial>
        ensures first { MatchOption result
            (¬ CanProveNoData (SecuredIn self.now.trust) self.now.rrsets self.now.name rtype.0)
            (IsShownNoData (SecuredIn self.now.trust) self.now.rrsets self.now.name rtype.0) }
        // Its proof is the first.
        ensures proof { IfSome result (λ shown.
            IsFirstNoData (SecuredIn self.now.trust) self.now.rrsets self.now.name rtype.0 shown.proof) }
    {
        first_proof(Denial::NoData(rtype), &self.name, &self.zones, &self.sets)
    }

    /// How the first proof that there is no closer name shows it, with its record; `None` where `no_closer` has none.
    pub fn shown_no_closer(&self, zone: &Name, labels: usize) -> Option<ShownDenial>
        ensures first { MatchOption result
            (¬ CanProveNoCloser (SecuredIn self.now.trust) self.now.rrsets self.now.name labels zone.now)
            (IsShownNoCloser (SecuredIn self.now.trust) self.now.rrsets self.now.name labels zone.now) }
        // Its proof is the first.
        ensures proof { IfSome result (λ shown.
            IsFirstNoCloser (SecuredIn self.now.trust) self.now.rrsets self.now.name labels zone.now shown.proof) }
    {
        if may_have_closer(&self.answers, &self.name, zone, labels) {
            return None;
        }
        no_closer(&self.name, zone, labels, &self.zones, &self.sets)
    }

    /// How the evidence shows from which name on the question's name may be unsigned, by the first chain that does; `None`
    /// where `unsigned_cut` has none.
    pub fn shown_unsigned_cut(&self) -> Option<ShownCut>
        ensures first { MatchOption result
            (¬ HasUnsignedCut (SecuredIn self.now.trust) self.now.rrsets self.now.name)
            (IsShownCut (SecuredIn self.now.trust) self.now.rrsets self.now.name) }
        // It tells the name of `unsigned_cut`.
        ensures cut { IfSome result (λ shown.
            IsUnsignedCut (SecuredIn self.now.trust) self.now.rrsets self.now.name (cut_name self.now.name shown)) }
    {
        shown_cut(
            self.capture,
            self.trust,
            &self.name,
            &self.zones,
            &self.sets,
        )
    }

    /// How Opt-Out may leave out a delegation at the next closer name against an answer from the wildcard, by the first chain
    /// of the zone that shows it; `None` where `loose_closer` has none.
    pub fn shown_loose_closer(&self, zone: &Name, labels: usize) -> Option<ShownDenial>
        ensures { MatchOption result
            (¬ HasOptedOutNextCloser (SecuredIn self.now.trust) self.now.rrsets self.now.name labels zone.now)
            (IsShownOptOutCloser (SecuredIn self.now.trust) self.now.rrsets self.now.name labels zone.now) }
    {
        if is_not_opted_out(&self.answers, &self.name, zone, labels) {
            return None;
        }
        shown_loose_closer(&self.zones, &self.sets, &self.name, zone, labels)
    }
}
