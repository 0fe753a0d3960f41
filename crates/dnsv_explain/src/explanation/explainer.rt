//! What all explanations over one case share.
ghost use Rattle.std.specs.Prelude.{◌≡◌, [], IfOk};
ghost use Rattle.dnsv_names.specs.Name.{Labels};
ghost use Rattle.dnsv_chain.specs.Basis.{Basis, IsCaseOf, basis_by, basis_of};
ghost use Rattle.dnsv_verdict.specs.Report.{IsKept, IsReport, Refuses, hashes_in};
ghost use Rattle.dnsv_verdict.specs.Way.{IsVerdictOf};
ghost use Rattle.dnsv_holding.specs.Explained.{explained_by};
ghost use Rattle.dnsv_explain.specs.Explanation.{IsExplanation, IsExplanationOf};

use crate::explanation::{Explanation, explanation_of};
use bumpalo::Bump;
use dnsv_canonical::Capture;
use dnsv_chain::Anchors;
use dnsv_holding::Deriver;
use dnsv_names::{Name, RecordType};
use dnsv_verdict::{Case, Judged, Report, VerdictError};
use dnsv_verifier::Verifier;
use std::alloc::{AllocError, Global};
use std::marker::Model;

/// A case whose verdicts are explained, of as many questions as one likes, with what these and their explanations share:
/// the first way into each RRset is worked out once, and once by what may be hoped, for the first question that needs it.
#[derive(Drop)]
pub struct Explainer<'a> {
    deriver: Deriver<'a>,
}

impl<'a> Model for Explainer<'a> {
    ghost use Rattle.dnsv_chain.specs.Basis.{CaseContents};

    ghost Value = { CaseContents };

    ghost view = { λ explainer. explainer.deriver };
}

impl<'a> Explainer<'a> {
    /// The case of a capture and trust anchors at a moment, in seconds since 1970, under what the verifier says, which is
    /// asked as `Case::new` asks it.
    pub fn new<V: Verifier>(
        alloc: Global,
        bump: &'a Bump,
        capture: &'a Capture<'a>,
        anchors: &'a Anchors<'a>,
        moment: u64,
        verifier: &V,
    ) -> Result<Explainer<'a>, AllocError>
        ensures { IfOk result (IsCaseOf (basis_of capture.now.rrsets anchors.now moment (V.meaning verifier.now))) }
    {
        let case = Case::new(alloc, bump, capture, anchors, moment, verifier)?;
        Explainer::of(alloc, case)
    }

    /// That of a case which was made elsewhere, so that nobody is asked anything. The case is of what some verifier says
    /// of its evidence, as each case of `Case::new` is, and each of `Case::of` with a table of what one says.
    pub fn of(alloc: Global, case: Case<'a>) -> Result<Explainer<'a>, AllocError>
        requires { (basis : Basis) × IsCaseOf basis case }
        ensures contents { IfOk result (λ explainer. explainer ≡ case.entry) }
        // Whoever the case is of, it is that verifier's.
        ensures basis { (basis : Basis) → IsCaseOf basis case.entry → IfOk result (IsCaseOf basis) }
    {
        let deriver = Deriver::of(alloc, case)?;
        Ok(Explainer { deriver })
    }

    /// The verdict on a question, as `Case::judge` gives it, and why it stands, as `explain` says it of one question. The
    /// verifier isn't asked again. What it gives depends on the case and the question alone. The case stays, also where
    /// the question is refused or memory is.
    pub fn explain(
        &mut self,
        alloc: Global,
        name: &Name,
        rtype: RecordType,
    ) -> Result<(Report<'a>, Explanation), VerdictError>
        ensures report { (basis : Basis) → IsCaseOf basis self.old
            → IfOk result (λ told. IsReport basis name.now rtype.0 told.0) }
        ensures explanation { (basis : Basis) → IsCaseOf basis self.old
            → IfOk result (λ told. IsExplanationOf basis rtype.0 told.0 told.1) }
        ensures refused { (basis : Basis) → IsCaseOf basis self.old → Refuses basis name.now rtype.0 result }
        ensures same { self.new ≡ self.old }
    {
        let judged = self.deriver.judge(alloc, name, rtype)?;
        let explanation = explained(alloc, &self.deriver, &judged, rtype)?;
        Ok((judged.report, explanation))
    }
}

/// Why the verdict stands that was judged.
fn explained<'a>(
    alloc: Global,
    deriver: &Deriver<'a>,
    judged: &Judged<'a>,
    rtype: RecordType,
) -> Result<Explanation, AllocError>
    requires kept { IsKept deriver.now rtype.0 judged.now.report.links judged.now.report.last
        judged.now.report.verdict (hashes_in judged.now) judged.now.hope }
    requires verdict { (name : Labels) × IsVerdictOf (basis_by deriver.now) name rtype.0 judged.now.report.links
        judged.now.report.last judged.now.report.verdict }
    ensures { IfOk result (IsExplanation (explained_by deriver.now []) rtype.0 judged.now.report.links
        judged.now.report.last judged.now.report.verdict) }
{
    let case = deriver.case();
    // What is true of every case.
    let _trust = case.trust();
    let evidence = deriver.evidence();
    let hoped = deriver.hoped_ways();
    explanation_of(alloc, &evidence, case, judged, hoped, rtype)
}
