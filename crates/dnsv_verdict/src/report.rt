//! The verdict on a question, and what it took.
ghost use Rattle.std.specs.Prelude.{◌≡◌, ◌⊎◌, ◌<◌, IfErr, IfOk, IsErrOf, get_or, length};
ghost use Rattle.dnsv_questions.specs.Question.{IsQuestion};
ghost use Rattle.dnsv_chain.specs.Trusted.{IsSecured};
ghost use Rattle.dnsv_verdict.specs.Complete.{TellsWholeChains};
ghost use Rattle.dnsv_verdict.specs.Report.Hashed.{IsFewHashedOn, IsNumberHashedOn};
ghost use Rattle.dnsv_verdict.specs.Meaning.{AreOwnOrFromWildcards, IsTrueOfZones};
ghost use Rattle.dnsv_verifier.specs.Asked.{IsNumberAsked};
ghost use Rattle.dnsv_verdict.specs.Report.{hashes_in};
ghost use Rattle.dnsv_chain.specs.Basis.{basis_of};
ghost use Rattle.dnsv_verdict.specs.Way.{IsRefusal, IsVerdictOf, names_on};
ghost use Rattle.dnsv_verdict.specs.declared.error.VerdictError.{VerdictError};

use crate::at_name::Hope;
use crate::case::Case;
use crate::error::VerdictError;
use crate::link::Links;
use crate::verdict::Verdict;
use bumpalo::Bump;
use dnsv_canonical::Capture;
use dnsv_chain::Anchors;
use dnsv_names::{Name, RecordType};
use dnsv_proof_forms::Hashes;
use dnsv_questions::is_question;
use dnsv_verifier::Verifier;
use std::alloc::Global;
use std::rc::Rc;

/// The verdict on a question, and what it took.
#[derive(Debug, Drop)]
pub struct Report<'a> {
    /// The secure aliases that lead from the name that was asked for to the last one.
    pub links: Links,
    /// The last name: the one that was asked for where there are no links, else the target of the last of them.
    pub last: Name,
    /// The verdict at the last name, which is no alias.
    pub verdict: Verdict<'a>,
    /// How much the verifier was asked.
    pub asked: u64,
    /// How many SHA-1 digests were worked out to hash names for NSEC3 (RFC 5155 5).
    pub hashed: u64,
}

/// The report on a question of a case, and what the verdicts on its way were found by beside the case. A view of what
/// the evidence says at a name of the way is made of its hashes and the trust of the case, and by the trust of the hope
/// where it is Pending.
#[derive(Drop)]
pub struct Judged<'a> {
    pub report: Report<'a>,
    /// Those for the name of each link, in order, and for the last name, which other questions may share. They are empty
    /// where nothing is kept.
    pub hashes: Vec<Rc<Hashes<'a>>>,
    /// There is one just where the verdict is Pending, and where anything is kept.
    pub hope: Option<Hope<'a>>,
}

impl<'a> Judged<'a> {
    /// The hashes for the name of the link with so many before it, or with all of them for the last name.
    pub fn hashes_at(&self, place: usize) -> &Hashes<'a>
        requires { place < length (hashes_in self.now) }
        ensures { result.now ≡ get_or (hashes_in self.now) place result.now }
    {
        self.hashes[place].as_ref()
    }
}

/// The verdict on the question of a name and a type: what the evidence of the capture proves from the trust anchors, at
/// the moment, in seconds since 1970, under the verifier's answers (RFC 4035 4.3, 5). It is that at the last name of the
/// way over secure aliases (RFC 1034 3.6.2), which begins at the name.
///
/// `BadQuestion` where the type can't be asked at the name, or at the target of an alias; `AliasTargets` where an alias has
/// no one target, `AliasLoop` where its target is a name of the way, `TooManyLinks` where it would be the ninth link. Of
/// these the first is reported, in the order 704, 702, 703, 701 at each alias. The verifier is asked once for each distinct
/// entry that may be verified at the moment, and not again; each name of the way is hashed once with each iterations and
/// salt, whatever the verdict. What the verifier is asked lies in the arena.
pub fn validate<'a, V: Verifier>(
    alloc: Global,
    bump: &'a Bump,
    capture: &'a Capture<'a>,
    anchors: &'a Anchors<'a>,
    moment: u64,
    verifier: &V,
    name: &Name,
    rtype: RecordType,
) -> Result<Report<'a>, VerdictError>
    // The links lead to the last name, where the verdict is.
    ensures verdict { IfOk result (λ report. IsVerdictOf (basis_of capture.now.rrsets anchors.now moment (V.meaning
        verifier.now)) name.now rtype.0 report.links report.last report.verdict) }
    // In each zone that has the records of the verdict in its chain, looking the last name up gives what is denied, or
    // what the wildcard has; and the cut is a delegation without DS, or a name that Opt-Out may leave out.
    ensures meaning { IfOk result (λ report. IsTrueOfZones
        (IsSecured (V.meaning verifier.now) moment capture.now.rrsets anchors.now) capture.now.rrsets report.last
        rtype.0 report.verdict) }
    // Each alias is its name's own, or each zone that has the records of its proof in its chain has it from the
    // wildcard.
    ensures aliases { IfOk result (λ report. AreOwnOrFromWildcards
        (IsSecured (V.meaning verifier.now) moment capture.now.rrsets anchors.now) capture.now.rrsets report.links) }
    // Where nothing answers, what the zone of a whole chain denies is told.
    ensures whole_chains { IfOk result (λ report. TellsWholeChains (basis_of capture.now.rrsets anchors.now moment
        (V.meaning verifier.now)) report.last rtype.0 report.verdict) }
    ensures asked { IfOk result (λ report. IsNumberAsked moment capture.now.rrsets report.asked) }
    ensures hashed { IfOk result (λ report. IsNumberHashedOn capture.now.rrsets (names_on report.links report.last)
        report.hashed) }
    ensures few { IfOk result (λ report. IsFewHashedOn capture.now.rrsets (names_on report.links report.last)
        report.hashed) }
    // A type that can't be asked at the name is refused.
    ensures question { ¬ IsQuestion name.now rtype.0 → IsErrOf result VerdictError.BadQuestion }
    // What is refused is so, unless memory runs out.
    ensures told { IfErr result (λ error. (error ≡ VerdictError.OutOfMemory) ⊎ IsRefusal (basis_of capture.now.rrsets
        anchors.now moment (V.meaning verifier.now)) name.now rtype.0 error) }
    // What is to be refused is, unless memory runs out.
    ensures refused { (error : VerdictError) → IsRefusal (basis_of capture.now.rrsets anchors.now moment (V.meaning
        verifier.now)) name.now rtype.0 error
        → IsErrOf result error ⊎ IsErrOf result VerdictError.OutOfMemory }
{
    if !is_question(name, rtype) {
        return Err(VerdictError::BadQuestion);
    }
    let case = Case::new(alloc, bump, capture, anchors, moment, verifier)?;
    let judged = case.judge(alloc, name, rtype, false)?;
    Ok(judged.report)
}
