//! What the derivations of all questions over one case share.
ghost use Rattle.std.specs.Prelude.{◌≡◌, ◌⊎◌, [], IfErr, IfOk, IsErrOf, length};
ghost use Rattle.dnsv_questions.specs.Question.{IsQuestion};
ghost use Rattle.dnsv_derivations.specs.Explained.{setting_in};
ghost use Rattle.dnsv_holding.specs.Derived.{IsDerived};
ghost use Rattle.dnsv_holding.specs.Explained.{explained_by};
ghost use Rattle.dnsv_holding.specs.SharedWays.{AreHopedWays, AreOfCase};
ghost use Rattle.dnsv_derivations.specs.derivations.WaySearch.{AreFirstWays};
ghost use Rattle.dnsv_chain.specs.Basis.{Basis, IsCaseOf, basis_by};
ghost use Rattle.dnsv_verdict.specs.Hope.{HasHope};
ghost use Rattle.dnsv_verdict.specs.Report.{IsKept, IsReport, Refuses, hashes_in};
ghost use Rattle.dnsv_verdict.specs.Verdict.{IsVerdictAt};
ghost use Rattle.dnsv_verdict.specs.Way.{IsVerdictOf};
ghost use Rattle.dnsv_verdict.specs.declared.error.VerdictError.{VerdictError};

use crate::at::evidence_of;
use crate::derivation::{Derivation, Outcome, derivation_of, stop_derivation_of};
use dnsv_derivations::{Evidence, KeptWay, first_ways};
use dnsv_names::{Name, RecordType};
use dnsv_verdict::{Case, Hope, Judged, OpenCase, Traced, Verdict, VerdictError};
use dnsv_verifier::Entries;
use std::alloc::{AllocError, Global};
use std::marker::Model;

/// A case whose verdicts are derived, of as many questions as one likes, with what these share: the first way into each
/// RRset is worked out once, and once by what may be hoped, for the first question that needs it.
#[derive(Drop)]
pub struct Deriver<'a> {
    open_case: OpenCase<'a>,
    /// The first way into each RRset, by its number.
    ways: Vec<KeptWay>,
    /// The first way into each RRset by what may be hoped. It is empty until a question needs them.
    hoped: Vec<KeptWay>,
}

impl<'a> Model for Deriver<'a> {
    ghost use Rattle.dnsv_holding.specs.SharedWays.{AreHopedWays, AreOfCase};
    ghost use Rattle.dnsv_chain.specs.Basis.{CaseContents};

    ghost Value = { CaseContents };

    ghost view = { λ deriver. deriver.open_case };

    ghost invariant = { λ deriver. AreOfCase deriver.open_case deriver.ways.items
        × AreHopedWays deriver.open_case deriver.hoped.items };
}

impl<'a> Deriver<'a> {
    /// That of a case which was made elsewhere, so that nobody is asked anything. The case is of what some verifier says
    /// of its evidence, as each case of `Case::new` is, and each of `Case::of` with a table of what one says.
    pub fn of(alloc: Global, case: Case<'a>) -> Result<Deriver<'a>, AllocError>
        requires { (basis : Basis) × IsCaseOf basis case }
        ensures contents { IfOk result (λ deriver. deriver ≡ case.entry) }
        // Whoever the case is of, it is that verifier's.
        ensures basis { (basis : Basis) → IsCaseOf basis case.entry → IfOk result (IsCaseOf basis) }
    {
        let ways = ways_of(alloc, &case)?;
        Ok(Deriver {
            open_case: OpenCase::of(alloc, case),
            ways,
            hoped: Vec::new(alloc),
        })
    }

    /// That of another case of the same evidence, as at another moment, as `of` gives it: the ways are worked out by the new
    /// case. The hashes for names depend on the evidence alone, so those that are kept stay. The case is of what some
    /// verifier says of its evidence, as that of `of` is.
    pub fn with_case(self, alloc: Global, case: Case<'a>) -> Result<Deriver<'a>, AllocError>
        requires case { (basis : Basis) × IsCaseOf basis case }
        requires evidence { case.rrsets ≡ self.rrsets }
        ensures contents { IfOk result (λ deriver. deriver ≡ case.entry) }
        // Whoever the case is of, it is that verifier's.
        ensures basis { (basis : Basis) → IsCaseOf basis case.entry → IfOk result (IsCaseOf basis) }
    {
        let ways = ways_of(alloc, &case)?;
        let open_case = self.open_case.with_case(case);
        Ok(Deriver {
            open_case,
            ways,
            hoped: Vec::new(alloc),
        })
    }

    /// The verdict on a question, as `Case::judge` gives it, with the hashes and the hope that explain it. The verifier
    /// isn't asked again. The case stays, also where the question is refused or memory is.
    pub fn judge(
        &mut self,
        alloc: Global,
        name: &Name,
        rtype: RecordType,
    ) -> Result<Judged<'a>, VerdictError>
        ensures report { (basis : Basis) → IsCaseOf basis self.old
            → IfOk result (λ judged. IsReport basis name.now rtype.0 judged.report) }
        ensures refused { (basis : Basis) → IsCaseOf basis self.old → Refuses basis name.now rtype.0 result }
        ensures by_table { IfOk result (λ judged. IsVerdictOf (basis_by self.old) name.now rtype.0 judged.report.links
            judged.report.last judged.report.verdict) }
        ensures kept { IfOk result (λ judged. IsKept self.old rtype.0 judged.report.links judged.report.last
            judged.report.verdict (hashes_in judged) judged.hope) }
        ensures same { self.new ≡ self.old }
    {
        let judged = self.open_case.judge(alloc, name, rtype, true)?;
        let case = self.open_case.case();
        keep_hoped(alloc, case, &judged, rtype, &mut self.hoped)?;
        Ok(judged)
    }

    /// The case.
    pub fn case(&self) -> &Case<'a>
        ensures { result.now ≡ self.now }
    {
        self.open_case.case()
    }

    /// What the case has, with the first way into each RRset.
    pub fn evidence(&self) -> Evidence<'_>
        ensures { result ≡ explained_by self.now [] }
    {
        let bare = evidence_of(self.open_case.case(), None);
        bare.with_ways(&self.ways)
    }

    /// The first ways by what may be hoped, where a question needed them.
    pub fn hoped_ways(&self) -> &[KeptWay]
        ensures { AreHopedWays self.now result.now }
    {
        &self.hoped
    }

    /// What is told of a question, and the lines that derive it: of the verdict as an explanation tells it, those alone of
    /// the links and the verdict, or of what may be hoped of it; where nothing is proved, those of the links. Where an alias of
    /// the way can't be followed, that is told, with the lines of the links and then of that alias.
    ///
    /// `BadQuestion` where the type can't be asked at the name, and `OutOfMemory`. The case stays, also then.
    pub fn derive(
        &mut self,
        alloc: Global,
        name: &Name,
        rtype: RecordType,
    ) -> Result<Derivation<'a>, VerdictError>
        ensures derived { (basis : Basis) → IsCaseOf basis self.old
            → IfOk result (λ told. IsDerived basis name.now rtype.0 told.outcome told.lines.items) }
        ensures question { ¬ IsQuestion name.now rtype.0 → IsErrOf result VerdictError.BadQuestion }
        ensures refused { IfErr result (λ error. (error ≡ VerdictError.OutOfMemory)
            ⊎ ((error ≡ VerdictError.BadQuestion) × (¬ IsQuestion name.now rtype.0))) }
        ensures same { self.new ≡ self.old }
    {
        derive_by(
            alloc,
            &mut self.open_case,
            &self.ways,
            &mut self.hoped,
            name,
            rtype,
        )
    }
}

/// The first way into each RRset of the case, by its number.
fn ways_of(alloc: Global, case: &Case<'_>) -> Result<Vec<KeptWay>, AllocError>
    ensures ways { IfOk result (λ ways. AreFirstWays (setting_in (explained_by case.now [])) ways.items) }
    ensures all { IfOk result (λ ways. length ways.items ≡ length case.now.rrsets) }
{
    let evidence = evidence_of(case, None);
    first_ways(alloc, &evidence)
}

/// Keeps the first ways by what may be hoped, where the question needs them and none before did.
fn keep_hoped<'a>(
    alloc: Global,
    case: &Case<'a>,
    judged: &Judged<'a>,
    rtype: RecordType,
    hoped: &mut Vec<KeptWay>,
) -> Result<(), AllocError>
    requires hoped { AreHopedWays case.now hoped.now.items }
    requires verdict { IsVerdictAt (basis_by case.now) judged.now.report.last rtype.0 judged.now.report.verdict }
    requires hope { HasHope case.now judged.now.report.last rtype.0 judged.now.report.verdict judged.now.hope }
    ensures { AreHopedWays case.now hoped.new.items }
{
    if !hoped.is_empty() {
        return Ok(());
    }
    let Verdict::Pending(unknown) = &judged.report.verdict else {
        return Ok(());
    };
    let Some(hope) = &judged.hope else {
        return Ok(());
    };
    *hoped = hoped_ways(alloc, hope, unknown)?;
    Ok(())
}

/// The first way into each RRset by the hope, with the numbers of these entries.
fn hoped_ways(
    alloc: Global,
    hope: &Hope<'_>,
    unknown: &Entries<'_>,
) -> Result<Vec<KeptWay>, AllocError>
    ensures ways { IfOk result (λ ways. AreFirstWays (setting_in (explained_by hope.now.case.value unknown.now))
        ways.items) }
    ensures all { IfOk result (λ ways. length ways.items ≡ length hope.now.case.value.rrsets) }
{
    let evidence = evidence_of(hope.case.as_ref(), Some(unknown));
    first_ways(alloc, &evidence)
}

/// What is told of a question of the case, and the lines that derive it, by the first ways into its RRsets.
fn derive_by<'s, 'a>(
    alloc: Global,
    open_case: &'s mut OpenCase<'a>,
    ways: &'s [KeptWay],
    hoped: &mut Vec<KeptWay>,
    name: &Name,
    rtype: RecordType,
) -> Result<Derivation<'a>, VerdictError>
    requires ways { AreOfCase open_case.now ways.now }
    requires hoped { AreHopedWays open_case.now hoped.now.items }
    ensures derived { (basis : Basis) → IsCaseOf basis open_case.old
        → IfOk result (λ told. IsDerived basis name.now rtype.0 told.outcome told.lines.items) }
    ensures question { ¬ IsQuestion name.now rtype.0 → IsErrOf result VerdictError.BadQuestion }
    ensures refused { IfErr result (λ error. (error ≡ VerdictError.OutOfMemory)
        ⊎ ((error ≡ VerdictError.BadQuestion) × (¬ IsQuestion name.now rtype.0))) }
    ensures same { open_case.new ≡ open_case.old }
    ensures hoped { AreHopedWays open_case.old hoped.new.items }
{
    let traced = open_case.trace(alloc, name, rtype)?;
    let case = open_case.case();
    // What is true of every case.
    let _trust = case.trust();
    let bare = evidence_of(case, None);
    let evidence = bare.with_ways(ways);
    match traced {
        Traced::Reached(judged) => {
            keep_hoped(alloc, case, &judged, rtype, hoped)?;
            let lines = derivation_of(alloc, &evidence, case, &judged, hoped, rtype)?;
            let outcome = Outcome::Verdict(judged.report);
            Ok(Derivation { outcome, lines })
        }
        Traced::Stopped(stopped) => {
            let lines = stop_derivation_of(alloc, &evidence, case, &stopped)?;
            let outcome = Outcome::Refused(stopped.error);
            Ok(Derivation { outcome, lines })
        }
    }
}
