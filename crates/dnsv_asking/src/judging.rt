//! How questions are judged, and what the program says of one.
ghost use Rattle.std.specs.Prelude.{◌≡◌, ◌⊎◌, ℕ, IfErr, IfOk, List, string_bytes};
ghost use Rattle.std.specs.Option.{option_map};
ghost use Rattle.dnsv_canonical.specs.Rrsets.{ReceivedRrset};
ghost use Rattle.dnsv_questions.specs.Question.{IsQuestion};
ghost use Rattle.dnsv_verifier.specs.Table.{IsTableOf};
ghost use Rattle.dnsv_verifier.specs.declared.answer.Answer.{Answer};
ghost use Rattle.dnsv_verifier.specs.declared.entry.Entry.{Entry};
ghost use Rattle.dnsv_verdict.specs.Way.{IsRefusal, IsRefusedFor, IsVerdictOf};
ghost use Rattle.dnsv_verdict.specs.declared.error.VerdictError.{VerdictError};
ghost use Rattle.dnsv_verdict.specs.declared.error.VerdictError.TheVariants.{OutOfMemory};
ghost use Rattle.dnsv_chain.specs.Basis.{Basis, basis_of, IsCaseOf};
ghost use Rattle.dnsv_files.specs.Status.{status_code};
ghost use Rattle.dnsv_texts.specs.Checking as texts;
ghost use Rattle.dnsv_work.specs.Judged as specs;
ghost use Rattle.dnsv_asking.specs.Checking.{IsJudged, IsWhy};
ghost use Rattle.dnsv_asking.specs.Judging.{case_of, tells_why};

use bumpalo::Bump;
use dnsv_canonical::{Capture, Rrset};
use dnsv_chain::Anchors;
use dnsv_evidence_texts::Heading;
use dnsv_explain::{Explainer, Explanation};
use dnsv_files::Fault;
use dnsv_lines::Line;
use dnsv_names::{Name, RecordType};
use dnsv_questions::{Format, Moment};
use dnsv_texts::check_text;
use dnsv_verdict::{Case, OpenCase, Report, VerdictError};
use dnsv_verifier::{Table, Verifier};
use dnsv_work::{Asked, OpenNumbers, Outcome, Telling, status_of, verdict_fault};
use std::alloc::{AllocError, Global};

/// A case that questions are judged by, and where it is asked why verdicts stand, explained by: with what these share.
#[derive(Drop)]
pub enum Judging<'a> {
    /// Of verdicts alone.
    Plain(OpenCase<'a>),
    /// Of verdicts, and of why they stand.
    Telling(Explainer<'a>),
}

impl<'a> Judging<'a> {
    /// The case at the moment, under what the verifier says, which is asked here and never again.
    pub fn new<V: Verifier>(
        alloc: Global,
        bump: &'a Bump,
        why: bool,
        moment: Moment,
        held: &'a Capture<'a>,
        anchors: &'a Anchors<'a>,
        verifier: &V,
    ) -> Result<Judging<'a>, AllocError>
        ensures case { IfOk result (λ judge. IsCaseOf (basis_of held.now.rrsets anchors.now moment (V.meaning
            verifier.now)) (case_of judge)) }
        ensures why { IfOk result (λ judge. tells_why judge ≡ why) }
    {
        let seconds = moment.seconds();
        if why {
            let explainer = Explainer::new(alloc, bump, held, anchors, seconds, verifier)?;
            return Ok(Judging::Telling(explainer));
        }
        let case = Case::new(alloc, bump, held, anchors, seconds, verifier)?;
        Ok(Judging::Plain(OpenCase::of(alloc, case)))
    }

    /// The case of the evidence that the table is of, which has what some verifier says of it at a moment. Nobody is asked.
    pub fn by_table(
        alloc: Global,
        why: bool,
        anchors: &'a Anchors<'a>,
        table: Table<'a>,
    ) -> Result<Judging<'a>, AllocError>
        requires { (basis : Basis) × IsTableOf basis.meaning basis.moment basis.rrsets table }
        ensures case { (meaning : Entry → Answer) (moment : ℕ) (rrsets : List ReceivedRrset)
            → IsTableOf meaning moment rrsets table.entry
            → IfOk result (λ judge. IsCaseOf (basis_of rrsets anchors.now moment meaning) (case_of judge)) }
        ensures why { IfOk result (λ judge. tells_why judge ≡ why) }
    {
        let case = Case::of(alloc, anchors, table)?;
        if why {
            let explainer = Explainer::of(alloc, case)?;
            return Ok(Judging::Telling(explainer));
        }
        Ok(Judging::Plain(OpenCase::of(alloc, case)))
    }

    /// The report on the question, and where that is asked for, why its verdict stands. The case stays.
    pub fn report(
        &mut self,
        alloc: Global,
        name: &Name,
        rtype: RecordType,
    ) -> Result<(Report<'a>, Option<Explanation>), VerdictError>
        ensures verdict { (basis : Basis) → IsCaseOf basis (case_of self.old) → IfOk result (λ told.
            IsVerdictOf basis name.now rtype.0 told.0.links told.0.last told.0.verdict) }
        ensures why { (basis : Basis) → IsCaseOf basis (case_of self.old) → IfOk result (λ told.
            IsWhy (tells_why self.old) basis rtype.0 told.0 told.1) }
        ensures question { (basis : Basis) → IsCaseOf basis (case_of self.old)
            → IfOk result (λ _. IsQuestion name.now rtype.0) }
        ensures refused { (basis : Basis) → IsCaseOf basis (case_of self.old) → IfErr result (λ error.
            (error ≡ OutOfMemory) ⊎ IsRefusal basis name.now rtype.0 error) }
        ensures same { self.new ≡ self.old }
    {
        match self {
            Judging::Plain(case) => {
                let judged = case.judge(alloc, name, rtype, false)?;
                Ok((judged.report, None))
            }
            Judging::Telling(explainer) => {
                let (report, explanation) = explainer.explain(alloc, name, rtype)?;
                Ok((report, Some(explanation)))
            }
        }
    }
}

/// The verdict on the question, the aliases that lead to the name where it stands, what carries it, and where that is
/// asked for, why it stands: in lines, or in JSON.
///
/// An alias that can't be followed is refused, without a place.
pub fn judge(
    alloc: Global,
    judge: &mut Judging<'_>,
    telling: Telling,
    asked: &Asked<'_>,
    rrsets: &[Rrset<'_>],
    numbers: &OpenNumbers,
) -> Result<Outcome, Fault>
    requires question { IsQuestion asked.now.name.now asked.now.rtype.0 }
    requires why { tells_why judge.now ≡ telling.why }
    ensures verdict { (basis : Basis) → IsCaseOf basis (case_of judge.old) → rrsets.now ≡ basis.rrsets
        → basis.moment ≡ asked.now.moment → IfOk result (λ outcome. IsJudged telling.format telling.why numbers.now
        basis asked.now.name.now asked.now.rtype.0 outcome.status (string_bytes outcome.text)) }
    ensures only { (basis : Basis) → IsCaseOf basis (case_of judge.old) → IfErr result (λ told.
        (told ≡ Fault.OutOfMemory) ⊎ ((error : VerdictError) × IsRefusedFor basis asked.now.name.now asked.now.rtype.0
        error × (told ≡ specs.verdict_fault error))) }
{
    match judge.report(alloc, asked.name, asked.rtype) {
        Ok((report, told)) => {
            let format = telling.format;
            Ok(outcome_by(alloc, format, asked, rrsets, &report, &told, numbers)?)
        }
        Err(error) => Err(verdict_fault(error)),
    }
}

/// The end of a run by a report, and its text.
pub fn outcome_by(
    alloc: Global,
    format: Format,
    asked: &Asked<'_>,
    rrsets: &[Rrset<'_>],
    report: &Report<'_>,
    why: &Option<Explanation>,
    numbers: &OpenNumbers,
) -> Result<Outcome, AllocError>
    ensures status { IfOk result (λ outcome. outcome.status ≡ specs.verdict_status report.now.verdict) }
    ensures text { IfOk result (λ outcome. string_bytes outcome.text ≡ texts.check_text format asked.now.name.now
        asked.now.rtype.0 asked.now.moment (status_code outcome.status) rrsets.now report.now.links
        report.now.verdict why.now numbers.now) }
{
    let status = status_of(&report.verdict);
    let heading = Heading {
        name: asked.name,
        rtype: asked.rtype,
        moment: asked.moment.seconds(),
        status: status.code(),
    };
    let why = lines_of(why);
    let numbers = numbers.as_slice();
    let text = check_text(alloc, format, &heading, rrsets, report, why, numbers)?;
    Ok(Outcome { status, text })
}

/// The lines that say why, where they are asked for.
fn lines_of(why: &Option<Explanation>) -> Option<&[Line]>
    ensures { option_map (λ lines. lines.now) result ≡ why.now }
{
    match why {
        Some(explanation) => Some(explanation.lines()),
        None => None,
    }
}
