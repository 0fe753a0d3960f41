//! The work of `check` and of `explain`: the question and the files are read, and then it is judged.
ghost use Rattle.std.specs.Prelude.{◌≡◌, ◌⊎◌, IfErr, IfOk, string_bytes};
ghost use Rattle.dnsv_questions.specs.Question.{IsQuestion};
ghost use Rattle.dnsv_answers.specs.declared.heading.Moments.TheVariants.{At};
ghost use Rattle.dnsv_files.specs.Files.Faults.{OfFailedRead, TellsFaults};
ghost use Rattle.dnsv_files.specs.Files.{AreTold, Files};
ghost use Rattle.dnsv_asking.specs.Checking.{IsAnswered, IsCheck, IsFirstFaultOfCheck, IsFirstFaultOfName, IsJudged, IsReachedByCheck};
ghost use Rattle.dnsv_work.specs.Faults.{IsFaultOfQuestion};
ghost use Rattle.dnsv_work.specs.Reached.{IsReachedOfFiles};
ghost use Rattle.dnsv_files.specs.Told.{IsFaultOf};
ghost use Rattle.dnsv_work.specs.Judged as specs;
ghost use Rattle.dnsv_work.specs.Known.{AreMiscountedIn, Ground};
ghost use Rattle.dnsv_chain.specs.Basis.{basis_of};
ghost use Rattle.dnsv_verdict.specs.Way.{IsRefusedFor};
ghost use Rattle.dnsv_verdict.specs.declared.error.VerdictError.{VerdictError};
ghost use Rattle.dnsv_files.specs.declared.status.Status.TheVariants.{Refused};

use crate::judging::judge;
use crate::known::open_case;
use bumpalo::Bump;
use dnsv_files::{Fault, Inputs};
use dnsv_names::RecordType;
use dnsv_questions::Moment;
use dnsv_work::{Asked, Given, OpenNumbers, Outcome, Span, Telling, given_in, question_name};
use std::alloc::Global;
use std::io::Read;

/// The verdict on the question, if it is one that can be asked, and why it stands, where that is asked for.
pub fn check<R: Read>(
    alloc: Global,
    telling: Telling,
    asked: &[u8],
    rtype: RecordType,
    moment: Moment,
    inputs: &mut Inputs<R>,
    bump: &Bump,
) -> Result<Outcome, Fault>
    ensures text { (files : Files) → AreTold R.remaining inputs.old files → IfOk result (λ outcome.
        IsAnswered telling.format telling.why asked.now rtype.0 moment files outcome.status
        (string_bytes outcome.text)) }
    ensures faults { TellsFaults (IsFirstFaultOfCheck asked.now rtype.0 moment) R.remaining inputs.old inputs.new
        result }
    ensures question { (fault : Fault) → IsFaultOfQuestion asked.now rtype.0 fault → result ≡ Err fault }
    ensures reached { (files : Files) → AreTold R.remaining inputs.old files
        → IfErr result (OfFailedRead (IsReachedByCheck asked.now rtype.0 moment files)) }
    ensures unwritten { IfErr result (λ fault. fault ≡ Fault.WriteFailed → ⊥) }
    ensures unrefused { IfOk result (λ outcome. outcome.status ≡ Refused → ⊥) }
{
    let name = question_name(asked, rtype)?;
    let asked = Asked {
        name: &name,
        rtype,
        moment,
    };
    check_question(alloc, telling, &asked, inputs, bump)
}

/// The verdict on the question, and why it stands, where that is asked for.
fn check_question<R: Read>(
    alloc: Global,
    telling: Telling,
    asked: &Asked<'_>,
    inputs: &mut Inputs<R>,
    bump: &Bump,
) -> Result<Outcome, Fault>
    requires { IsQuestion asked.now.name.now asked.now.rtype.0 }
    ensures text { (files : Files) → AreTold R.remaining inputs.old files → IfOk result (λ outcome.
        IsCheck telling.format telling.why asked.now.name.now asked.now.rtype.0 asked.now.moment files outcome.status
        (string_bytes outcome.text)) }
    ensures faults { TellsFaults (IsFirstFaultOfName asked.now.name.now asked.now.rtype.0 asked.now.moment)
        R.remaining inputs.old inputs.new result }
    ensures reached { (files : Files) → AreTold R.remaining inputs.old files
        → IfErr result (OfFailedRead (IsReachedOfFiles (At asked.now.moment) files)) }
    ensures unwritten { IfErr result (λ fault. fault ≡ Fault.WriteFailed → ⊥) }
    ensures unrefused { IfOk result (λ outcome. outcome.status ≡ Refused → ⊥) }
{
    let given = given_in(alloc, &Span::At(asked.moment), inputs, bump)?;
    judge_given(alloc, bump, telling, asked, &given)
}

/// The verdict on the question by what the files say, and why it stands, where that is asked for.
///
/// The fault is that there are more or fewer answers than entries, and then that an alias can't be followed.
fn judge_given(
    alloc: Global,
    bump: &Bump,
    telling: Telling,
    asked: &Asked<'_>,
    given: &Given<'_>,
) -> Result<Outcome, Fault>
    requires { IsQuestion asked.now.name.now asked.now.rtype.0 }
    ensures verdict { IfOk result (λ outcome. (knowing : Ground (At asked.now.moment) given.now.held.rrsets given.now.said)
        × IsJudged telling.format telling.why knowing.numbers (basis_of given.now.held.rrsets given.now.anchors
        asked.now.moment knowing.meaning) asked.now.name.now asked.now.rtype.0 outcome.status
        (string_bytes outcome.text)) }
    ensures only { IfErr result (λ told. IsFaultOf (AreMiscountedIn (At asked.now.moment) given.now.held.rrsets
        given.now.said) told ⊎ ((knowing : Ground (At asked.now.moment) given.now.held.rrsets given.now.said)
        × (error : VerdictError) × IsRefusedFor (basis_of given.now.held.rrsets given.now.anchors asked.now.moment
        knowing.meaning) asked.now.name.now asked.now.rtype.0 error × (told ≡ specs.verdict_fault error))) }
{
    let numbers = OpenNumbers::of(alloc, &given.said)?;
    let mut judging = open_case(
        alloc,
        bump,
        telling.why,
        asked.moment,
        &given.held,
        &given.anchors,
        &given.said,
    )?;
    judge(
        alloc,
        &mut judging,
        telling,
        asked,
        given.held.rrsets(),
        &numbers,
    )
}
