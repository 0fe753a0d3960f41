//! The work of `timeline`: the question, the range and the files are read, and then the question is judged at each moment.
ghost use Rattle.std.specs.Prelude.{◌≡◌, ◌⊎◌, Err, IfErr, IfOk, string_bytes};
ghost use Rattle.dnsv_questions.specs.Question.{IsQuestion};
ghost use Rattle.dnsv_answers.specs.declared.heading.Moments.TheVariants.{Between};
ghost use Rattle.dnsv_files.specs.Files.Faults.{OfFailedRead, TellsFaults};
ghost use Rattle.dnsv_files.specs.Files.{AreTold, Files};
ghost use Rattle.dnsv_files.specs.Told.{IsFaultOf};
ghost use Rattle.dnsv_moments.specs.Moments.{AreMomentsBy};
ghost use Rattle.dnsv_moments.specs.Question.{IsRefusedThroughout};
ghost use Rattle.dnsv_program.specs.Run.{IsFirstFaultOfTimeline, IsFirstFaultThroughout, IsReachedByTimeline, IsTimelineAsked};
ghost use Rattle.dnsv_work.specs.Reached.{IsReachedOfFiles};
ghost use Rattle.dnsv_work.specs.Faults.{IsTimelineRefused};
ghost use Rattle.dnsv_work.specs.Judged.{verdict_fault};
ghost use Rattle.dnsv_work.specs.Known.{AreMiscountedIn, Ground, IsKnown, numbers_said};
ghost use Rattle.dnsv_program.specs.Timeline.{IsTimeline, IsTimelineBehind};
ghost use Rattle.dnsv_chain.specs.Basis.{basis_of};
ghost use Rattle.dnsv_verdict.specs.declared.error.VerdictError.{VerdictError};
ghost use Rattle.dnsv_verifier.specs.declared.answer.Answer.{Answer};
ghost use Rattle.dnsv_verifier.specs.declared.entry.Entry.{Entry};

use bumpalo::Bump;
use dnsv_files::{Fault, Inputs};
use dnsv_moments::{Moments, Question, timeline_of_question, timeline_text};
use dnsv_names::{Count, RecordType};
use dnsv_questions::{Format, Moment};
use dnsv_timeline::Range;
use dnsv_work::{
    Given, Said, Span, given_in, question_name, range_between, table_of, verdict_fault,
};
use std::alloc::Global;
use std::io::Read;

/// How a timeline is reported.
#[derive(Clone, Copy)]
pub struct Showing {
    /// How the text is written.
    pub format: Format,
    /// Whether only kinds are shown, and not what carries them.
    pub kinds: bool,
}

/// The first moment and the last that are asked about, whether or not these are a range.
#[derive(Drop)]
pub struct Ends {
    pub from: Moment,
    pub to: Moment,
}

/// The timeline of the question, if it is one that can be asked, from the first moment to the last.
///
/// The fault is the first in the order of the work: of the question, of the range, of the files, and then that the question
/// is refused at each moment of the range by one number.
pub fn timeline<R: Read>(
    alloc: Global,
    showing: Showing,
    asked: &[u8],
    rtype: RecordType,
    ends: Ends,
    inputs: &mut Inputs<R>,
    bump: &Bump,
) -> Result<String, Fault>
    ensures text { (files : Files) → AreTold R.remaining inputs.old files → IfOk result (λ text.
        IsTimelineAsked showing.format showing.kinds asked.now rtype.0 ends.from ends.to files (string_bytes text)) }
    ensures faults { TellsFaults (IsFirstFaultOfTimeline asked.now rtype.0 ends.from ends.to) R.remaining inputs.old
        inputs.new result }
    ensures question { (fault : Fault) → IsTimelineRefused asked.now rtype.0 ends.from ends.to fault
        → result ≡ Err fault }
    ensures reached { (files : Files) → AreTold R.remaining inputs.old files
        → IfErr result (OfFailedRead (IsReachedByTimeline asked.now rtype.0 ends.from ends.to files)) }
    ensures unwritten { IfErr result (λ fault. fault ≡ Fault.WriteFailed → ⊥) }
{
    let name = question_name(asked, rtype)?;
    let range = range_between(ends.from, ends.to)?;
    let question = Question {
        name: &name,
        rtype,
        range,
    };
    timeline_in(alloc, showing, &question, inputs, bump)
}

/// The timeline of the question by what the files say.
fn timeline_in<R: Read>(
    alloc: Global,
    showing: Showing,
    question: &Question<'_>,
    inputs: &mut Inputs<R>,
    bump: &Bump,
) -> Result<String, Fault>
    requires { IsQuestion question.now.name.now question.now.rtype.0 }
    ensures text { (files : Files) → AreTold R.remaining inputs.old files → IfOk result (λ text.
        IsTimeline showing.format showing.kinds question.now.name.now question.now.rtype.0 question.now.range.from
        question.now.range.to files (string_bytes text)) }
    ensures faults { TellsFaults (IsFirstFaultThroughout question.now.name.now question.now.rtype.0
        question.now.range.from question.now.range.to) R.remaining inputs.old inputs.new result }
    ensures reached { (files : Files) → AreTold R.remaining inputs.old files → IfErr result (OfFailedRead
        (IsReachedOfFiles (Between question.now.range.from question.now.range.to) files)) }
    ensures unwritten { IfErr result (λ fault. fault ≡ Fault.WriteFailed → ⊥) }
{
    let given = given_in(alloc, &Span::Within(question.range), inputs, bump)?;
    timeline_by(alloc, bump, showing, question, &given)
}

/// The timeline of the question by what was read.
///
/// The fault is that there are more or fewer answers than entries, and then that the question is refused at each moment of
/// the range by one number.
fn timeline_by(
    alloc: Global,
    bump: &Bump,
    showing: Showing,
    question: &Question<'_>,
    given: &Given<'_>,
) -> Result<String, Fault>
    requires { IsQuestion question.now.name.now question.now.rtype.0 }
    ensures text { IfOk result (λ text. (knowing : Ground (Between question.now.range.from question.now.range.to)
        given.now.held.rrsets given.now.said)
        × IsTimelineBehind showing.format showing.kinds (basis_of given.now.held.rrsets given.now.anchors
        question.now.range.from knowing.meaning) question.now.name.now question.now.rtype.0 question.now.range.to
        (string_bytes text)) }
    ensures only { IfErr result (λ told. IsFaultOf (AreMiscountedIn
        (Between question.now.range.from question.now.range.to) given.now.held.rrsets given.now.said) told
        ⊎ ((knowing : Ground (Between question.now.range.from question.now.range.to) given.now.held.rrsets given.now.said)
        × (error : VerdictError) × IsRefusedThroughout (basis_of given.now.held.rrsets given.now.anchors
        question.now.range.from knowing.meaning) question.now.range.from question.now.range.to question.now.name.now
        question.now.rtype.0 error × (told ≡ verdict_fault error))) }
{
    let moments = moments_by(alloc, bump, question.range, given)?;
    let (name, rtype) = (question.name, question.rtype);
    match timeline_of_question(alloc, &moments, name, rtype, showing.format) {
        Ok(stretches) => {
            let kinds = showing.kinds;
            let text = timeline_text(
                alloc,
                showing.format,
                kinds,
                question,
                &given.held,
                &stretches,
            )?;
            Ok(text)
        }
        Err(error) => Err(verdict_fault(error)),
    }
}

/// What questions are judged by at each moment of the range.
///
/// The fault is that there are more or fewer answers than entries.
fn moments_by<'a>(
    alloc: Global,
    bump: &'a Bump,
    range: Range,
    given: &'a Given<'a>,
) -> Result<Moments<'a>, Fault>
    ensures known { IfOk result (λ moments. (meaning : Entry → Answer)
        × IsKnown (Between range.from range.to) given.now.held.rrsets given.now.said meaning (numbers_said given.now.said)
        × AreMomentsBy given.now.held.rrsets given.now.anchors range.from range.to meaning moments) }
    ensures fault { IfErr result (IsFaultOf (AreMiscountedIn (Between range.from range.to) given.now.held.rrsets
        given.now.said)) }
{
    let (held, anchors) = (&given.held, &given.anchors);
    match &given.said {
        Said::Statements(statements) => {
            let mut asked = Count::new();
            let moments = Moments::new(alloc, bump, held, anchors, range, statements, &mut asked)?;
            Ok(moments)
        }
        Said::Answers(answers) => {
            let table = table_of(alloc, bump, held, &Span::Within(range), answers)?;
            Ok(Moments::of(anchors, range, table))
        }
    }
}
