//! The files that questions are judged by.
ghost use Rattle.std.specs.Prelude.{◌≡◌, ◌⊎◌, IfErr, IfOk, List, Option, ℕ};
ghost use Rattle.dnsv_message.specs.Streams.Frames.{IsCapture, octets_at_each};
ghost use Rattle.dnsv_files.specs.Files.Faults.{IsAbout, OfFailedRead, OfOctets, TellsFailedReads, TellsFaultsBeside};
ghost use Rattle.dnsv_files.specs.Files.{AreToldBeside, Files, IsToldBy, given_failures};
ghost use Rattle.dnsv_work.specs.Faults.{IsFirstFaultOfFiles};
ghost use Rattle.dnsv_work.specs.Reached.{IsReachedOfFiles};
ghost use Rattle.dnsv_work.specs.InOrder.{AreReadFrom};
ghost use Rattle.dnsv_work.specs.Known.{IsFaultBeforeKnown, IsKnownReached, IsSaidBy};
ghost use Rattle.dnsv_work.specs.Opening.{IsFaultOfOpeningAt, IsOpeningAt, IsOpeningReachedAt};
ghost use Rattle.dnsv_work.specs.Span.{moments_of};

use crate::span::Span;
use bumpalo::Bump;
use dnsv_answers::Answers;
use dnsv_canonical::Capture;
use dnsv_chain::Anchors;
use dnsv_files::{
    Fault, InputFile, Inputs, Opening, anchors_in, answers_in, framed_evidence_in, opening_in,
    text_in,
};
use dnsv_message::Counted;
use dnsv_statements::Statements;
use std::alloc::Global;
use std::io::Read;

/// What questions are judged by: the evidence, the trust anchors, and what is known of signatures.
#[derive(Drop)]
pub struct Given<'b> {
    /// The evidence.
    pub held: Capture<'b>,
    /// The trust anchors.
    pub anchors: Anchors<'b>,
    /// What is known of signatures.
    pub said: Said,
}

/// What is said of signatures.
#[derive(Drop)]
pub enum Said {
    /// By statements.
    Statements(Statements),
    /// By answers to the entries of the capture's list.
    Answers(Answers),
}

/// What the files say that questions are judged by at the moment, or at those of the range. How many answers are given isn't
/// tested here.
///
/// The fault is the first in the order of the work: of the keys, the MACs of requests, the file of captured messages, the
/// trust anchors, and then the statements or the answers. Of a range no keys are read.
pub fn given_in<'b, R: Read>(
    alloc: Global,
    span: &Span,
    inputs: &mut Inputs<R>,
    bump: &'b Bump,
) -> Result<Given<'b>, Fault>
    ensures given { (files : Files) → AreToldBeside R.remaining inputs.old files → IfOk result (λ given.
        AreReadFrom (moments_of span.now) files given.held.rrsets given.anchors given.said) }
    ensures faults { TellsFaultsBeside (IsFirstFaultOfFiles (moments_of span.now)) R.remaining inputs.old inputs.new result }
    ensures reached { (files : Files) → AreToldBeside R.remaining inputs.old files
        → IfErr result (OfFailedRead (IsReachedOfFiles (moments_of span.now) files)) }
    ensures questions { inputs.new.questions ≡ inputs.old.questions }
    ensures unwritten { IfErr result (λ fault. fault ≡ Fault.WriteFailed → ⊥) }
{
    let opening = opening_at(alloc, span, &mut inputs.keys, &mut inputs.macs)?;
    let framed = framed_evidence_in(alloc, &opening, &mut inputs.capture, bump)?;
    let anchors = anchors_in(alloc, bump, &mut inputs.anchors)?;
    let (statements, answers) = (&mut inputs.statements, &mut inputs.answers);
    let said = said_in(alloc, span, &framed.frames, statements, answers)?;
    Ok(Given {
        held: framed.held,
        anchors,
        said,
    })
}

/// What frames are opened by: at a moment by what the files of keys and of the MACs of requests say, and of a range by
/// nothing.
fn opening_at<R: Read>(
    alloc: Global,
    span: &Span,
    keys: &mut Option<Counted<R>>,
    macs: &mut Option<Counted<R>>,
) -> Result<Opening, Fault>
    ensures opening { (keys_octets macs_octets : Option (List ℕ)) → IsToldBy R.remaining keys.old keys_octets
        → IsToldBy R.remaining macs.old macs_octets
        → IfOk result (IsOpeningAt keys_octets macs_octets (moments_of span.now)) }
    ensures faults { (keys_octets macs_octets : Option (List ℕ)) → IsToldBy R.remaining keys.old keys_octets
        → IsToldBy R.remaining macs.old macs_octets
        → IfErr result (OfOctets (IsFaultOfOpeningAt keys_octets macs_octets (moments_of span.now))) }
    ensures reached { (keys_octets macs_octets : Option (List ℕ)) → IsToldBy R.remaining keys.old keys_octets
        → IsToldBy R.remaining macs.old macs_octets
        → IfErr result (OfFailedRead (IsOpeningReachedAt keys_octets macs_octets (moments_of span.now))) }
    ensures keys_reads { TellsFailedReads InputFile.Keys (given_failures keys.old) (given_failures keys.new) result }
    ensures macs_reads { TellsFailedReads InputFile.Macs (given_failures macs.old) (given_failures macs.new) result }
    ensures about { IfErr result (λ told. IsAbout InputFile.Keys told ⊎ IsAbout InputFile.Macs told) }
{
    match span {
        Span::At(moment) => opening_in(alloc, *moment, keys, macs),
        Span::Within(_) => Ok(Opening::Plain),
    }
}

/// What the file of answers says, where it is given, and else that of statements, for the capture of these frames and the
/// moments.
///
/// The fault is the first of the file that is read.
fn said_in<R: Read>(
    alloc: Global,
    span: &Span,
    frames: &[&[u8]],
    statements: &mut Option<Counted<R>>,
    answers: &mut Option<Counted<R>>,
) -> Result<Said, Fault>
    ensures said { (capture : List ℕ) (stated answered : Option (List ℕ)) → IsCapture capture (octets_at_each frames.now)
        → IsToldBy R.remaining statements.old stated → IsToldBy R.remaining answers.old answered
        → IfOk result (IsSaidBy capture (moments_of span.now) stated answered) }
    ensures faults { (capture : List ℕ) (stated answered : Option (List ℕ)) → IsCapture capture (octets_at_each frames.now)
        → IsToldBy R.remaining statements.old stated → IsToldBy R.remaining answers.old answered
        → IfErr result (OfOctets (IsFaultBeforeKnown capture (moments_of span.now) stated answered)) }
    ensures reached { (stated answered : Option (List ℕ)) → IsToldBy R.remaining statements.old stated
        → IsToldBy R.remaining answers.old answered → IfErr result (OfFailedRead (IsKnownReached stated answered)) }
    ensures statements_reads { TellsFailedReads InputFile.Statements (given_failures statements.old)
        (given_failures statements.new) result }
    ensures answers_reads { TellsFailedReads InputFile.Answers (given_failures answers.old)
        (given_failures answers.new) result }
    ensures about { IfErr result (λ told. IsAbout InputFile.Statements told ⊎ IsAbout InputFile.Answers told) }
{
    if answers.is_none() {
        let statements: Statements = text_in(alloc, InputFile::Statements, statements)?;
        return Ok(Said::Statements(statements));
    }
    let answers = answers_in(alloc, span.moments(), frames, answers)?;
    Ok(Said::Answers(answers))
}
