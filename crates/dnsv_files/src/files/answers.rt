//! Files of answers by number.
ghost use Rattle.std.specs.Prelude.{◌≡◌, IfErr, IfOk, List, OnOk, Option, ℕ, ⊤};
ghost use Rattle.dnsv_answers.specs.AnswersError.{answers_error_code};
ghost use Rattle.dnsv_message.specs.Streams.Frames.{IsCapture, octets_at_each};
ghost use Rattle.dnsv_files.specs.Files.Answers.{AreFor, AreForOther, AreSaidFor, IsFaultBeforeCount};
ghost use Rattle.dnsv_files.specs.Files.Faults.{IsAbout, OfFailedRead, OfOctets, TellsFailedReads};
ghost use Rattle.dnsv_files.specs.Files.{IsGiven, IsToldBy, given_failures, octets_or_none};
ghost use Rattle.dnsv_files.specs.Status.{fault_number};
ghost use Rattle.dnsv_files.specs.Told.{IsAnswersFault, IsRefusalOf};

use crate::files::text::{FromText, text_in};
use crate::status::{Fault, InputFile, Place, Refusal};
use dnsv_answers::{Answers, AnswersError, Moments, capture_digest};
use dnsv_message::Counted;
use std::alloc::Global;
use std::io::Read;

impl FromText for Answers {
    ghost use Rattle.dnsv_answers.specs.AnswerFile.{HasLineBehindHeading};
    ghost use Rattle.dnsv_files.specs.Files.Answers.{AreAnswersRefused, HasAnswers};

    ghost says = { HasAnswers };

    ghost is_refused = { AreAnswersRefused };

    ghost begins = { HasLineBehindHeading };

    ghost waits = { λ _. ⊥ };

    fn from_text(alloc: Global, text: &[u8]) -> Result<Answers, Fault> {
        match Answers::parse(alloc, text) {
            Ok(answers) => Ok(answers),
            Err(error) => Err(answers_fault(error)),
        }
    }
}

/// The answers of the file, which are said of the capture of these frames and of the moment, or of just the range. How many
/// they are isn't tested here.
///
/// The fault is the first: reading the file, its first line that is at fault, and then that they are said of another list.
pub fn answers_in<R: Read>(
    alloc: Global,
    moments: Moments,
    frames: &[&[u8]],
    reader: &mut Option<Counted<R>>,
) -> Result<Answers, Fault>
    ensures said { (capture : List ℕ) (octets : Option (List ℕ)) → IsCapture capture (octets_at_each frames.now)
        → IsToldBy R.remaining reader.old octets → IfOk result (AreSaidFor capture moments (octets_or_none octets)) }
    ensures faults { (capture : List ℕ) (octets : Option (List ℕ)) → IsCapture capture (octets_at_each frames.now)
        → IsToldBy R.remaining reader.old octets
        → IfErr result (OfOctets (IsFaultBeforeCount capture moments (octets_or_none octets))) }
    ensures reads { TellsFailedReads InputFile.Answers (given_failures reader.old) (given_failures reader.new) result }
    ensures about { IfErr result (IsAbout InputFile.Answers) }
    ensures given { IfErr result (OfFailedRead (λ _. IsGiven reader.old)) }
{
    let answers: Answers = text_in(alloc, InputFile::Answers, reader)?;
    test_list(&answers, frames, &moments)?;
    Ok(answers)
}

/// Tests that the answers are said of the capture of these frames and of the moments.
fn test_list(answers: &Answers, frames: &[&[u8]], moments: &Moments) -> Result<(), Fault>
    ensures are { (capture : List ℕ) → IsCapture capture (octets_at_each frames.now)
        → OnOk result (AreFor capture moments.now answers.now) }
    ensures other { (capture : List ℕ) → IsCapture capture (octets_at_each frames.now)
        → IfErr result (IsRefusalOf (AreForOther capture moments.now answers.now)) }
    ensures refused { IfErr result (IsRefusalOf (λ _ _. ⊤)) }
{
    let digest = capture_digest(frames);
    match answers.test_list(&digest, moments) {
        Ok(()) => Ok(()),
        Err(error) => Err(answers_fault(error)),
    }
}

/// The fault of a text that is no answers, or not the answers to the capture's list.
pub fn answers_fault(error: AnswersError) -> Fault
    ensures told { IsAnswersFault error result }
    ensures number { fault_number result ≡ answers_error_code error }
{
    match error {
        AnswersError::OutOfMemory => Fault::OutOfMemory,
        AnswersError::Syntax(line) | AnswersError::Count(line) => refused_at(error, line),
        AnswersError::OtherList(line) => refused_at(error, Some(line)),
    }
}

/// The refusal of answers for a line, where there is one.
fn refused_at(error: AnswersError, line: Option<usize>) -> Fault
    ensures { result ≡ Fault.Refused (Refusal.AnswerLine error) (record { message = None; «record» = None; line = line }) }
{
    Fault::Refused(
        Refusal::AnswerLine(error),
        Place {
            message: None,
            record: None,
            line,
        },
    )
}
