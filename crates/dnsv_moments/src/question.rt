//! The timeline of a question.
ghost use Rattle.std.specs.Prelude.{◌≡◌, ◌⊎◌, IfErr, IfOk, IsErrOf};
ghost use Rattle.dnsv_questions.specs.Question.{IsQuestion};
ghost use Rattle.dnsv_moments.specs.Moments.{IsSaidBy};
ghost use Rattle.dnsv_moments.specs.Question.{IsRefusedFor, IsTimelineFor};
ghost use Rattle.dnsv_verdict.specs.declared.error.VerdictError.{VerdictError};
ghost use Rattle.dnsv_verifier.specs.declared.answer.Answer.{Answer};
ghost use Rattle.dnsv_verifier.specs.declared.entry.Entry.{Entry};

use crate::dates::times_of_all;
use crate::moments::Moments;
use crate::said::Said;
use crate::sayer::Sayer;
use crate::throughout::refused_throughout;
use dnsv_names::{Name, RecordType};
use dnsv_questions::{Format, is_question};
use dnsv_timeline::{Stretch, timeline_of};
use dnsv_verdict::{VerdictError, a_question_leads_one_way};
use std::alloc::{AllocError, Global};

/// The timeline of what is said of the question at each moment of the range, with texts of the format: in as few
/// stretches as there can be, each with a text and the signatures that derive it.
///
/// Where the question is refused by one number at each moment, it is refused so: `BadQuestion` where the type can't be
/// asked at the name, and else `AliasTargets`, `AliasLoop`, `TooManyLinks` or `BadQuestion` of an alias, as `validate`
/// has it. A question that is refused at some moments has stretches that say so.
pub fn timeline_of_question(
    alloc: Global,
    moments: &Moments<'_>,
    name: &Name,
    rtype: RecordType,
    format: Format,
) -> Result<Vec<Stretch<Said>>, VerdictError>
    ensures timeline { (meaning : Entry → Answer) → IsSaidBy meaning moments.now
        → IfOk result (λ stretches. IsTimelineFor meaning moments.now format name.now rtype.0 stretches.items) }
    // A type that can't be asked at the name is refused.
    ensures question { ¬ IsQuestion name.now rtype.0 → IsErrOf result VerdictError.BadQuestion }
    // What is refused is so throughout, unless memory runs out.
    ensures told { (meaning : Entry → Answer) → IsSaidBy meaning moments.now
        → IfErr result (λ error. (error ≡ VerdictError.OutOfMemory)
        ⊎ IsRefusedFor meaning moments.now name.now rtype.0 error) }
    // What is refused throughout is, unless memory runs out.
    ensures refused { (meaning : Entry → Answer) → IsSaidBy meaning moments.now
        → (error : VerdictError) → IsRefusedFor meaning moments.now name.now rtype.0 error
        → IsErrOf result error ⊎ IsErrOf result VerdictError.OutOfMemory }
{
    // What is true of every range.
    let _range = moments.range();
    if !is_question(name, rtype) {
        return Err(VerdictError::BadQuestion);
    }
    let stretches = all_said(alloc, moments, name, rtype, format)?;
    a_question_leads_one_way();
    match refused_throughout(&stretches) {
        Some(error) => Err(error),
        None => Ok(stretches),
    }
}

/// The stretches of what is said, whether or not it is refused throughout.
fn all_said(
    alloc: Global,
    moments: &Moments<'_>,
    name: &Name,
    rtype: RecordType,
    format: Format,
) -> Result<Vec<Stretch<Said>>, AllocError>
    ensures { (meaning : Entry → Answer) → IsSaidBy meaning moments.now
        → IfOk result (λ stretches. IsTimelineFor meaning moments.now format name.now rtype.0 stretches.items) }
{
    let times = times_of_all(alloc, moments.capture())?;
    let mut sayer = Sayer::new(moments, name, rtype, format);
    let stretches = timeline_of(alloc, moments.range(), &times, &mut sayer)?;
    Ok(stretches)
}
