//! What is asked and how that is told, and how the program ends by a verdict or a refusal.
ghost use Rattle.std.specs.Prelude.{◌≡◌, ◌⊎◌, IfOk, string_bytes};
ghost use Rattle.dnsv_verdict.specs.Way.{IsRefusal};
ghost use Rattle.dnsv_verdict.specs.declared.error.VerdictError.{VerdictError};
ghost use Rattle.dnsv_verdict.specs.declared.error.VerdictError.TheVariants.{OutOfMemory};
ghost use Rattle.dnsv_chain.specs.Basis.{Basis};
ghost use Rattle.dnsv_verdict.specs.VerdictError.{verdict_error_code};
ghost use Rattle.dnsv_files.specs.Status.{fault_number};
ghost use Rattle.dnsv_work.specs.Judged as specs;
ghost use Rattle.dnsv_work.specs.Judged.{IsRefusedOne};

use dnsv_evidence_texts::{Heading, refused_text};
use dnsv_files::{Fault, Place, Refusal, Status};
use dnsv_names::{Name, RecordType};
use dnsv_questions::{Format, Moment};
use dnsv_verdict::{Verdict, VerdictError};
use std::alloc::{AllocError, Global};

/// How a run ends that makes its whole text.
#[derive(Drop)]
pub struct Outcome {
    /// The end.
    pub status: Status,
    /// The text.
    pub text: String,
}

/// How a verdict is reported.
#[derive(Clone, Copy)]
pub struct Telling {
    /// How the text is written.
    pub format: Format,
    /// Whether it says besides why the verdict stands.
    pub why: bool,
}

/// What is asked, and the moment that the verdict speaks of.
#[derive(Clone, Copy)]
pub struct Asked<'a> {
    /// The name.
    pub name: &'a Name,
    /// The type.
    pub rtype: RecordType,
    /// The moment.
    pub moment: Moment,
}

/// The end of a run by the verdict.
pub fn status_of(verdict: &Verdict<'_>) -> Status
    ensures { result ≡ specs.verdict_status verdict.now }
{
    match verdict {
        Verdict::Insecure(_) => Status::Insecure,
        Verdict::Pending(_) => Status::Pending,
        Verdict::Bogus => Status::Bogus,
        Verdict::Indeterminate => Status::Indeterminate,
        _ => Status::Done,
    }
}

/// The fault by which it is reported that a question has no verdict. It has no place.
pub fn verdict_fault(error: VerdictError) -> Fault
    ensures told { result ≡ specs.verdict_fault error }
    ensures number { fault_number result ≡ verdict_error_code error }
{
    match error {
        VerdictError::OutOfMemory => Fault::OutOfMemory,
        _ => Fault::Refused(Refusal::Question(error), Place::NOWHERE),
    }
}

/// How the question is refused, unless that is for want of memory.
pub fn refused(
    alloc: Global,
    telling: Telling,
    asked: &Asked<'_>,
    error: VerdictError,
) -> Result<Outcome, AllocError>
    ensures { (basis : Basis) → basis.moment ≡ asked.now.moment
        → (error ≡ VerdictError.OutOfMemory) ⊎ IsRefusal basis asked.now.name.now asked.now.rtype.0 error
        → IfOk result (λ outcome. IsRefusedOne telling.format telling.why basis (record { name = asked.now.name.now; rtype = asked.now.rtype.0 })
        outcome.status (string_bytes outcome.text)) }
{
    let Fault::Refused(_, _) = verdict_fault(error) else {
        return Err(AllocError);
    };
    let status = Status::Refused;
    let heading = Heading {
        name: asked.name,
        rtype: asked.rtype,
        moment: asked.moment.seconds(),
        status: status.code(),
    };
    let text = refused_text(alloc, telling.format, error.code(), telling.why, &heading)?;
    Ok(Outcome { status, text })
}
