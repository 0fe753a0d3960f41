//! Questions on the command line.
ghost use Rattle.std.specs.Prelude.{◌≡◌, IfErr, IfOk};
ghost use Rattle.dnsv_names.specs.Name.{Labels};
ghost use Rattle.dnsv_questions.specs.Question.{IsQuestion};
ghost use Rattle.dnsv_work.specs.Question.{Spells};
ghost use Rattle.dnsv_work.specs.Faults.{IsFaultOfQuestion};

use dnsv_files::{Fault, Place, Refusal};
use dnsv_names::{Name, RecordType};
use dnsv_questions::is_question;
use dnsv_verdict::VerdictError;

/// The name of a question, whose type can be asked for at it.
///
/// The fault is the first: of the name, and then that its type can't be asked for. It is always told: no memory is taken.
pub fn question_name(text: &[u8], rtype: RecordType) -> Result<Name, Fault>
    ensures name { IfOk result (Spells text.now) }
    ensures question { IfOk result (λ name. IsQuestion name rtype.0) }
    ensures fault { IfErr result (IsFaultOfQuestion text.now rtype.0) }
    ensures every_fault { (fault : Fault) → IsFaultOfQuestion text.now rtype.0 fault → result ≡ Err fault }
    ensures every { IfErr result (λ _. (name : Labels) → Spells text.now name → ¬ IsQuestion name rtype.0) }
{
    let name = match Name::parse(text) {
        Ok(name) => name,
        Err(error) => return Err(Fault::Refused(Refusal::Name(error), Place::NOWHERE)),
    };
    if !is_question(&name, rtype) {
        return Err(Fault::Refused(Refusal::Question(VerdictError::BadQuestion), Place::NOWHERE));
    }
    Ok(name)
}
