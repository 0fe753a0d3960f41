//! The work of `check` and of `explain` over a file of questions: each is judged by one case, and reported before the next.
ghost use Rattle.std.specs.Prelude.{◌≡◌, ◌⊎◌, ◌<◌, ℕ, Err, IfErr, IfOk, List, length, string_bytes, take};
ghost use Rattle.std.specs.Io.KnownBytes.{Appends};
ghost use Rattle.dnsv_message.specs.Streams.Counted.{inner_of, failures_of, AppendsBeginning};
ghost use Rattle.dnsv_answers.specs.declared.heading.Moments.TheVariants.{At};
ghost use Rattle.dnsv_chain.specs.Basis.{IsCaseOf, Basis, basis_of};
ghost use Rattle.dnsv_files.specs.Files.Faults.{OfFailedRead, TellsFaults};
ghost use Rattle.dnsv_files.specs.Files.{AreTold, Files};
ghost use Rattle.dnsv_asking.specs.Asking.{AreAnswered, AreAnswers, AreFewerAnswered, AreFirstAnswered, IsAnswer, IsFirstFaultOfEach, IsReachedByEach};
ghost use Rattle.dnsv_files.specs.Told.{IsFaultOf};
ghost use Rattle.dnsv_asking.specs.Judging.{case_of, tells_why};
ghost use Rattle.dnsv_work.specs.Known.{AreMiscountedIn, Ground};
ghost use Rattle.dnsv_files.specs.declared.status.Status.{Status};

use crate::judging::{Judging, outcome_by};
use crate::known::open_case;
use bumpalo::Bump;
use dnsv_canonical::Rrset;
use dnsv_files::{Fault, InputFile, Inputs, Status, text_in};
use dnsv_message::Counted;
use dnsv_questions::{Moment, Questions, StoredQuestion};
use dnsv_work::{Asked, Given, OpenNumbers, Outcome, Span, Telling, given_in, refused};
use std::alloc::{AllocError, Global};
use std::io::{Read, Write};

/// What is told of each question beside its own verdict, which is the same of all.
#[derive(Drop)]
struct Reporting<'a> {
    telling: Telling,
    moment: Moment,
    /// Those of the evidence, which reports name by their numbers.
    rrsets: &'a [Rrset<'a>],
    /// The entries that answers leave open.
    numbers: &'a OpenNumbers,
}

/// Each question of the file is judged in its order, and what is reported of it written, so that at most one text is kept. A
/// question that is refused by itself is reported so, and the next is judged.
///
/// The answer is the greatest status of all. The fault is the first in the order of the work: of the questions, and then
/// of the files that they are judged by. Where memory runs out behind that, the output has the whole texts of the first
/// questions, but not of all; where a write fails, it has a beginning of the texts, which may be all.
pub fn check_each<R: Read, W: Write>(
    alloc: Global,
    telling: Telling,
    moment: Moment,
    inputs: &mut Inputs<R>,
    bump: &Bump,
    output: &mut Counted<W>,
) -> Result<Status, Fault>
    ensures done { (files : Files) → AreTold R.remaining inputs.old files → IfOk result (λ end. (text : List ℕ)
        × AreAnswered telling.format telling.why moment files end text
        × Appends (W.contents (inner_of output.old)) (W.contents (inner_of output.new)) text) }
    ensures faults { TellsFaults (IsFirstFaultOfEach moment) R.remaining inputs.old inputs.new result }
    ensures reached { (files : Files) → AreTold R.remaining inputs.old files
        → IfErr result (OfFailedRead (IsReachedByEach moment files)) }
    ensures write { result ≡ Err Fault.WriteFailed
        → failures_of output.old < u64.MAX → failures_of output.old < failures_of output.new }
    ensures begun { (files : Files) → AreTold R.remaining inputs.old files → result ≡ Err Fault.WriteFailed
        → (text : List ℕ) × AreFirstAnswered telling.format telling.why moment files text
        × AppendsBeginning (W.contents (inner_of output.old)) (W.contents (inner_of output.new)) text }
    ensures whole { result ≡ Err Fault.OutOfMemory → (output.new ≡ output.old) ⊎ ((files : Files)
        → AreTold R.remaining inputs.old files → (text : List ℕ)
        × AreFewerAnswered telling.format telling.why moment files text
        × Appends (W.contents (inner_of output.old)) (W.contents (inner_of output.new)) text) }
    ensures untouched { IfErr result (λ fault. (fault ≡ Fault.WriteFailed → ⊥) → (fault ≡ Fault.OutOfMemory → ⊥)
        → output.new ≡ output.old) }
{
    let questions: Questions = text_in(alloc, InputFile::Questions, &mut inputs.questions)?;
    let given = given_in(alloc, &Span::At(moment), inputs, bump)?;
    answer_all(
        alloc,
        bump,
        telling,
        moment,
        &given,
        questions.as_slice(),
        output,
    )
}

/// Each question is judged by one case, and what is reported of it written.
fn answer_all<W: Write>(
    alloc: Global,
    bump: &Bump,
    telling: Telling,
    moment: Moment,
    given: &Given<'_>,
    questions: &[StoredQuestion],
    output: &mut Counted<W>,
) -> Result<Status, Fault>
    ensures done { IfOk result (λ end. (knowing : Ground (At moment) given.now.held.rrsets given.now.said) × (text : List ℕ)
        × AreAnswers telling.format telling.why knowing.numbers (basis_of given.now.held.rrsets given.now.anchors moment
        knowing.meaning) questions.now end text
        × Appends (W.contents (inner_of output.old)) (W.contents (inner_of output.new)) text) }
    ensures only { IfErr result (λ fault. IsFaultOf (AreMiscountedIn (At moment) given.now.held.rrsets given.now.said) fault
        ⊎ (fault ≡ Fault.WriteFailed)) }
    ensures write { result ≡ Err Fault.WriteFailed
        → failures_of output.old < u64.MAX → failures_of output.old < failures_of output.new }
    ensures begun { result ≡ Err Fault.WriteFailed → (knowing : Ground (At moment) given.now.held.rrsets given.now.said)
        × (count : ℕ) × (end : Status) × (text : List ℕ)
        × AreAnswers telling.format telling.why knowing.numbers (basis_of given.now.held.rrsets given.now.anchors moment
        knowing.meaning) (take count questions.now) end text
        × AppendsBeginning (W.contents (inner_of output.old)) (W.contents (inner_of output.new)) text }
    ensures whole { result ≡ Err Fault.OutOfMemory → (output.new ≡ output.old)
        ⊎ ((knowing : Ground (At moment) given.now.held.rrsets given.now.said) × (count : ℕ)
        × (count < length questions.now) × (end : Status) × (text : List ℕ)
        × AreAnswers telling.format telling.why knowing.numbers (basis_of given.now.held.rrsets given.now.anchors moment
        knowing.meaning) (take count questions.now) end text
        × Appends (W.contents (inner_of output.old)) (W.contents (inner_of output.new)) text) }
    ensures untouched { IfErr result (λ fault. (fault ≡ Fault.WriteFailed → ⊥) → (fault ≡ Fault.OutOfMemory → ⊥)
        → output.new ≡ output.old) }
{
    let numbers = OpenNumbers::of(alloc, &given.said)?;
    let mut judge = open_case(
        alloc,
        bump,
        telling.why,
        moment,
        &given.held,
        &given.anchors,
        &given.said,
    )?;
    let reporting = Reporting {
        telling,
        moment,
        rrsets: given.held.rrsets(),
        numbers: &numbers,
    };
    tell_each(alloc, &mut judge, &reporting, questions, output)
}

/// What is reported of each question is written, one behind the other.
fn tell_each<W: Write>(
    alloc: Global,
    judge: &mut Judging<'_>,
    reporting: &Reporting<'_>,
    questions: &[StoredQuestion],
    output: &mut Counted<W>,
) -> Result<Status, Fault>
    requires why { tells_why judge.now ≡ reporting.now.telling.why }
    ensures done { (basis : Basis) → IsCaseOf basis (case_of judge.old) → reporting.now.rrsets.now ≡ basis.rrsets
        → basis.moment ≡ reporting.now.moment → IfOk result (λ end. (text : List ℕ)
        × AreAnswers reporting.now.telling.format reporting.now.telling.why reporting.now.numbers.now basis
        questions.now end text
        × Appends (W.contents (inner_of output.old)) (W.contents (inner_of output.new)) text) }
    ensures only { IfErr result (λ fault. (fault ≡ Fault.OutOfMemory) ⊎ (fault ≡ Fault.WriteFailed)) }
    ensures write { result ≡ Err Fault.WriteFailed
        → failures_of output.old < u64.MAX → failures_of output.old < failures_of output.new }
    ensures begun { (basis : Basis) → IsCaseOf basis (case_of judge.old) → reporting.now.rrsets.now ≡ basis.rrsets
        → basis.moment ≡ reporting.now.moment → result ≡ Err Fault.WriteFailed
        → (count : ℕ) × (end : Status) × (text : List ℕ)
        × AreAnswers reporting.now.telling.format reporting.now.telling.why reporting.now.numbers.now basis
        (take count questions.now) end text
        × AppendsBeginning (W.contents (inner_of output.old)) (W.contents (inner_of output.new)) text }
    ensures whole { (basis : Basis) → IsCaseOf basis (case_of judge.old) → reporting.now.rrsets.now ≡ basis.rrsets
        → basis.moment ≡ reporting.now.moment → result ≡ Err Fault.OutOfMemory
        → (count : ℕ) × (count < length questions.now) × (end : Status) × (text : List ℕ)
        × AreAnswers reporting.now.telling.format reporting.now.telling.why reporting.now.numbers.now basis
        (take count questions.now) end text
        × Appends (W.contents (inner_of output.old)) (W.contents (inner_of output.new)) text }
{
    let mut end = Status::Done;
    for question in questions {
        let told = tell_one(alloc, judge, reporting, question, output)?;
        end = end.worse(told);
    }
    Ok(end)
}

/// What is reported of the question is written.
fn tell_one<W: Write>(
    alloc: Global,
    judge: &mut Judging<'_>,
    reporting: &Reporting<'_>,
    question: &StoredQuestion,
    output: &mut Counted<W>,
) -> Result<Status, Fault>
    requires why { tells_why judge.now ≡ reporting.now.telling.why }
    ensures done { (basis : Basis) → IsCaseOf basis (case_of judge.old) → reporting.now.rrsets.now ≡ basis.rrsets
        → basis.moment ≡ reporting.now.moment → IfOk result (λ end. (text : List ℕ)
        × IsAnswer reporting.now.telling.format reporting.now.telling.why reporting.now.numbers.now basis
        question.now end text
        × Appends (W.contents (inner_of output.old)) (W.contents (inner_of output.new)) text) }
    ensures only { IfErr result (λ fault. (fault ≡ Fault.OutOfMemory) ⊎ (fault ≡ Fault.WriteFailed)) }
    ensures calm { IfOk result (λ _. failures_of output.new ≡ failures_of output.old) }
    ensures write { result ≡ Err Fault.WriteFailed
        → failures_of output.old < u64.MAX → failures_of output.old < failures_of output.new }
    ensures begun { (basis : Basis) → IsCaseOf basis (case_of judge.old) → reporting.now.rrsets.now ≡ basis.rrsets
        → basis.moment ≡ reporting.now.moment → result ≡ Err Fault.WriteFailed → (end : Status) × (text : List ℕ)
        × IsAnswer reporting.now.telling.format reporting.now.telling.why reporting.now.numbers.now basis
        question.now end text
        × AppendsBeginning (W.contents (inner_of output.old)) (W.contents (inner_of output.new)) text }
    ensures untouched { result ≡ Err Fault.OutOfMemory → output.new ≡ output.old }
    ensures same { judge.new ≡ judge.old }
{
    let outcome = answer(alloc, judge, reporting, question)?;
    match output.write_all(outcome.text.as_bytes()) {
        Ok(()) => Ok(outcome.status),
        Err(_) => Err(Fault::WriteFailed),
    }
}

/// The verdict on the question, and why it stands, where that is asked for; or how it is refused.
fn answer(
    alloc: Global,
    judge: &mut Judging<'_>,
    reporting: &Reporting<'_>,
    question: &StoredQuestion,
) -> Result<Outcome, AllocError>
    requires why { tells_why judge.now ≡ reporting.now.telling.why }
    ensures answer { (basis : Basis) → IsCaseOf basis (case_of judge.old) → reporting.now.rrsets.now ≡ basis.rrsets
        → basis.moment ≡ reporting.now.moment → IfOk result (λ outcome. IsAnswer reporting.now.telling.format
        reporting.now.telling.why reporting.now.numbers.now basis question.now outcome.status
        (string_bytes outcome.text)) }
    ensures same { judge.new ≡ judge.old }
{
    let name = question.name();
    let asked = Asked {
        name: &name,
        rtype: question.rtype(),
        moment: reporting.moment,
    };
    match judge.report(alloc, &name, asked.rtype) {
        Ok((report, told)) => outcome_by(
            alloc,
            reporting.telling.format,
            &asked,
            reporting.rrsets,
            &report,
            &told,
            reporting.numbers,
        ),
        Err(error) => refused(alloc, reporting.telling, &asked, error),
    }
}
