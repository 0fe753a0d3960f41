//! The run of a request over its files.
ghost use Rattle.std.specs.Prelude.{◌≡◌, ◌⊎◌, ◌<◌, Err, List, ℕ, IfErr, IfOk, MatchOption, Ok, string_bytes};
ghost use Rattle.std.specs.Io.KnownBytes.{Appends};
ghost use Rattle.dnsv_message.specs.Streams.Counted.{inner_of, failures_of, AppendsBeginning};
ghost use Rattle.dnsv_files.specs.Files.Faults.{OfFailedRead, TellsFaults};
ghost use Rattle.dnsv_files.specs.Files.{AreTold, Files};
ghost use Rattle.dnsv_program.specs.Run.{AsksMany, AsksRefused, EndsAsDone, IsFirstFault, IsManyAsked, IsReached, IsTextAskedFor, IsTextOfFewer, IsTextOfFirst};
ghost use Rattle.dnsv_files.specs.declared.status.Status.{Status};

pub mod timeline;

use crate::work::timeline::{Ends, Showing, timeline};
use bumpalo::Bump;
use dnsv_asking::{check, check_each};
use dnsv_commands::{Asking, Request};
use dnsv_files::{Fault, Inputs, Status};
use dnsv_message::Counted;
use dnsv_questions::Moment;
use dnsv_work::{Outcome, Telling, list, list_range, show};
use std::alloc::Global;
use std::io::{Read, Write};

/// Makes the whole text that the request asks for, and then writes it; of many questions the text of each, which is
/// written before the next is judged. The octets of the messages lie in an arena of its own.
///
/// The answer is a status where the output got the whole text, and else the first fault in the order of the
/// work: the question's name and type, or the file of questions, the range of moments, the keys, the MACs of requests,
/// reading the file of captured messages, its framing, the number of the MACs, each message in turn, the trust anchors,
/// and then the statements, or the answers. A write that fails is not tried again; the output then has a beginning of the
/// text.
pub fn run<R: Read, W: Write>(
    alloc: Global,
    request: &Request,
    inputs: &mut Inputs<R>,
    output: &mut Counted<W>,
) -> Result<Status, Fault>
    // The output got exactly the defined text.
    ensures done { (files : Files) → AreTold R.remaining inputs.old files → IfOk result (λ status. (text : List ℕ)
        × IsTextAskedFor request.now files status text
        × Appends (W.contents (inner_of output.old)) (W.contents (inner_of output.new)) text) }

    // The fault is the first that the files have.
    ensures faults { TellsFaults (IsFirstFault request.now) R.remaining inputs.old inputs.new result }

    // A question or a range that is refused is always told, whatever memory and files there are.
    ensures question { (fault : Fault) → AsksRefused request.now fault → result ≡ Err fault }

    // A failed read is told of a file that the request reads, and what comes before that file is in order.
    ensures reached { (files : Files) → AreTold R.remaining inputs.old files
        → IfErr result (OfFailedRead (IsReached request.now files)) }

    // Only where the output failed in this call, by the count, unless that began at its greatest value.
    ensures write { result ≡ Err Fault.WriteFailed
        → failures_of output.old < u64.MAX → failures_of output.old < failures_of output.new }

    // A failed write leaves a beginning of the defined text.
    ensures begun { (files : Files) → AreTold R.remaining inputs.old files → result ≡ Err Fault.WriteFailed
        → (text : List ℕ) × IsTextOfFirst request.now files text
        × AppendsBeginning (W.contents (inner_of output.old)) (W.contents (inner_of output.new)) text }

    // Where memory is wanting nothing is written, but of many questions the whole text of fewer than all, from the first on.
    ensures whole { result ≡ Err Fault.OutOfMemory → (output.new ≡ output.old) ⊎ (AsksMany request.now
        × ((files : Files) → AreTold R.remaining inputs.old files → (text : List ℕ)
        × IsTextOfFewer request.now files text
        × Appends (W.contents (inner_of output.old)) (W.contents (inner_of output.new)) text)) }

    // A question that is refused by itself is one of many.
    ensures refused_one { result ≡ Ok Status.Refused → AsksMany request.now }

    // Nothing is written where a file is at fault.
    ensures untouched { IfErr result (λ fault. (fault ≡ Fault.WriteFailed → ⊥) → (fault ≡ Fault.OutOfMemory → ⊥)
        → output.new ≡ output.old) }
{
    let bump = Bump::new(alloc);
    match &many_asked(request) {
        Some((telling, moment)) => check_each(alloc, *telling, *moment, inputs, &bump, output),
        None => tell(alloc, request, inputs, &bump, output),
    }
}

/// How many questions are reported, and for which moment, where the request asks them.
fn many_asked(request: &Request) -> Option<(Telling, Moment)>
    ensures { MatchOption result (¬ AsksMany request.now) (λ found. IsManyAsked request.now found.0.format found.0.why
        found.1) }
{
    match request {
        Request::Check {
            asking: Asking::Each { .. },
            moment,
            format,
            why,
            ..
        } => {
            let telling = Telling {
                format: *format,
                why: *why,
            };
            Some((telling, *moment))
        }
        _ => None,
    }
}

/// Makes the whole text that the request asks for, and then writes it.
fn tell<R: Read, W: Write>(
    alloc: Global,
    request: &Request,
    inputs: &mut Inputs<R>,
    bump: &Bump,
    output: &mut Counted<W>,
) -> Result<Status, Fault>
    requires { ¬ AsksMany request.now }
    ensures done { (files : Files) → AreTold R.remaining inputs.old files → IfOk result (λ status. (text : List ℕ)
        × IsTextAskedFor request.now files status text
        × Appends (W.contents (inner_of output.old)) (W.contents (inner_of output.new)) text) }
    ensures faults { TellsFaults (IsFirstFault request.now) R.remaining inputs.old inputs.new result }
    ensures question { (fault : Fault) → AsksRefused request.now fault → result ≡ Err fault }
    ensures reached { (files : Files) → AreTold R.remaining inputs.old files
        → IfErr result (OfFailedRead (IsReached request.now files)) }
    ensures write { result ≡ Err Fault.WriteFailed
        → failures_of output.old < u64.MAX → failures_of output.old < failures_of output.new }
    ensures begun { (files : Files) → AreTold R.remaining inputs.old files → result ≡ Err Fault.WriteFailed
        → (status : Status) × (text : List ℕ) × IsTextAskedFor request.now files status text
        × AppendsBeginning (W.contents (inner_of output.old)) (W.contents (inner_of output.new)) text }
    ensures untouched { IfErr result (λ fault. (fault ≡ Fault.WriteFailed → ⊥) → output.new ≡ output.old) }
    ensures unrefused { result ≡ Ok Status.Refused → ⊥ }
{
    let outcome = outcome_of(alloc, request, inputs, bump)?;
    match output.write_all(outcome.text.as_bytes()) {
        Ok(()) => Ok(outcome.status),
        Err(_) => Err(Fault::WriteFailed),
    }
}

/// The text that the request asks for, and how it ends.
fn outcome_of<R: Read>(
    alloc: Global,
    request: &Request,
    inputs: &mut Inputs<R>,
    bump: &Bump,
) -> Result<Outcome, Fault>
    requires { ¬ AsksMany request.now }
    ensures text { (files : Files) → AreTold R.remaining inputs.old files
        → IfOk result (λ outcome. IsTextAskedFor request.now files outcome.status (string_bytes outcome.text)) }
    ensures faults { TellsFaults (IsFirstFault request.now) R.remaining inputs.old inputs.new result }
    ensures question { (fault : Fault) → AsksRefused request.now fault → result ≡ Err fault }
    ensures reached { (files : Files) → AreTold R.remaining inputs.old files
        → IfErr result (OfFailedRead (IsReached request.now files)) }
    ensures unwritten { IfErr result (λ fault. fault ≡ Fault.WriteFailed → ⊥) }
    ensures unrefused { IfOk result (λ outcome. outcome.status ≡ Status.Refused → ⊥) }
{
    let Request::Check {
        asking,
        moment,
        format,
        why,
        ..
    } = request
    else {
        let text = text_of(alloc, request, inputs, bump)?;
        return Ok(done(text));
    };
    let telling = Telling {
        format: *format,
        why: *why,
    };
    match asking {
        Asking::One { name, rtype } => {
            let asked = name.as_bytes();
            check(alloc, telling, asked, *rtype, *moment, inputs, bump)
        }
        Asking::Each { .. } => unreachable!(),
    }
}

/// The text that the request asks for, which ends in one way.
fn text_of<R: Read>(
    alloc: Global,
    request: &Request,
    inputs: &mut Inputs<R>,
    bump: &Bump,
) -> Result<String, Fault>
    requires { EndsAsDone request.now }
    ensures text { (files : Files) → AreTold R.remaining inputs.old files
        → IfOk result (λ text. IsTextAskedFor request.now files Status.Done (string_bytes text)) }
    ensures faults { TellsFaults (IsFirstFault request.now) R.remaining inputs.old inputs.new result }
    ensures question { (fault : Fault) → AsksRefused request.now fault → result ≡ Err fault }
    ensures reached { (files : Files) → AreTold R.remaining inputs.old files
        → IfErr result (OfFailedRead (IsReached request.now files)) }
    ensures unwritten { IfErr result (λ fault. fault ≡ Fault.WriteFailed → ⊥) }
{
    match request {
        Request::Show { .. } => show(alloc, inputs, bump),
        Request::List {
            listing,
            moment,
            format,
            ..
        } => list(alloc, *listing, *format, *moment, inputs, bump),
        Request::ListRange {
            from,
            to,
            form,
            format,
            ..
        } => list_range(alloc, *form, *format, *from, *to, inputs, bump),
        Request::Timeline {
            from,
            to,
            name,
            rtype,
            kinds,
            format,
            ..
        } => {
            let asked = name.as_bytes();
            let showing = Showing {
                format: *format,
                kinds: *kinds,
            };
            let ends = Ends {
                from: *from,
                to: *to,
            };
            timeline(alloc, showing, asked, *rtype, ends, inputs, bump)
        }
        Request::Check { .. } => unreachable!(),
    }
}

/// The end of a run that made this text.
fn done(text: String) -> Outcome
    ensures { result ≡ record { status = Status.Done; text = text } }
{
    Outcome {
        status: Status::Done,
        text,
    }
}
