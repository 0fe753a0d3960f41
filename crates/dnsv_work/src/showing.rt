//! The work of `show`: the captured messages with their questions and records.
ghost use Rattle.std.specs.Prelude.{◌≡◌, List, IfErr, IfOk, IfSome, string_bytes};
ghost use Rattle.dnsv_message.specs.Message.{Contents};
ghost use Rattle.dnsv_message.specs.Streams.Counted.{inner_of, failures_of};
ghost use Rattle.dnsv_message.specs.Streams.Frames.{octets_at_each};
ghost use Rattle.dnsv_canonical.specs.Evidence.{no_evidence};
ghost use Rattle.dnsv_files.specs.Files.Capture.{AnyMessage, AllTaken, FirstRefused, IsFaultOfCapture};
ghost use Rattle.dnsv_files.specs.Files.Faults.{OfFailedRead, TellsFaults, TellsFileFaults};
ghost use Rattle.dnsv_files.specs.Files.{AreTold, Files};
ghost use Rattle.dnsv_work.specs.Reached.{IsCaptureReached};
ghost use Rattle.dnsv_evidence_texts.specs.Showing.{message_text, texts_from};
ghost use Rattle.dnsv_files.specs.Told.{IsFaultOf};
ghost use Rattle.dnsv_work.specs.Showing.{IsShowing};
ghost use Rattle.dnsv_files.specs.declared.opening.Opening.TheVariants.{Plain};

use bumpalo::Bump;
use dnsv_evidence_texts::push_message;
use dnsv_files::{Fault, InputFile, Inputs, Opening, frames, message_of};
use dnsv_message::Counted;
use std::alloc::Global;
use std::io::Read;

/// The messages with their questions and records.
pub fn show<R: Read>(alloc: Global, inputs: &mut Inputs<R>, bump: &Bump) -> Result<String, Fault>
    ensures text { (files : Files) → AreTold R.remaining inputs.old files
        → IfOk result (λ text. IsShowing files.capture (string_bytes text)) }
    ensures faults { TellsFaults (λ files. IsFaultOfCapture AnyMessage Plain files.capture) R.remaining
        inputs.old inputs.new result }
    ensures reached { (files : Files) → AreTold R.remaining inputs.old files
        → IfErr result (OfFailedRead (IsCaptureReached)) }
    ensures unwritten { IfErr result (λ fault. fault ≡ Fault.WriteFailed → ⊥) }
{
    showing(alloc, &mut inputs.capture, bump)
}

/// The lines of each message of the file, whose octets are placed in the arena.
///
/// The fault is the first in the order of the work: reading the file, its framing, and then each message in
/// turn.
fn showing<R: Read>(alloc: Global, capture: &mut Counted<R>, bump: &Bump) -> Result<String, Fault>
    ensures text { IfOk result (λ text. IfSome (R.remaining (inner_of capture.old)) (λ file.
        IsShowing file (string_bytes text))) }
    ensures faults { TellsFileFaults InputFile.Capture (IsFaultOfCapture AnyMessage Plain)
        (R.remaining (inner_of capture.old)) (failures_of capture.old) (failures_of capture.new) result }
{
    let frames = frames(alloc, capture, bump)?;
    messages_of_frames(alloc, &frames, bump)
}

/// The lines of the message of each frame; the fault is that of the first that holds none. One message at a time is
/// kept.
fn messages_of_frames(alloc: Global, frames: &[&[u8]], bump: &Bump) -> Result<String, Fault>
    ensures taken { IfOk result (λ text. (messages : List Contents)
        × AllTaken AnyMessage Plain no_evidence 1 (octets_at_each frames.now) messages
        × (string_bytes text ≡ texts_from message_text 1 messages)) }
    ensures refused { IfErr result
        (IsFaultOf (FirstRefused AnyMessage Plain no_evidence 1 (octets_at_each frames.now))) }
{
    let mut text = String::new(alloc);
    for (index, frame) in frames.iter().enumerate() {
        let message = message_of(alloc, &Opening::Plain, frame, index + 1, bump)?;
        push_message(alloc, &mut text, index + 1, &message)?;
    }
    Ok(text)
}
