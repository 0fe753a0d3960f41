//! The messages of a file of captured messages.
ghost use Rattle.std.specs.Prelude.{◌≡◌, Err, List, IfErr, IfOk, IfSome, Ok, OnOk, Some, None, ℕ};
ghost use Rattle.std.specs.Option.{option_copied};
ghost use Rattle.dnsv_message.specs.Streams.Counted.{inner_of, failures_of};
ghost use Rattle.dnsv_message.specs.Errors.{decode_error_code};
ghost use Rattle.dnsv_message.specs.ReadError.{read_error_code};
ghost use Rattle.dnsv_message.specs.Streams.Frames.{IsCapture, octets_at_each};
ghost use Rattle.dnsv_message.specs.Grammar.{MessageOf};
ghost use Rattle.dnsv_message.specs.Message.{Contents};
ghost use Rattle.dnsv_canonical.specs.CaptureError.{capture_error_code};
ghost use Rattle.dnsv_canonical.specs.Evidence.{IsWhole, evidence_of, no_evidence, with_message};
ghost use Rattle.dnsv_tsig.specs.Answer.{tsig_answer_of};
ghost use Rattle.dnsv_tsig.specs.Errors.{tsig_error_code};
ghost use Rattle.dnsv_files.specs.Files.Capture.{Demand, NewEvidence, AllTaken, Meets, Holds};
ghost use Rattle.dnsv_files.specs.Files.Capture.{AreFramesRefused, FirstRefused, IsFaultOfCapture};
ghost use Rattle.dnsv_files.specs.Opening.{HasItsMacs, IsInFrame};
ghost use Rattle.dnsv_files.specs.Files.Faults.{TellsFileFaults};
ghost use Rattle.dnsv_files.specs.Status.{fault_number};
ghost use Rattle.dnsv_files.specs.Told.{IsReadFault, IsDecodeFault, IsCaptureFault, IsFaultOf, IsRefusedAt};
ghost use Rattle.dnsv_files.specs.Told.{IsNoMessageAt, IsTsigFault, IsUnopenedAt, IsUnreadableAt, nowhere};
ghost use Rattle.dnsv_files.specs.declared.opening.Opening.{Opening};
ghost use Rattle.dnsv_files.specs.declared.status.Place.{Place};
ghost use Rattle.dnsv_files.specs.declared.status.Refusal.{Refusal};

use crate::opening::{Opening, request_mac_of};
use crate::status::{Fault, InputFile, Place, Refusal};
use bumpalo::Bump;
use dnsv_canonical::{Capture, CaptureError};
use dnsv_message::{Counted, DecodeError, Message, ReadError, read_capture};
use dnsv_tsig::{KeyRing, Opened, TsigError, open};
use std::alloc::Global;
use std::io::Read;

/// The evidence of the file's messages, whose frames are opened so, and whose octets are placed in the arena.
///
/// The fault is the first in the order of the work: reading the file, its framing, the number of the MACs of requests,
/// and then each frame in turn, which is opened and read and then added to those before it.
pub fn evidence_in<'b, R: Read>(
    alloc: Global,
    opening: &Opening,
    capture: &mut Counted<R>,
    bump: &'b Bump,
) -> Result<Capture<'b>, Fault>
    ensures evidence { IfOk result (λ held. IfSome (R.remaining (inner_of capture.old)) (λ file.
        (messages : List Contents) × Holds NewEvidence opening.now file messages × (held ≡ evidence_of messages))) }
    ensures faults { TellsFileFaults InputFile.Capture (IsFaultOfCapture NewEvidence opening.now)
        (R.remaining (inner_of capture.old)) (failures_of capture.old) (failures_of capture.new) result }
{
    let framed = framed_evidence_in(alloc, opening, capture, bump)?;
    Ok(framed.held)
}

/// Evidence, and the octets of the frames that hold its messages.
#[derive(Drop)]
pub struct FramedEvidence<'b> {
    pub held: Capture<'b>,
    pub frames: Vec<&'b [u8]>,
}

/// The same as `evidence_in`, with the octets of each frame.
pub fn framed_evidence_in<'b, R: Read>(
    alloc: Global,
    opening: &Opening,
    capture: &mut Counted<R>,
    bump: &'b Bump,
) -> Result<FramedEvidence<'b>, Fault>
    ensures evidence { IfOk result (λ framed. IfSome (R.remaining (inner_of capture.old)) (λ file.
        (messages : List Contents) × Holds NewEvidence opening.now file messages
        × (framed.held ≡ evidence_of messages))) }
    ensures frames { IfOk result (λ framed. IfSome (R.remaining (inner_of capture.old)) (λ file.
        IsCapture file (octets_at_each framed.frames.items))) }
    ensures faults { TellsFileFaults InputFile.Capture (IsFaultOfCapture NewEvidence opening.now)
        (R.remaining (inner_of capture.old)) (failures_of capture.old) (failures_of capture.new) result }
{
    let frames = frames(alloc, capture, bump)?;
    let held = evidence_of_frames(alloc, opening, &frames, bump)?;
    Ok(FramedEvidence { held, frames })
}

/// The octets of each frame of the file, which are placed in the arena.
pub fn frames<'b, R: Read>(
    alloc: Global,
    capture: &mut Counted<R>,
    bump: &'b Bump,
) -> Result<Vec<&'b [u8]>, Fault>
    ensures frames { IfOk result (λ frames. IfSome (R.remaining (inner_of capture.old)) (λ file.
        IsCapture file (octets_at_each frames.items))) }
    ensures faults { (demand : Demand) (opening : Opening)
        → TellsFileFaults InputFile.Capture (IsFaultOfCapture demand opening)
        (R.remaining (inner_of capture.old)) (failures_of capture.old) (failures_of capture.new) result }
{
    match read_capture(alloc, capture, bump) {
        Ok(frames) => Ok(frames),
        Err(error) => Err(capture_read_fault(error)),
    }
}

/// The fault of a file of captured messages that wasn't read.
fn capture_read_fault(error: ReadError) -> Fault
    ensures told { IsReadFault error result }
    ensures number { fault_number result ≡ read_error_code error }
{
    match error {
        ReadError::OutOfMemory => Fault::OutOfMemory,
        ReadError::Read => Fault::ReadFailed(InputFile::Capture),
        ReadError::TooLong => Fault::TooLong(InputFile::Capture),
        ReadError::ZeroLength => Fault::Refused(Refusal::ZeroLength, Place::NOWHERE),
        ReadError::TornFrame => Fault::Refused(Refusal::TornFrame, Place::NOWHERE),
    }
}

/// The evidence of the frames' messages; the fault is that of the number of MACs, or of the first frame whose message
/// isn't taken. A wrong number of MACs is always told.
fn evidence_of_frames<'b>(
    alloc: Global,
    opening: &Opening,
    frames: &[&'b [u8]],
    bump: &'b Bump,
) -> Result<Capture<'b>, Fault>
    ensures counted { OnOk result (HasItsMacs opening.now (octets_at_each frames.now)) }
    ensures miscounted { (HasItsMacs opening.now (octets_at_each frames.now) → ⊥)
        → result ≡ Err (Fault.Refused Refusal.MacCount nowhere) }
    ensures taken { IfOk result (λ held. (messages : List Contents)
        × AllTaken NewEvidence opening.now no_evidence 1 (octets_at_each frames.now) messages
        × (held ≡ evidence_of messages)) }
    ensures refused { IfErr result
        (IsFaultOf (AreFramesRefused NewEvidence opening.now (octets_at_each frames.now))) }
{
    if !opening.has_its_macs(frames) {
        return Err(Fault::Refused(Refusal::MacCount, Place::NOWHERE));
    }
    gathered(alloc, opening, frames, bump)
}

/// The evidence of the frames' messages; the fault is that of the first frame whose message isn't taken.
fn gathered<'b>(
    alloc: Global,
    opening: &Opening,
    frames: &[&'b [u8]],
    bump: &'b Bump,
) -> Result<Capture<'b>, Fault>
    ensures taken { IfOk result (λ held. (messages : List Contents)
        × AllTaken NewEvidence opening.now no_evidence 1 (octets_at_each frames.now) messages
        × (held ≡ evidence_of messages)) }
    ensures refused { IfErr result
        (IsFaultOf (FirstRefused NewEvidence opening.now no_evidence 1 (octets_at_each frames.now))) }
{
    let mut held = Capture::new(alloc, bump);
    for (index, frame) in frames.iter().enumerate() {
        add_frame(alloc, opening, &mut held, frame, index + 1, bump)?;
    }
    Ok(held)
}

/// Adds the message of the frame with this number to the evidence.
fn add_frame<'b>(
    alloc: Global,
    opening: &Opening,
    held: &mut Capture<'b>,
    frame: &'b [u8],
    number: usize,
    bump: &'b Bump,
) -> Result<(), Fault>
    ensures taken { OnOk result ((message : Contents)
        × (IsInFrame opening.now number frame.now message × Meets NewEvidence held.old message)
        × (held.new ≡ with_message held.old message)) }
    ensures refused { IfErr result (IsFaultOf (IsRefusedAt NewEvidence opening.now held.old frame.now number)) }
{
    let message = message_of(alloc, opening, frame, number, bump)?;
    add_message(held, &message, number)
}

/// Adds the message with this number to the evidence. Memory is wanted only for a response that wasn't cut to fit.
fn add_message<'b>(
    held: &mut Capture<'b>,
    message: &Message<'b>,
    number: usize,
) -> Result<(), Fault>
    ensures added { OnOk result (Meets NewEvidence held.old message.now
        × (held.new ≡ with_message held.old message.now)) }
    ensures refused { (opening : Opening) (frame : List ℕ) → IsInFrame opening number frame message.now
        → IfErr result (IsFaultOf (IsRefusedAt NewEvidence opening held.old frame number)) }
    ensures memory { result ≡ Err Fault.OutOfMemory → IsWhole message.now }
{
    match held.add(message) {
        Ok(()) => Ok(()),
        Err(error) => Err(capture_fault(error, number)),
    }
}

/// The message of the frame with this number.
pub fn message_of<'b>(
    alloc: Global,
    opening: &Opening,
    frame: &'b [u8],
    number: usize,
    bump: &'b Bump,
) -> Result<Message<'b>, Fault>
    ensures found { IfOk result (IsInFrame opening.now number frame.now) }
    ensures refused { IfErr result (IsFaultOf (IsNoMessageAt opening.now frame.now number)) }
{
    match opening {
        Opening::Plain => decoded(alloc, frame, number),
        Opening::Signed { keys, moment, macs } => {
            let request_mac = request_mac_of(macs, number);
            let now = moment.seconds();
            let opened = opened(alloc, keys, now, request_mac, frame, number, bump)?;
            decoded(alloc, opened.message(), number)
        }
    }
}

/// What is inside of the frame with this number.
fn opened<'b>(
    alloc: Global,
    keys: &KeyRing,
    now: u64,
    request_mac: Option<&[u8; 32]>,
    frame: &[u8],
    number: usize,
    bump: &'b Bump,
) -> Result<Opened<'b>, Fault>
    ensures opened { IfOk result (λ opened.
        tsig_answer_of frame.now keys.now now (option_copied request_mac.entry) (Ok opened)) }
    ensures refused { IfErr result
        (IsFaultOf (IsUnopenedAt keys.now now (option_copied request_mac.entry) frame.now number)) }
{
    match open(alloc, frame, keys, now, request_mac, bump) {
        Ok(opened) => Ok(opened),
        Err(error) => Err(tsig_fault(error, number)),
    }
}

/// The message with this number.
fn decoded<'b>(alloc: Global, octets: &'b [u8], number: usize) -> Result<Message<'b>, Fault>
    ensures found { IfOk result (MessageOf octets.now) }
    ensures refused { IfErr result (IsFaultOf (IsUnreadableAt octets.now number)) }
{
    match Message::decode(alloc, octets) {
        Ok(message) => Ok(message),
        Err(error) => Err(decode_fault(error, number)),
    }
}

/// The fault of the message with this number, which can't be read.
fn decode_fault(error: DecodeError, number: usize) -> Fault
    ensures told { IsDecodeFault error number result }
    ensures number { fault_number result ≡ decode_error_code error }
{
    match error {
        DecodeError::OutOfMemory => Fault::OutOfMemory,
        DecodeError::BadRdata(faulty) => refused(Refusal::Message(error), number, Some(faulty)),
        _ => refused(Refusal::Message(error), number, None),
    }
}

/// The fault of the frame with this number, which isn't opened.
fn tsig_fault(error: TsigError, number: usize) -> Fault
    ensures told { IsTsigFault error number result }
    ensures number { fault_number result ≡ tsig_error_code error }
{
    match error {
        TsigError::OutOfMemory => Fault::OutOfMemory,
        TsigError::Unreadable(error) => decode_fault(error, number),
        _ => refused(Refusal::Tsig(error), number, None),
    }
}

/// The fault of the message with this number, which the capture doesn't take.
fn capture_fault(error: CaptureError, number: usize) -> Fault
    ensures told { IsCaptureFault error number result }
    ensures number { fault_number result ≡ capture_error_code error }
{
    match error {
        CaptureError::OutOfMemory => Fault::OutOfMemory,
        CaptureError::BadRdata(faulty) => refused(Refusal::Evidence(error), number, Some(faulty)),
        _ => refused(Refusal::Evidence(error), number, None),
    }
}

/// The refusal of a message, and of one of its records where that is at fault.
fn refused(why: Refusal, message: usize, faulty: Option<usize>) -> Fault
    ensures { result ≡ Fault.Refused why (record { message = Some message; «record» = faulty; line = None }) }
{
    Fault::Refused(
        why,
        Place {
            message: Some(message),
            record: faulty,
            line: None,
        },
    )
}
