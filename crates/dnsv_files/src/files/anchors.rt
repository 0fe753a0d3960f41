//! Files of trust anchors.
ghost use Rattle.std.specs.Prelude.{◌≡◌, ◌≤◌, Err, IfErr, IfOk, List, None, Option, ℕ, length};
ghost use Rattle.dnsv_anchors.specs.AnchorFile.{BeginsWithAnchor};
ghost use Rattle.dnsv_anchors.specs.AnchorsError.{anchors_error_code};
ghost use Rattle.dnsv_message.specs.Streams.Frames.{file_limit};
ghost use Rattle.dnsv_files.specs.Files.Anchors.{AreAnchorsRefused, HasAnchors};
ghost use Rattle.dnsv_files.specs.Files.Faults.{IsAbout, IsTextFault, OfFailedRead, OfOctets, TellsFailedReads};
ghost use Rattle.dnsv_files.specs.Files.{IsGiven, IsToldBy, given_failures, octets_or_none};
ghost use Rattle.dnsv_files.specs.Status.{fault_number};
ghost use Rattle.dnsv_files.specs.Told.{IsAnchorsFault, IsFaultOf, TellsRefusals};

use crate::files::text::{octets_in, refused_line};
use crate::status::{Fault, InputFile, Refusal};
use bumpalo::Bump;
use dnsv_chain::{Anchors, AnchorsError};
use dnsv_message::Counted;
use std::alloc::Global;
use std::io::Read;

/// The trust anchors of the file, whose octets lie in the arena; none where it isn't given.
///
/// The fault is the first: reading the file, and then its first line that is at fault.
pub fn anchors_in<'b, R: Read>(
    alloc: Global,
    bump: &'b Bump,
    reader: &mut Option<Counted<R>>,
) -> Result<Anchors<'b>, Fault>
    ensures said { (octets : Option (List ℕ)) → IsToldBy R.remaining reader.old octets
        → IfOk result (HasAnchors (octets_or_none octets)) }
    ensures faults { (octets : Option (List ℕ)) → IsToldBy R.remaining reader.old octets
        → IfErr result (OfOctets (IsTextFault InputFile.Anchors AreAnchorsRefused (octets_or_none octets))) }
    ensures reads { TellsFailedReads InputFile.Anchors (given_failures reader.old) (given_failures reader.new) result }
    ensures about { IfErr result (IsAbout InputFile.Anchors) }
    ensures given { IfErr result (OfFailedRead (λ _. IsGiven reader.old)) }
    // A file that isn't given takes no memory.
    ensures none { reader.old ≡ None → result ≡ Err Fault.OutOfMemory → ⊥ }
{
    let octets = octets_in(alloc, InputFile::Anchors, reader)?;
    anchors_of(alloc, bump, &octets)
}

/// The trust anchors of a text; the fault is that of its first line at fault. It is reported, unless memory was refused to a
/// line before it.
fn anchors_of<'b>(alloc: Global, bump: &'b Bump, text: &[u8]) -> Result<Anchors<'b>, Fault>
    ensures said { IfOk result (λ value. length text.now ≤ file_limit → HasAnchors text.now value) }
    ensures fault { IfErr result (IsFaultOf (AreAnchorsRefused text.now)) }
    ensures every_fault { TellsRefusals (AreAnchorsRefused text.now) (BeginsWithAnchor text.now) result }
    ensures memory { result ≡ Err Fault.OutOfMemory → BeginsWithAnchor text.now }
{
    match Anchors::parse(alloc, bump, text) {
        Ok(anchors) => Ok(anchors),
        Err(error) => Err(anchors_fault(error)),
    }
}

/// The fault of a text that is no trust anchors.
fn anchors_fault(error: AnchorsError) -> Fault
    ensures told { IsAnchorsFault error result }
    ensures number { fault_number result ≡ anchors_error_code error }
{
    match error {
        AnchorsError::OutOfMemory => Fault::OutOfMemory,
        AnchorsError::Syntax(line) | AnchorsError::TooMany(line) => {
            refused_line(Refusal::AnchorLine(error), line)
        }
    }
}
