//! Text files, which may be left out.
ghost use Rattle.std.specs.Prelude.{◌≡◌, ◌<◌, ◌≤◌, [], Err, IfErr, IfOk, List, None, Ok, Option, ℕ, length};
ghost use Rattle.dnsv_message.specs.Streams.Frames.{file_limit};
ghost use Rattle.dnsv_message.specs.ReadError.{IsFileError, read_error_code};
ghost use Rattle.dnsv_files.specs.Files.Faults.{IsAbout, IsTextFault, OfFailedRead, OfOctets, TellsFailedReads};
ghost use Rattle.dnsv_files.specs.Files.{IsGiven, IsToldBy, MayHave, given_failures, octets_or_none};
ghost use Rattle.dnsv_files.specs.Files.Statements.{IsAtLine};
ghost use Rattle.dnsv_files.specs.Status.{fault_number};
ghost use Rattle.dnsv_files.specs.Told.{IsFaultOf, IsTextReadFault, TellsRefusals, TellsTextReadError};
ghost use Rattle.dnsv_files.specs.declared.status.Place.{Place};
ghost use Rattle.dnsv_files.specs.declared.status.Refusal.{Refusal};

use crate::status::{Fault, InputFile, Place, Refusal};
use dnsv_message::{Counted, ReadError, read_all};
use std::alloc::Global;
use std::io::Read;

/// What the text of a file says.
pub trait FromText: Drop + Sized {
    /// The text, within the limit of files, says this.
    ghost says: { List ℕ → Self → Type 0 };

    /// The text is refused so, at the place.
    ghost is_refused: { List ℕ → Refusal → Place → Type 0 };

    /// The text begins with what takes memory.
    ghost begins: { List ℕ → Type 0 };

    /// A fault of the text may wait for memory, which the lines before it take.
    ghost waits: { List ℕ → Type 0 };

    /// What the text says; the fault is that of its first line at fault. It is reported, unless it waits for memory, and that
    /// was refused.
    fn from_text(alloc: Global, text: &[u8]) -> Result<Self, Fault>
        ensures said { IfOk result (λ value. length text.now ≤ file_limit → says text.now value) }
        ensures fault { IfErr result (IsFaultOf (is_refused text.now)) }
        ensures every_fault { TellsRefusals (is_refused text.now) (waits text.now) result }
        // Memory is wanted only where the text begins with something.
        ensures memory { result ≡ Err Fault.OutOfMemory → begins text.now };
}

/// What the file says; one that isn't given says what an empty one does.
///
/// The fault is the first: reading the file, and then its first line that is at fault.
pub fn text_in<T: FromText, R: Read>(
    alloc: Global,
    file: InputFile,
    reader: &mut Option<Counted<R>>,
) -> Result<T, Fault>
    ensures said { (octets : Option (List ℕ)) → IsToldBy R.remaining reader.old octets
        → IfOk result (T.says (octets_or_none octets)) }
    ensures faults { (octets : Option (List ℕ)) → IsToldBy R.remaining reader.old octets
        → IfErr result (OfOctets (IsTextFault file T.is_refused (octets_or_none octets))) }
    ensures reads { TellsFailedReads file (given_failures reader.old) (given_failures reader.new) result }
    ensures about { IfErr result (IsAbout file) }
    ensures given { IfErr result (OfFailedRead (λ _. IsGiven reader.old)) }
    // A file that isn't given takes no memory, if a text without octets takes none.
    ensures none { reader.old ≡ None → result ≡ Err Fault.OutOfMemory → T.begins [] }
{
    let octets = octets_in(alloc, file, reader)?;
    T::from_text(alloc, &octets)
}

/// What the file says; `None` where it isn't given. The fault is that of `text_in`.
pub fn given_text_in<T: FromText, R: Read>(
    alloc: Global,
    file: InputFile,
    reader: &mut Option<Counted<R>>,
) -> Result<Option<T>, Fault>
    ensures said { (octets : Option (List ℕ)) → IsToldBy R.remaining reader.old octets
        → IfOk result (MayHave T.says octets) }
    ensures faults { (octets : Option (List ℕ)) → IsToldBy R.remaining reader.old octets
        → IfErr result (OfOctets (IsTextFault file T.is_refused (octets_or_none octets))) }
    ensures reads { TellsFailedReads file (given_failures reader.old) (given_failures reader.new) result }
    ensures about { IfErr result (IsAbout file) }
    ensures none { reader.old ≡ None → result ≡ Ok None }
{
    if reader.is_none() {
        return Ok(None);
    }
    let said = text_in(alloc, file, reader)?;
    Ok(Some(said))
}

/// The octets of the file; none where it isn't given.
pub fn octets_in<R: Read>(
    alloc: Global,
    file: InputFile,
    reader: &mut Option<Counted<R>>,
) -> Result<Vec<u8>, Fault>
    ensures octets { (octets : Option (List ℕ)) → IsToldBy R.remaining reader.old octets → IfOk result (λ text.
        (text.items ≡ octets_or_none octets) × (length text.items ≤ file_limit)) }
    ensures too_long { (octets : Option (List ℕ)) → IsToldBy R.remaining reader.old octets
        → result ≡ Err (Fault.TooLong file) → file_limit < length (octets_or_none octets) }
    ensures reads { TellsFailedReads file (given_failures reader.old) (given_failures reader.new) result }
    ensures only { IfErr result (IsTextReadFault file) }
    ensures none { IfErr result (λ _. reader.old ≡ None → ⊥) }
{
    match reader {
        None => Ok(Vec::new(alloc)),
        Some(reader) => match read_all(alloc, reader) {
            Ok(octets) => Ok(octets),
            Err(error) => Err(text_read_fault(file, error)),
        },
    }
}

/// The fault of a file of any octets that wasn't read.
fn text_read_fault(file: InputFile, error: ReadError) -> Fault
    requires { IsFileError error }
    ensures told { TellsTextReadError file error result }
    ensures number { fault_number result ≡ read_error_code error }
{
    match error {
        ReadError::OutOfMemory => Fault::OutOfMemory,
        ReadError::Read => Fault::ReadFailed(file),
        ReadError::TooLong => Fault::TooLong(file),
        ReadError::ZeroLength | ReadError::TornFrame => unreachable!(),
    }
}

/// The refusal of a text for one of its lines.
pub fn refused_line(why: Refusal, line: usize) -> Fault
    ensures { (place : Place) × IsAtLine line place × (result ≡ Fault.Refused why place) }
{
    Fault::Refused(
        why,
        Place {
            message: None,
            record: None,
            line: Some(line),
        },
    )
}
