//! What a call tells of its end.
ghost use Rattle.std.specs.Prelude.{◌≡◌, unwrap_or};
ghost use Rattle.dnsv_files.specs.Status.{fault_code};
ghost use Rattle.dnssec_check_c.specs.Ends.{GivesText, file_number, nothing_told, told_of_fault, told_of_text};

use dnsv_files::{Fault, InputFile, Place, Status};

/// What a call tells besides its status.
#[repr(C)]
#[derive(Clone, Copy)]
pub struct Outcome {
    /// How many octets the whole text has, or 0 where there is none.
    pub length: usize,
    /// The message of the capture at which a fault arose, counted from 1, or 0 where none is known.
    pub message: usize,
    /// The record of that message, counted from 1 through its three sections, or 0.
    pub record: usize,
    /// The line of a text, counted from 1, or 0.
    pub line: usize,
    /// The number of the fault, or 0 where there is none.
    pub number: u32,
    /// The number of the octets that are too long, or 0: 1 is the capture, 2 the trust anchors, 3 what was verified, 4 the
    /// keys, 5 the MACs, 6 the questions.
    pub file: u32,
}

impl Outcome {
    /// No text and no fault.
    const NOTHING: Outcome = Outcome {
        length: 0,
        message: 0,
        record: 0,
        line: 0,
        number: 0,
        file: 0,
    };

    /// A text of so many octets.
    fn of_text(length: usize) -> Outcome
        ensures { result ≡ told_of_text length }
    {
        Outcome {
            length,
            ..Outcome::NOTHING
        }
    }

    /// A fault, with its place.
    fn of_fault(fault: &Fault) -> Outcome
        ensures { result ≡ told_of_fault fault.now }
    {
        let number = u32::from(fault.number());
        match fault {
            Fault::Refused(_, place) => Outcome::at(number, place),
            Fault::ReadFailed(file) | Fault::TooLong(file) | Fault::OpenFailed(file) => Outcome {
                number,
                file: number_of(*file),
                ..Outcome::NOTHING
            },
            Fault::OutOfMemory | Fault::WriteFailed => Outcome {
                number,
                ..Outcome::NOTHING
            },
        }
    }

    /// The number of a fault at the place.
    fn at(number: u32, place: &Place) -> Outcome
        ensures { result ≡ record { length = 0; message = unwrap_or place.now.message 0; «record» = unwrap_or place.now.«record» 0; line = unwrap_or place.now.line 0; number = number; file = 0 } }
    {
        Outcome {
            length: 0,
            message: place.message.unwrap_or(0),
            record: place.record.unwrap_or(0),
            line: place.line.unwrap_or(0),
            number,
            file: 0,
        }
    }
}

/// The number of a file's octets.
fn number_of(file: InputFile) -> u32
    ensures { result ≡ file_number file }
{
    match file {
        InputFile::Capture => 1,
        InputFile::Anchors => 2,
        InputFile::Statements | InputFile::Answers => 3,
        InputFile::Keys => 4,
        InputFile::Macs => 5,
        InputFile::Questions => 6,
    }
}

/// The text is written to the buffer, and its length told; where it has too little room, only the length.
pub fn give(status: Status, text: &[u8], buffer: &mut [u8], outcome: &mut Outcome) -> u32
    ensures { GivesText status text.now buffer.old buffer.new outcome.new result }
{
    *outcome = Outcome::of_text(text.len());
    if buffer.len() < text.len() {
        return 10;
    }
    buffer[..text.len()].copy_from_slice(text);
    u32::from(status.code())
}

/// The fault is told.
pub fn refuse(fault: &Fault, outcome: &mut Outcome) -> u32
    ensures told { outcome.new ≡ told_of_fault fault.now }
    ensures status { result ≡ fault_code fault.now }
{
    *outcome = Outcome::of_fault(fault);
    u32::from(fault.code())
}

/// Nothing is asked, and nothing told.
pub fn misuse(outcome: &mut Outcome) -> u32
    ensures told { outcome.new ≡ nothing_told }
    ensures status { result ≡ 2 }
{
    *outcome = Outcome::NOTHING;
    2
}
