//! How a run ends: with its text written, or with a fault.
ghost use Rattle.std.specs.Prelude.{◌≡◌, ◌⊎◌, ◌≤◌, length};
ghost use Rattle.dnsv_files.specs.Status.{status_code, fault_code, fault_number, file_word, refusal_number};

use dnsv_answers::AnswersError;
use dnsv_canonical::CaptureError;
use dnsv_chain::AnchorsError;
use dnsv_message::DecodeError;
use dnsv_names::NameError;
use dnsv_questions::QuestionsError;
use dnsv_statements::StatementsError;
use dnsv_tsig::{KeyFileError, TsigError};
use dnsv_verdict::VerdictError;
use std::alloc::{AllocError, AllocFailed};

/// How a run ended that wrote its whole text.
#[derive(Clone, Copy, Debug)]
pub enum Status {
    /// The text that was asked for is written. A question's verdict is that the answer, or its absence, is secure.
    Done,
    /// The question's name may lie in a zone that isn't signed.
    Insecure,
    /// The verdict depends on signatures that are still to be checked.
    Pending,
    /// The evidence proves nothing of a name at or below a trust anchor.
    Bogus,
    /// No trust anchor is at or above the question's name.
    Indeterminate,
    /// One of many questions was refused.
    Refused,
}

impl Status {
    /// The exit status of the program.
    pub fn code(&self) -> u8
        ensures { result ≡ status_code self.now }
    {
        match self {
            Status::Done => 0,
            Status::Insecure => 3,
            Status::Pending => 4,
            Status::Bogus => 5,
            Status::Indeterminate => 6,
            Status::Refused => 7,
        }
    }

    /// That of the two with the greater exit status.
    pub fn worse(self, other: Status) -> Status
        ensures one { (result ≡ self) ⊎ (result ≡ other) }
        ensures greatest { (status_code self ≤ status_code result) × (status_code other ≤ status_code result) }
    {
        if self.code() < other.code() {
            other
        } else {
            self
        }
    }
}

/// A file that the command line names.
#[derive(Clone, Copy, Debug)]
pub enum InputFile {
    /// The file of captured messages.
    Capture,
    /// The file of trust anchors.
    Anchors,
    /// The file of statements.
    Statements,
    /// The file of answers.
    Answers,
    /// The file of keys.
    Keys,
    /// The file of request MACs.
    Macs,
    /// The file of questions.
    Questions,
}

impl InputFile {
    /// The word of the option that names the file, without its hyphens.
    pub fn option(&self) -> &'static str
        ensures word { result.now ≡ file_word self.now }
        ensures short { length result.now ≤ 10 }
    {
        match self {
            InputFile::Capture => "capture",
            InputFile::Anchors => "anchors",
            InputFile::Statements => "statements",
            InputFile::Answers => "answers",
            InputFile::Keys => "keys",
            InputFile::Macs => "macs",
            InputFile::Questions => "questions",
        }
    }
}

/// Why the input was refused: what a layer below says of it, which is never want of memory, or a reason of the program's
/// own.
#[derive(Clone, Copy, Debug)]
pub enum Refusal {
    /// The question's name is no text of a name (RFC 1035 5.1).
    Name(NameError),
    /// The question has no verdict: its type can't be asked for, or an alias can't be followed.
    Question(VerdictError),
    /// A line of the file of keys is at fault.
    KeyLine(KeyFileError),
    /// A line of the file of request MACs is neither a MAC nor `-`.
    MacSyntax,
    /// The file of request MACs has more or fewer than the capture has messages.
    MacCount,
    /// A message of the stream has the length 0 (RFC 1035 4.2.2).
    ZeroLength,
    /// The stream ends inside a message or its length (RFC 1035 4.2.2).
    TornFrame,
    /// Octets are no message (RFC 1035 4.1).
    Message(DecodeError),
    /// A message isn't signed by one of the keys (RFC 8945 5.2).
    Tsig(TsigError),
    /// A message isn't evidence besides those before it.
    Evidence(CaptureError),
    /// A line of the file of trust anchors is at fault.
    AnchorLine(AnchorsError),
    /// A line of the file of statements is at fault.
    StatementLine(StatementsError),
    /// A line of the file of answers is at fault, or it hasn't the answers to the capture's list.
    AnswerLine(AnswersError),
    /// A line of the file of questions is at fault.
    QuestionLine(QuestionsError),
    /// The last moment of a range is before the first, or 2^32 seconds behind it or more.
    BadRange,
}

impl Refusal {
    /// The number by which the refusal is reported: that of the layer below, where it is that layer's.
    pub fn number(&self) -> u16
        ensures { result ≡ refusal_number self.now }
    {
        match self {
            Refusal::Name(error) => error.code(),
            Refusal::Question(error) => error.code(),
            Refusal::KeyLine(error) => error.code(),
            Refusal::MacSyntax => 801,
            Refusal::MacCount => 802,
            Refusal::ZeroLength => 208,
            Refusal::TornFrame => 209,
            Refusal::Message(error) => error.code(),
            Refusal::Tsig(error) => error.code(),
            Refusal::Evidence(error) => error.code(),
            Refusal::AnchorLine(error) => error.code(),
            Refusal::StatementLine(error) => error.code(),
            Refusal::AnswerLine(error) => error.code(),
            Refusal::QuestionLine(error) => error.code(),
            Refusal::BadRange => 821,
        }
    }
}

/// Where in the input a refusal arose, as far as that is known. All numbers count from 1.
#[derive(Clone, Copy, Debug)]
pub struct Place {
    /// The message of the capture.
    pub message: Option<usize>,
    /// The record of the message, through its three sections.
    pub record: Option<usize>,
    /// The line of a text file.
    pub line: Option<usize>,
}

impl Place {
    /// No place in particular.
    pub const NOWHERE: Place = Place {
        message: None,
        record: None,
        line: None,
    };
}

/// Why a run wrote no text, or not all of it.
#[derive(Clone, Copy, Debug)]
pub enum Fault {
    /// Memory ran out.
    OutOfMemory,
    /// A read of the file failed.
    ReadFailed(InputFile),
    /// The file passes the limit of octets.
    TooLong(InputFile),
    /// The file could not be opened.
    OpenFailed(InputFile),
    /// A write of the text failed.
    WriteFailed,
    /// The input was refused.
    Refused(Refusal, Place),
}

impl Fault {
    /// The number by which the fault is reported.
    pub fn number(&self) -> u16
        ensures { result ≡ fault_number self.now }
    {
        match self {
            Fault::OutOfMemory => 90,
            Fault::ReadFailed(_) => 210,
            Fault::TooLong(_) => 211,
            Fault::OpenFailed(_) => 811,
            Fault::WriteFailed => 812,
            Fault::Refused(refusal, _) => refusal.number(),
        }
    }

    /// The exit status of the program: 7 where the input was refused, else 1.
    pub fn code(&self) -> u8
        ensures { result ≡ fault_code self.now }
    {
        match self {
            Fault::Refused(_, _) => 7,
            _ => 1,
        }
    }
}

impl From<AllocError> for Fault {
    ghost use Rattle.dnsv_files.specs.declared.status.Fault.TheVariants.{OutOfMemory};

    ghost from_gives = { λ _ fault. fault ≡ OutOfMemory };

    fn from(_refused: AllocError) -> Fault {
        Fault::OutOfMemory
    }
}

impl<T: Drop> From<AllocFailed<T>> for Fault {
    ghost use Rattle.dnsv_files.specs.declared.status.Fault.TheVariants.{OutOfMemory};

    ghost from_gives = { λ _ fault. fault ≡ OutOfMemory };

    fn from(_refused: AllocFailed<T>) -> Fault {
        Fault::OutOfMemory
    }
}
