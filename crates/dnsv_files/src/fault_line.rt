//! The line that reports a fault. It takes no memory, so that the want of it is reported too.
ghost use Rattle.std.specs.Prelude.{◌≡◌, ◌<◌, ◌≤◌, ◌+◌, ◌++◌, codes, decimal, length};
ghost use Rattle.arrayvec.specs.ArrayString.{array_string_len};
ghost use Rattle.dnsv_files.specs.Status.{fault_line, fault_text, file_word, numbered, place_text};

use crate::status::{Fault, InputFile, Place};
use arrayvec::ArrayString;
use itoa::Buffer;

/// A line, or its beginning. The longest has the number of a refusal, and three others of up to 20 digits.
pub type FaultLine = ArrayString<128>;

impl Fault {
    /// The line that reports the fault, with its newline: `fault N`, `fault N FILE`, or `refused N` and the place.
    pub fn line(&self) -> FaultLine
        ensures { result.bytes ≡ fault_line self.now }
    {
        let mut line = self.text();
        line.push_str("\n");
        line
    }

    /// The line without its newline.
    fn text(&self) -> FaultLine
        ensures bytes { result.bytes ≡ fault_text self.now }
        ensures room { array_string_len result < 128 }
    {
        match self {
            Fault::Refused(_, place) => refused_text(self.number(), place),
            Fault::ReadFailed(file) | Fault::TooLong(file) | Fault::OpenFailed(file) => {
                file_text(self.number(), *file)
            }
            Fault::OutOfMemory | Fault::WriteFailed => text_of("fault ", self.number()),
        }
    }
}

/// The number of a refusal, and its place.
fn refused_text(number: u16, place: &Place) -> FaultLine
    ensures bytes { result.bytes ≡ codes "refused " ++ decimal number ++ place_text place.now }
    ensures room { array_string_len result < 128 }
{
    let mut line = text_of("refused ", number);
    push_number(&mut line, "message", place.message);
    push_number(&mut line, "record", place.record);
    push_number(&mut line, "line", place.line);
    line
}

/// The number of a fault, and its file.
fn file_text(number: u16, file: InputFile) -> FaultLine
    ensures bytes { result.bytes ≡ (codes "fault " ++ decimal number) ++ codes " " ++ file_word file }
    ensures room { array_string_len result < 128 }
{
    let mut line = text_of("fault ", number);
    line.push_str(" ");
    line.push_str(file.option());
    line
}

/// A word and a number.
fn text_of(word: &str, number: u16) -> FaultLine
    requires { length word.now ≤ 8 }
    ensures bytes { result.bytes ≡ word.now ++ decimal number }
    ensures room { array_string_len result ≤ 13 }
{
    let mut line = FaultLine::new();
    line.push_str(word);
    line.push_str(Buffer::new().format(number));
    line
}

/// Adds a word and a number, where there is one, each behind a blank.
fn push_number(line: &mut FaultLine, word: &str, number: Option<usize>)
    requires { array_string_len line.old + length word.now + 22 ≤ 128 }
    ensures bytes { line.new.bytes ≡ line.old.bytes ++ numbered word.now number }
    ensures room { array_string_len line.new ≤ array_string_len line.old + length word.now + 22 }
{
    if let Some(number) = number {
        line.push_str(" ");
        line.push_str(word);
        line.push_str(" ");
        line.push_str(Buffer::new().format(number));
    }
}
