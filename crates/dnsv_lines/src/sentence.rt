//! What stands for a line: its words and its fields.
ghost use Rattle.std.specs.Prelude.{◌≡◌, ◌≤◌, Some, length, map};
ghost use Rattle.dnsv_lines.specs.Sentence as specs;

pub mod field;
pub mod row;
pub mod salt;

use crate::sentence::field::{Field, Value};
use crate::sentence::row::{Fields, Row, fields_of};
use std::fmt;

/// The words of a line and its fields. The text is the line's first word and then what is there of the number, the word
/// and the fields; in JSON the word stands before the number.
#[derive(Drop)]
pub struct Sentence<'a> {
    /// The first word of the line.
    pub line: &'static str,
    /// What fails, in a word.
    pub word: Value<'a>,
    /// Of a reason the number of its extended DNS error (RFC 8914), 0 where none fits.
    pub error: Value<'a>,
    /// What is said behind these, in order.
    pub fields: Fields<'a>,
}

/// The word of what fails, and the number of its extended DNS error (RFC 8914), 0 where none fits.
#[derive(Clone, Copy)]
pub struct ReasonWord {
    pub word: &'static str,
    pub error: u16,
}

impl ReasonWord {
    /// The word with the number.
    pub fn of(word: &'static str, error: u16) -> Self
        ensures { specs.reason_word result ≡ specs.reason word.now error }
    {
        ReasonWord { word, error }
    }
}

impl<'a> Sentence<'a> {
    /// A line that has fields behind its first word.
    pub fn of(line: &'static str, fields: &[Field<'a>]) -> Self
        requires { length fields.now ≤ 10 }
        ensures { specs.said_sentence result ≡ specs.plain_sentence line.now (map specs.said_field fields.now) }
    {
        Sentence {
            line,
            word: Value::Nothing,
            error: Value::Nothing,
            fields: fields_of(fields),
        }
    }

    /// What fails.
    pub fn reason(word: ReasonWord, fields: &[Field<'a>]) -> Self
        requires { length fields.now ≤ 10 }
        ensures { specs.said_sentence result
            ≡ specs.reason_sentence (specs.reason_word word) (map specs.said_field fields.now) }
    {
        Sentence {
            line: "reason",
            word: Value::Word(word.word),
            error: Value::Number(u64::from(word.error)),
            fields: fields_of(fields),
        }
    }

    /// What follows from something that fails elsewhere.
    pub fn follows(word: &'static str, fields: &[Field<'a>]) -> Self
        requires { length fields.now ≤ 10 }
        ensures { specs.said_sentence result ≡ specs.follows_sentence word.now (map specs.said_field fields.now) }
    {
        Sentence {
            line: "follows",
            word: Value::Word(word),
            error: Value::Nothing,
            fields: fields_of(fields),
        }
    }
}

/// The text of the line, without its end.
impl<'a> fmt::Display for Sentence<'a> {
    ghost output = { λ sentence. Some (specs.text_of_sentence (specs.said_sentence sentence)) };

    fn fmt<W: fmt::Write>(&self, f: &mut fmt::Formatter<W>) -> fmt::Result {
        let line = self.line;
        let error = Field::plain("ede", self.error);
        let word = Field::plain("word", self.word);
        let row = Row {
            fields: &self.fields,
        };
        write!(f, "{line}{error}{word}{row}")
    }
}
