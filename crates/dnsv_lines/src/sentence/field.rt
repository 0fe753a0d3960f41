//! The fields of a line: each with its key, and what it says.
ghost use Rattle.std.specs.Prelude.{◌≡◌, None, Some};
ghost use Rattle.dnsv_lines.specs.Sentence as specs;

use crate::sentence::salt::SaltText;
use dnsv_names::Name;
use std::fmt;

/// What a field says.
#[derive(Clone, Copy)]
pub enum Value<'a> {
    /// A name, which is reported in lower case.
    Name(&'a Name),
    /// A number, in decimal.
    Number(u64),
    /// The number of an RRset of the evidence, of which another line says where it stands.
    Rrset(usize),
    /// A word of letters, digits and hyphens.
    Word(&'static str),
    /// A salt, in hex (RFC 5155 3.3).
    Salt(&'a [u8]),
    /// Nothing: the line doesn't have the field.
    Nothing,
}

impl<'a> Value<'a> {
    /// The number of something in memory.
    pub fn count(number: usize) -> Self
        ensures { specs.said result ≡ specs.Number number }
    {
        Value::Number(number as u64)
    }

    /// The number of something in memory, where there is one.
    pub fn given_count(number: Option<usize>) -> Self
        ensures { specs.said result ≡ specs.given_number number }
    {
        match number {
            Some(number) => Value::count(number),
            None => Value::Nothing,
        }
    }

    /// The name, where there is one.
    pub fn given_name(name: &'a Option<Name>) -> Self
        ensures { specs.said result ≡ specs.given_name name.now }
    {
        match name {
            Some(name) => Value::Name(name),
            None => Value::Nothing,
        }
    }
}

/// A field of a line: the word before it in text, where there is one, its key in JSON, and what it says.
#[derive(Clone, Copy)]
pub struct Field<'a> {
    pub label: Option<&'static str>,
    pub key: &'static str,
    pub value: Value<'a>,
}

impl<'a> Field<'a> {
    /// A field without a word before it.
    pub fn plain(key: &'static str, value: Value<'a>) -> Self
        ensures { specs.said_field result ≡ specs.plain key.now (specs.said value.entry) }
    {
        Field {
            label: None,
            key,
            value,
        }
    }

    /// A field whose key stands before it.
    pub fn same(key: &'static str, value: Value<'a>) -> Self
        ensures { specs.said_field result ≡ specs.same key.now (specs.said value.entry) }
    {
        Field {
            label: Some(key),
            key,
            value,
        }
    }

    /// A field with another word before it than its key.
    pub fn under(label: &'static str, key: &'static str, value: Value<'a>) -> Self
        ensures { specs.said_field result ≡ specs.under label.now key.now (specs.said value.entry) }
    {
        Field {
            label: Some(label),
            key,
            value,
        }
    }
}

impl<'a> Default for Field<'a> {
    fn default() -> Self {
        Field::plain("", Value::Nothing)
    }
}

/// The text of the field behind others, which is empty where the line doesn't have it.
impl<'a> fmt::Display for Field<'a> {
    ghost output = { λ field. Some (specs.field_text (specs.said_field field)) };

    fn fmt<W: fmt::Write>(&self, f: &mut fmt::Formatter<W>) -> fmt::Result {
        let label = Label(self.label);
        match self.value {
            Value::Name(name) => {
                let name = name.to_lower();
                write!(f, "{label} {name}")
            }
            Value::Number(number) => write!(f, "{label} {number}"),
            Value::Rrset(number) => write!(f, "{label} {number}"),
            Value::Word(word) => write!(f, "{label} {word}"),
            Value::Salt(salt) => {
                let salt = SaltText { salt };
                write!(f, "{label} {salt}")
            }
            Value::Nothing => Ok(()),
        }
    }
}

/// The word before a field.
#[derive(Clone, Copy)]
struct Label(Option<&'static str>);

impl fmt::Display for Label {
    ghost output = { λ label. Some (specs.label_text (specs.said_label (λ each. each.now) label.0)) };

    fn fmt<W: fmt::Write>(&self, f: &mut fmt::Formatter<W>) -> fmt::Result {
        match self.0 {
            Some(label) => write!(f, " {label}"),
            None => Ok(()),
        }
    }
}
