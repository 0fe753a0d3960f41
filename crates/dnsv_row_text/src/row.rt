//! A row of the input: the name of a call, and its arguments.

use crate::written;
use dnsv_message::{DecodeError, ReadError};
use dnsv_names::Name;
use std::alloc::{AllocError, AllocFailed, Global};
use std::collections::BTreeMap;

/// Why a row has no answer.
#[derive(Debug, Drop)]
pub enum RowError {
    OutOfMemory,
    /// A call that no library has, or an argument that isn't written as its kind is.
    Malformed,
}

impl From<AllocError> for RowError {
    fn from(_: AllocError) -> RowError {
        RowError::OutOfMemory
    }
}

impl<T: Drop> From<AllocFailed<T>> for RowError {
    fn from(_: AllocFailed<T>) -> RowError {
        RowError::OutOfMemory
    }
}

impl From<ReadError> for RowError {
    fn from(error: ReadError) -> RowError {
        match error {
            ReadError::OutOfMemory => RowError::OutOfMemory,
            _ => RowError::Malformed,
        }
    }
}

impl From<DecodeError> for RowError {
    fn from(error: DecodeError) -> RowError {
        match error {
            DecodeError::OutOfMemory => RowError::OutOfMemory,
            _ => RowError::Malformed,
        }
    }
}

/// The row that was read last, and the octets that rows before it have named.
#[derive(Drop)]
pub struct Row {
    alloc: Global,
    fields: Vec<String>,
    named: BTreeMap<String, Vec<u8>>,
}

impl Row {
    pub fn new(alloc: Global) -> Row {
        Row {
            alloc,
            fields: Vec::new(alloc),
            named: BTreeMap::new(alloc),
        }
    }

    pub fn alloc(&self) -> Global {
        self.alloc
    }

    /// Reads a row: its fields are parted by blanks, and the first is the name of the call.
    pub fn read(&mut self, line: &str) -> Result<(), AllocError> {
        let mut fields = Vec::new(self.alloc);
        for field in line.split_whitespace() {
            fields.push(String::from_str(self.alloc, field)?)?;
        }
        self.fields = fields;
        Ok(())
    }

    /// Whether the row calls this.
    pub fn calls(&self, call: &str) -> bool {
        match self.fields.first() {
            Some(first) => first.as_str() == call,
            None => false,
        }
    }

    /// Names octets for the rows behind: `let NAME OCTETS`.
    pub fn define(&mut self) -> Result<Option<String>, RowError> {
        let name = String::from_str(self.alloc, self.text(0)?)?;
        let octets = self.octets(1)?;
        self.named.insert(name, octets)?;
        Ok(None)
    }

    /// How many arguments the row has.
    pub fn count(&self) -> usize {
        self.fields.len().saturating_sub(1)
    }

    /// The argument with so many others before it, as it is written.
    pub fn text(&self, place: usize) -> Result<&str, RowError> {
        match self.fields.get(place.saturating_add(1)) {
            Some(field) => Ok(field.as_str()),
            None => Err(RowError::Malformed),
        }
    }

    /// The octets that the argument writes.
    pub fn octets(&self, place: usize) -> Result<Vec<u8>, RowError> {
        written::octets_of(self.alloc, self.text(place)?, &self.named)
    }

    /// The number that the argument is, in decimal.
    pub fn number(&self, place: usize) -> Result<u64, RowError> {
        written::number_of(self.text(place)?)
    }

    /// The same of a number below 2^8.
    pub fn number8(&self, place: usize) -> Result<u8, RowError> {
        match u8::try_from(self.number(place)?) {
            Ok(number) => Ok(number),
            Err(_) => Err(RowError::Malformed),
        }
    }

    /// The same of a number below 2^16.
    pub fn number16(&self, place: usize) -> Result<u16, RowError> {
        match u16::try_from(self.number(place)?) {
            Ok(number) => Ok(number),
            Err(_) => Err(RowError::Malformed),
        }
    }

    /// The same of a number below 2^32.
    pub fn number32(&self, place: usize) -> Result<u32, RowError> {
        match u32::try_from(self.number(place)?) {
            Ok(number) => Ok(number),
            Err(_) => Err(RowError::Malformed),
        }
    }

    /// The name that the argument is.
    pub fn name(&self, place: usize) -> Result<Name, RowError> {
        match Name::parse(self.text(place)?.as_bytes()) {
            Ok(name) => Ok(name),
            Err(_) => Err(RowError::Malformed),
        }
    }
}
