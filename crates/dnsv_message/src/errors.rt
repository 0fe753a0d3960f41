//! Why octets are no message, and why a stream has none.
ghost use Rattle.std.specs.Prelude.{◌≡◌};
ghost use Rattle.dnsv_message.specs.declared.errors.DecodeError.TheVariants.{OutOfMemory};
ghost use Rattle.dnsv_message.specs.Errors.{decode_error_of, decode_error_code};

use std::alloc::{AllocError, AllocFailed};
use std::io;
use thiserror::Error;

/// Why octets spell no name at a place, the first that applies (RFC 1035 4.1.4).
#[derive(Clone, Copy, Debug, PartialEq, Eq, Error)]
pub enum NameFault {
    /// Octets that the name needs are not there.
    #[error("the name is cut short")]
    Short,
    /// A length octet has the top bits 01 or 10.
    #[error("a label's length has unknown top bits")]
    BadLabel,
    /// A pointer leads to its own run of labels or past it.
    #[error("a pointer doesn't lead back")]
    BadPointer,
    /// A 33rd pointer stands in the name.
    #[error("the name has more than 32 pointers")]
    TooManyPointers,
    /// The name has more than 255 octets, written out.
    #[error("the name has more than 255 octets")]
    LongName,
}

/// Why octets are no message: the first fault from left to right.
#[derive(Clone, Copy, Debug, PartialEq, Eq, Error)]
pub enum DecodeError {
    #[error("out of memory")]
    OutOfMemory,
    /// Octets are missing, an RDATA's too.
    #[error("the message is cut short")]
    Short,
    /// See [`NameFault::BadLabel`].
    #[error("a label's length has unknown top bits")]
    BadLabel,
    /// See [`NameFault::BadPointer`].
    #[error("a pointer doesn't lead back")]
    BadPointer,
    /// See [`NameFault::TooManyPointers`].
    #[error("a name has more than 32 pointers")]
    TooManyPointers,
    /// See [`NameFault::LongName`].
    #[error("a name has more than 255 octets")]
    LongName,
    /// The RDATA of the record with this number, from 1 on, is not laid out as its type asks.
    #[error("the RDATA of record {0} is not laid out as its type asks")]
    BadRdata(usize),
    /// Octets are left over behind the last record.
    #[error("octets are left over")]
    TrailingBytes,
}

impl DecodeError {
    /// The number by which a person is told of the error.
    pub fn code(&self) -> u16
        ensures { result ≡ decode_error_code self.now }
    {
        match self {
            DecodeError::OutOfMemory => 90,
            DecodeError::Short => 201,
            DecodeError::BadLabel => 202,
            DecodeError::BadPointer => 203,
            DecodeError::TooManyPointers => 204,
            DecodeError::LongName => 205,
            DecodeError::BadRdata(_) => 206,
            DecodeError::TrailingBytes => 207,
        }
    }
}

impl From<NameFault> for DecodeError {
    ghost from_gives = { λ fault error. error ≡ decode_error_of fault };

    fn from(fault: NameFault) -> DecodeError {
        match fault {
            NameFault::Short => DecodeError::Short,
            NameFault::BadLabel => DecodeError::BadLabel,
            NameFault::BadPointer => DecodeError::BadPointer,
            NameFault::TooManyPointers => DecodeError::TooManyPointers,
            NameFault::LongName => DecodeError::LongName,
        }
    }
}

impl From<AllocError> for DecodeError {
    ghost from_gives = { λ _ error. error ≡ OutOfMemory };

    fn from(_refused: AllocError) -> DecodeError {
        DecodeError::OutOfMemory
    }
}

impl<T: Drop> From<AllocFailed<T>> for DecodeError {
    ghost from_gives = { λ _ error. error ≡ OutOfMemory };

    fn from(_refused: AllocFailed<T>) -> DecodeError {
        DecodeError::OutOfMemory
    }
}

/// Why a file wasn't read.
#[derive(Clone, Copy, Debug, PartialEq, Eq, Error)]
pub enum ReadError {
    /// Memory ran out.
    #[error("out of memory")]
    OutOfMemory,
    /// The reader failed.
    #[error("the input could not be read")]
    Read,
    /// The file has more octets than [`FILE_LIMIT`](crate::FILE_LIMIT).
    #[error("the input is too long")]
    TooLong,
    /// A frame's length is 0 (RFC 1035 4.2.2).
    #[error("a message has the length 0")]
    ZeroLength,
    /// The file ends within a frame (RFC 1035 4.2.2).
    #[error("the input ends within a message")]
    TornFrame,
}

impl ReadError {
    ghost use Rattle.dnsv_message.specs.ReadError.{read_error_code};

    /// The number of the error, by which programs tell it.
    pub fn code(self) -> u16
        ensures { result ≡ read_error_code self }
    {
        match self {
            ReadError::OutOfMemory => 90,
            ReadError::Read => 210,
            ReadError::TooLong => 211,
            ReadError::ZeroLength => 208,
            ReadError::TornFrame => 209,
        }
    }
}

impl From<AllocError> for ReadError {
    ghost use Rattle.dnsv_message.specs.declared.errors.ReadError.TheVariants.{OutOfMemory};

    ghost from_gives = { λ _ e. e ≡ OutOfMemory };

    fn from(_e: AllocError) -> ReadError {
        ReadError::OutOfMemory
    }
}

impl<T: Drop> From<AllocFailed<T>> for ReadError {
    ghost use Rattle.dnsv_message.specs.declared.errors.ReadError.TheVariants.{OutOfMemory};

    ghost from_gives = { λ _ e. e ≡ OutOfMemory };

    fn from(_e: AllocFailed<T>) -> ReadError {
        ReadError::OutOfMemory
    }
}

impl From<io::Error> for ReadError {
    ghost use Rattle.dnsv_message.specs.declared.errors.ReadError.TheVariants.{Read};

    ghost from_gives = { λ _ e. e ≡ Read };

    fn from(_e: io::Error) -> ReadError {
        ReadError::Read
    }
}
