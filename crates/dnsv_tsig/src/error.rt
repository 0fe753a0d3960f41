//! Why a kept message isn't what a server signed.
ghost use Rattle.std.specs.Prelude.{◌≡◌};
ghost use Rattle.dnsv_tsig.specs.Errors.{key_file_error_code, tsig_error_code, unreadable_as};

use dnsv_message::DecodeError;
use std::alloc::{AllocError, AllocFailed};
use thiserror::Error;

/// Why octets are not a message that was signed with a key of the ring: the first test that they fail.
#[derive(Clone, Copy, Debug, PartialEq, Eq, Error)]
pub enum TsigError {
    #[error("out of memory")]
    OutOfMemory,
    /// The octets are no message. The error is never [`DecodeError::OutOfMemory`].
    #[error("{0}")]
    Unreadable(DecodeError),
    /// No record is a TSIG record.
    #[error("the message is not signed")]
    NoTsig,
    /// There are several TSIG records, or the one is not the last of the additional section, is not of class ANY,
    /// has a TTL, is not laid out as RFC 8945 4.2 says, or has a MAC of fewer than 16 or more than 32 octets.
    #[error("the signature is not formed as it has to be")]
    Form,
    /// The key is not in the ring, or the algorithm is not `hmac-sha256.`.
    #[error("the key or the algorithm is unknown")]
    BadKey,
    /// The MAC is neither the right one nor a beginning of it.
    #[error("the MAC is wrong")]
    BadMac,
    /// The moment is too far from the time of signing.
    #[error("the moment is not within the signature's time")]
    BadTime,
    /// The MAC is only a beginning of the right one.
    #[error("the MAC is truncated")]
    TruncatedMac,
    /// The signer reports an error.
    #[error("the signer tells an error")]
    PeerError,
}

impl TsigError {
    /// The number by which the error is reported.
    pub fn code(&self) -> u16
        ensures { result ≡ tsig_error_code self.now }
    {
        match self {
            TsigError::OutOfMemory => 90,
            TsigError::Unreadable(error) => error.code(),
            TsigError::NoTsig => 310,
            TsigError::Form => 311,
            TsigError::BadKey => 312,
            TsigError::BadMac => 313,
            TsigError::BadTime => 314,
            TsigError::TruncatedMac => 315,
            TsigError::PeerError => 316,
        }
    }
}

impl From<DecodeError> for TsigError {
    ghost from_gives = { λ error told. told ≡ unreadable_as error };

    fn from(error: DecodeError) -> TsigError {
        match error {
            DecodeError::OutOfMemory => TsigError::OutOfMemory,
            error => TsigError::Unreadable(error),
        }
    }
}

impl From<AllocError> for TsigError {
    ghost use Rattle.dnsv_tsig.specs.declared.error.TsigError.TheVariants.{OutOfMemory};

    ghost from_gives = { λ _ error. error ≡ OutOfMemory };

    fn from(_refused: AllocError) -> TsigError {
        TsigError::OutOfMemory
    }
}

/// Why a text is no file of keys. Each but want of memory names the line, the first having the number 1.
#[derive(Clone, Copy, Debug, PartialEq, Eq, Error)]
pub enum KeyFileError {
    #[error("out of memory")]
    OutOfMemory,
    /// The line isn't a name and a key in base64, with one space between them.
    #[error("line {0} is no key")]
    Syntax(usize),
    /// An equal name stood before.
    #[error("line {0} names a key again")]
    DuplicateKey(usize),
}

impl KeyFileError {
    /// The number by which the error is reported.
    pub fn code(&self) -> u16
        ensures { result ≡ key_file_error_code self.now }
    {
        match self {
            KeyFileError::OutOfMemory => 90,
            KeyFileError::Syntax(_) => 301,
            KeyFileError::DuplicateKey(_) => 302,
        }
    }
}

impl From<AllocError> for KeyFileError {
    ghost use Rattle.dnsv_tsig.specs.declared.error.KeyFileError.TheVariants.{OutOfMemory};

    ghost from_gives = { λ _ error. error ≡ OutOfMemory };

    fn from(_refused: AllocError) -> KeyFileError {
        KeyFileError::OutOfMemory
    }
}

impl<T: Drop> From<AllocFailed<T>> for KeyFileError {
    ghost use Rattle.dnsv_tsig.specs.declared.error.KeyFileError.TheVariants.{OutOfMemory};

    ghost from_gives = { λ _ error. error ≡ OutOfMemory };

    fn from(_refused: AllocFailed<T>) -> KeyFileError {
        KeyFileError::OutOfMemory
    }
}
