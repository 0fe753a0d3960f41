//! What keeps a question from being judged.
ghost use Rattle.std.specs.Prelude.{◌≡◌};

use std::alloc::{AllocError, AllocFailed};
use thiserror::Error;

/// What keeps a question from being judged. Each has a number that stays.
#[derive(Clone, Copy, Debug, PartialEq, Eq, Error)]
pub enum VerdictError {
    /// 90: memory was refused.
    #[error("memory was refused")]
    OutOfMemory,
    /// 701: the type can't be asked at the name, or at the target of an alias.
    #[error("the type can't be asked at the name")]
    BadQuestion,
    /// 702: an alias leads back to a name that led to it.
    #[error("an alias leads back to a name that led to it")]
    AliasLoop,
    /// 703: more than eight aliases lead on from the name.
    #[error("more than eight aliases lead on from the name")]
    TooManyLinks,
    /// 704: an alias has no one target.
    #[error("an alias has no one target")]
    AliasTargets,
}

impl VerdictError {
    ghost use Rattle.dnsv_verdict.specs.VerdictError.{verdict_error_code};

    /// The number of the error.
    pub fn code(self) -> u16
        ensures { result ≡ verdict_error_code self }
    {
        match self {
            VerdictError::OutOfMemory => 90,
            VerdictError::BadQuestion => 701,
            VerdictError::AliasLoop => 702,
            VerdictError::TooManyLinks => 703,
            VerdictError::AliasTargets => 704,
        }
    }
}

impl From<AllocError> for VerdictError {
    ghost use Rattle.std.specs.Prelude.{◌≡◌};
    ghost use Rattle.dnsv_verdict.specs.declared.error.VerdictError.TheVariants.{OutOfMemory};

    ghost from_gives = { λ _ error. error ≡ OutOfMemory };

    fn from(_error: AllocError) -> VerdictError {
        VerdictError::OutOfMemory
    }
}

impl<T: Drop> From<AllocFailed<T>> for VerdictError {
    ghost use Rattle.std.specs.Prelude.{◌≡◌};
    ghost use Rattle.dnsv_verdict.specs.declared.error.VerdictError.TheVariants.{OutOfMemory};

    ghost from_gives = { λ _ error. error ≡ OutOfMemory };

    fn from(_refused: AllocFailed<T>) -> VerdictError {
        VerdictError::OutOfMemory
    }
}
