//! Why a text is no file of answers, or not one of this list.
ghost use Rattle.std.specs.Prelude.{◌≡◌};
ghost use Rattle.dnsv_answers.specs.AnswersError.{answers_error_code};

use std::alloc::{AllocError, AllocFailed};
use thiserror::Error;

/// What keeps a text from being the answers to a list. Each has a number that stays, and a fault names its line, the file's
/// first being 1, where there is one.
#[derive(Clone, Copy, Debug, PartialEq, Eq, Error)]
pub enum AnswersError {
    /// 90: memory was refused.
    #[error("memory was refused")]
    OutOfMemory,
    /// 805: the first line is no heading, or another is no answer; or there is no line.
    #[error("a line is no answer")]
    Syntax(Option<usize>),
    /// 806: the heading, in the line of this number, is that of another list.
    #[error("line {0} names another list")]
    OtherList(usize),
    /// 807: there are not as many answers as entries. The line is that of the first answer too many.
    #[error("there are not as many answers as entries")]
    Count(Option<usize>),
}

impl AnswersError {
    /// The number of the error.
    pub fn code(&self) -> u16
        ensures { result ≡ answers_error_code self.now }
    {
        match self {
            AnswersError::OutOfMemory => 90,
            AnswersError::Syntax(_) => 805,
            AnswersError::OtherList(_) => 806,
            AnswersError::Count(_) => 807,
        }
    }
}

impl From<AllocError> for AnswersError {
    ghost use Rattle.dnsv_answers.specs.declared.error.AnswersError.TheVariants.{OutOfMemory};

    ghost from_gives = { λ _ error. error ≡ OutOfMemory };

    fn from(_refused: AllocError) -> AnswersError {
        AnswersError::OutOfMemory
    }
}

impl<T: Drop> From<AllocFailed<T>> for AnswersError {
    ghost use Rattle.dnsv_answers.specs.declared.error.AnswersError.TheVariants.{OutOfMemory};

    ghost from_gives = { λ _ error. error ≡ OutOfMemory };

    fn from(_refused: AllocFailed<T>) -> AnswersError {
        AnswersError::OutOfMemory
    }
}
