//! Why a text is no file of questions.
ghost use Rattle.std.specs.Prelude.{◌≡◌};
ghost use Rattle.dnsv_questions.specs.QuestionsError.{questions_error_code};

use std::alloc::{AllocError, AllocFailed};
use thiserror::Error;

/// What keeps a text from being a file of questions. Each has a number that stays, and a fault names its line, the file's
/// first being 1.
#[derive(Clone, Copy, Debug, PartialEq, Eq, Error)]
pub enum QuestionsError {
    /// 90: memory was refused.
    #[error("memory was refused")]
    OutOfMemory,
    /// 803: the line of this number isn't a name and the number of a type.
    #[error("line {0} is no question")]
    Syntax(usize),
    /// 804: the line of this number is the 1,048,577th question.
    #[error("line {0} is the 1048577th question")]
    TooMany(usize),
}

impl QuestionsError {
    /// The number of the error.
    pub fn code(&self) -> u16
        ensures { result ≡ questions_error_code self.now }
    {
        match self {
            QuestionsError::OutOfMemory => 90,
            QuestionsError::Syntax(_) => 803,
            QuestionsError::TooMany(_) => 804,
        }
    }
}

impl From<AllocError> for QuestionsError {
    ghost use Rattle.dnsv_questions.specs.declared.error.QuestionsError.TheVariants.{OutOfMemory};

    ghost from_gives = { λ _ error. error ≡ OutOfMemory };

    fn from(_refused: AllocError) -> QuestionsError {
        QuestionsError::OutOfMemory
    }
}

impl<T: Drop> From<AllocFailed<T>> for QuestionsError {
    ghost use Rattle.dnsv_questions.specs.declared.error.QuestionsError.TheVariants.{OutOfMemory};

    ghost from_gives = { λ _ error. error ≡ OutOfMemory };

    fn from(_refused: AllocFailed<T>) -> QuestionsError {
        QuestionsError::OutOfMemory
    }
}
