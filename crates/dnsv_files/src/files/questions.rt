//! Files of questions.
ghost use Rattle.std.specs.Prelude.{◌≡◌};
ghost use Rattle.dnsv_questions.specs.QuestionsError.{questions_error_code};
ghost use Rattle.dnsv_files.specs.Status.{fault_number};
ghost use Rattle.dnsv_files.specs.Told.{IsQuestionsFault};

use crate::files::text::{FromText, refused_line};
use crate::status::{Fault, Refusal};
use dnsv_questions::{Questions, QuestionsError};
use std::alloc::Global;

impl FromText for Questions {
    ghost use Rattle.dnsv_questions.specs.QuestionFile.{BeginsWithQuestion};
    ghost use Rattle.dnsv_files.specs.Files.Questions.{AreQuestionsRefused, HasQuestions};

    ghost says = { HasQuestions };

    ghost is_refused = { AreQuestionsRefused };

    ghost begins = { BeginsWithQuestion };

    ghost waits = { λ _. ⊥ };

    fn from_text(alloc: Global, text: &[u8]) -> Result<Questions, Fault> {
        match Questions::parse(alloc, text) {
            Ok(questions) => Ok(questions),
            Err(error) => Err(questions_fault(error)),
        }
    }
}

/// The fault of a text that is no questions.
fn questions_fault(error: QuestionsError) -> Fault
    ensures told { IsQuestionsFault error result }
    ensures number { fault_number result ≡ questions_error_code error }
{
    match error {
        QuestionsError::OutOfMemory => Fault::OutOfMemory,
        QuestionsError::Syntax(line) | QuestionsError::TooMany(line) => {
            refused_line(Refusal::QuestionLine(error), line)
        }
    }
}
