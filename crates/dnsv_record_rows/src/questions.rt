//! Calls of `dnsv_questions`.

use dnsv_questions::{Questions, QuestionsError, StoredQuestion};
use dnsv_row_text::{Row, RowError, list_text};
use std::alloc::Global;

/// What the library answers, where it has the call.
pub fn answer(row: &Row) -> Result<Option<String>, RowError> {
    if row.calls("questions") {
        return Ok(Some(questions(row)?));
    }
    if row.calls("question-list") {
        return Ok(Some(question_list(row)?));
    }
    Ok(None)
}

/// `questions TEXT`: how many questions the text has, or its refusal.
fn questions(row: &Row) -> Result<String, RowError> {
    match Questions::parse(row.alloc(), row.octets(0)?.as_slice()) {
        Ok(questions) => {
            let count = questions.as_slice().len();
            Ok(format!(in row.alloc(); "{count}")?)
        }
        Err(error) => refused(row.alloc(), &error),
    }
}

/// `question-list TEXT`: each question of the text, `NAME:TYPE`, in brackets where it can't be asked; or its refusal.
fn question_list(row: &Row) -> Result<String, RowError> {
    let questions = match Questions::parse(row.alloc(), row.octets(0)?.as_slice()) {
        Ok(questions) => questions,
        Err(error) => return refused(row.alloc(), &error),
    };
    let mut texts = Vec::new(row.alloc());
    for question in questions.as_slice() {
        texts.push(question_text(row.alloc(), question)?)?;
    }
    list_text(row.alloc(), texts.as_slice())
}

fn question_text(alloc: Global, stored: &StoredQuestion) -> Result<String, RowError> {
    Ok(match stored.question() {
        Some(question) => {
            let (name, rtype) = (question.name(), question.rtype().0);
            format!(in alloc; "{name}:{rtype}")?
        }
        None => {
            let (name, rtype) = (stored.name(), stored.rtype().0);
            format!(in alloc; "({name}:{rtype})")?
        }
    })
}

fn refused(alloc: Global, error: &QuestionsError) -> Result<String, RowError> {
    let code = error.code();
    Ok(match error {
        QuestionsError::OutOfMemory => format!(in alloc; "refused {code}")?,
        QuestionsError::Syntax(line) | QuestionsError::TooMany(line) => {
            format!(in alloc; "refused {code} line {line}")?
        }
    })
}
