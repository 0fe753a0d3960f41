//! Files of questions.
ghost use Rattle.std.specs.Prelude.{◌≡◌, ◌<◌, ◌≤◌, ◌⊎◌, Err, List, ℕ, length, IfErr, IfOk, OnErr, OnOk};
ghost use Rattle.dnsv_questions.specs.QuestionFile.{AreQuestionsOf, BeginsWithQuestion, IsAskedLine, IsFaultOf, IsFaultOfLine};
ghost use Rattle.dnsv_questions.specs.declared.error.QuestionsError.{QuestionsError};
ghost use Rattle.dnsv_questions.specs.Question.{Asked};

use crate::error::QuestionsError;
use crate::line::asked_of;
use crate::stored_question::StoredQuestion;
use dnsv_names::{Line, Lines};
use std::alloc::{AllocError, Global};
use std::marker::Model;

/// How many questions a file has at most.
const QUESTION_LIMIT: usize = 1_048_576;

/// The questions of a file, in the order of its lines: at most 1,048,576. A repeat counts.
#[derive(Debug, Drop)]
pub struct Questions {
    questions: Vec<StoredQuestion>,
}

impl Model for Questions {
    ghost use Rattle.std.specs.Prelude.{List};
    ghost use Rattle.dnsv_questions.specs.Question.{Asked};

    ghost Value = { List Asked };

    ghost view = { λ questions. questions.questions.items };
}

impl Questions {
    /// Reads a file of questions: a line each, the text of a name, which ends with the dot of the root, and the number
    /// of a type, decimal and with no zero in front, with one space between them. Empty lines and lines that begin with
    /// `#` are passed over, but counted. Whether the type can be asked at the name is no matter of the file.
    ///
    /// The first line with a fault counts: `Syntax` where it is no question, else `TooMany` where 1,048,576 questions,
    /// repeats among them, stand before it. A fault is reported whatever memory there is. Want of memory is reported only
    /// where the first line is a question, so a file that is empty or of comments alone is always read.
    pub fn parse(alloc: Global, text: &[u8]) -> Result<Questions, QuestionsError>
        // What is read is what the file asks.
        ensures found { IfOk result (AreQuestionsOf text.now) }
        // A refusal is the first fault, unless memory was refused.
        ensures fault { IfErr result (λ error. (error ≡ QuestionsError.OutOfMemory) ⊎ IsFaultOf text.now error) }
        // A fault is told, whatever memory there is.
        ensures every_fault { (fault : QuestionsError) → IsFaultOf text.now fault → result ≡ Err fault }
        // Memory is wanted only where the first line is a question.
        ensures memory { IfErr result (λ error. error ≡ QuestionsError.OutOfMemory → BeginsWithQuestion text.now) }
    {
        test_lines(text)?;
        let questions = questions_of(alloc, text)?;
        Ok(Questions { questions })
    }

    /// The questions, in the order of their lines.
    pub fn as_slice(&self) -> &[StoredQuestion]
        ensures { result.now ≡ self.now }
    {
        &self.questions
    }
}

/// A law of files of questions: a text is one list of questions or has one first fault, never both, and no text has
/// neither.
pub fn a_text_is_one_list_of_questions()
    ensures questions { (text : List ℕ) (a b : List Asked) → AreQuestionsOf text a → AreQuestionsOf text b → a ≡ b }
    ensures fault { (text : List ℕ) (a b : QuestionsError) → IsFaultOf text a → IsFaultOf text b → a ≡ b }
    ensures apart { (text : List ℕ) (questions : List Asked) (fault : QuestionsError) → AreQuestionsOf text questions
        → IsFaultOf text fault → ⊥ }
    ensures either { (text : List ℕ) → ((questions : List Asked) → AreQuestionsOf text questions → ⊥)
        → ((fault : QuestionsError) → IsFaultOf text fault → ⊥) → ⊥ }
{}

/// Tests the lines of a file before a question is kept, so that no fault waits for memory.
fn test_lines(text: &[u8]) -> Result<(), QuestionsError>
    ensures asked { OnOk result ((questions : List Asked) × AreQuestionsOf text.now questions) }
    ensures fault { IfErr result (IsFaultOf text.now) }
{
    let mut before = 0;
    for line in Lines::new(text) {
        test_line(&line, before)?;
        before += 1;
    }
    Ok(())
}

/// Tests a line behind this many questions.
fn test_line(line: &Line, before: usize) -> Result<(), QuestionsError>
    requires { before ≤ 1048576 }
    ensures asked { OnOk result (((asked : Asked) × IsAskedLine line.now.octets asked) × (before < 1048576)) }
    ensures fault { IfErr result (λ error. (questions : List Asked) → length questions ≡ before
        → IsFaultOfLine error line.now questions) }
{
    let Some(_asked) = asked_of(line) else {
        return Err(QuestionsError::Syntax(line.number()));
    };
    if before >= QUESTION_LIMIT {
        return Err(QuestionsError::TooMany(line.number()));
    }
    Ok(())
}

/// The questions of a file without a fault. Where memory is refused, its first line is a question.
fn questions_of(alloc: Global, text: &[u8]) -> Result<Vec<StoredQuestion>, AllocError>
    requires { (questions : List Asked) × AreQuestionsOf text.now questions }
    ensures found { IfOk result (λ questions. AreQuestionsOf text.now questions.items) }
    ensures memory { OnErr result (BeginsWithQuestion text.now) }
{
    let mut questions = Vec::new(alloc);
    for line in Lines::new(text) {
        if let Some((name, rtype)) = asked_of(&line) {
            questions.push(StoredQuestion::of(alloc, &name, rtype)?)?;
        }
    }
    Ok(questions)
}
