//! The numbers of the entries that answers leave open, and the table that answers make.
ghost use Rattle.std.specs.Prelude.{◌≡◌, ◌∷◌, ◌++◌, [], ℕ, IfErr, IfOk, OnOk, map};
ghost use Rattle.std.specs.Option.{option_map};
ghost use Rattle.dnsv_answers.specs.AnswerFile.{answers_in};
ghost use Rattle.dnsv_answers.specs.Answered.{IsAnsweredTableWithin};
ghost use Rattle.dnsv_files.specs.Files.Answers.{AreTooManyOrFew};
ghost use Rattle.dnsv_files.specs.Bounds.{begin_of, end_of};
ghost use Rattle.dnsv_files.specs.Told.{IsFaultOf};
ghost use Rattle.dnsv_work.specs.Known.{numbers_said, open_numbers};
ghost use Rattle.dnsv_work.specs.Span.{moments_of};

use crate::given::Said;
use crate::span::Span;
use bumpalo::Bump;
use dnsv_answers::{Answers, SaidAnswer, answered_table_within};
use dnsv_canonical::Capture;
use dnsv_files::{Fault, answers_fault};
use dnsv_verifier::{Answer, Table};
use std::alloc::{AllocError, Global};
use std::marker::Model;

/// The numbers that entries have in the capture's list, from 1, which answers leave open; none where there are no
/// answers.
#[derive(Drop)]
pub struct OpenNumbers {
    numbers: Option<Vec<usize>>,
}

impl Model for OpenNumbers {
    ghost use Rattle.std.specs.Prelude.{List, Option, ℕ};
    ghost use Rattle.std.specs.Option.{option_map};

    ghost Value = { Option (List ℕ) };

    ghost view = { λ each. option_map (λ numbers. numbers.items) each.numbers };
}

impl OpenNumbers {
    /// Those of what is said of signatures.
    pub fn of(alloc: Global, said: &Said) -> Result<OpenNumbers, AllocError>
        ensures { IfOk result (λ made. made ≡ numbers_said said.now) }
    {
        match said {
            Said::Statements(_) => Ok(OpenNumbers { numbers: None }),
            Said::Answers(answers) => {
                let numbers = open_places(alloc, answers.as_slice())?;
                Ok(OpenNumbers {
                    numbers: Some(numbers),
                })
            }
        }
    }

    /// The numbers, where there are answers.
    pub fn as_slice(&self) -> Option<&[usize]>
        ensures { option_map (λ numbers. numbers.now) result ≡ self.now }
    {
        match &self.numbers {
            Some(numbers) => Some(numbers.as_slice()),
            None => None,
        }
    }
}

/// The numbers of the answers that leave an entry open.
fn open_places(alloc: Global, said: &[SaidAnswer]) -> Result<Vec<usize>, AllocError>
    ensures { IfOk result (λ numbers. numbers.items ≡ open_numbers 1 (map (λ each. each.answer) said.now)) }
{
    let mut numbers = Vec::new(alloc);
    for (index, each) in said.iter().enumerate() {
        push_open(&mut numbers, index + 1, each)?;
    }
    Ok(numbers)
}

/// Adds the number of the answer, where that leaves an entry open.
fn push_open(numbers: &mut Vec<usize>, number: usize, said: &SaidAnswer) -> Result<(), AllocError>
    ensures { OnOk result (numbers.new.items ≡ numbers.old.items ++ open_numbers number (said.now.answer ∷ [])) }
{
    match said.answer {
        Answer::Unknown => Ok(numbers.push(number)?),
        Answer::Valid | Answer::Invalid => Ok(()),
    }
}

/// The table of the entries that are asked at the moments, with their answers; the fault is that there are more or fewer of
/// these.
pub fn table_of<'a>(
    alloc: Global,
    bump: &'a Bump,
    held: &'a Capture<'a>,
    span: &Span,
    answers: &Answers,
) -> Result<Table<'a>, Fault>
    ensures table { IfOk result (IsAnsweredTableWithin (begin_of (moments_of span.now)) (end_of (moments_of span.now))
        held.now.rrsets (answers_in answers.now)) }
    ensures fault { IfErr result (IsFaultOf (AreTooManyOrFew (moments_of span.now) held.now.rrsets answers.now)) }
{
    match answered_table_within(alloc, bump, held, span.range(), answers) {
        Ok(table) => Ok(table),
        Err(error) => Err(answers_fault(error)),
    }
}
