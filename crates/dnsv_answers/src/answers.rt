//! Files of answers.
ghost use Rattle.std.specs.Prelude.{◌≡◌, ◌≢◌, ◌⊎◌, ◌∷◌, [], Err, List, ℕ, length, IfErr, IfOk, OnErr, OnOk};
ghost use Rattle.dnsv_names.specs.Lines.{HasLines, NumberedLine};
ghost use Rattle.dnsv_answers.specs.AnswerFile.{AnswersContents, AreAnswersOf, AreMiscounted, AreOf, AreOfOther, AreSoMany, HasLineBehindHeading, IsFaultOf, IsFirstNoAnswer, SayAnswers};
ghost use Rattle.dnsv_answers.specs.declared.error.AnswersError.{AnswersError};
ghost use Rattle.dnsv_answers.specs.declared.said.SaidAnswer.{SaidAnswer};

use crate::error::AnswersError;
use crate::heading::{Heading, Moments, heading_of};
use crate::said::{SaidAnswer, answer_of};
use dnsv_names::{Line, Lines};
use std::alloc::{AllocError, Global};
use std::marker::Model;

/// What a verifier says of the entries of a list, in their order, and of which list that is.
#[derive(Debug, Drop)]
pub struct Answers {
    heading: Heading,
    line: usize,
    said: Vec<SaidAnswer>,
}

impl Model for Answers {
    ghost use Rattle.dnsv_answers.specs.AnswerFile.{AnswersContents};

    ghost Value = { AnswersContents };

    ghost view = { λ answers. record {
      heading = answers.heading;
      line = answers.line;
      said = answers.said.items;
    } };
}

impl Answers {
    /// Reads a file of answers. Its first line is `of`, the SHA-256 of the capture's octets, and the moment, or the first
    /// and the last of a range; each other line is `good`, `bad` or `-`. Empty lines and lines that begin with `#` are
    /// passed over, but counted.
    ///
    /// The first line with a fault counts. It is reported whatever memory there is; a file without lines is at fault too.
    /// A heading alone takes no memory.
    pub fn parse(alloc: Global, text: &[u8]) -> Result<Answers, AnswersError>
        // What is read is what the file says.
        ensures found { IfOk result (AreAnswersOf text.now) }
        // A refusal is the first fault, unless memory was refused.
        ensures fault { IfErr result (λ error. (error ≡ AnswersError.OutOfMemory) ⊎ IsFaultOf text.now error) }
        // A fault is told, whatever memory there is.
        ensures every_fault { (fault : AnswersError) → IsFaultOf text.now fault → result ≡ Err fault }
        // Memory is wanted only where a line stands behind the heading.
        ensures memory { IfErr result (λ error. error ≡ AnswersError.OutOfMemory → HasLineBehindHeading text.now) }
    {
        let mut lines = Lines::new(text);
        let Some(first) = lines.next() else {
            return Err(AnswersError::Syntax(None));
        };
        let Some(heading) = heading_of(&first) else {
            return Err(AnswersError::Syntax(Some(first.number())));
        };
        test_answers(lines)?;
        let said = answers_behind(alloc, text)?;
        Ok(Answers {
            heading,
            line: first.number(),
            said,
        })
    }

    /// Of which list they are.
    pub fn heading(&self) -> Heading
        ensures { result ≡ self.now.heading }
    {
        self.heading
    }

    /// The answers, in the order of their lines.
    pub fn as_slice(&self) -> &[SaidAnswer]
        ensures { result.now ≡ self.now.said }
    {
        &self.said
    }

    /// Tests that they are said of the capture whose octets have this SHA-256, and of the moment or just the range.
    /// Answers of a range aren't those of one moment, even where the range has no other.
    pub fn test_list(&self, digest: &[u8; 32], moments: &Moments) -> Result<(), AnswersError>
        ensures are { OnOk result (AreOf self.now.heading digest.now moments.now) }
        ensures other { IfErr result (AreOfOther self.now digest.now moments.now) }
    {
        if self.heading.digest != *digest || self.heading.moments != *moments {
            return Err(AnswersError::OtherList(self.line));
        }
        Ok(())
    }

    /// Tests that there are so many.
    pub fn test_count(&self, count: usize) -> Result<(), AnswersError>
        ensures are { OnOk result (AreSoMany self.now count) }
        ensures other { IfErr result (AreMiscounted self.now count) }
    {
        if self.said.len() < count {
            return Err(AnswersError::Count(None));
        }
        match self.said.get(count) {
            Some(said) => Err(AnswersError::Count(Some(said.line))),
            None => Ok(()),
        }
    }
}

/// A law of files of answers: a text is one heading with answers, or has one first fault, never both, and no text has
/// neither.
pub fn a_text_is_one_list_of_answers()
    ensures answers { (text : List ℕ) (a b : AnswersContents) → AreAnswersOf text a → AreAnswersOf text b → a ≡ b }
    ensures fault { (text : List ℕ) (a b : AnswersError) → IsFaultOf text a → IsFaultOf text b → a ≡ b }
    ensures apart { (text : List ℕ) (contents : AnswersContents) (fault : AnswersError) → AreAnswersOf text contents
        → IsFaultOf text fault → ⊥ }
    ensures either { (text : List ℕ) → ((contents : AnswersContents) → AreAnswersOf text contents → ⊥)
        → ((fault : AnswersError) → IsFaultOf text fault → ⊥) → ⊥ }
{}

/// Tests the lines behind the heading before an answer is kept, so that no fault waits for memory.
fn test_answers(lines: Lines<'_>) -> Result<(), AnswersError>
    ensures said { OnOk result ((said : List SaidAnswer) × SayAnswers lines.entry said) }
    ensures fault { IfErr result (IsFirstNoAnswer lines.entry) }
{
    for line in lines {
        let Some(_answer) = answer_of(&line) else {
            return Err(AnswersError::Syntax(Some(line.number())));
        };
    }
    Ok(())
}

/// The answers behind the first line.
fn answers_behind(alloc: Global, text: &[u8]) -> Result<Vec<SaidAnswer>, AllocError>
    requires { (first : NumberedLine) × (others : List NumberedLine) × HasLines text.now (first ∷ others)
        × ((said : List SaidAnswer) × SayAnswers others said) }
    ensures said { IfOk result (λ said. (first : NumberedLine) × (others : List NumberedLine)
        × HasLines text.now (first ∷ others) × SayAnswers others said.items) }
    ensures memory { OnErr result ((first : NumberedLine) × (others : List NumberedLine)
        × HasLines text.now (first ∷ others) × (others ≢ [])) }
{
    let mut lines = Lines::new(text);
    let Some(_heading) = lines.next() else {
        unreachable!();
    };
    let said = answers_in(alloc, lines)?;
    Ok(said)
}

/// The answers that these lines say.
fn answers_in(alloc: Global, lines: Lines<'_>) -> Result<Vec<SaidAnswer>, AllocError>
    requires { (said : List SaidAnswer) × SayAnswers lines said }
    ensures said { IfOk result (λ said. SayAnswers lines.entry said.items) }
    ensures memory { OnErr result (lines.entry ≢ []) }
{
    let mut said = Vec::new(alloc);
    for line in lines {
        if let Some(answer) = answer_of(&line) {
            said.push(SaidAnswer {
                line: line.number(),
                answer,
            })?;
        }
    }
    Ok(said)
}
