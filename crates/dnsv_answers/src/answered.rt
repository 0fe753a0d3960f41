//! What answers by number say: the table of a capture's entries with them.
ghost use Rattle.std.specs.Prelude.{◌≡◌, ◌⊎◌, ℕ, Err, IfErr, IfOk, List, OnOk, length, map};
ghost use Rattle.dnsv_verifier.specs.Asked.{IsNumberAsked};
ghost use Rattle.dnsv_canonical.specs.Rrsets.{ReceivedRrset};
ghost use Rattle.dnsv_verifier.specs.Table.{IsTableOf, TableContents, table_answer, with_answers};
ghost use Rattle.dnsv_verifier.specs.Within.{IsTableWithin};
ghost use Rattle.dnsv_verifier.specs.declared.answer.Answer.{Answer};
ghost use Rattle.dnsv_answers.specs.AnswerFile.{AreMiscounted, AreSoMany, answers_in};
ghost use Rattle.dnsv_answers.specs.Answered.{IsAnsweredTable, IsAnsweredTableWithin, IsNumberAskedWithin};
ghost use Rattle.dnsv_answers.specs.declared.error.AnswersError.{AnswersError};

use crate::answers::Answers;
use crate::error::AnswersError;
use crate::said::SaidAnswer;
use bumpalo::Bump;
use dnsv_canonical::Capture;
use dnsv_names::Count;
use dnsv_timeline::Range;
use dnsv_verifier::{Answer, Entry, Table, Verifier, ask_within};
use std::alloc::{AllocError, Global};

/// The table of the capture's entries at the moment, each with the answer of its number. An error is that there are not
/// as many answers as entries, or that memory was refused. No entry is looked up by its octets.
pub fn answered_table<'b>(
    alloc: Global,
    bump: &'b Bump,
    capture: &'b Capture<'b>,
    moment: u64,
    answers: &Answers,
) -> Result<Table<'b>, AnswersError>
    ensures table { IfOk result (IsAnsweredTable moment capture.now.rrsets (answers_in answers.now)) }
    ensures fault { IfErr result (λ error. (error ≡ AnswersError.OutOfMemory)
        ⊎ ((count : ℕ) × IsNumberAsked moment capture.now.rrsets count × AreMiscounted answers.now count error)) }
{
    // One moment is a range.
    let Some(range) = Range::new(moment, moment) else {
        unreachable!();
    };
    answered_table_within(alloc, bump, capture, range, answers)
}

/// The table of the capture's entries at the moments of the range, each with the answer of its number. Of each moment of
/// the range it says what the answers do: `Table::at` gives the table of the moment. The table's own moment is the first
/// of the range. Errors are those of `answered_table`.
pub fn answered_table_within<'b>(
    alloc: Global,
    bump: &'b Bump,
    capture: &'b Capture<'b>,
    range: Range,
    answers: &Answers,
) -> Result<Table<'b>, AnswersError>
    ensures table { IfOk result (IsAnsweredTableWithin range.from range.to capture.now.rrsets (answers_in answers.now)) }
    ensures fault { IfErr result (λ error. (error ≡ AnswersError.OutOfMemory)
        ⊎ ((count : ℕ) × IsNumberAskedWithin range.from range.to capture.now.rrsets count
        × AreMiscounted answers.now count error)) }
{
    let asked = ask_nobody(alloc, bump, capture, range)?;
    let table = answered(alloc, asked, answers)?;
    Ok(table)
}

/// A law of answers: a table of them is that of a verifier, which says what the table does; there is one table for the
/// answers, and it has as many as entries are asked. This is so of one moment, and of a range.
pub fn answers_are_a_verifier()
    ensures verifier { (moment : ℕ) (rrsets : List ReceivedRrset) (said : List Answer) (table : TableContents)
        → IsAnsweredTable moment rrsets said table → IsTableOf (table_answer table) moment rrsets table }
    ensures one { (moment : ℕ) (rrsets : List ReceivedRrset) (said : List Answer) (a b : TableContents)
        → IsAnsweredTable moment rrsets said a → IsAnsweredTable moment rrsets said b → a ≡ b }
    ensures count { (moment : ℕ) (rrsets : List ReceivedRrset) (said : List Answer) (table : TableContents) (count : ℕ)
        → IsAnsweredTable moment rrsets said table → IsNumberAsked moment rrsets count → length said ≡ count }
    ensures verifier_within { (from to : ℕ) (rrsets : List ReceivedRrset) (said : List Answer) (table : TableContents)
        → IsAnsweredTableWithin from to rrsets said table → IsTableWithin (table_answer table) from to rrsets table }
    ensures one_within { (from to : ℕ) (rrsets : List ReceivedRrset) (said : List Answer) (a b : TableContents)
        → IsAnsweredTableWithin from to rrsets said a → IsAnsweredTableWithin from to rrsets said b → a ≡ b }
    ensures count_within { (from to : ℕ) (rrsets : List ReceivedRrset) (said : List Answer) (table : TableContents)
        (count : ℕ) → IsAnsweredTableWithin from to rrsets said table → IsNumberAskedWithin from to rrsets count
        → length said ≡ count }
{}

/// The table of the capture's entries at the moments of the range, of which nothing is known.
fn ask_nobody<'b>(
    alloc: Global,
    bump: &'b Bump,
    capture: &'b Capture<'b>,
    range: Range,
) -> Result<Table<'b>, AllocError>
    ensures moment { IfOk result (λ table. table.moment ≡ range.from) }
    ensures table { IfOk result (IsTableWithin (λ entry. Answer.Unknown) range.from range.to capture.now.rrsets) }
{
    let mut count = Count::new();
    ask_within(alloc, bump, capture, range, &Nobody {}, &mut count)
}

/// The entries with the answers. A miscount is told, whatever memory there is.
fn answered<'b>(
    alloc: Global,
    asked: Table<'b>,
    answers: &Answers,
) -> Result<Table<'b>, AnswersError>
    ensures count { OnOk result (AreSoMany answers.now (length asked.entry.answers)) }
    ensures table { IfOk result (λ table. table ≡ with_answers asked.entry (answers_in answers.now)) }
    ensures fault { IfErr result (λ error. (error ≡ AnswersError.OutOfMemory)
        ⊎ AreMiscounted answers.now (length asked.entry.answers) error) }
    ensures every_fault { (fault : AnswersError) → AreMiscounted answers.now (length asked.entry.answers) fault
        → result ≡ Err fault }
{
    answers.test_count(asked.len())?;
    let said = said_answers(alloc, answers.as_slice())?;
    Ok(asked.with_answers(said))
}

/// The answers without the numbers of their lines.
fn said_answers(alloc: Global, said: &[SaidAnswer]) -> Result<Vec<Answer>, AllocError>
    ensures { IfOk result (λ answers. answers.items ≡ map (λ each. each.answer) said.now) }
{
    let mut answers = Vec::with_capacity(alloc, said.len())?;
    for each in said {
        answers.push(each.answer)?;
    }
    Ok(answers)
}

/// A verifier that knows nothing.
#[derive(Drop)]
struct Nobody {}

impl Verifier for Nobody {
    ghost use Rattle.dnsv_verifier.specs.declared.answer.Answer.TheVariants.{Unknown};

    ghost meaning = { λ nobody entry. Unknown };

    fn answer(&self, _entry: &Entry<'_>) -> Answer {
        Answer::Unknown
    }
}
