//! What a verifier says of the evidence, worked out once.

pub mod place;
mod timely;

ghost use Rattle.std.specs.Prelude.{◌≡◌, ◌↔◌, ◌≤◌, ℕ, List, [], IfOk, IfSome, IsTrue, MatchOption, filter, length, map};
ghost use Rattle.std.specs.List.{zip};
ghost use Rattle.std.specs.List.Sorted.{IsStrictlySortedBy};
ghost use Rattle.dnsv_verifier.specs.Entry.{entry_cmp};
ghost use Rattle.dnsv_verifier.specs.Numbers.{ArePlaces, AreRising, answers_of, listed_answer, numbers_cmp};
ghost use Rattle.dnsv_canonical.specs.Rrsets.{ReceivedRrset};
ghost use Rattle.dnsv_verifier.specs.Table.{IsAnswerAt, IsTableOf, SignsNothing, hoped_answer, hopeful, is_unknown, unknown_entries, with_answers};
ghost use Rattle.dnsv_verifier.specs.Within.{IsTableAt, IsTableWithin};
ghost use Rattle.dnsv_verifier.specs.declared.answer.Answer.{Answer};
ghost use Rattle.dnsv_verifier.specs.declared.entry.Entry.{Entry};

use crate::answer::Answer;
use crate::entries::Entries;
use crate::entry::parts::{EntryNumbers, Parts};
use crate::entry::{Entry, entry_over};
use crate::key::KeyRecord;
use crate::table::place::{SignaturePlace, place_of};
use crate::table::timely::{Timely, timely_entries};
use crate::verifier::Verifier;
use dnsv_canonical::{Capture, SignatureNumber, numbered, signed_data};
use std::alloc::{AllocError, Global};
use std::marker::Model;
use std::rc::Rc;

/// What a verifier says of the evidence at a moment, or at the moments of a range: the entries that it was asked, each
/// once, with its answers. A table is itself a verifier, which says Unknown of any other entry.
#[derive(Drop)]
pub struct Table<'b> {
    moment: u64,
    capture: &'b Capture<'b>,
    parts: Parts<'b>,
    /// Of the signatures of the RRsets, rising by their numbers, where their parts stand.
    places: &'b [SignaturePlace],
    /// Of each entry those of its parts. A hopeful table shares them.
    numbers: Rc<Vec<EntryNumbers>>,
    /// One for each entry.
    answers: Vec<Answer>,
}

impl<'b> Model for Table<'b> {
    ghost use Rattle.std.specs.Prelude.{◌≡◌, length};
    ghost use Rattle.std.specs.List.{zip};
    ghost use Rattle.dnsv_verifier.specs.Numbers.{ArePlaces, AreRising, answers_of};
    ghost use Rattle.dnsv_verifier.specs.Table.{TableContents};

    ghost Value = { TableContents };

    ghost view = { λ table. record {
      moment = table.moment;
      rrsets = table.capture.now.rrsets;
      answers = answers_of table.parts (zip table.numbers.value.items table.answers.items);
    } };

    ghost invariant = { λ table. AreRising table.parts table.numbers.value.items
        × (length table.answers.items ≡ length table.numbers.value.items)
        × ArePlaces table.capture.now.rrsets table.parts table.places.now };
}

impl<'b> Table<'b> {
    /// The table of the evidence that has the entries with these numbers, which rise, and their answers.
    pub(crate) fn new(
        moment: u64,
        capture: &'b Capture<'b>,
        parts: Parts<'b>,
        places: &'b [SignaturePlace],
        numbers: Rc<Vec<EntryNumbers>>,
        answers: Vec<Answer>,
    ) -> Table<'b>
        requires rising { AreRising parts numbers.value.items }
        requires each { length answers.items ≡ length numbers.value.items }
        requires places { ArePlaces capture.now.rrsets parts places.now }
        ensures { result ≡ record {
          moment = moment;
          rrsets = capture.now.rrsets;
          answers = answers_of parts.entry (zip numbers.value.items answers.items);
        } }
    {
        Table {
            moment,
            capture,
            parts,
            places,
            numbers,
            answers,
        }
    }

    /// The moment, in seconds since 1970: of a range its first.
    pub fn moment(&self) -> u64
        ensures { result ≡ self.now.moment }
    {
        self.moment
    }

    /// The evidence that it is of.
    pub fn capture(&self) -> &'b Capture<'b>
        ensures { result.now.rrsets ≡ self.now.rrsets }
    {
        self.capture
    }

    /// How many entries it has.
    pub fn len(&self) -> usize
        ensures count { result ≡ length self.now.answers }
        ensures rising { IsStrictlySortedBy entry_cmp (map (λ each. each.0) self.now.answers) }
    {
        self.answers.len()
    }

    /// The entries that are still to be verified: those whose answer is Unknown, by rising algorithm, key, signed data
    /// and signature, octets as unsigned numbers. Their octets stay the table's.
    pub fn unknown(&self, alloc: Global) -> Result<Entries<'b>, AllocError>
        ensures value { IfOk result (λ entries. entries ≡ unknown_entries self.now) }
        ensures rising { IfOk result (λ entries. IsStrictlySortedBy entry_cmp entries) }
    {
        let unknown = unknown_numbers(alloc, &self.numbers, &self.answers)?;
        Ok(Entries::new(self.parts.copied(), unknown))
    }

    /// Whether there are no entries that are still to be verified. It takes no memory.
    pub fn knows_all(&self) -> bool
        ensures { IsTrue result ↔ (unknown_entries self.now ≡ []) }
    {
        for answer in &self.answers {
            if *answer == Answer::Unknown {
                return false;
            }
        }
        true
    }

    /// What the table says of the signature with these numbers, of its evidence, under the key: its answer to what a verifier
    /// is asked of the two. `None` where it is asked nothing: no signature has the numbers, or its Labels is above the count of
    /// its owner's labels (RFC 4035 5.3.2). Signed data is made only of a signature that has no entry in the table, as where
    /// none of the keys of the evidence may have made it.
    pub fn answer_at(
        &self,
        alloc: Global,
        number: SignatureNumber,
        key: &KeyRecord<'_>,
    ) -> Result<Option<Answer>, AllocError>
        ensures { IfOk result (λ found. MatchOption found (SignsNothing self.now.rrsets number)
            (IsAnswerAt self.now number key.now)) }
    {
        if let Some(answer) = self.known_at(number, key) {
            return Ok(Some(answer));
        }
        let Some(rrset) = numbered(self.capture.rrsets(), number.rrset) else {
            return Ok(None);
        };
        let Some(rrsig) = numbered(rrset.signatures(), number.signature) else {
            return Ok(None);
        };
        let Some(octets) = signed_data(alloc, rrset, rrsig)? else {
            return Ok(None);
        };
        let answer = self.answer(&entry_over(rrsig, octets.as_slice(), key));
        Ok(Some(answer))
    }

    /// The same without signed data, and without comparing octets of signatures. `None` of a signature that isn't kept by its
    /// numbers.
    fn known_at(&self, number: SignatureNumber, key: &KeyRecord<'_>) -> Option<Answer>
        ensures { IfSome result (IsAnswerAt self.now number key.now) }
    {
        let Some(place) = place_of(self.places, number) else {
            return None;
        };
        let field = key.dnskey().key.as_slice();
        let Some(key_number) = self.parts.find_key(place.algorithm, field) else {
            return Some(Answer::Unknown);
        };
        let wanted = EntryNumbers {
            key: key_number,
            signature: place.part,
        };
        Some(listed(&self.numbers, &self.answers, wanted))
    }

    /// The best that may come of the table: the same moment, evidence and entries, each Unknown one Valid. It asks nobody.
    pub fn hopeful(&self, alloc: Global) -> Result<Table<'b>, AllocError>
        ensures { IfOk result (λ table. table ≡ hopeful self.now) }
    {
        let numbers = self.numbers.clone()?;
        let answers = hoped_answers(alloc, &self.answers)?;
        let (moment, capture, places) = (self.moment, self.capture, self.places);
        let parts = self.parts.copied();
        Ok(Table::new(moment, capture, parts, places, numbers, answers))
    }

    /// The table of the moment, in seconds since 1970: the entries whose signature is valid at it (RFC 4034 3.1.5), with
    /// their answers. Of a table for a range it is what the verifier says at this moment of it. It asks nobody, and makes
    /// no signed data: the octets stay the table's.
    pub fn at(&self, alloc: Global, moment: u64) -> Result<Table<'b>, AllocError>
        ensures value { IfOk result (IsTableAt self.now moment) }
        ensures within { (meaning : Entry → Answer) (from to : ℕ) (rrsets : List ReceivedRrset)
            → IsTableWithin meaning from to rrsets self.now → from ≤ moment → moment ≤ to
            → IfOk result (IsTableOf meaning moment rrsets) }
    {
        let Timely { numbers, answers } = timely_entries(
            alloc,
            moment,
            &self.parts,
            &self.numbers,
            &self.answers,
        )?;
        let numbers = Rc::new(alloc, numbers)?;
        let (capture, places) = (self.capture, self.places);
        let parts = self.parts.copied();
        Ok(Table::new(moment, capture, parts, places, numbers, answers))
    }

    /// The same moment, evidence and entries with answers that were given by number: the first is that of the first entry, and so
    /// on. It asks nobody, and looks no entry up.
    pub fn with_answers(self, answers: Vec<Answer>) -> Table<'b>
        requires { length answers.items ≡ length self.answers }
        ensures { result ≡ with_answers self.entry answers.items }
    {
        let Table {
            moment,
            capture,
            parts,
            places,
            numbers,
            ..
        } = self;
        Table::new(moment, capture, parts, places, numbers, answers)
    }
}

/// The best that may come of each of the answers.
fn hoped_answers(alloc: Global, answers: &[Answer]) -> Result<Vec<Answer>, AllocError>
    ensures { IfOk result (λ hoped. hoped.items ≡ map hoped_answer answers.now) }
{
    let mut hoped = Vec::with_capacity(alloc, answers.len())?;
    for answer in answers {
        hoped.push(answer.hoped())?;
    }
    Ok(hoped)
}

/// The numbers whose answer is Unknown.
fn unknown_numbers(
    alloc: Global,
    numbers: &[EntryNumbers],
    answers: &[Answer],
) -> Result<Vec<EntryNumbers>, AllocError>
    requires { length answers.now ≡ length numbers.now }
    ensures { IfOk result (λ unknown. unknown.items
        ≡ map (λ each. each.0) (filter (λ each. is_unknown each.1) (zip numbers.now answers.now))) }
{
    let mut unknown = Vec::new(alloc);
    for (place, answer) in answers.iter().enumerate() {
        if *answer == Answer::Unknown {
            unknown.push(numbers[place])?;
        }
    }
    Ok(unknown)
}

impl Verifier for Table<'_> {
    ghost use Rattle.dnsv_verifier.specs.Table.{table_answer};

    ghost meaning = { table_answer };

    fn answer(&self, entry: &Entry<'_>) -> Answer {
        match self.parts.numbers_of(entry) {
            Some(wanted) => listed(&self.numbers, &self.answers, wanted),
            None => Answer::Unknown,
        }
    }
}

/// What is listed for the numbers, and Unknown where they aren't. No octets are compared.
fn listed(numbers: &[EntryNumbers], answers: &[Answer], wanted: EntryNumbers) -> Answer
    requires rising { IsStrictlySortedBy numbers_cmp numbers.now }
    requires each { length answers.now ≡ length numbers.now }
    ensures { result ≡ listed_answer (zip numbers.now answers.now) wanted }
{
    match numbers.binary_search_by(|each| each.cmp(&wanted)) {
        Ok(place) => answers[place],
        Err(_) => Answer::Unknown,
    }
}
