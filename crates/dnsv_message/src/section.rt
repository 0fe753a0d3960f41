//! Questions and records where they stand in a message (RFC 1035 4.1.2, 4.1.3).
ghost use Rattle.std.specs.Prelude.{◌≡◌, ◌≤◌, ◌+◌, ◌<◌, ◌^◌, ◌⊎◌, length, IfOk, IfErr};
ghost use Rattle.dnsv_message.specs.Grammar.{QuestionAt, QuestionFaultAt, RecordAt, RecordFaultAt, InOrder, FirstFault};
ghost use Rattle.dnsv_message.specs.Tail.{LastAt};

use crate::errors::DecodeError;
use crate::name_ref::name_ref_at;
use crate::number::Class;
use crate::rdata_ref::rdata_ref_at;
use crate::record::{Question, Record};
use dnsv_names::{RecordType, Ttl, u16_at, u32_at};
use std::alloc::Global;

/// How many octets of a question stand behind its name.
const QUESTION_TAIL: usize = 4;

/// How many octets of a record stand between its name and its RDATA.
const RECORD_TAIL: usize = 10;

/// How many octets a record has at least: the root as its name, and no RDATA.
const RECORD_MIN: usize = RECORD_TAIL + 1;

/// Records that stand one after another in a message.
#[derive(Drop)]
pub struct Records<'b> {
    pub records: Vec<Record<'b>>,
    /// The place where the last of them begins, if there is one.
    pub tail: Option<usize>,
    /// The place of what follows them.
    pub end: usize,
}

/// Reads this many questions from a place on, and says where what follows them stands.
pub fn questions_at<'b>(
    alloc: Global,
    octets: &'b [u8],
    place: usize,
    count: usize,
) -> Result<(Vec<Question<'b>>, usize), DecodeError>
    ensures found { IfOk result (λ found. InOrder (QuestionAt octets.now) place found.0.items found.1) }
    ensures count { IfOk result (λ found. length found.0.items ≡ count) }
    ensures within { place ≤ length octets.now → IfOk result (λ found. found.1 ≤ length octets.now) }
    ensures fault { IfErr result (λ error. (error ≡ DecodeError.OutOfMemory)
        ⊎ FirstFault (QuestionAt octets.now) (QuestionFaultAt octets.now) count 1 place error) }
{
    let mut questions = Vec::new(alloc);
    let mut next = place;
    for read in 0..count {
        let (question, end) = question_at(octets, next)?;
        questions.push(question)?;
        next = end;
    }
    Ok((questions, next))
}

/// Reads this many records from a place on, the first of which has this number.
pub fn records_at<'b>(
    alloc: Global,
    octets: &'b [u8],
    place: usize,
    count: usize,
    first: usize,
) -> Result<Records<'b>, DecodeError>
    requires { first + count < 2 ^ 64 }
    ensures found { IfOk result (λ found. InOrder (RecordAt octets.now) place found.records.items found.end) }
    ensures tail { IfOk result (λ found. LastAt (RecordAt octets.now) place found.records.items found.end found.tail) }
    ensures count { IfOk result (λ found. length found.records.items ≡ count) }
    ensures within { place ≤ length octets.now → IfOk result (λ found. found.end ≤ length octets.now) }
    ensures fault { IfErr result (λ error. (error ≡ DecodeError.OutOfMemory)
        ⊎ FirstFault (RecordAt octets.now) (RecordFaultAt octets.now) count first place error) }
{
    let room = count.min(octets.len() / RECORD_MIN);
    let mut records = Vec::with_capacity(alloc, room)?;
    let mut tail = None;
    let mut end = place;
    for read in 0..count {
        let (record, next) = record_at(octets, end, first + read)?;
        records.push(record)?;
        tail = Some(end);
        end = next;
    }
    Ok(Records { records, tail, end })
}

fn question_at<'b>(octets: &'b [u8], place: usize) -> Result<(Question<'b>, usize), DecodeError>
    ensures found { IfOk result (λ found. QuestionAt octets.now place found.0 found.1) }
    ensures fault { IfErr result (QuestionFaultAt octets.now 1 place) }
{
    let (name, after_name) = name_ref_at(octets, place)?;
    if octets.len() - after_name < QUESTION_TAIL {
        return Err(DecodeError::Short);
    }
    let question = Question {
        name,
        rtype: RecordType(u16_at(octets, after_name)),
        class: Class(u16_at(octets, after_name + 2)),
    };
    Ok((question, after_name + QUESTION_TAIL))
}

fn record_at<'b>(
    octets: &'b [u8],
    place: usize,
    number: usize,
) -> Result<(Record<'b>, usize), DecodeError>
    ensures found { IfOk result (λ found. RecordAt octets.now place found.0 found.1) }
    ensures fault { IfErr result (RecordFaultAt octets.now number place) }
{
    let (name, after_name) = name_ref_at(octets, place)?;
    if octets.len() - after_name < RECORD_TAIL {
        return Err(DecodeError::Short);
    }
    let rtype = RecordType(u16_at(octets, after_name));
    let class = Class(u16_at(octets, after_name + 2));
    let ttl = Ttl(u32_at(octets, after_name + 4));
    let size = u16_at(octets, after_name + 8);
    let start = after_name + RECORD_TAIL;
    if octets.len() - start < size as usize {
        return Err(DecodeError::Short);
    }
    let Some(rdata) = rdata_ref_at(octets, start, size, rtype, class) else {
        return Err(DecodeError::BadRdata(number));
    };
    let record = Record {
        name,
        rtype,
        class,
        ttl,
        rdata,
    };
    Ok((record, start + size as usize))
}
