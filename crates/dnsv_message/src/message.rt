//! A message as a whole.
ghost use Rattle.std.specs.Prelude.{◌≡◌, ◌⊎◌, ℕ, List, IfOk, IfErr, MatchResult};

use crate::encode::{push_questions, push_records};
use crate::errors::DecodeError;
use crate::number::Flags;
use crate::record::{Question, Record, Section};
use crate::section::{Records, questions_at, records_at};
use dnsv_names::u16_at;
use std::alloc::{AllocError, Global};
use std::marker::Model;

/// A message (RFC 1035 4.1).
///
/// Its records are numbered from 1 through the three sections. It borrows the octets that it was read from, and its
/// names and RDATA are found there each time.
#[derive(Debug, Drop)]
pub struct Message<'b> {
    id: u16,
    flags: Flags,
    questions: Vec<Question<'b>>,
    answer: Vec<Record<'b>>,
    authority: Vec<Record<'b>>,
    additional: Vec<Record<'b>>,
}

impl<'b> Model for Message<'b> {
    ghost use Rattle.dnsv_message.specs.Message.{Contents, contents_of};
    ghost use Rattle.dnsv_message.specs.Grammar.{IsMessage};

    ghost Value = { Contents };

    ghost view = { λ message. contents_of message.id message.flags.0 message.questions.items message.answer.items
        message.authority.items message.additional.items };

    // A message is what some octets are.
    ghost invariant = { λ message. IsMessage (contents_of message.id message.flags.0 message.questions.items
        message.answer.items message.authority.items message.additional.items) };
}

/// How many octets the header has.
const HEADER_LENGTH: usize = 12;

impl<'b> Message<'b> {
    ghost use Rattle.dnsv_message.specs.Message.{Contents, section_of};
    ghost use Rattle.dnsv_message.specs.Grammar.{IsMessage, MessageOf, FaultOf};
    ghost use Rattle.dnsv_message.specs.Tail.{IsTailOf};
    ghost use Rattle.dnsv_message.specs.Encoding.{header_octets, message_octets, PlainMessageOf};
    ghost use Rattle.dnsv_names.specs.Octets.{AreOctets};

    /// Reads a message, which is all of the octets.
    ///
    /// The error is the first fault from left to right: octets that are missing ([`DecodeError::Short`]),
    /// a name that can't be read, RDATA that is not laid out as its type asks, octets left over. Only
    /// where memory was refused is the error [`DecodeError::OutOfMemory`].
    ///
    /// Of class IN, RDATA of A, NS, CNAME, SOA, PTR, MX, AAAA, SRV, DNAME, RRSIG and NSEC is laid out;
    /// all other RDATA is octets as they are. Names in it may be compressed but for those of DNAME,
    /// RRSIG and NSEC (RFC 3597 4, RFC 6672 2.5, RFC 4034 3.1.7 and 4.1.1).
    pub fn decode(alloc: Global, octets: &'b [u8]) -> Result<Message<'b>, DecodeError>
        // What is found stands in the octets.
        ensures found { IfOk result (MessageOf octets.now) }
        // Whatever message the octets are is found, unless memory was refused.
        ensures every { (message : Contents) → MessageOf octets.now message
            → MatchResult result (λ found. found ≡ message) (λ error. error ≡ DecodeError.OutOfMemory) }
        // The fault is the first.
        ensures fault { IfErr result (λ error. (error ≡ DecodeError.OutOfMemory) ⊎ FaultOf octets.now error) }
    {
        let (message, _) = Message::decode_with_tail(alloc, octets)?;
        Ok(message)
    }

    /// Reads a message as [`Message::decode`] does, and says at which of the octets its last record begins,
    /// counted from 0. That is `None` where the message has no records.
    pub fn decode_with_tail(
        alloc: Global,
        octets: &'b [u8],
    ) -> Result<(Message<'b>, Option<usize>), DecodeError>
        ensures found { IfOk result (λ found. MessageOf octets.now found.0) }
        ensures tail { IfOk result (λ found. IsTailOf octets.now found.0 found.1) }
        ensures every { (message : Contents) → MessageOf octets.now message
            → MatchResult result (λ found. found.0 ≡ message) (λ error. error ≡ DecodeError.OutOfMemory) }
        ensures fault { IfErr result (λ error. (error ≡ DecodeError.OutOfMemory) ⊎ FaultOf octets.now error) }
    {
        Message::read(alloc, octets)
    }

    fn read(alloc: Global, octets: &'b [u8]) -> Result<(Message<'b>, Option<usize>), DecodeError>
        ensures found { IfOk result (λ found. MessageOf octets.now found.0) }
        ensures tail { IfOk result (λ found. IsTailOf octets.now found.0 found.1) }
        ensures fault { IfErr result (λ error. (error ≡ DecodeError.OutOfMemory) ⊎ FaultOf octets.now error) }
    {
        if octets.len() < HEADER_LENGTH {
            return Err(DecodeError::Short);
        }
        let question_count = u16_at(octets, 4) as usize;
        let answer_count = u16_at(octets, 6) as usize;
        let authority_count = u16_at(octets, 8) as usize;
        let additional_count = u16_at(octets, 10) as usize;
        let (questions, place) = questions_at(alloc, octets, HEADER_LENGTH, question_count)?;
        let Records {
            records: answer,
            tail: answer_tail,
            end: after_answer,
        } = records_at(alloc, octets, place, answer_count, 1)?;
        let number = 1 + answer_count;
        let Records {
            records: authority,
            tail: authority_tail,
            end: after_authority,
        } = records_at(alloc, octets, after_answer, authority_count, number)?;
        let number = number + authority_count;
        let Records {
            records: additional,
            tail: additional_tail,
            end: after_additional,
        } = records_at(alloc, octets, after_authority, additional_count, number)?;
        if after_additional < octets.len() {
            return Err(DecodeError::TrailingBytes);
        }
        let tail = additional_tail.or(authority_tail).or(answer_tail);
        let message = Message {
            id: u16_at(octets, 0),
            flags: Flags(u16_at(octets, 2)),
            questions,
            answer,
            authority,
            additional,
        };
        Ok((message, tail))
    }

    /// A law of messages: each is what some octets are. It takes no time.
    pub fn is_of_octets(&self)
        ensures { IsMessage self.now }
    {
        let _ = &self.id;
    }

    /// The identifier, by which an answer is matched to its query (RFC 1035 4.1.1).
    pub fn id(&self) -> u16
        ensures { result ≡ self.now.id }
    {
        self.id
    }

    /// The flags of the header, operation and response codes among them (RFC 1035 4.1.1).
    pub fn flags(&self) -> Flags
        ensures { result.0 ≡ self.now.flags }
    {
        self.flags
    }

    /// The questions, in order.
    pub fn questions(&self) -> &[Question<'b>]
        ensures { result.now ≡ self.now.questions }
    {
        &self.questions
    }

    /// The records of one section, in order.
    pub fn records(&self, section: Section) -> &[Record<'b>]
        ensures { result.now ≡ section_of self.now section }
    {
        match section {
            Section::Answer => &self.answer,
            Section::Authority => &self.authority,
            Section::Additional => &self.additional,
        }
    }

    /// The octets of the message, every name as it is spelled and none compressed (RFC 1035 4.1).
    ///
    /// Reading them gives the message again. They may be more than 65,535, the most that TCP carries
    /// (RFC 1035 4.2.2), where the octets that were read had compressed names.
    pub fn encode(&self, alloc: Global) -> Result<Vec<u8>, AllocError>
        // The octets are these.
        ensures value { IfOk result (λ octets. octets.items ≡ message_octets self.now) }
        // They are the message, and no name in them has a pointer.
        ensures read { IfOk result (λ octets. PlainMessageOf octets.items self.now) }
        // No other octets are.
        ensures only { (octets : List ℕ) → AreOctets octets → PlainMessageOf octets self.now
            → IfOk result (λ written. written.items ≡ octets) }
    {
        let mut octets = self.header(alloc)?;
        push_questions(&mut octets, &self.questions)?;
        push_records(alloc, &mut octets, &self.answer)?;
        push_records(alloc, &mut octets, &self.authority)?;
        push_records(alloc, &mut octets, &self.additional)?;
        Ok(octets)
    }

    /// The octets of the header.
    fn header(&self, alloc: Global) -> Result<Vec<u8>, AllocError>
        ensures { IfOk result (λ octets. octets.items ≡ header_octets self.now) }
    {
        let mut octets = Vec::new(alloc);
        octets.extend_from_slice(&self.id.to_be_bytes())?;
        octets.extend_from_slice(&self.flags.0.to_be_bytes())?;
        octets.extend_from_slice(&(self.questions.len() as u16).to_be_bytes())?;
        octets.extend_from_slice(&(self.answer.len() as u16).to_be_bytes())?;
        octets.extend_from_slice(&(self.authority.len() as u16).to_be_bytes())?;
        octets.extend_from_slice(&(self.additional.len() as u16).to_be_bytes())?;
        Ok(octets)
    }
}
