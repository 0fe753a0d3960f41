//! Captures: evidence out of messages in an arena. What may be read of a message, the limits, and the index of the RRsets.

mod index;
mod limits;
mod readable;

ghost use Rattle.std.specs.Prelude.{◌≡◌, IfErr, List, MatchOption, OnErr, OnOk, length};
ghost use Rattle.std.specs.List.{AllByRecursion, AllZip};
ghost use Rattle.dnsv_message.specs.Message.{Contents, records_of};
ghost use Rattle.dnsv_records.specs.Rrsig.{IsRrsig};
ghost use Rattle.dnsv_canonical.specs.Evidence.{AreParameters, Evidence, IsReadable, IsReasonAgainst, IsWhole, IsWithinLimits, no_evidence, nsec3_rdata, signatures_at, with_message};
ghost use Rattle.dnsv_canonical.specs.Index.{numbers_at};
ghost use Rattle.dnsv_canonical.specs.Rdata.{IsWellFormed};
ghost use Rattle.dnsv_canonical.specs.Rrsets.{IsNumbered, ReceivedRrset};
ghost use Rattle.dnsv_canonical.specs.declared.capture.CaptureError.TheVariants.{OutOfMemory};

use crate::capture::index::Index;
use crate::capture::limits::{MESSAGE_LIMIT, are_small, fresh_parameters, records_with};
use crate::capture::readable::check_rdata;
use crate::number::numbered;
use crate::placed_record::Sections;
use crate::received::message_rrsets;
use crate::rrset::{Rrset, to_rrsets};
use bumpalo::Bump;
use dnsv_message::{Message, messages_fit};
use dnsv_names::{Name, RecordType};
use dnsv_records::{Nsec3Parameters, Rrsig};
use std::alloc::{AllocError, AllocFailed, Global};
use std::marker::Model;
use thiserror::Error;

/// Why a message isn't added to a capture.
#[derive(Clone, Copy, Debug, PartialEq, Eq, Error)]
pub enum CaptureError {
    #[error("out of memory")]
    OutOfMemory,
    /// QR is clear: the message is a query (RFC 1035 4.1.1).
    #[error("the message is no response")]
    NotAResponse,
    /// TC is set: the message lacks records that didn't fit (RFC 1035 4.1.1).
    #[error("the message is truncated")]
    Truncated,
    /// The record with this number, from 1 on through the three sections, is the first IN record of DNSKEY, DS,
    /// RRSIG, NSEC or NSEC3 whose RDATA isn't laid out as its type says.
    #[error("record {0} has bad RDATA")]
    BadRdata(usize),
    /// With the message the capture would have more than 64 messages, 4,096 records, 16 distinct keys in a DNSKEY
    /// RRset, 16 distinct signatures of an RRset, or 8 distinct parameters of its usable NSEC3 records.
    #[error("the capture would pass a limit")]
    Limit,
}

impl CaptureError {
    ghost use Rattle.dnsv_canonical.specs.CaptureError.{capture_error_code};

    /// The number of the error, by which programs tell it.
    pub fn code(self) -> u16
        ensures { result ≡ capture_error_code self }
    {
        match self {
            CaptureError::OutOfMemory => 90,
            CaptureError::NotAResponse => 401,
            CaptureError::Truncated => 402,
            CaptureError::BadRdata(_) => 206,
            CaptureError::Limit => 403,
        }
    }
}

impl From<AllocError> for CaptureError {
    ghost from_gives = { λ _ error. error ≡ OutOfMemory };

    fn from(_error: AllocError) -> CaptureError {
        CaptureError::OutOfMemory
    }
}

impl<T: Drop> From<AllocFailed<T>> for CaptureError {
    ghost from_gives = { λ _ error. error ≡ OutOfMemory };

    fn from(_refused: AllocFailed<T>) -> CaptureError {
        CaptureError::OutOfMemory
    }
}

/// Captured messages as evidence: their RRsets with their signatures, whose owners and RDATA stand in the arena.
#[derive(Drop)]
pub struct Capture<'b> {
    alloc: Global,
    /// The arena that the messages stand in.
    bump: &'b Bump,
    messages: usize,
    records: usize,
    rrsets: Vec<Rrset<'b>>,
    /// The parameters of the NSEC3 records that can be used, each once.
    parameters: Vec<Nsec3Parameters<'b>>,
    /// The RRsets by owner and type.
    index: Index,
}

impl<'b> Model for Capture<'b> {
    ghost use Rattle.dnsv_canonical.specs.Evidence.{Evidence};
    ghost use Rattle.dnsv_canonical.specs.Kept.{IsHeld};

    ghost Value = { Evidence };

    ghost view = { λ capture. record {
      messages = capture.messages;
      records = capture.records;
      rrsets = capture.rrsets.items;
    } };

    ghost invariant = { λ capture. IsHeld (record {
      messages = capture.messages;
      records = capture.records;
      rrsets = capture.rrsets.items;
    }) capture.parameters.items capture.index.numbers.items capture.index.starts.items };
}

impl<'b> Capture<'b> {
    /// A capture without messages, for those of the arena. It takes no memory, and keeps the allocator.
    pub fn new(alloc: Global, bump: &'b Bump) -> Capture<'b>
        ensures { result ≡ no_evidence }
    {
        Capture {
            alloc,
            bump,
            messages: 0,
            records: 0,
            rrsets: Vec::new(alloc),
            parameters: Vec::new(alloc),
            index: Index::new(alloc),
        }
    }

    /// Adds a message. It is refused for the first of these that holds, and the capture then stays as it was: it is a query,
    /// it was cut to fit, a record can't be read, the capture would pass a limit. For the first two no memory is needed, so
    /// they are reported whether or not any is left.
    pub fn add(&mut self, message: &Message<'b>) -> Result<(), CaptureError>
        ensures added { OnOk result (self.new ≡ with_message self.old message.now) }
        ensures whole { OnOk result (IsWhole message.now) }
        ensures readable { OnOk result (AllByRecursion IsReadable (records_of message.now)) }
        ensures limits { OnOk result (IsWithinLimits (with_message self.old message.now)) }

        // Each reason leaves out those before it.
        ensures refused { IfErr result (IsReasonAgainst self.old message.now) }
        ensures unchanged { OnErr result (self.new ≡ self.old) }
    {
        check_whole(message)?;
        let sections = Sections::of(self.alloc, self.bump, message)?;
        check_rdata(message, &sections)?;
        let Some(records) = records_with(self.records, message) else {
            return Err(CaptureError::Limit);
        };
        if self.messages >= MESSAGE_LIMIT {
            return Err(CaptureError::Limit);
        }
        let received = message_rrsets(self.alloc, self.bump, self.messages + 1, &sections)?;
        if !are_small(self.alloc, received.as_slice())? {
            return Err(CaptureError::Limit);
        }
        // What is true of every message.
        message.is_of_octets();
        messages_fit();
        let mut rrsets = to_rrsets(self.alloc, received)?;
        let mut parameters = fresh_parameters(
            self.alloc,
            self.parameters.as_slice(),
            rrsets.as_slice(),
        )?;
        let index = self
            .index
            .with(self.alloc, self.rrsets.as_slice(), rrsets.as_slice())?;
        self.parameters.reserve(parameters.len())?;
        self.rrsets.append(&mut rrsets)?;
        // There is room for the parameters, so nothing fails from here on.
        let Ok(()) = self.parameters.append(&mut parameters) else {
            unreachable!();
        };
        self.index = index;
        self.messages += 1;
        self.records = records;
        Ok(())
    }

    /// The RRsets of the messages by first appearance; they are numbered from 1.
    pub fn rrsets(&self) -> &[Rrset<'b>]
        ensures value { result.now ≡ self.now.rrsets }
        ensures well_formed { AllByRecursion IsWellFormed self.now.rrsets }
        ensures limits { IsWithinLimits self.now }
    {
        &self.rrsets
    }

    /// The parameters of the usable NSEC3 records of all RRsets, each once: at most 8.
    pub fn nsec3_parameters(&self) -> &[Nsec3Parameters<'b>]
        ensures { AreParameters (nsec3_rdata self.now.rrsets) result.now }
    {
        &self.parameters
    }

    /// The numbers of the RRsets of the name, without regard to case, and of the type, rising. It takes no memory, and
    /// looks at no more pairs of name and type than their number has binary digits.
    pub fn at(&self, name: &Name, rtype: RecordType) -> &[usize]
        ensures { result.now ≡ numbers_at self.now.rrsets name.now rtype.0 }
    {
        self.index.at(self.rrsets(), name, rtype)
    }

    /// The RRset with the number, from 1 on; `None` where none has it.
    pub fn rrset(&self, number: usize) -> Option<&Rrset<'b>>
        ensures { MatchOption result ((each : ReceivedRrset) → ¬ IsNumbered self.now.rrsets number each)
            (λ found. IsNumbered self.now.rrsets number found.now) }
    {
        numbered(self.rrsets(), number)
    }

    /// The signatures of the RRset with the number, from 1 on; none where no RRset has it. They are numbered
    /// from 1 too.
    pub fn signatures(&self, rrset: usize) -> &[Rrsig<'b>]
        ensures { AllZip IsRrsig (signatures_at self.now.rrsets rrset) result.now }
    {
        let rrsets = self.rrsets();
        if rrset == 0 || rrset > rrsets.len() {
            return &[];
        }
        rrsets[rrset - 1].signatures()
    }
}

/// Whether the message is a response that wasn't cut to fit.
fn check_whole(message: &Message<'_>) -> Result<(), CaptureError>
    ensures ok { OnOk result (IsWhole message.now) }
    ensures refused { (held : Evidence) → IfErr result (IsReasonAgainst held message.now) }
{
    if !message.flags().is_response() {
        return Err(CaptureError::NotAResponse);
    }
    if message.flags().is_truncated() {
        return Err(CaptureError::Truncated);
    }
    Ok(())
}
