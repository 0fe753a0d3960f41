//! The TSIG record of a message.
ghost use Rattle.std.specs.Prelude.{◌≡◌, ◌↔◌, ◌⊎◌, ◌++◌, ◌≤◌, List, ℕ, None, Some, length, IsTrue, IfOk, IfErr, OnOk, MatchOption};
ghost use Rattle.dnsv_names.specs.Name.{Labels};
ghost use Rattle.dnsv_message.specs.Message.{records_of};
ghost use Rattle.dnsv_tsig.specs.Answer.{LacksTsig, Signs, IsSigned, failed_test, is_in_time};
ghost use Rattle.dnsv_tsig.specs.Signed.{EndsWithTsig, IsLastRdata};
ghost use Rattle.dnsv_tsig.specs.Tsig.{TsigFields};

use crate::error::TsigError;
use crate::mac::begins_mac;
use crate::tsig::Tsig;
use dnsv_message::{Class, Message, NameRef, RdataOctets, Record, Section};
use dnsv_names::{RecordType, Ttl};
use std::alloc::{AllocError, Global};

/// The type of the records that sign messages (RFC 8945 4.2).
const TSIG: RecordType = RecordType(250);

/// Their class (RFC 8945 4.2).
const ANY: Class = Class(255);

/// How many octets a MAC has that isn't truncated.
pub const MAC_LENGTH: usize = 32;

/// How many octets a truncated MAC has at least, which is half of them (RFC 8945 5.2.2.1).
const LEAST_MAC_LENGTH: usize = 16;

/// The TSIG record of a message.
#[derive(Drop)]
pub struct Signature<'a> {
    /// The record's owner, which names the key.
    pub owner: &'a NameRef<'a>,
    pub tsig: Tsig<'a>,
}

impl<'a> Signature<'a> {
    /// The one TSIG record of a message, whose RDATA is that of the last record, where it is one. `NoTsig` where it has
    /// none, and `Form` where it has several, or the one isn't formed as it has to be.
    pub fn of(
        message: &'a Message<'_>,
        rdata: &'a RdataOctets<'_>,
    ) -> Result<Signature<'a>, TsigError>
        requires { IsLastRdata message.now.additional rdata.now }
        ensures found { IfOk result (λ signature. IsSigned message.now signature.owner.now signature.tsig) }
        ensures lacking { IfErr result (λ error.
            ((error ≡ TsigError.NoTsig) × LacksTsig (records_of message.now))
            ⊎ ((error ≡ TsigError.Form) × (LacksTsig (records_of message.now) → ⊥)
            × ((owner : Labels) (tsig : TsigFields) → IsSigned message.now owner tsig → ⊥))) }
    {
        let answer = message.records(Section::Answer);
        let authority = message.records(Section::Authority);
        let additional = message.records(Section::Additional);
        if lack_tsig(answer, authority, additional) {
            return Err(TsigError::NoTsig);
        }
        let Some((last, others)) = additional.split_last() else {
            return Err(TsigError::Form);
        };
        if !lack_tsig(answer, authority, others) {
            return Err(TsigError::Form);
        }
        let Some(tsig) = signed_by(last, rdata.as_slice()) else {
            return Err(TsigError::Form);
        };
        Ok(Signature {
            owner: &last.name,
            tsig,
        })
    }

    /// Tests the MAC against the right one, and then what it protects.
    pub fn test(&self, right: &[u8; MAC_LENGTH], now: u64) -> Result<(), TsigError>
        requires { length self.now.tsig.mac ≤ 32 }
        ensures passed { OnOk result (failed_test self.now.tsig right.now now ≡ None) }
        ensures failed { IfErr result (λ error. failed_test self.now.tsig right.now now ≡ Some error) }
    {
        let tsig = &self.tsig;
        if !begins_mac(tsig.mac, right) {
            return Err(TsigError::BadMac);
        }
        if !is_in_time(now, tsig.time_signed, tsig.fudge) {
            return Err(TsigError::BadTime);
        }
        if tsig.mac.len() != MAC_LENGTH {
            return Err(TsigError::TruncatedMac);
        }
        if tsig.error != 0 {
            return Err(TsigError::PeerError);
        }
        Ok(())
    }
}

/// Whether the moment is at most so many seconds before or after the time of signing (RFC 8945 5.2.3).
fn is_in_time(now: u64, time_signed: u64, fudge: u16) -> bool
    ensures { result ≡ is_in_time now time_signed fudge }
{
    now.abs_diff(time_signed) <= u64::from(fudge)
}

/// The RDATA of the last record of a message's additional section, where that is a TSIG record; it has no compressed
/// names, so memory is taken for none. Nothing where it is another record, or there is none; that is never refused.
pub fn last_rdata<'b>(alloc: Global, message: &Message<'b>) -> Result<RdataOctets<'b>, AllocError>
    ensures found { IfOk result (IsLastRdata message.now.additional) }
    ensures refused { IfErr result (λ _. EndsWithTsig message.now.additional) }
{
    let Some(last) = message.records(Section::Additional).last() else {
        return Ok(RdataOctets::none());
    };
    if last.rtype != TSIG {
        return Ok(RdataOctets::none());
    }
    last.rdata.octets(alloc)
}

/// Whether no record of the three lists is a TSIG record.
fn lack_tsig(answer: &[Record<'_>], authority: &[Record<'_>], additional: &[Record<'_>]) -> bool
    ensures { IsTrue result ↔ LacksTsig (answer.now ++ authority.now ++ additional.now) }
{
    if !lacks_tsig(answer) {
        return false;
    }
    if !lacks_tsig(authority) {
        return false;
    }
    lacks_tsig(additional)
}

/// Whether none of the records is a TSIG record.
fn lacks_tsig(records: &[Record<'_>]) -> bool
    ensures { IsTrue result ↔ LacksTsig records.now }
{
    records.iter().all(|each| each.rtype != TSIG)
}

/// What the record with this RDATA says, where it is a TSIG record that is formed as it has to be.
fn signed_by<'a>(resource: &Record<'_>, rdata: &'a [u8]) -> Option<Tsig<'a>>
    requires { resource.now.rtype.0 ≡ 250 → rdata.now ≡ resource.now.rdata }
    ensures { MatchOption result
        ((tsig : TsigFields) → Signs resource.now tsig → ⊥)
        (λ tsig. Signs resource.now tsig) }
{
    if resource.rtype != TSIG || resource.class != ANY || resource.ttl != Ttl(0) {
        return None;
    }
    let Some(tsig) = Tsig::read(rdata) else {
        return None;
    };
    if tsig.mac.len() < LEAST_MAC_LENGTH {
        return None;
    }
    if tsig.mac.len() > MAC_LENGTH {
        return None;
    }
    Some(tsig)
}
