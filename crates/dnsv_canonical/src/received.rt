//! RRsets as they stand in messages.

mod together;

ghost use Rattle.std.specs.Prelude.{◌≡◌, ◌++◌, ◌+◌, IfOk, OnOk, map, List, ℕ};
ghost use Rattle.dnsv_message.specs.declared.record.Section.{Section};

use crate::by_rrset::{distinct_rdata, take_rdata};
use crate::placed_record::{PlacedRecord, Sections};
use crate::received::together::rrsets_together;
use crate::section::{is_grouped, rdata_by_rrset, signatures_by_rrset};
use bumpalo::Bump;
use dnsv_message::{NameRef, Section};
use dnsv_names::{Name, RecordType};
use std::alloc::{AllocError, Global};
use std::marker::Model;

/// An RRset as it was received: the IN records of one message, section, owner and type, and the signatures that
/// cover it there. Its RDATA stands in the message, or where that is compressed, in the arena, as its owner does.
///
/// Owners are equal without regard to case. Records of the types 0, OPT, RRSIG and 128 to 255 form no RRset, nor
/// do those of MD, MF, MB, MG, MR, MINFO, RP, AFSDB, RT, SIG, PX, NXT, NAPTR, KX and A6.
#[derive(Drop)]
pub struct Received<'b> {
    /// The number of its message, from 1 on.
    pub message: usize,
    /// The section that its records stand in.
    pub section: Section,
    /// The owner as its first record spells it.
    pub owner: &'b Name,
    rtype: RecordType,
    rdata: Vec<&'b [u8]>,
    signatures: Vec<&'b [u8]>,
}

impl<'b> Model for Received<'b> {
    ghost use Rattle.std.specs.Prelude.{map};
    ghost use Rattle.dnsv_canonical.specs.Rrsets.{ReceivedRrset};

    ghost Value = { ReceivedRrset };

    ghost view = { λ rrset. record {
      message = rrset.message;
      section = rrset.section;
      owner = rrset.owner.now;
      rtype = rrset.rtype.0;
      rdata = map (λ r. r.now) rrset.rdata.items;
      signatures = map (λ r. r.now) rrset.signatures.items;
    } };
}

impl<'b> Received<'b> {
    /// The type of its records.
    pub fn rtype(&self) -> RecordType
        ensures { result.0 ≡ self.now.rtype }
    {
        self.rtype
    }

    /// The RDATA of its records as received, in order.
    pub fn rdata(&self) -> &[&'b [u8]]
        ensures { map (λ r. r.now) result.now ≡ self.now.rdata }
    {
        &self.rdata
    }

    /// The RDATA of the IN RRSIG records of its message, section and owner that cover its type, in order, of equal
    /// ones the first. They are numbered from 1.
    pub fn signatures(&self) -> &[&'b [u8]]
        ensures { map (λ r. r.now) result.now ≡ self.now.signatures }
    {
        &self.signatures
    }
}

ghost use Rattle.dnsv_canonical.specs.Rrsets.{rrsets_in};

/// The RRsets of the message with these sections, which has this number.
pub fn message_rrsets<'b>(
    alloc: Global,
    bump: &'b Bump,
    number: usize,
    sections: &Sections<'b>,
) -> Result<Vec<Received<'b>>, AllocError>
    ensures { IfOk result (λ rrsets. rrsets.items ≡ rrsets_in number Section.Answer sections.now.answer.items
        ++ rrsets_in number Section.Authority sections.now.authority.items
        ++ rrsets_in number Section.Additional sections.now.additional.items) }
{
    let mut rrsets = Vec::new(alloc);
    let answer = sections.answer.as_slice();
    let authority = sections.authority.as_slice();
    let additional = sections.additional.as_slice();
    add_section(alloc, bump, &mut rrsets, number, Section::Answer, answer)?;
    add_section(
        alloc,
        bump,
        &mut rrsets,
        number,
        Section::Authority,
        authority,
    )?;
    add_section(
        alloc,
        bump,
        &mut rrsets,
        number,
        Section::Additional,
        additional,
    )?;
    Ok(rrsets)
}

/// Adds the RRsets of a section.
fn add_section<'b>(
    alloc: Global,
    bump: &'b Bump,
    rrsets: &mut Vec<Received<'b>>,
    message: usize,
    section: Section,
    records: &[PlacedRecord<'b>],
) -> Result<(), AllocError>
    ensures { OnOk result (rrsets.new.items ≡ rrsets.old.items ++ rrsets_in message section records.now) }
{
    if let Some(mut together) = rrsets_together(alloc, bump, message, section, records)? {
        rrsets.append(&mut together)?;
        return Ok(());
    }
    add_scattered(alloc, bump, rrsets, message, section, records)
}

/// Adds the RRsets of a section, in whatever order its records stand.
fn add_scattered<'b>(
    alloc: Global,
    bump: &'b Bump,
    rrsets: &mut Vec<Received<'b>>,
    message: usize,
    section: Section,
    records: &[PlacedRecord<'b>],
) -> Result<(), AllocError>
    ensures { OnOk result (rrsets.new.items ≡ rrsets.old.items ++ rrsets_in message section records.now) }
{
    let mut data = rdata_by_rrset(alloc, records)?;
    let signatures = signatures_by_rrset(alloc, records)?;
    for record in records {
        if !is_grouped(record) {
            continue;
        }
        let rtype = record.rtype;
        let owner = &record.name;
        // The first record of an RRset takes the RDATA of all, and leaves none to the others.
        let rdata = take_rdata(alloc, &mut data, rtype, owner);
        if !rdata.is_empty() {
            let placed = placed_owner(bump, rrsets, owner)?;
            rrsets.push(Received {
                message,
                section,
                owner: placed,
                rtype,
                rdata,
                signatures: distinct_rdata(alloc, &signatures, rtype, owner)?,
            })?;
        }
    }
    Ok(())
}

/// The owner in the arena. It's that of the RRset before where both are spelled alike, as those of one owner mostly
/// follow each other.
pub fn placed_owner<'b>(
    bump: &'b Bump,
    before: &[Received<'b>],
    owner: &NameRef<'_>,
) -> Result<&'b Name, AllocError>
    ensures { IfOk result (λ placed. placed.now ≡ owner.now) }
{
    let owner = owner.to_name();
    if let Some(last) = before.last() {
        if last.owner.wire() == owner.wire() {
            return Ok(last.owner);
        }
    }
    let placed: &'b Name = bump.try_alloc(owner)?;
    Ok(placed)
}
