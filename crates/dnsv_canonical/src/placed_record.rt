//! Records whose RDATA is at hand as octets one after another.
ghost use Rattle.std.specs.Prelude.{◌≡◌, IfOk};

use bumpalo::Bump;
use dnsv_message::{Class, Message, NameRef, Record, Section};
use dnsv_names::{RecordType, Ttl};
use std::alloc::{AllocError, Global};
use std::marker::Model;

/// A record of a message, with its RDATA as octets one after another. It is seen as the message's record.
#[derive(Drop)]
pub struct PlacedRecord<'b> {
    pub name: NameRef<'b>,
    pub rtype: RecordType,
    pub class: Class,
    ttl: Ttl,
    rdata: &'b [u8],
}

impl<'b> Model for PlacedRecord<'b> {
    ghost use Rattle.dnsv_message.specs.declared.record.Record.{Record};

    ghost Value = { Record };

    ghost view = { λ placed. record {
      name = placed.name;
      rtype = placed.rtype;
      class = placed.class;
      ttl = placed.ttl;
      rdata = placed.rdata.now;
    } };
}

impl<'b> PlacedRecord<'b> {
    fn of(
        alloc: Global,
        bump: &'b Bump,
        resource: &Record<'b>,
    ) -> Result<PlacedRecord<'b>, AllocError>
        ensures { IfOk result (λ placed. placed ≡ resource.now) }
    {
        Ok(PlacedRecord {
            name: resource.name.copied(),
            rtype: resource.rtype,
            class: resource.class,
            ttl: resource.ttl,
            rdata: resource.rdata.placed(alloc, bump)?,
        })
    }

    /// The octets of its RDATA, with every name written out.
    pub fn rdata(&self) -> &'b [u8]
        ensures { result.now ≡ self.now.rdata }
    {
        self.rdata
    }
}

/// The records of the three sections of a message.
#[derive(Drop)]
pub struct Sections<'b> {
    pub answer: Vec<PlacedRecord<'b>>,
    pub authority: Vec<PlacedRecord<'b>>,
    pub additional: Vec<PlacedRecord<'b>>,
}

impl<'b> Sections<'b> {
    /// Those of the message. Names in RDATA that may be compressed are written out in the arena.
    pub fn of(
        alloc: Global,
        bump: &'b Bump,
        message: &Message<'b>,
    ) -> Result<Sections<'b>, AllocError>
        ensures answer { IfOk result (λ sections. sections.answer.items ≡ message.now.answer) }
        ensures authority { IfOk result (λ sections. sections.authority.items ≡ message.now.authority) }
        ensures additional { IfOk result (λ sections. sections.additional.items ≡ message.now.additional) }
    {
        Ok(Sections {
            answer: all_placed(alloc, bump, message.records(Section::Answer))?,
            authority: all_placed(alloc, bump, message.records(Section::Authority))?,
            additional: all_placed(alloc, bump, message.records(Section::Additional))?,
        })
    }
}

/// The records, in order.
fn all_placed<'b>(
    alloc: Global,
    bump: &'b Bump,
    records: &[Record<'b>],
) -> Result<Vec<PlacedRecord<'b>>, AllocError>
    ensures { IfOk result (λ all. all.items ≡ records.now) }
{
    let mut all = Vec::with_capacity(alloc, records.len())?;
    for resource in records {
        all.push(PlacedRecord::of(alloc, bump, resource)?)?;
    }
    Ok(all)
}
