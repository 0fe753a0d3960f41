//! The octets of questions and records (RFC 1035 4.1.2, 4.1.3), no name of which is compressed.
ghost use Rattle.std.specs.Prelude.{All, ◌≡◌, ◌++◌, ◌<◌, ◌^◌, OnOk, length, flat_map};
ghost use Rattle.dnsv_message.specs.Encoding.{question_octets, record_octets};

use crate::record::{Question, Record};
use std::alloc::{AllocError, Global};

/// Adds the octets of the questions, in order.
pub fn push_questions(octets: &mut Vec<u8>, questions: &[Question<'_>]) -> Result<(), AllocError>
    ensures { OnOk result (octets.new.items ≡ octets.old.items ++ flat_map question_octets questions.now) }
{
    for question in questions {
        push_question(octets, question)?;
    }
    Ok(())
}

/// Adds the octets of the records, in order.
pub fn push_records(
    alloc: Global,
    octets: &mut Vec<u8>,
    records: &[Record<'_>],
) -> Result<(), AllocError>
    requires { All (λ resource. length resource.rdata < 2 ^ 16) records.now }
    ensures { OnOk result (octets.new.items ≡ octets.old.items ++ flat_map record_octets records.now) }
{
    for resource in records {
        push_record(alloc, octets, resource)?;
    }
    Ok(())
}

fn push_question(octets: &mut Vec<u8>, question: &Question<'_>) -> Result<(), AllocError>
    ensures { OnOk result (octets.new.items ≡ octets.old.items ++ question_octets question.now) }
{
    let name = question.name.to_name();
    octets.extend_from_slice(name.wire())?;
    octets.extend_from_slice(&question.rtype.0.to_be_bytes())?;
    octets.extend_from_slice(&question.class.0.to_be_bytes())?;
    Ok(())
}

fn push_record(alloc: Global, octets: &mut Vec<u8>, resource: &Record<'_>) -> Result<(), AllocError>
    requires { length resource.now.rdata < 2 ^ 16 }
    ensures { OnOk result (octets.new.items ≡ octets.old.items ++ record_octets resource.now) }
{
    let written = resource.rdata.octets(alloc)?;
    let rdata = written.as_slice();
    let owner = resource.name.to_name();
    octets.extend_from_slice(owner.wire())?;
    octets.extend_from_slice(&resource.rtype.0.to_be_bytes())?;
    octets.extend_from_slice(&resource.class.0.to_be_bytes())?;
    octets.extend_from_slice(&resource.ttl.0.to_be_bytes())?;
    octets.extend_from_slice(&(rdata.len() as u16).to_be_bytes())?;
    octets.extend_from_slice(rdata)?;
    Ok(())
}
