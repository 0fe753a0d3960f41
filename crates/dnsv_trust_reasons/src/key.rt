//! Keys of DNSKEY RRsets, as lines tell them.
ghost use Rattle.std.specs.Prelude.{IfOk, MatchOption};
ghost use Rattle.dnsv_lines.specs.declared.line.derivation.KeyName.{KeyName};
ghost use Rattle.dnsv_trust_reasons.specs.Places.{IsKeyAt};

use dnsv_canonical::{Rrset, numbered};
use dnsv_lines::KeyName;
use dnsv_names::RecordType;
use dnsv_records::{KeyTag, key_tag};
use dnsv_rrsets::in_canonical_order;
use std::alloc::{AllocError, Global};

/// The tag and the algorithm of the key at the place of the RRset, if it has one.
pub fn key_at(alloc: Global, rrset: &Rrset<'_>, place: usize) -> Result<Option<KeyName>, AllocError>
    ensures { IfOk result (λ found. MatchOption found ((each : KeyName) → ¬ IsKeyAt rrset.now place each)
        (IsKeyAt rrset.now place)) }
{
    if rrset.rtype() != RecordType::DNSKEY {
        return Ok(None);
    }
    let records = in_canonical_order(alloc, rrset, rrset.dnskeys())?;
    let Some(found) = numbered(&records, place) else {
        return Ok(None);
    };
    Ok(Some(KeyName {
        tag: KeyTag(key_tag(found.rdata)),
        algorithm: found.record.algorithm,
    }))
}
