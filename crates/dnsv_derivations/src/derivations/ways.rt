//! By which anchor or DS record, which key and which signature a DNSKEY RRset is trusted.

pub mod by_anchor;
pub mod by_ds;
pub mod kept;
pub mod keys;
pub mod matcher;

ghost use Rattle.std.specs.Prelude.{◌≡◌, IfOk, MatchOption};
ghost use Rattle.dnsv_canonical.specs.Rrsets.{IsNumbered};
ghost use Rattle.dnsv_derivations.specs.Explained.{setting_in};
ghost use Rattle.dnsv_derivations.specs.derivations.Ways.{IsTrustedLine, IsTrustedSet};
ghost use Rattle.dnsv_derivations.specs.derivations.WaySearch.{IsWayOf};

use crate::derivations::ways::by_anchor::way_by_anchor;
use crate::derivations::ways::by_ds::way_by_ds;
use crate::derivations::ways::keys::{GoodSignature, KeySet, keys_in_order, set_keys};
use crate::evidence::Evidence;
use dnsv_canonical::{Rrset, SignatureNumber, numbered};
use dnsv_lines::{KeyName, TrustedKeys, Voucher};
use dnsv_names::RecordType;
use std::alloc::{AllocError, Global};

/// A way into a DNSKEY RRset, by the names of what it goes by.
#[derive(Clone, Copy)]
pub struct FoundWay {
    pub voucher: Voucher,
    pub key: KeyName,
    pub signature: GoodSignature,
}

/// What is to be said of the DNSKEY RRset with the number: its first way, by the anchor of lowest number, else by the DS
/// record of lowest RRset and place; then by the lowest key, then by its lowest signature. `None` where it isn't trusted.
pub fn trusted_line(
    alloc: Global,
    evidence: &Evidence<'_>,
    number: usize,
) -> Result<Option<TrustedKeys>, AllocError>
    ensures { IfOk result (λ line. MatchOption line (¬ IsTrustedSet (setting_in evidence.now) number)
        (IsTrustedLine (setting_in evidence.now) number)) }
{
    let Some(set) = numbered(evidence.rrsets(), number) else {
        return Ok(None);
    };
    if set.rtype() != RecordType::DNSKEY {
        return Ok(None);
    }
    let Some(way) = first_way(alloc, evidence, number, set)? else {
        return Ok(None);
    };
    Ok(Some(TrustedKeys {
        zone: set.owner().clone()?,
        signature: SignatureNumber {
            rrset: number,
            signature: way.signature.number,
        },
        key: way.key,
        voucher: way.voucher,
        todo: way.signature.todo,
    }))
}

/// The first way into the RRset, which has the number: none into one that isn't trusted, or is no DNSKEY RRset.
fn way_into(
    alloc: Global,
    evidence: &Evidence<'_>,
    number: usize,
    rrset: &Rrset<'_>,
) -> Result<Option<FoundWay>, AllocError>
    requires { IsNumbered evidence.now.rrsets number rrset.now }
    ensures { IfOk result (IsWayOf (setting_in evidence.now) number) }
{
    if rrset.rtype() != RecordType::DNSKEY {
        return Ok(None);
    }
    Ok(first_way(alloc, evidence, number, rrset)?)
}

/// The first way into the DNSKEY RRset, which has the number. It is looked for once, where ways are kept.
pub fn first_way(
    alloc: Global,
    evidence: &Evidence<'_>,
    number: usize,
    rrset: &Rrset<'_>,
) -> Result<Option<FoundWay>, AllocError>
    requires numbered { IsNumbered evidence.now.rrsets number rrset.now }
    requires rtype { rrset.now.rtype ≡ 48 }
    ensures { IfOk result (IsWayOf (setting_in evidence.now) number) }
{
    if let Some(way) = evidence.kept_way(number) {
        return Ok(way);
    }
    Ok(found_way(alloc, evidence, number, rrset)?)
}

/// The first way into the DNSKEY RRset, which has the number, as it is looked for.
fn found_way(
    alloc: Global,
    evidence: &Evidence<'_>,
    number: usize,
    rrset: &Rrset<'_>,
) -> Result<Option<FoundWay>, AllocError>
    requires numbered { IsNumbered evidence.now.rrsets number rrset.now }
    requires rtype { rrset.now.rtype ≡ 48 }
    ensures { IfOk result (IsWayOf (setting_in evidence.now) number) }
{
    let keys = keys_in_order(alloc, rrset)?;
    let set = KeySet {
        number,
        rrset,
        keys: set_keys(alloc, evidence, number, rrset, &keys)?,
    };
    if let Some(way) = way_by_anchor(evidence, &set) {
        return Ok(Some(way));
    }
    Ok(way_by_ds(alloc, evidence, &set)?)
}
