//! Which RRsets of NSEC and NSEC3 records the zones signed, by their numbers.
ghost use Rattle.std.specs.Prelude.{◌≡◌, ◌↔◌, ℕ, Contains, IfOk, IsTrue, OnOk};
ghost use Rattle.dnsv_names.specs.Name.{Labels};
ghost use Rattle.dnsv_anchors.specs.ByOwner.{values_at};
ghost use Rattle.dnsv_chain.specs.Trust.{SecuredIn};
ghost use Rattle.dnsv_denial.specs.gathering.Evidence.{HasZoneSignature};
ghost use Rattle.dnsv_denial.specs.gathering.Gathered.{AreListed, IsDenialType};

use dnsv_canonical::{Capture, Rrset};
use dnsv_chain::{ByOwner, Trust, add_at};
use dnsv_names::{Name, RecordType};
use std::alloc::{AllocError, Global};
use std::collections::BTreeMap;

/// Numbers of RRsets by zone. One may be there several times.
pub type NumbersByZone<'c> = ByOwner<'c, usize>;

/// For each zone the numbers of the RRsets of NSEC or NSEC3 records that it secured, and maybe of others that it signed.
pub fn numbers_by_zone<'c>(
    alloc: Global,
    capture: &'c Capture<'c>,
    trust: &Trust<'_>,
) -> Result<NumbersByZone<'c>, AllocError>
    ensures { IfOk result (λ numbers. AreListed (SecuredIn trust.now) capture.now.rrsets (values_at numbers)) }
{
    let mut numbers = BTreeMap::new(alloc);
    for (place, rrset) in capture.rrsets().iter().enumerate() {
        let number = place + 1;
        if is_denial_type(rrset.rtype()) {
            add_signers(alloc, &mut numbers, rrset, trust.signed(number), number)?;
        }
    }
    Ok(numbers)
}

/// The numbers that are there for the zone. The zones are tried one after another, since the tree can be asked only for a
/// name that is kept as long as those in it.
pub fn numbers_of<'m, 'c>(numbers: &'m NumbersByZone<'c>, zone: &Name) -> &'m [usize]
    ensures { result.now ≡ values_at numbers.now zone.now }
{
    for entry in numbers {
        if entry.0.0.is_same(zone) {
            return entry.1;
        }
    }
    &[]
}

/// Whether records of the type may deny a name or a type.
fn is_denial_type(rtype: RecordType) -> bool
    ensures { IsTrue result ↔ IsDenialType rtype.0 }
{
    rtype == RecordType::NSEC || rtype == RecordType::NSEC3
}

/// Adds the RRset's number to those of the zones that made its signatures with these numbers.
fn add_signers<'c>(
    alloc: Global,
    numbers: &mut NumbersByZone<'c>,
    rrset: &'c Rrset<'c>,
    secured: &[usize],
    number: usize,
) -> Result<(), AllocError>
    ensures kept { OnOk result ((zone : Labels) (k : ℕ) → Contains (values_at numbers.old zone) k
        → Contains (values_at numbers.new zone) k) }
    ensures added { OnOk result ((zone : Labels) → HasZoneSignature (λ s. Contains secured.now s) rrset.now zone
        → Contains (values_at numbers.new zone) number) }
{
    for signature in secured {
        add_signer(alloc, numbers, rrset, *signature, number)?;
    }
    Ok(())
}

/// Adds the RRset's number to those of the zone that made its signature with the number.
fn add_signer<'c>(
    alloc: Global,
    numbers: &mut NumbersByZone<'c>,
    rrset: &'c Rrset<'c>,
    signature: usize,
    number: usize,
) -> Result<(), AllocError>
    ensures kept { OnOk result ((zone : Labels) (k : ℕ) → Contains (values_at numbers.old zone) k
        → Contains (values_at numbers.new zone) k) }
    ensures added { OnOk result ((zone : Labels) → HasZoneSignature (λ s. s ≡ signature) rrset.now zone
        → Contains (values_at numbers.new zone) number) }
{
    let rrsigs = rrset.signatures();
    if signature == 0 || signature > rrsigs.len() {
        return Ok(());
    }
    add_at(alloc, numbers, &rrsigs[signature - 1].signer, number)?;
    Ok(())
}
