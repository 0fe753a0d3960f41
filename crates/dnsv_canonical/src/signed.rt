//! The octets that a signature signs.
ghost use Rattle.std.specs.Prelude.{◌≡◌, ◌↔◌, ◌++◌, ◌≤◌, ℕ, List, Some, None, if◌then◌else◌, IfOk, IsTrue, OnOk, map, length};
ghost use Rattle.std.specs.List.{AllByRecursion};
ghost use Rattle.std.specs.Int.{w16, w32, to_be_bytes};
ghost use Rattle.dnsv_names.specs.Name.{Labels, wire};
ghost use Rattle.dnsv_canonical.specs.CanonicalRdata.{canonical_form};
ghost use Rattle.dnsv_canonical.specs.SignedData.{signed_label_count, signed_front, signed_owner, IsExpanded, IsSignedData};
ghost use Rattle.dnsv_canonical.specs.SignedRecords.{AddsSigned};

use crate::canonical::canonical_rdata;
use crate::form::{canonical_forms, octets_around_names, slices};
use dnsv_message::Class;
use dnsv_names::{ASTERISK_LABEL, Name, RecordType, WIRE_LIMIT};
use dnsv_records::Rrsig;
use std::alloc::{AllocError, Global};

/// Room in which signed data is made, one after another, so that many take the memory of the longest.
#[derive(Drop)]
pub struct SigningRoom {
    /// The signed data that was made last.
    pub octets: Vec<u8>,
    /// What begins each of its records.
    pub front: Vec<u8>,
}

impl SigningRoom {
    /// Room that takes no memory yet.
    pub fn new(alloc: Global) -> SigningRoom {
        SigningRoom {
            octets: Vec::new(alloc),
            front: Vec::new(alloc),
        }
    }
}

/// Makes the octets that the signature signs over an RRset (RFC 4034 3.1.8.1, 6.2, 6.3; RFC 4035 5.3.2): the RRSIG's RDATA
/// without the signature, and each record once in canonical form and order, with the original TTL and the owner that Labels
/// gives. The answer is whether it signs any: none where Labels is above the owner's count of labels.
///
/// `received` has the RDATA of the RRset's records without compression, their names as they are spelled.
pub fn make_signed_octets(
    alloc: Global,
    room: &mut SigningRoom,
    owner: &Name,
    rtype: RecordType,
    received: &[&[u8]],
    rrsig: &Rrsig<'_>,
) -> Result<bool, AllocError>
    requires { AllByRecursion (λ rdata. length rdata ≤ 65535) (map (λ r. r.now) received.now) }
    ensures { IfOk result (λ signs. IsSignedData owner.now rtype.0 (map (λ r. r.now) received.now) rrsig.now
        (if signs then Some room.new.octets.items else None)) }
{
    if rrsig.labels as usize > signed_label_count(owner) {
        return Ok(false);
    }
    fill_front(&mut room.octets, rrsig)?;
    fill_record_front(&mut room.front, owner, rtype, rrsig)?;
    push_canonical(
        alloc,
        &mut room.octets,
        room.front.as_slice(),
        rtype,
        received,
    )?;
    Ok(true)
}

/// How many labels of the owner a signature counts: neither the root's nor a leftmost `*` (RFC 4034 3.1.3).
pub fn signed_label_count(owner: &Name) -> usize
    ensures { result ≡ signed_label_count owner.now }
{
    let labels = owner.labels();
    if owner.is_wildcard() {
        labels - 1
    } else {
        labels
    }
}

/// Whether the signature is expanded over the owner: a wildcard with fewer labels was signed, and the owner is a name
/// that it stands for (RFC 4035 5.3.2).
pub fn is_expanded(owner: &Name, rrsig: &Rrsig<'_>) -> bool
    ensures { IsTrue result ↔ IsExpanded owner.now rrsig.now }
{
    (rrsig.labels as usize) < signed_label_count(owner)
}

/// Puts there what is signed before the records: the RDATA without the signature, its signer in lower case.
fn fill_front(octets: &mut Vec<u8>, rrsig: &Rrsig<'_>) -> Result<(), AllocError>
    ensures { OnOk result (octets.new.items ≡ signed_front rrsig.now) }
{
    octets.clear();
    // The octets before the signer, and a signer.
    octets.reserve(18 + WIRE_LIMIT)?;
    octets.extend_from_slice(&rrsig.type_covered.0.to_be_bytes())?;
    octets.push(rrsig.algorithm.0)?;
    octets.push(rrsig.labels)?;
    octets.extend_from_slice(&rrsig.original_ttl.0.to_be_bytes())?;
    octets.extend_from_slice(&rrsig.expiration.0.to_be_bytes())?;
    octets.extend_from_slice(&rrsig.inception.0.to_be_bytes())?;
    octets.extend_from_slice(&rrsig.key_tag.0.to_be_bytes())?;
    octets.extend_from_slice(rrsig.signer.to_name().to_lower().wire())?;
    Ok(())
}

/// Adds the signed records of the RDATA of the type, in canonical form and order.
fn push_canonical(
    alloc: Global,
    octets: &mut Vec<u8>,
    front: &[u8],
    rtype: RecordType,
    received: &[&[u8]],
) -> Result<(), AllocError>
    requires { AllByRecursion (λ rdata. length rdata ≤ 65535) (map (λ r. r.now) received.now) }
    ensures { OnOk result (AddsSigned front.now (map (canonical_form rtype.0) (map (λ r. r.now) received.now))
        octets.old.items octets.new.items) }
{
    if octets_around_names(rtype).is_none() {
        return push_in_order(alloc, octets, front, received);
    }
    let forms = canonical_forms(alloc, rtype, received)?;
    let slices = slices(alloc, forms.as_slice())?;
    push_in_order(alloc, octets, front, slices.as_slice())
}

/// Adds the signed records of the RDATA in canonical order.
fn push_in_order(
    alloc: Global,
    octets: &mut Vec<u8>,
    front: &[u8],
    forms: &[&[u8]],
) -> Result<(), AllocError>
    requires { AllByRecursion (λ rdata. length rdata ≤ 65535) (map (λ r. r.now) forms.now) }
    ensures { OnOk result (AddsSigned front.now (map (λ r. r.now) forms.now) octets.old.items octets.new.items) }
{
    // One RDATA is in order.
    if forms.len() == 1 {
        return push_record(octets, front, forms[0]);
    }
    let sorted = canonical_rdata(alloc, forms)?;
    for rdata in &sorted {
        push_record(octets, front, rdata)?;
    }
    Ok(())
}

/// Adds a signed record: what begins each of them, the length of its RDATA in 16 bits, and its RDATA.
fn push_record(octets: &mut Vec<u8>, front: &[u8], rdata: &[u8]) -> Result<(), AllocError>
    requires { length rdata.now ≤ 65535 }
    ensures { OnOk result (octets.new.items
        ≡ octets.old.items ++ front.now ++ to_be_bytes w16 (length rdata.now) ++ rdata.now) }
{
    octets.extend_from_slice(front)?;
    octets.extend_from_slice(&length_octets(rdata))?;
    octets.extend_from_slice(rdata)?;
    Ok(())
}

/// Puts there what begins each signed record: owner, type, class IN and the original TTL.
fn fill_record_front(
    octets: &mut Vec<u8>,
    owner: &Name,
    rtype: RecordType,
    rrsig: &Rrsig<'_>,
) -> Result<(), AllocError>
    requires { rrsig.now.labels ≤ signed_label_count owner.now }
    ensures { OnOk result (octets.new.items ≡ wire (signed_owner owner.now rrsig.now.labels)
        ++ to_be_bytes w16 rtype.0 ++ to_be_bytes w16 1 ++ to_be_bytes w32 rrsig.now.original_ttl.0) }
{
    fill_owner(octets, owner, rrsig.labels as usize)?;
    octets.extend_from_slice(&rtype.0.to_be_bytes())?;
    octets.extend_from_slice(&Class::IN.0.to_be_bytes())?;
    let ttl = rrsig.original_ttl;
    octets.extend_from_slice(&ttl.0.to_be_bytes())?;
    Ok(())
}

/// Puts there the owner as it is signed: in lower case, with `*` for the labels that a wildcard was expanded to.
fn fill_owner(octets: &mut Vec<u8>, owner: &Name, labels: usize) -> Result<(), AllocError>
    requires { labels ≤ signed_label_count owner.now }
    ensures { OnOk result (octets.new.items ≡ wire (signed_owner owner.now labels)) }
{
    octets.clear();
    // An owner, and what stands between it and the RDATA's length.
    octets.reserve(WIRE_LIMIT + 8)?;
    if labels < signed_label_count(owner) {
        octets.extend_from_slice(&ASTERISK_LABEL)?;
        octets.extend_from_slice(owner.suffix(labels).to_lower().wire())?;
    } else {
        octets.extend_from_slice(owner.to_lower().wire())?;
    }
    Ok(())
}

/// The length of an RDATA in 16 bits.
fn length_octets(rdata: &[u8]) -> [u8; 2]
    requires { length rdata.now ≤ 65535 }
    ensures { result ≡ to_be_bytes w16 (length rdata.now) }
{
    (rdata.len() as u16).to_be_bytes()
}
