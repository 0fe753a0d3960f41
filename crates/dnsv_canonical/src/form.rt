//! RDATA in canonical form: the names in it are in lower case.
ghost use Rattle.std.specs.Prelude.{◌≡◌, ◌++◌, IfOk, take, drop, map};
ghost use Rattle.dnsv_canonical.specs.CanonicalRdata.{octets_around_names, lowered_but_last, canonical_form};

use dnsv_names::RecordType;
use std::alloc::{AllocError, Global};

/// The canonical forms of the RDATA of records of the type, in order (RFC 4034 6.2, RFC 6840 5.1).
pub fn canonical_forms(
    alloc: Global,
    rtype: RecordType,
    received: &[&[u8]],
) -> Result<Vec<Vec<u8>>, AllocError>
    ensures { IfOk result (λ forms. map (λ form. form.items) forms.items
        ≡ map (canonical_form rtype.0) (map (λ r. r.now) received.now)) }
{
    let mut forms = Vec::new(alloc);
    for rdata in received {
        forms.push(canonical_form(alloc, rtype, rdata)?)?;
    }
    Ok(forms)
}

/// The vectors' octets.
pub fn slices<'a>(alloc: Global, forms: &'a [Vec<u8>]) -> Result<Vec<&'a [u8]>, AllocError>
    ensures { IfOk result (λ slices. map (λ r. r.now) slices.items ≡ map (λ form. form.items) forms.now) }
{
    let mut slices = Vec::new(alloc);
    for form in forms {
        slices.push(form.as_slice())?;
    }
    Ok(slices)
}

/// The RDATA with its names in lower case, where canonical form has them so.
fn canonical_form(alloc: Global, rtype: RecordType, rdata: &[u8]) -> Result<Vec<u8>, AllocError>
    ensures { IfOk result (λ form. form.items ≡ canonical_form rtype.0 rdata.now) }
{
    match octets_around_names(rtype) {
        Some((before, behind)) => names_lowered(alloc, rdata, before, behind),
        None => rdata.to_vec(alloc),
    }
}

/// How many octets stand before and behind the names in the type's RDATA: NS, CNAME, PTR and DNAME, SOA, MX and
/// SRV have names that canonical form lowers.
pub fn octets_around_names(rtype: RecordType) -> Option<(usize, usize)>
    ensures { result ≡ octets_around_names rtype.0 }
{
    match rtype {
        RecordType::NS | RecordType::CNAME | RecordType::PTR | RecordType::DNAME => Some((0, 0)),
        RecordType::SOA => Some((0, 20)),
        RecordType::MX => Some((2, 0)),
        RecordType::SRV => Some((6, 0)),
        _ => None,
    }
}

/// The RDATA with the octets of its names in lower case, by how many octets stand before and behind them.
fn names_lowered(
    alloc: Global,
    rdata: &[u8],
    before: usize,
    behind: usize,
) -> Result<Vec<u8>, AllocError>
    ensures { IfOk result (λ form. form.items
        ≡ take before rdata.now ++ lowered_but_last behind (drop before rdata.now)) }
{
    let (front, rest) = rdata.split_at(before.min(rdata.len()));
    let (names, end) = rest.split_at(rest.len().saturating_sub(behind));
    let mut form = Vec::new(alloc);
    form.extend_from_slice(front)?;
    for octet in names {
        form.push(octet.to_ascii_lowercase())?;
    }
    form.extend_from_slice(end)?;
    Ok(form)
}
