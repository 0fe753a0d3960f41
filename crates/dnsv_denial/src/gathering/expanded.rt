//! The types of which a capture has answers from wildcards.
use dnsv_canonical::{Capture, Rrset, is_expanded};
use dnsv_names::RecordType;
use std::alloc::{AllocError, Global};

/// The types of the RRsets that are expanded by one of their signatures, secured or not, each once (RFC 4035 5.3.4). Most
/// captures have few such types, and transfers none, so that a name's answers from wildcards are looked up by its types.
pub fn expanded_types(alloc: Global, capture: &Capture<'_>) -> Result<Vec<RecordType>, AllocError> {
    let mut types = Vec::new(alloc);
    for rrset in capture.rrsets() {
        if has_expanded(rrset) && !types.contains(&rrset.rtype()) {
            types.push(rrset.rtype())?;
        }
    }
    Ok(types)
}

/// Whether the RRset is expanded by one of its signatures.
fn has_expanded(rrset: &Rrset<'_>) -> bool {
    for rrsig in rrset.signatures() {
        if is_expanded(rrset.owner(), rrsig) {
            return true;
        }
    }
    false
}
