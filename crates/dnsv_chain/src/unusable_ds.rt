//! DS RRsets of which no record can be used (RFC 4035 5.2).
ghost use Rattle.std.specs.Prelude.{◌↔◌, Contains, IsTrue};
ghost use Rattle.dnsv_chain.specs.UnusableDs.{IsUnusableDs};

use dnsv_anchors::has_usable;
use dnsv_canonical::Rrset;
use dnsv_names::{Name, RecordType};

/// Whether it is a DS RRset at or above the name with a secured signature, and has no usable record.
pub fn is_unusable_ds(rrset: &Rrset<'_>, secured: &[usize], name: &Name) -> bool
    ensures { IsTrue result ↔ IsUnusableDs (λ s. Contains secured.now s) rrset.now name.now }
{
    if rrset.rtype() != RecordType::DS {
        return false;
    }
    if secured.is_empty() {
        return false;
    }
    if !name.is_at_or_below(rrset.owner()) {
        return false;
    }
    !has_usable(rrset.ds_records())
}
