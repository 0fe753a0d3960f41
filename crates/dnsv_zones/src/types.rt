//! What the types of a bitmap say of its owner.
ghost use Rattle.std.specs.Prelude.{◌↔◌, IsTrue};
ghost use Rattle.std.specs.FinSet as set;
ghost use Rattle.dnsv_zones.specs.zones.Types.{IsDelegation, IsClosed, IsUnsignedDelegation, Denies};
ghost use Rattle.dnsv_zones.specs.chains.NsecChain.{IsInBitmap};

use dnsv_names::RecordType;
use dnsv_records::TypeBitmap;

/// Whether the owner is a delegation: NS, and no SOA (RFC 1034 4.2.1, RFC 4035 2.3).
pub fn is_delegation(types: &TypeBitmap<'_>) -> bool
    ensures { IsTrue result ↔ IsDelegation (IsInBitmap (λ t. set.contains types.now t)) }
{
    types.contains(RecordType::NS) && !types.contains(RecordType::SOA)
}

/// Whether nothing of the zone is below the owner: it is a delegation, or has a DNAME (RFC 6672 2.4).
pub fn is_closed(types: &TypeBitmap<'_>) -> bool
    ensures { IsTrue result ↔ IsClosed (IsInBitmap (λ t. set.contains types.now t)) }
{
    is_delegation(types) || types.contains(RecordType::DNAME)
}

/// Whether the owner is a delegation without DS (RFC 4035 2.4).
pub fn is_unsigned_delegation(types: &TypeBitmap<'_>) -> bool
    ensures { IsTrue result ↔ IsUnsignedDelegation (IsInBitmap (λ t. set.contains types.now t)) }
{
    is_delegation(types) && !types.contains(RecordType::DS)
}

/// Whether neither the type nor CNAME is there, and this side of a delegation may say so (RFC 4035 5.4,
/// RFC 6840 4.1 and 4.3).
pub fn denies(types: &TypeBitmap<'_>, rtype: RecordType) -> bool
    ensures { IsTrue result ↔ Denies (IsInBitmap (λ t. set.contains types.now t)) rtype.0 }
{
    if types.contains(rtype) || types.contains(RecordType::CNAME) {
        return false;
    }
    if rtype == RecordType::DS {
        return !types.contains(RecordType::SOA);
    }
    !is_delegation(types)
}
