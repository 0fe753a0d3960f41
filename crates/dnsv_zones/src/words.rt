//! What one NSEC record says of a name (RFC 4035 5.4, RFC 6840 4.1 and 4.3).
ghost use Rattle.std.specs.Prelude.{◌↔◌, IsTrue};
ghost use Rattle.dnsv_names.specs.Name.{IsAtOrBelow};
ghost use Rattle.dnsv_zones.specs.chains.Rdata.{nsec_record};
ghost use Rattle.dnsv_zones.specs.forms.Nsec.{Covers, IsNoCutAbove, IsAbsentBy, IsEmptyNonTerminalBy, IsNodeBy};

use crate::types::is_closed;
use dnsv_names::{Name, covers};
use dnsv_records::Nsec;

/// Whether the name lies between the owner and the next one (RFC 4035 5.4).
pub fn is_covered(owner: &Name, nsec: &Nsec<'_>, name: &Name) -> bool
    ensures { IsTrue result ↔ Covers (nsec_record owner.now nsec.now) name.now }
{
    covers(owner, &nsec.next.to_name(), name)
}

/// Whether the record may speak of the name: it isn't that of a delegation or a DNAME above the name
/// (RFC 6840 4.1).
pub fn is_no_cut_above(owner: &Name, nsec: &Nsec<'_>, name: &Name) -> bool
    ensures { IsTrue result ↔ IsNoCutAbove (nsec_record owner.now nsec.now) name.now }
{
    if name == owner {
        return true;
    }
    if !name.is_at_or_below(owner) {
        return true;
    }
    !is_closed(&nsec.types)
}

/// Whether the name is no node: the record covers it, may speak of it, and the next owner isn't at or below it.
pub fn is_absent(owner: &Name, nsec: &Nsec<'_>, name: &Name) -> bool
    ensures { IsTrue result ↔ IsAbsentBy (nsec_record owner.now nsec.now) name.now }
{
    if is_above_next(nsec, name) {
        return false;
    }
    if !is_covered(owner, nsec, name) {
        return false;
    }
    is_no_cut_above(owner, nsec, name)
}

/// Whether the name is an empty non-terminal: the record covers it and may speak of it, and the next owner is below.
pub fn is_empty_non_terminal(owner: &Name, nsec: &Nsec<'_>, name: &Name) -> bool
    ensures { IsTrue result ↔ IsEmptyNonTerminalBy (nsec_record owner.now nsec.now) name.now }
{
    if !is_above_next(nsec, name) {
        return false;
    }
    if !is_covered(owner, nsec, name) {
        return false;
    }
    is_no_cut_above(owner, nsec, name)
}

/// Whether the record's owner or the next one is at or below the name, which so is a node.
pub fn is_node(owner: &Name, nsec: &Nsec<'_>, name: &Name) -> bool
    ensures { IsTrue result ↔ IsNodeBy (nsec_record owner.now nsec.now) name.now }
{
    if owner.is_at_or_below(name) {
        return true;
    }
    is_above_next(nsec, name)
}

/// Whether the next owner is at or below the name.
fn is_above_next(nsec: &Nsec<'_>, name: &Name) -> bool
    ensures { IsTrue result ↔ IsAtOrBelow nsec.now.next name.now }
{
    nsec.next.to_name().is_at_or_below(name)
}
