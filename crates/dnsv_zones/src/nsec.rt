//! What one NSEC record of a zone's chain proves.
ghost use Rattle.dnsv_names.specs.Name.{Labels, SameName, IsAtOrBelow};
ghost use Rattle.dnsv_names.specs.Order.{IsBelow};
ghost use Rattle.dnsv_zones.specs.zones.Zone.{Zone, IsOwner, IsNode, IsClosedAt, IsWellFormed};
ghost use Rattle.dnsv_zones.specs.chains.NsecChain.{NsecRecord, IsInNsecChain};
ghost use Rattle.dnsv_zones.specs.forms.Nsec.{Covers, IsNoCutAbove, IsAbsentBy, IsEmptyNonTerminalBy, IsNodeBy};

/// A law of NSEC: where a delegation or a DNAME is above a covered name, it is the record's owner.
pub fn the_owner_before_a_name_is_the_end_above_it()
    ensures { (zone : Zone) (nsec : NsecRecord) (name cut : Labels) → IsWellFormed zone → IsInNsecChain zone nsec
        → Covers nsec name → IsClosedAt zone cut → IsBelow name cut → SameName nsec.owner cut }
{}

/// A law of NSEC: a covered name is no owner, and where the record isn't that of a delegation or a DNAME
/// above the name, there is none above it.
pub fn a_name_that_nsec_covers_has_nothing_closed_above()
    ensures owner { (zone : Zone) (nsec : NsecRecord) (name : Labels) → IsInNsecChain zone nsec → Covers nsec name
        → ¬ IsOwner zone name }
    ensures above { (zone : Zone) (nsec : NsecRecord) (name cut : Labels) → IsWellFormed zone
        → IsInNsecChain zone nsec → Covers nsec name → IsNoCutAbove nsec name → IsBelow name cut → ¬ IsClosedAt zone cut }
{}

/// A law of NSEC: a name that a record proves absent is no node.
pub fn a_name_absent_by_nsec_is_no_node()
    ensures { (zone : Zone) (nsec : NsecRecord) (name : Labels) → IsInNsecChain zone nsec → IsAbsentBy nsec name
        → ¬ IsNode zone name }
{}

/// A law of NSEC: a name that is covered, and has the next owner below it, is an empty non-terminal.
pub fn an_empty_non_terminal_by_nsec_is_one_of_the_zone()
    ensures node { (zone : Zone) (nsec : NsecRecord) (name : Labels) → IsInNsecChain zone nsec
        → IsAtOrBelow name zone.apex → IsEmptyNonTerminalBy nsec name → IsNode zone name }
    ensures empty { (zone : Zone) (nsec : NsecRecord) (name : Labels) → IsInNsecChain zone nsec
        → IsEmptyNonTerminalBy nsec name → ¬ IsOwner zone name }
{}

/// A law of NSEC: what is above a record's owner or the next one, within the zone, is a node.
pub fn nsec_records_show_nodes()
    ensures { (zone : Zone) (nsec : NsecRecord) (name : Labels) → IsInNsecChain zone nsec
        → IsAtOrBelow name zone.apex → IsNodeBy nsec name → IsNode zone name }
{}
