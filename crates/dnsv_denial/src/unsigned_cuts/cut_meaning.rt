//! What records that leave names unsigned mean for each zone that has them in its chain.
ghost use Rattle.std.specs.Prelude.{List};
ghost use Rattle.dnsv_names.specs.Name.{Labels, IsAtOrBelow};
ghost use Rattle.dnsv_names.specs.Order.{IsBelow};
ghost use Rattle.dnsv_zones.specs.chains.Nsec3Chain.{Parameters, IsUnsignedEnd};
ghost use Rattle.dnsv_zones.specs.zones.Types.{IsUnsignedDelegation};
ghost use Rattle.dnsv_zones.specs.zones.Zone.{Zone, Holds, IsNode, IsClosedAt};
ghost use Rattle.dnsv_canonical.specs.Rrsets.{ReceivedRrset};
ghost use Rattle.dnsv_chain.specs.Trust.{KeptTrust, SecuredIn};
ghost use Rattle.dnsv_denial.specs.unsigned_cuts.CutMeaning.{HasRecord, HasRecordWithoutCollision};
ghost use Rattle.dnsv_denial.specs.gathering.EvidenceWords.{Chain, evidence_said, nsec3_said};
ghost use Rattle.dnsv_canonical.specs.declared.number.RecordNumber.{RecordNumber};

/// What a record of the evidence means that shows a delegation without DS at or above a question's name: each zone that
/// has the record in its chain has that delegation (RFC 4035 5.2, RFC 5155 8.9).
pub fn a_shown_unsigned_delegation_is_one_of_the_zone()
    ensures { (trust : KeptTrust) (rrsets : List ReceivedRrset) (name apex cut : Labels) (chain : Chain)
        (number : RecordNumber) (zone : Zone) → IsAtOrBelow name cut → IsBelow cut apex
        → (evidence_said (SecuredIn trust) rrsets apex chain).TypesAt cut IsUnsignedDelegation number
        → HasRecordWithoutCollision rrsets name apex number zone → IsUnsignedDelegation (Holds zone cut) }
{}

/// What an NSEC3 record of the evidence means that shows a closest encloser of a question's name: each zone that has the
/// record in its chain has that node, with no delegation and no DNAME (RFC 5155 8.3).
pub fn a_shown_encloser_is_an_open_node_of_the_zone()
    ensures { (trust : KeptTrust) (rrsets : List ReceivedRrset) (name apex encloser : Labels)
        (parameters : Parameters) (number : RecordNumber) (zone : Zone) → IsAtOrBelow name encloser
        → (nsec3_said (SecuredIn trust) rrsets apex parameters).Encloser encloser number
        → HasRecordWithoutCollision rrsets name apex number zone
        → IsNode zone encloser × ¬ IsClosedAt zone encloser }
{}

/// What a record of the evidence with the Opt-Out flag means for a name that it covers: in each zone that has the
/// record in its chain the name is no node, or a delegation without DS, or an empty non-terminal that exists through
/// such alone (RFC 5155 6, 8.6, 8.8, 9.2), whatever hashes collide.
pub fn an_opted_out_name_is_no_node_or_an_unsigned_end()
    ensures { (trust : KeptTrust) (rrsets : List ReceivedRrset) (apex covered : Labels) (chain : Chain)
        (number : RecordNumber) (zone : Zone)
        → (evidence_said (SecuredIn trust) rrsets apex chain).OptedOut covered number
        → HasRecord rrsets apex number zone → IsNode zone covered → IsUnsignedEnd zone covered }
{}
