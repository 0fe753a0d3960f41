//! The law of chains: each zone can have one.
ghost use Rattle.std.specs.Prelude.{◌≡◌, List};
ghost use Rattle.std.specs.List.{AllByRecursion};
ghost use Rattle.dnsv_zones.specs.zones.Zone.{Zone, IsWellFormed, HasNoWildcardDelegation};
ghost use Rattle.dnsv_zones.specs.chains.NsecChain.{NsecRecord, IsNsecChainOf};
ghost use Rattle.dnsv_zones.specs.chains.Nsec3Chain.{Nsec3Record, NameHash, IsNsec3ChainOf};

/// A law of chains: each zone without a delegation at a wildcard has a chain of NSEC records, and for each hash of names
/// one of NSEC3 records without Opt-Out.
pub fn each_zone_has_a_chain()
    ensures nsec { (zone : Zone) → IsWellFormed zone → HasNoWildcardDelegation zone
        → (records : List NsecRecord) × IsNsecChainOf zone zone.apex records }
    ensures nsec3 { (zone : Zone) (hash : NameHash) → IsWellFormed zone → HasNoWildcardDelegation zone
        → (records : List Nsec3Record) × IsNsec3ChainOf zone zone.apex hash records
        × AllByRecursion (λ nsec3. nsec3.flags ≡ 0) records }
{}
