//! What the whole NSEC chain of a zone proves: each denial of the zone, and nothing else.
ghost use Rattle.std.specs.Prelude.{◌≢◌, ◌↔◌, ℕ, List};
ghost use Rattle.dnsv_names.specs.Name.{Labels, IsAtOrBelow};
ghost use Rattle.dnsv_zones.specs.zones.TypeNumbers.{rrsig, nsec};
ghost use Rattle.dnsv_zones.specs.zones.Types.{IsUnsignedDelegation};
ghost use Rattle.dnsv_zones.specs.zones.Zone.{Zone, Holds};
ghost use Rattle.dnsv_zones.specs.zones.Lookup.{IsLookup};
ghost use Rattle.dnsv_zones.specs.zones.Lookup.Answer.{NoName, NoData};
ghost use Rattle.dnsv_zones.specs.chains.NsecChain.{NsecRecord, IsNsecChainOf};
ghost use Rattle.dnsv_zones.specs.forms.Nsec.{nsec_words};
ghost use Rattle.dnsv_zones.specs.forms.Forms.{NoNameForm, NoDataForms, UnsignedCutForm};

/// A law of NSEC: the whole chain proves that there is no such name exactly where the zone has none.
pub fn an_nsec_chain_proves_each_missing_name()
    ensures { (zone : Zone) (apex name : Labels) (t : ℕ) (records : List NsecRecord)
        → IsNsecChainOf zone apex records
        → IsLookup zone name t NoName ↔ NoNameForm (nsec_words apex records) apex name }
{}

/// A law of NSEC: the whole chain proves that a type isn't there exactly where the zone has the name, or a
/// wildcard for it, without the type. The types that come with the chain are left out.
pub fn an_nsec_chain_proves_each_missing_type()
    ensures { (zone : Zone) (apex name : Labels) (t : ℕ) (records : List NsecRecord)
        → IsNsecChainOf zone apex records → t ≢ rrsig → t ≢ nsec
        → ((source : Labels) × IsLookup zone name t (NoData source))
        ↔ NoDataForms (nsec_words apex records) apex name t }
{}

/// A law of NSEC: the whole chain proves each delegation without DS at or above a name.
pub fn an_nsec_chain_proves_each_unsigned_delegation()
    ensures { (zone : Zone) (apex name cut : Labels) (records : List NsecRecord)
        → IsNsecChainOf zone apex records → IsAtOrBelow name cut → IsUnsignedDelegation (Holds zone cut)
        → UnsignedCutForm (nsec_words apex records) apex name cut }
{}
