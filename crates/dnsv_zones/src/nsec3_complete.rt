//! What a whole NSEC3 chain of a zone proves: each denial of the zone, and nothing else. With Opt-Out it may
//! say instead that an unsigned delegation can be there.
ghost use Rattle.std.specs.Prelude.{◌≡◌, ◌≢◌, ◌⊎◌, ◌↔◌, ℕ, List};
ghost use Rattle.std.specs.List.{AllByRecursion};
ghost use Rattle.dnsv_names.specs.Name.{Labels, IsAtOrBelow};
ghost use Rattle.dnsv_zones.specs.zones.TypeNumbers.{rrsig, nsec};
ghost use Rattle.dnsv_zones.specs.zones.Types.{IsUnsignedDelegation};
ghost use Rattle.dnsv_zones.specs.zones.Zone.{Zone, Holds};
ghost use Rattle.dnsv_zones.specs.zones.Lookup.{IsLookup};
ghost use Rattle.dnsv_zones.specs.zones.Lookup.Answer.{NoName, NoData};
ghost use Rattle.dnsv_zones.specs.chains.Nsec3Chain.{Nsec3Record, NameHash, IsNsec3ChainOf, HasNoCollision};
ghost use Rattle.dnsv_zones.specs.forms.Nsec3.{nsec3_words, OptOutForm};
ghost use Rattle.dnsv_zones.specs.forms.Forms.{NoNameForm, NoDataForms, UnsignedCutForm};

/// A law of NSEC3: without Opt-Out the whole chain proves that there is no such name exactly where the zone
/// has none, and no data exactly where it has the name, or a wildcard for it, without the type. The types
/// that come with a chain are left out.
pub fn an_nsec3_chain_without_opt_out_proves_each_denial()
    ensures missing_name { (zone : Zone) (apex name : Labels) (t : ℕ) (hash : NameHash) (records : List Nsec3Record)
        → IsNsec3ChainOf zone apex hash records → HasNoCollision zone hash name
        → AllByRecursion (λ nsec3. nsec3.flags ≡ 0) records
        → IsLookup zone name t NoName ↔ NoNameForm (nsec3_words hash records) apex name }
    ensures missing_type { (zone : Zone) (apex name : Labels) (t : ℕ) (hash : NameHash) (records : List Nsec3Record)
        → IsNsec3ChainOf zone apex hash records → HasNoCollision zone hash name
        → AllByRecursion (λ nsec3. nsec3.flags ≡ 0) records → t ≢ rrsig → t ≢ nsec
        → ((source : Labels) × IsLookup zone name t (NoData source))
        ↔ NoDataForms (nsec3_words hash records) apex name t }
{}

/// A law of NSEC3: whatever its flags the whole chain proves each denial of the zone, or says that an
/// unsigned delegation can be there.
pub fn an_nsec3_chain_proves_each_denial_or_tells_of_opt_out()
    ensures missing_name { (zone : Zone) (apex name : Labels) (t : ℕ) (hash : NameHash) (records : List Nsec3Record)
        → IsNsec3ChainOf zone apex hash records → HasNoCollision zone hash name → IsLookup zone name t NoName
        → NoNameForm (nsec3_words hash records) apex name
        ⊎ ((labels : ℕ) × OptOutForm hash records apex name labels) }
    ensures missing_type { (zone : Zone) (apex name source : Labels) (t : ℕ) (hash : NameHash)
        (records : List Nsec3Record) → IsNsec3ChainOf zone apex hash records → HasNoCollision zone hash name
        → t ≢ rrsig → t ≢ nsec → IsLookup zone name t (NoData source)
        → NoDataForms (nsec3_words hash records) apex name t
        ⊎ ((labels : ℕ) × OptOutForm hash records apex name labels) }
{}

/// A law of NSEC3: at or below a delegation without DS the whole chain proves that delegation, or says that an
/// unsigned delegation can be there.
pub fn an_nsec3_chain_tells_of_each_unsigned_delegation()
    ensures { (zone : Zone) (apex name cut : Labels) (hash : NameHash) (records : List Nsec3Record)
        → IsNsec3ChainOf zone apex hash records → HasNoCollision zone hash name
        → IsAtOrBelow name cut → IsUnsignedDelegation (Holds zone cut)
        → UnsignedCutForm (nsec3_words hash records) apex name cut
        ⊎ ((labels : ℕ) × OptOutForm hash records apex name labels) }
{}
