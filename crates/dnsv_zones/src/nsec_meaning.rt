//! What a proof by NSEC means for each zone whose chain has its records.
ghost use Rattle.std.specs.Prelude.{ℕ, List};
ghost use Rattle.dnsv_names.specs.Name.{Labels, rightmost};
ghost use Rattle.dnsv_names.specs.Tree.{wildcard_of};
ghost use Rattle.dnsv_zones.specs.zones.Types.{IsUnsignedDelegation};
ghost use Rattle.dnsv_zones.specs.zones.Zone.{Zone, Holds};
ghost use Rattle.dnsv_zones.specs.zones.Lookup.{IsLookup};
ghost use Rattle.dnsv_zones.specs.zones.Lookup.Answer.{NoName, NoData, Held};
ghost use Rattle.dnsv_zones.specs.chains.NsecChain.{NsecRecord, HasNsecRecords};
ghost use Rattle.dnsv_zones.specs.forms.Nsec.{nsec_words};
ghost use Rattle.dnsv_zones.specs.examples.Example.{zone as example_zone, records as example_records, e_name, b_name};
ghost use Rattle.dnsv_zones.specs.forms.Forms.{
  NoNameForm,
  NoDataForm,
  EmptyForm,
  NoWildcardDataForm,
  EmptyWildcardForm,
  NoCloserForm,
  UnsignedCutForm,
};

/// What a proof of no such name means: the zone has no such name, whatever type is asked.
pub fn no_name_by_nsec_is_no_name()
    ensures { (zone : Zone) (apex name : Labels) (t : ℕ) (records : List NsecRecord)
        → HasNsecRecords zone apex records → NoNameForm (nsec_words apex records) apex name
        → IsLookup zone name t NoName }
{}

/// What a proof of no data means: the zone has the name, or a wildcard for it, without the type.
pub fn no_data_by_nsec_is_no_data()
    ensures at_name { (zone : Zone) (apex name : Labels) (t : ℕ) (records : List NsecRecord)
        → HasNsecRecords zone apex records → NoDataForm (nsec_words apex records) apex name t
        → IsLookup zone name t (NoData name) }
    ensures at_empty { (zone : Zone) (apex name : Labels) (t : ℕ) (records : List NsecRecord)
        → HasNsecRecords zone apex records → EmptyForm (nsec_words apex records) apex name
        → IsLookup zone name t (NoData name) }
    ensures at_wildcard { (zone : Zone) (apex name : Labels) (t : ℕ) (records : List NsecRecord)
        → HasNsecRecords zone apex records → (form : NoWildcardDataForm (nsec_words apex records) apex name t)
        → IsLookup zone name t (NoData (wildcard_of (rightmost name form.labels))) }
    ensures at_empty_wildcard { (zone : Zone) (apex name : Labels) (t : ℕ) (records : List NsecRecord)
        → HasNsecRecords zone apex records → (form : EmptyWildcardForm (nsec_words apex records) apex name)
        → IsLookup zone name t (NoData (wildcard_of (rightmost name form.labels))) }
{}

/// What a proof of no closer name means: if the wildcard holds a type, that is the zone's answer for it.
pub fn no_closer_by_nsec_is_held_at_the_wildcard()
    ensures { (zone : Zone) (apex name : Labels) (labels t : ℕ) (records : List NsecRecord)
        → HasNsecRecords zone apex records → NoCloserForm (nsec_words apex records) apex name labels
        → Holds zone (wildcard_of (rightmost name labels)) t
        → IsLookup zone name t (Held (wildcard_of (rightmost name labels))) }
{}

/// What a proof of an unsigned cut means: the zone has a delegation without DS there.
pub fn unsigned_cut_by_nsec_is_an_unsigned_delegation()
    ensures { (zone : Zone) (apex name cut : Labels) (records : List NsecRecord)
        → HasNsecRecords zone apex records → UnsignedCutForm (nsec_words apex records) apex name cut
        → IsUnsignedDelegation (Holds zone cut) }
{}

/// The premises can be met: a small zone has two records in its chain that prove that it has no such name.
pub fn a_small_zone_has_a_proof_of_no_such_name()
    ensures premises { HasNsecRecords example_zone e_name example_records }
    ensures form { NoNameForm (nsec_words e_name example_records) e_name b_name }
{}
