//! What a proof by NSEC3 means for each zone whose chain has its records, where no two names of the proof's
//! have one hash.
ghost use Rattle.std.specs.Prelude.{◌≡◌, ◌⊎◌, ◌+◌, ℕ, List};
ghost use Rattle.dnsv_names.specs.Name.{Labels, rightmost};
ghost use Rattle.dnsv_names.specs.Tree.{wildcard_of};
ghost use Rattle.dnsv_zones.specs.Any.{Any};
ghost use Rattle.dnsv_zones.specs.zones.Types.{IsUnsignedDelegation};
ghost use Rattle.dnsv_zones.specs.zones.Zone.{Zone, Holds, IsNode};
ghost use Rattle.dnsv_zones.specs.zones.Lookup.{IsLookup};
ghost use Rattle.dnsv_zones.specs.zones.Lookup.Answer.{NoName, NoData, Held};
ghost use Rattle.dnsv_zones.specs.chains.Nsec3Chain.{
  Nsec3Record,
  NameHash,
  IsUnsignedEnd,
  HasNsec3Records,
  IsNsec3ChainOf,
  HasNoCollision,
};
ghost use Rattle.dnsv_zones.specs.forms.Nsec3.{nsec3_words, IsCovered, IsOptedOut, OptOutForm, OptedOutNextCloserForm};
ghost use Rattle.dnsv_zones.specs.examples.Example.{zone as example_zone, e_name, s_name};
ghost use Rattle.dnsv_zones.specs.examples.OptOutExample.{wire_hash, opt_out_records};
ghost use Rattle.dnsv_zones.specs.forms.Forms.{NoNameForm, NoDataForm, NoWildcardDataForm, NoCloserForm, UnsignedCutForm};

/// What a proof of no such name means: the zone has no such name, whatever type is asked.
pub fn no_name_by_nsec3_is_no_name()
    ensures { (zone : Zone) (apex name : Labels) (t : ℕ) (hash : NameHash)
        (records : List Nsec3Record) → HasNsec3Records zone apex hash records
        → HasNoCollision zone hash name → NoNameForm (nsec3_words hash records) apex name
        → IsLookup zone name t NoName }
{}

/// What a proof of no data means: the zone has the name, or a wildcard for it, without the type.
pub fn no_data_by_nsec3_is_no_data()
    ensures at_name { (zone : Zone) (apex name : Labels) (t : ℕ) (hash : NameHash)
        (records : List Nsec3Record) → HasNsec3Records zone apex hash records
        → HasNoCollision zone hash name → NoDataForm (nsec3_words hash records) apex name t
        → IsLookup zone name t (NoData name) }
    ensures at_wildcard { (zone : Zone) (apex name : Labels) (t : ℕ) (hash : NameHash)
        (records : List Nsec3Record) → HasNsec3Records zone apex hash records
        → HasNoCollision zone hash name
        → (form : NoWildcardDataForm (nsec3_words hash records) apex name t)
        → IsLookup zone name t (NoData (wildcard_of (rightmost name form.labels))) }
{}

/// What a proof of no closer name means: if the wildcard holds a type, that is the zone's answer for it.
/// It holds whatever names share a hash.
pub fn no_closer_by_nsec3_is_held_at_the_wildcard()
    ensures { (zone : Zone) (apex name : Labels) (labels t : ℕ) (hash : NameHash)
        (records : List Nsec3Record) → HasNsec3Records zone apex hash records
        → NoCloserForm (nsec3_words hash records) apex name labels
        → Holds zone (wildcard_of (rightmost name labels)) t
        → IsLookup zone name t (Held (wildcard_of (rightmost name labels))) }
{}

/// What a proof of an unsigned cut means: the zone has a delegation without DS there.
pub fn unsigned_cut_by_nsec3_is_an_unsigned_delegation()
    ensures { (zone : Zone) (apex name cut : Labels) (hash : NameHash)
        (records : List Nsec3Record) → HasNsec3Records zone apex hash records
        → HasNoCollision zone hash name → UnsignedCutForm (nsec3_words hash records) apex name cut
        → IsUnsignedDelegation (Holds zone cut) }
{}

/// What a cover means, with Opt-Out or without: the covered name, if it is a node at all, is a delegation
/// without DS or an empty non-terminal that exists through such alone. So it is for the next closer name of
/// an unsigned cut by Opt-Out, and of an answer from a wildcard. Of an unsigned cut whose next closer name no record
/// covers with the flag, that name is no node, and the wildcard is such a node if it is one (RFC 5155 8.6, 9.2). It holds
/// whatever names share a hash.
pub fn opted_out_nodes_are_unsigned_ends()
    ensures covered { (zone : Zone) (apex name : Labels) (hash : NameHash)
        (records : List Nsec3Record) → HasNsec3Records zone apex hash records
        → IsCovered hash records name → IsNode zone name → IsUnsignedEnd zone name }
    ensures next_closer { (zone : Zone) (apex name : Labels) (labels : ℕ) (hash : NameHash)
        (records : List Nsec3Record) → HasNsec3Records zone apex hash records
        → OptOutForm hash records apex name labels ⊎ OptedOutNextCloserForm hash records apex name labels
        → IsNode zone (rightmost name (labels + 1)) → IsUnsignedEnd zone (rightmost name (labels + 1)) }
    ensures wildcard { (zone : Zone) (apex name : Labels) (labels : ℕ) (hash : NameHash)
        (records : List Nsec3Record) → HasNsec3Records zone apex hash records
        → OptOutForm hash records apex name labels
        → IsOptedOut hash records (rightmost name (labels + 1))
        ⊎ ((¬ IsNode zone (rightmost name (labels + 1)))
        × (IsNode zone (wildcard_of (rightmost name labels))
        → IsUnsignedEnd zone (wildcard_of (rightmost name labels)))) }
{}

/// The premises can be met under Opt-Out: a small zone has a whole chain that leaves out its delegation without DS, no
/// hashes collide, and the records say that an unsigned delegation can be there.
pub fn a_small_zone_leaves_out_an_unsigned_delegation()
    ensures chain { IsNsec3ChainOf example_zone e_name wire_hash opt_out_records }
    ensures apart { (name : Labels) → HasNoCollision example_zone wire_hash name }
    ensures unsigned { IsUnsignedDelegation (Holds example_zone s_name) }
    ensures left_out { ¬ Any (λ nsec3. nsec3.hash ≡ wire_hash.of s_name) opt_out_records }
    ensures form { OptOutForm wire_hash opt_out_records e_name s_name 1 }
{}
