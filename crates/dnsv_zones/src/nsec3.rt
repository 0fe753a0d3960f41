//! What one NSEC3 record of a zone's chain proves. The hash is any that ignores the case of names.
ghost use Rattle.std.specs.Prelude.{◌≡◌, ℕ, List};
ghost use Rattle.dnsv_names.specs.Name.{Labels};
ghost use Rattle.dnsv_zones.specs.zones.Types.{IsClosed};
ghost use Rattle.dnsv_zones.specs.zones.Zone.{Zone, IsNode, IsClosedAt};
ghost use Rattle.dnsv_zones.specs.chains.NsecChain.{IsInBitmap, IsBitmapOf};
ghost use Rattle.dnsv_zones.specs.chains.Nsec3Chain.{
  Nsec3Record,
  NameHash,
  IsChained,
  AreChainNames,
  IsInNsec3Chain,
  IsAsked,
  HasNoCollision,
};
ghost use Rattle.dnsv_zones.specs.forms.Nsec3.{Matches, Covers};

/// A law of NSEC3: where no other name of the zone has its hash, a name with the hash of a record is one of
/// the chain's names, and the bitmap has its types.
pub fn a_name_matched_by_nsec3_is_of_the_chain()
    ensures chained { (zone : Zone) (hash : NameHash) (names : List Labels)
        (nsec3 : Nsec3Record) (name asked : Labels) → AreChainNames zone names
        → IsInNsec3Chain zone hash names nsec3 → HasNoCollision zone hash name → IsAsked name asked
        → Matches hash nsec3 asked → IsChained names asked }
    ensures types { (zone : Zone) (hash : NameHash) (names : List Labels)
        (nsec3 : Nsec3Record) (name asked : Labels) → AreChainNames zone names
        → IsInNsec3Chain zone hash names nsec3 → HasNoCollision zone hash name → IsAsked name asked
        → Matches hash nsec3 asked → IsBitmapOf zone asked nsec3.types }
{}

/// A law of NSEC3: a covered name is none of the chain's names, and without Opt-Out it is no node.
pub fn a_name_covered_by_nsec3_is_none_of_the_chain()
    ensures chained { (zone : Zone) (hash : NameHash) (names : List Labels)
        (nsec3 : Nsec3Record) (name : Labels) → IsInNsec3Chain zone hash names nsec3
        → Covers hash nsec3 name → ¬ IsChained names name }
    ensures without_opt_out { (zone : Zone) (hash : NameHash) (names : List Labels)
        (nsec3 : Nsec3Record) (name : Labels) → IsInNsec3Chain zone hash names nsec3
        → Covers hash nsec3 name → nsec3.flags ≡ 0 → ¬ IsNode zone name }
{}

/// A law of NSEC3: a name that matches a record with neither a delegation nor a DNAME is a node, and has
/// neither.
pub fn an_encloser_by_nsec3_is_an_open_node()
    ensures node { (zone : Zone) (hash : NameHash) (names : List Labels)
        (nsec3 : Nsec3Record) (name asked : Labels) → AreChainNames zone names
        → IsInNsec3Chain zone hash names nsec3 → HasNoCollision zone hash name → IsAsked name asked
        → Matches hash nsec3 asked → IsNode zone asked }
    ensures open_ { (zone : Zone) (hash : NameHash) (names : List Labels)
        (nsec3 : Nsec3Record) (name asked : Labels) → AreChainNames zone names
        → IsInNsec3Chain zone hash names nsec3 → HasNoCollision zone hash name → IsAsked name asked
        → Matches hash nsec3 asked → ¬ IsClosed (IsInBitmap nsec3.types) → ¬ IsClosedAt zone asked }
{}
