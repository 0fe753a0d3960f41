//! Laws of what is found: it meets what `dnsv_mending` asks of facts.
ghost use Rattle.std.specs.Prelude.{◌≡◌, ℕ, List, false, length};
ghost use Rattle.std.specs.List.{AllByRecursion};
ghost use Rattle.dnsv_names.specs.Name.{Labels, IsAtOrBelow};
ghost use Rattle.dnsv_canonical.specs.Rdata.{IsWellFormed};
ghost use Rattle.dnsv_canonical.specs.Rrsets.{IsNumbered, ReceivedRrset};
ghost use Rattle.dnsv_mending.specs.InPlace.{IsInPlace, IsSignerInPlace};
ghost use Rattle.dnsv_mending.specs.Reasons.{IsClosed, IsClosedSignature};
ghost use Rattle.dnsv_mending.specs.declared.facts.signature.SignatureFacts.{SignatureFacts};
ghost use Rattle.dnsv_mending.specs.declared.facts.zone.ZoneFacts.{ZoneFacts};
ghost use Rattle.dnsv_chain.specs.Basis.{Basis};
ghost use Rattle.dnsv_faults.specs.Signatures.{AreSignatureFacts};
ghost use Rattle.dnsv_zone_faults.specs.Zones.{AreZoneFacts};

/// A law: what is kept as trusted or signed of the zones that are found is whole, and so is what is kept of a signature, where a
/// signer that may be the zone of its RRset is at or above the name.
pub fn what_is_found_is_whole()
    ensures zones { (basis : Basis) (name : Labels) (t : ℕ) (zones : List ZoneFacts) → AreZoneFacts basis name t zones → IsClosed zones }
    ensures signature { (basis : Basis) (name : Labels) (t : ℕ) (zones : List ZoneFacts) (k : ℕ) (rrset : ReceivedRrset) (s : ℕ)
        (facts : SignatureFacts) (its : AreSignatureFacts basis k rrset s facts) → AreZoneFacts basis name t zones
        → IsNumbered basis.rrsets k rrset → (facts.faults.signer ≡ false → IsAtOrBelow name its.rrsig.signer) → IsClosedSignature zones facts }
{}

/// A law: the zones that are found of RRsets of messages name only what is there, and so does a signature whose signer is at or
/// above the name.
pub fn what_is_found_is_in_place()
    ensures zones { (basis : Basis) (name : Labels) (t : ℕ) (zones : List ZoneFacts) → AllByRecursion IsWellFormed basis.rrsets
        → AreZoneFacts basis name t zones → IsInPlace zones }
    ensures signature { (basis : Basis) (name : Labels) (t : ℕ) (zones : List ZoneFacts) (k : ℕ) (rrset : ReceivedRrset) (s : ℕ)
        (facts : SignatureFacts) (its : AreSignatureFacts basis k rrset s facts) → AreZoneFacts basis name t zones
        → IsAtOrBelow name its.rrsig.signer → IsSignerInPlace zones (length zones) facts }
{}
