//! What the definitions say of each other.
ghost use Rattle.std.specs.Prelude.{◌≡◌, ◌⊎◌, List, ℕ};
ghost use Rattle.dnsv_records.specs.Bitmap.{Types, Bitmap, IsBitmap};
ghost use Rattle.dnsv_records.specs.Base32Hex.{Base32Hex, IsHash};
ghost use Rattle.dnsv_names.specs.Octets.{AreOctets};
ghost use Rattle.dnsv_records.specs.Dnskey.{IsDnskey};
ghost use Rattle.dnsv_records.specs.Ds.{IsDs};
ghost use Rattle.dnsv_records.specs.Rrsig.{IsRrsig};
ghost use Rattle.dnsv_records.specs.Nsec.{IsNsec};
ghost use Rattle.dnsv_records.specs.Nsec3.{IsNsec3};

use crate::dnskey::Dnskey;
use crate::ds::Ds;
use crate::nsec::Nsec;
use crate::nsec3::Nsec3;
use crate::rrsig::Rrsig;

/// Octets spell at most one set of types, and a set has at most one spelling (RFC 4034 4.1.2).
pub fn bitmap_laws()
    ensures one_set { (octets : List ℕ) (a b : Types) → Bitmap octets a → Bitmap octets b → a ≡ b }
    ensures one_spelling { (types : Types) (a b : List ℕ) → Bitmap a types → Bitmap b types → a ≡ b }
{}

/// A text spells at most one hash, and a hash has at most one text in lower case (RFC 4648 7).
pub fn base32hex_laws()
    ensures one_hash { (text a b : List ℕ) → IsHash a → IsHash b → Base32Hex text a → Base32Hex text b
        → a ≡ b }
    ensures one_text { (hash a b : List ℕ) → IsHash hash → Base32Hex a hash → Base32Hex b hash → a ≡ b }
{}

/// RDATA is at most one DNSKEY, DS, RRSIG, NSEC or NSEC3, and each of these has at most one spelling as RDATA.
pub fn record_laws()
    ensures one_dnskey { (rdata : List ℕ) (a b : Dnskey) → IsDnskey rdata a → IsDnskey rdata b → a ≡ b }
    ensures one_ds { (rdata : List ℕ) (a b : Ds) → IsDs rdata a → IsDs rdata b → a ≡ b }
    ensures one_rrsig { (rdata : List ℕ) (a b : Rrsig) → IsRrsig rdata a → IsRrsig rdata b → a ≡ b }
    ensures one_nsec { (rdata : List ℕ) (a b : Nsec) → IsNsec rdata a → IsNsec rdata b → a ≡ b }
    ensures one_nsec3 { (rdata : List ℕ) (a b : Nsec3) → IsNsec3 rdata a → IsNsec3 rdata b → a ≡ b }
    ensures dnskey { (a b : List ℕ) (dnskey : Dnskey) → AreOctets a → AreOctets b
        → IsDnskey a dnskey → IsDnskey b dnskey → a ≡ b }
    ensures ds { (a b : List ℕ) (ds : Ds) → AreOctets a → AreOctets b → IsDs a ds → IsDs b ds → a ≡ b }
    ensures rrsig { (a b : List ℕ) (rrsig : Rrsig) → AreOctets a → AreOctets b
        → IsRrsig a rrsig → IsRrsig b rrsig → a ≡ b }
    ensures nsec { (a b : List ℕ) (nsec : Nsec) → IsNsec a nsec → IsNsec b nsec → a ≡ b }
    ensures nsec3 { (a b : List ℕ) (nsec3 : Nsec3) → AreOctets a → AreOctets b
        → IsNsec3 a nsec3 → IsNsec3 b nsec3 → a ≡ b }
{}

/// Octets are the RDATA of a DNSKEY, DS or NSEC3 record, or are not, and so with type bitmaps. RRSIG and NSEC have a
/// name besides, which `dnsv_message` finds.
pub fn records_are_decided()
    ensures dnskey { (rdata : List ℕ) → ((dnskey : Dnskey) × IsDnskey rdata dnskey)
        ⊎ ¬ ((dnskey : Dnskey) × IsDnskey rdata dnskey) }
    ensures ds { (rdata : List ℕ) → ((ds : Ds) × IsDs rdata ds) ⊎ ¬ ((ds : Ds) × IsDs rdata ds) }
    ensures nsec3 { (rdata : List ℕ) → ((nsec3 : Nsec3) × IsNsec3 rdata nsec3)
        ⊎ ¬ ((nsec3 : Nsec3) × IsNsec3 rdata nsec3) }
    ensures bitmap { (octets : List ℕ) → IsBitmap octets ⊎ ¬ IsBitmap octets }
{}
