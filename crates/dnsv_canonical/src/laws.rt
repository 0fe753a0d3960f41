//! The law of what is signed.
//!
//! It is a function that does nothing and ensures the law, which its caller learns.
ghost use Rattle.std.specs.Prelude.{◌≡◌, ◌↔◌, ◌≤◌, ℕ, List, Option, Some};
ghost use Rattle.dnsv_names.specs.Name.{Labels};
ghost use Rattle.dnsv_records.specs.declared.rrsig.Rrsig.{Rrsig};
ghost use Rattle.dnsv_canonical.specs.SignedData.{IsSignedData, signed_label_count};

/// A signature signs at most one thing over the RDATA of an RRset, and something just where Labels is not above the
/// owner's count of labels.
pub fn one_signed_data()
    ensures one { (owner : Labels) (rtype : ℕ) (received : List (List ℕ)) (rrsig : Rrsig) (a b : Option (List ℕ))
        → IsSignedData owner rtype received rrsig a → IsSignedData owner rtype received rrsig b → a ≡ b }
    ensures some { (owner : Labels) (rtype : ℕ) (received : List (List ℕ)) (rrsig : Rrsig)
        → ((octets : List ℕ) × IsSignedData owner rtype received rrsig (Some octets))
        ↔ (rrsig.labels ≤ signed_label_count owner) }
{}
