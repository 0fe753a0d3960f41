//! Laws of trust.
//!
//! Each is a function that does nothing and ensures the law, which its caller learns.
ghost use Rattle.std.specs.Prelude.{◌≡◌, ◌↔◌, ◌++◌, ℕ, [], List, Contains};
ghost use Rattle.dnsv_names.specs.Name.{Labels};
ghost use Rattle.dnsv_records.specs.declared.rrsig.Rrsig.{Rrsig};
ghost use Rattle.dnsv_canonical.specs.Rrsets.{ReceivedRrset};
ghost use Rattle.dnsv_verifier.specs.Admissible.{IsAsked, IsSignatureOf};
ghost use Rattle.dnsv_verifier.specs.declared.answer.Answer.{Answer};
ghost use Rattle.dnsv_verifier.specs.declared.entry.Entry.{Entry};
ghost use Rattle.dnsv_chain.specs.Derivation.{HasDerivation};
ghost use Rattle.dnsv_chain.specs.Trusted.{IsGoodByTrust, IsSecured, IsTrusted, IsTrustedKey};
ghost use Rattle.dnsv_anchors.specs.declared.anchor.Anchor.{Anchor};

use dnsv_anchors::Anchor;
use dnsv_verifier::{Answer, good_depends_on_what_is_asked};

/// A DNSKEY RRset is trusted just where links lead down to it from one that is anchored, each to an owner with more
/// labels.
pub fn trust_leads_down_from_an_anchor()
    ensures { (meaning : Entry → Answer) (moment : ℕ) (rrsets : List ReceivedRrset) (anchors : List Anchor)
        (set : ReceivedRrset)
        → IsTrusted meaning moment rrsets anchors set ↔ HasDerivation meaning moment rrsets anchors set }
{}

/// Without an anchor nothing is trusted, and no signature is good by trust.
pub fn nothing_is_trusted_without_an_anchor()
    ensures sets { (meaning : Entry → Answer) (moment : ℕ) (rrsets : List ReceivedRrset) (set : ReceivedRrset)
        → IsTrusted meaning moment rrsets [] set → ⊥ }
    ensures signatures { (meaning : Entry → Answer) (moment : ℕ) (rrsets : List ReceivedRrset) (k s : ℕ)
        → IsSecured meaning moment rrsets [] k s → ⊥ }
{}

/// More RRsets, more anchors and a verifier that says Valid of no fewer entries take no trust away. Where the RRsets
/// that come stand behind those that were there, as those of later messages do, numbers stay too.
pub fn more_evidence_takes_no_trust_away()
    ensures sets { (meaning better : Entry → Answer) (moment : ℕ) (rrsets more : List ReceivedRrset)
        (anchors others : List Anchor)
        → ((entry : Entry) → meaning entry ≡ Answer.Valid → better entry ≡ Answer.Valid)
        → ((rrset : ReceivedRrset) → Contains rrsets rrset → Contains more rrset)
        → ((anchor : Anchor) → Contains anchors anchor → Contains others anchor)
        → (set : ReceivedRrset)
        → IsTrusted meaning moment rrsets anchors set → IsTrusted better moment more others set }
    ensures keys { (meaning better : Entry → Answer) (moment : ℕ) (rrsets more : List ReceivedRrset)
        (anchors others : List Anchor)
        → ((entry : Entry) → meaning entry ≡ Answer.Valid → better entry ≡ Answer.Valid)
        → ((rrset : ReceivedRrset) → Contains rrsets rrset → Contains more rrset)
        → ((anchor : Anchor) → Contains anchors anchor → Contains others anchor)
        → (zone : Labels) (rdata : List ℕ)
        → IsTrustedKey meaning moment rrsets anchors zone rdata → IsTrustedKey better moment more others zone rdata }
    ensures good { (meaning better : Entry → Answer) (moment : ℕ) (rrsets more : List ReceivedRrset)
        (anchors others : List Anchor)
        → ((entry : Entry) → meaning entry ≡ Answer.Valid → better entry ≡ Answer.Valid)
        → ((rrset : ReceivedRrset) → Contains rrsets rrset → Contains more rrset)
        → ((anchor : Anchor) → Contains anchors anchor → Contains others anchor)
        → (rrset : ReceivedRrset) (rrsig : Rrsig)
        → IsGoodByTrust meaning moment rrsets anchors rrset rrsig
        → IsGoodByTrust better moment more others rrset rrsig }
    ensures numbers { (meaning better : Entry → Answer) (moment : ℕ) (rrsets later : List ReceivedRrset)
        (anchors others : List Anchor)
        → ((entry : Entry) → meaning entry ≡ Answer.Valid → better entry ≡ Answer.Valid)
        → ((anchor : Anchor) → Contains anchors anchor → Contains others anchor)
        → (k s : ℕ)
        → IsSecured meaning moment rrsets anchors k s → IsSecured better moment (rrsets ++ later) others k s }
{}

/// Trust depends on the verifier through the entries that are asked alone.
pub fn trust_depends_on_what_is_asked()
    ensures sets { (first second : Entry → Answer) (moment : ℕ) (rrsets : List ReceivedRrset) (anchors : List Anchor)
        → ((entry : Entry) → IsAsked moment rrsets entry → first entry ≡ second entry)
        → (set : ReceivedRrset)
        → IsTrusted first moment rrsets anchors set → IsTrusted second moment rrsets anchors set }
    ensures keys { (first second : Entry → Answer) (moment : ℕ) (rrsets : List ReceivedRrset) (anchors : List Anchor)
        → ((entry : Entry) → IsAsked moment rrsets entry → first entry ≡ second entry)
        → (zone : Labels) (rdata : List ℕ)
        → IsTrustedKey first moment rrsets anchors zone rdata → IsTrustedKey second moment rrsets anchors zone rdata }
    ensures good { (first second : Entry → Answer) (moment : ℕ) (rrsets : List ReceivedRrset) (anchors : List Anchor)
        → ((entry : Entry) → IsAsked moment rrsets entry → first entry ≡ second entry)
        → (rrset : ReceivedRrset) (rrsig : Rrsig) → Contains rrsets rrset → IsSignatureOf rrset rrsig
        → IsGoodByTrust first moment rrsets anchors rrset rrsig
        → IsGoodByTrust second moment rrsets anchors rrset rrsig }
    ensures numbers { (first second : Entry → Answer) (moment : ℕ) (rrsets : List ReceivedRrset)
        (anchors : List Anchor)
        → ((entry : Entry) → IsAsked moment rrsets entry → first entry ≡ second entry)
        → (k s : ℕ) → IsSecured first moment rrsets anchors k s → IsSecured second moment rrsets anchors k s }
{
    good_depends_on_what_is_asked();
}
