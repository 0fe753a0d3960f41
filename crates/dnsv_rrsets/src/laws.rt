//! Laws of RRsets, of their canonical form and order, of evidence, and of what is signed before the records.
//!
//! Each is a function that does nothing and ensures the law, which its caller learns.
ghost use Rattle.std.specs.Prelude.{◌≡◌, ◌≢◌, ◌↔◌, ◌⊎◌, ◌++◌, suc, ℕ, IsTrue, List, AllPairs, Contains, filter, length, map, take};
ghost use Rattle.std.specs.List.{AllByRecursion};
ghost use Rattle.std.specs.Str.{bytes_eq};
ghost use Rattle.dnsv_names.specs.Name.{Labels, SameName, lower_case, wire};
ghost use Rattle.dnsv_names.specs.Octets.{AreOctets};
ghost use Rattle.dnsv_message.specs.Grammar.{IsMessage};
ghost use Rattle.dnsv_message.specs.Message.{Contents, records_of};
ghost use Rattle.dnsv_message.specs.Parts.{AreParts, HasParts, rdata_of};
ghost use Rattle.dnsv_message.specs.declared.record.Record.{Record};
ghost use Rattle.dnsv_message.specs.declared.record.Section.{Section};
ghost use Rattle.dnsv_records.specs.declared.rrsig.Rrsig.{Rrsig};
ghost use Rattle.dnsv_records.specs.Rrsig.{IsRrsig};
ghost use Rattle.dnsv_canonical.specs.Canonical.{IsCanonical};
ghost use Rattle.dnsv_canonical.specs.CanonicalRdata.{canonical_form, listed_types, lowered_types};
ghost use Rattle.dnsv_canonical.specs.Evidence.{Evidence, IsDistinct, IsEvidence, IsReadable, IsReasonAgainst, evidence_of};
ghost use Rattle.dnsv_canonical.specs.Rdata.{IsWellFormed};
ghost use Rattle.dnsv_canonical.specs.declared.capture.CaptureError.{CaptureError};
ghost use Rattle.dnsv_canonical.specs.Rrsets.{ReceivedRrset, first_appearances, forms_rrsets, is_grouped, message_rrsets, rrsets_from, rrsets_in, rrsets_of};
ghost use Rattle.dnsv_canonical.specs.SignedData.{signed_front};

use dnsv_canonical::CaptureError;
use dnsv_message::messages_fit;
use dnsv_records::{record_laws, records_are_decided};

/// Messages that are added one by one give the RRsets of them all.
pub fn captures_hold_the_rrsets()
    ensures { (messages : List Contents) → (evidence_of messages).rrsets ≡ rrsets_of messages }
{}

/// The RRsets of a beginning of the messages are a beginning of the RRsets.
pub fn earlier_rrsets_keep_their_numbers()
    ensures { (earlier later : List Contents)
        → rrsets_of (earlier ++ later) ≡ rrsets_of earlier ++ rrsets_from (suc (length earlier)) later }
{}

/// What appears first has the members of the whole, and none twice.
pub fn first_appearances_are_all_once()
    ensures members { (received : List (List ℕ)) (rdata : List ℕ)
        → Contains (first_appearances bytes_eq received) rdata ↔ Contains received rdata }
    ensures once { (received : List (List ℕ)) → IsDistinct (first_appearances bytes_eq received) }
{}

/// Each record of a section that belongs to an RRset is in one of the section's RRsets, and no two of those have one
/// type and one owner, without regard to case (RFC 2181 5).
pub fn records_are_in_one_rrset()
    ensures some { (number : ℕ) (section : Section) (records : List Record) (r : Record)
        → Contains records r → IsTrue (is_grouped r)
        → (rrset : ReceivedRrset) × Contains (rrsets_in number section records) rrset
        × (rrset.rtype ≡ r.rtype.0) × SameName rrset.owner r.name × Contains rrset.rdata r.rdata }
    ensures one { (number : ℕ) (section : Section) (records : List Record)
        → AllPairs (λ (a : ReceivedRrset) (b : ReceivedRrset). a.rtype ≡ b.rtype → SameName a.owner b.owner → ⊥)
        (rrsets_in number section records) }
{}

/// A law of canonical form: the names in the RDATA of NS, CNAME, SOA, PTR, MX, SRV and DNAME are in lower case, and
/// everything else is as received.
pub fn canonical_form_lowers_the_names()
    ensures lowered { (rtype : ℕ) → Contains lowered_types rtype
        → (before : List ℕ) (names : List Labels) (behind : List ℕ)
        → AreParts rtype 1 before names behind
        → canonical_form rtype (rdata_of before names behind) ≡ rdata_of before (map lower_case names) behind }
    ensures kept { (rtype : ℕ) → ¬ Contains lowered_types rtype
        → (rdata : List ℕ) → canonical_form rtype rdata ≡ rdata }
    // No other type that the standard lists forms an RRset.
    ensures listed { filter forms_rrsets listed_types ≡ lowered_types }
    // The next name of NSEC keeps its spelling.
    ensures nsec { (rdata : List ℕ) → canonical_form 47 rdata ≡ rdata }
    // All RDATA of the RRsets of messages has the parts that its type asks for.
    ensures parts { (messages : List Contents) → AllByRecursion IsMessage messages
        → AllByRecursion (λ rrset. AllByRecursion (HasParts rrset.rtype 1) rrset.rdata) (rrsets_of messages) }
{
    messages_fit();
}

/// A law of canonical order: whatever RDATA is received, one list of it is canonical.
pub fn one_canonical_list()
    ensures some { (received : List (List ℕ)) → (canonical : List (List ℕ)) × IsCanonical received canonical }
    ensures one { (received a b : List (List ℕ)) → IsCanonical received a → IsCanonical received b → a ≡ b }
{}

/// What is signed before the records is the first 18 octets of the signature's RDATA, and its signer in lower case.
pub fn signed_data_begins_as_the_signature()
    ensures { (rdata : List ℕ) (rrsig : Rrsig) → AreOctets rdata → IsRrsig rdata rrsig
        → signed_front rrsig ≡ take 18 rdata ++ wire (lower_case rrsig.signer) }
{}

/// A message is evidence besides what is held, or is refused for just one reason but for want of memory.
pub fn evidence_or_one_refusal()
    ensures some { (held : Evidence) (message : Contents) → IsMessage message → IsEvidence held message
        ⊎ ((error : CaptureError) × (error ≢ CaptureError.OutOfMemory) × IsReasonAgainst held message error) }
    ensures one { (held : Evidence) (message : Contents) (a b : CaptureError)
        → a ≢ CaptureError.OutOfMemory → b ≢ CaptureError.OutOfMemory
        → IsReasonAgainst held message a → IsReasonAgainst held message b → a ≡ b }
    ensures never_both { (held : Evidence) (message : Contents) (error : CaptureError)
        → error ≢ CaptureError.OutOfMemory → IsEvidence held message → IsReasonAgainst held message error → ⊥ }
{
    messages_fit();
    record_laws();
    records_are_decided();
}

/// The RRsets of a message whose records can be read are well formed.
pub fn rrsets_are_well_formed()
    ensures { (number : ℕ) (message : Contents) → IsMessage message
        → AllByRecursion IsReadable (records_of message) → AllByRecursion IsWellFormed (message_rrsets number message) }
{
    messages_fit();
}
