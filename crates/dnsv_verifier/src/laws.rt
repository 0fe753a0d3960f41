//! Laws of what a verifier is asked.
//!
//! Each is a function that does nothing and ensures the law, which its caller learns.
ghost use Rattle.std.specs.Prelude.{◌≡◌, ◌↔◌, ℕ, List, Contains};
ghost use Rattle.dnsv_verifier.specs.Panel.{joint_answer};
ghost use Rattle.dnsv_records.specs.declared.rrsig.Rrsig.{Rrsig};
ghost use Rattle.dnsv_canonical.specs.Rrsets.{ReceivedRrset};
ghost use Rattle.dnsv_verifier.specs.Admissible.{DnskeyRecord, IsAdmissible, IsAsked, IsEntryOf, IsGood, IsGoodAmong, IsKeyAmong, IsSignatureOf, IsVerifiable, MayHaveMade};
ghost use Rattle.dnsv_verifier.specs.Table.{IsTableOf, TableContents, hoped_answer, hopeful, table_answer, unknown_entries};
ghost use Rattle.dnsv_verifier.specs.Within.{IsTableWithin};
ghost use Rattle.dnsv_verifier.specs.declared.answer.Answer.{Answer};
ghost use Rattle.dnsv_verifier.specs.declared.answer.Answer.TheVariants.{Valid, Invalid, Unknown};
ghost use Rattle.dnsv_verifier.specs.declared.entry.Entry.{Entry};

use dnsv_canonical::one_signed_data;

/// A key may be used for a signature just where the signature can be verified and the key may have made it.
pub fn admissible_is_verifiable_and_made()
    ensures { (moment : ℕ) (rrset : ReceivedRrset) (rrsig : Rrsig) (key : DnskeyRecord)
        → IsAdmissible moment rrset rrsig key ↔ (IsVerifiable moment rrset rrsig × MayHaveMade key rrsig) }
{}

/// A verifier is asked at most one thing of a signature under a key, and one where the key may be used for it.
pub fn a_pair_has_one_entry()
    ensures one { (rrset : ReceivedRrset) (rrsig : Rrsig) (key : DnskeyRecord) (a b : Entry)
        → IsEntryOf rrset rrsig key a → IsEntryOf rrset rrsig key b → a ≡ b }
    ensures some { (moment : ℕ) (rrset : ReceivedRrset) (rrsig : Rrsig) (key : DnskeyRecord)
        → IsAdmissible moment rrset rrsig key → (entry : Entry) × IsEntryOf rrset rrsig key entry }
{
    one_signed_data();
}

/// What is good in the evidence depends on the verifier through the entries that are asked alone.
pub fn good_depends_on_what_is_asked()
    ensures { (first second : Entry → Answer) (moment : ℕ) (rrsets : List ReceivedRrset)
        → ((entry : Entry) → IsAsked moment rrsets entry → first entry ≡ second entry)
        → (rrset : ReceivedRrset) (rrsig : Rrsig) (key : DnskeyRecord)
        → Contains rrsets rrset → IsSignatureOf rrset rrsig → IsKeyAmong rrsets key
        → IsGood first moment rrset rrsig key → IsGood second moment rrset rrsig key }
{}

/// More RRsets ask for no fewer entries, and take no key and no good signature away.
pub fn more_rrsets_ask_for_no_less()
    ensures keys { (rrsets more : List ReceivedRrset)
        → ((rrset : ReceivedRrset) → Contains rrsets rrset → Contains more rrset)
        → (key : DnskeyRecord) → IsKeyAmong rrsets key → IsKeyAmong more key }
    ensures entries { (moment : ℕ) (rrsets more : List ReceivedRrset)
        → ((rrset : ReceivedRrset) → Contains rrsets rrset → Contains more rrset)
        → (entry : Entry) → IsAsked moment rrsets entry → IsAsked moment more entry }
    ensures good { (meaning : Entry → Answer) (moment : ℕ) (rrsets more : List ReceivedRrset)
        → ((rrset : ReceivedRrset) → Contains rrsets rrset → Contains more rrset)
        → (rrset : ReceivedRrset) (rrsig : Rrsig)
        → IsGoodAmong meaning moment rrsets rrset rrsig → IsGoodAmong meaning moment more rrset rrsig }
{}

/// A table stands for the verifier that it was made with: both say the same of each entry that is asked, and what is
/// good in the evidence is so by either. There is one table, and for a range one list of entries with answers.
pub fn a_table_is_its_verifier()
    ensures answer { (meaning : Entry → Answer) (moment : ℕ) (rrsets : List ReceivedRrset) (contents : TableContents)
        → IsTableOf meaning moment rrsets contents
        → (entry : Entry) → IsAsked moment rrsets entry → table_answer contents entry ≡ meaning entry }
    ensures others { (meaning : Entry → Answer) (moment : ℕ) (rrsets : List ReceivedRrset) (contents : TableContents)
        → IsTableOf meaning moment rrsets contents
        → (entry : Entry) → ¬ IsAsked moment rrsets entry → table_answer contents entry ≡ Unknown }
    ensures one { (meaning : Entry → Answer) (moment : ℕ) (rrsets : List ReceivedRrset) (a b : TableContents)
        → IsTableOf meaning moment rrsets a → IsTableOf meaning moment rrsets b → a ≡ b }
    ensures within { (meaning : Entry → Answer) (from to : ℕ) (rrsets : List ReceivedRrset) (a b : TableContents)
        → IsTableWithin meaning from to rrsets a → IsTableWithin meaning from to rrsets b → a.answers ≡ b.answers }
{}

/// A verifier that says Valid of each Unknown entry of a table, and of each other asked entry what the table's does,
/// has the hopeful table.
pub fn unknown_entries_may_turn_out_valid()
    ensures hopeful { (meaning later : Entry → Answer) (moment : ℕ) (rrsets : List ReceivedRrset)
        (contents : TableContents) → IsTableOf meaning moment rrsets contents
        → ((entry : Entry) → Contains (unknown_entries contents) entry → later entry ≡ Valid)
        → ((entry : Entry) → IsAsked moment rrsets entry → ¬ Contains (unknown_entries contents) entry
        → later entry ≡ meaning entry)
        → IsTableOf later moment rrsets (hopeful contents) }
    ensures hoped { (meaning : Entry → Answer) (moment : ℕ) (rrsets : List ReceivedRrset) (contents : TableContents)
        → IsTableOf meaning moment rrsets contents
        → IsTableOf (λ entry. hoped_answer (meaning entry)) moment rrsets (hopeful contents) }
{}

/// Several verifiers say Invalid together exactly where one of them does, and Valid exactly where one does and none says
/// Invalid.
pub fn several_verifiers_say_what_one_does()
    ensures invalid { (answers : List Answer) → (joint_answer answers ≡ Invalid) ↔ Contains answers Invalid }
    ensures valid { (answers : List Answer) → (joint_answer answers ≡ Valid)
        ↔ (Contains answers Valid × ¬ Contains answers Invalid) }
{}
