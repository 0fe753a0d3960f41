//! What the records of a chain say of any name at all. What none says isn't looked for at each of a question's names.
ghost use Rattle.std.specs.Prelude.{ℕ, ◌↔◌, ◌<◌, IsTrue};
ghost use Rattle.dnsv_names.specs.Name.{Labels};
ghost use Rattle.dnsv_zones.specs.chains.NsecChain.{IsInBitmap};
ghost use Rattle.dnsv_zones.specs.forms.RecordWords.{words};
ghost use Rattle.dnsv_zones.specs.zones.Types.{IsUnsignedDelegation};
ghost use Rattle.dnsv_proof_forms.specs.records.Numbers.{record_count};
ghost use Rattle.dnsv_proof_forms.specs.records.Record.{read_entry, read_nsec3};
ghost use Rattle.dnsv_proof_forms.specs.words.ChainSaid.{chain_said};
ghost use Rattle.dnsv_proof_forms.specs.declared.records.entry.Nsec3Entry.{Nsec3Entry};
ghost use Rattle.dnsv_proof_forms.specs.declared.records.entry.NsecEntry.{NsecEntry};

use crate::records::chain_records::ChainRecords;
use crate::records::entry::{Nsec3Entry, NsecEntry};
use crate::words::search::{Word, first_to_say};
use dnsv_zones::is_unsigned_delegation;

/// Whether the chain has records.
pub fn has_records(records: &ChainRecords<'_>) -> bool
    ensures { IsTrue result ↔ (0 < record_count records.now) }
{
    match records {
        ChainRecords::Nsec(entries) => entries.len() > 0,
        ChainRecords::Nsec3(hashed) => hashed.entries.as_slice().len() > 0,
    }
}

/// Whether a record may show some name to be a delegation without DS.
pub fn has_unsigned_delegation(records: &ChainRecords<'_>) -> bool
    ensures { (apex name : Labels) → (words (chain_said apex records.now)).TypesAt name IsUnsignedDelegation
        → IsTrue result }
{
    match records {
        ChainRecords::Nsec(entries) => first_to_say(&NsecDelegation, entries).is_some(),
        ChainRecords::Nsec3(hashed) => {
            first_to_say(&Nsec3Delegation, hashed.entries.as_slice()).is_some()
        },
    }
}

/// Whether a record has the Opt-Out flag.
pub fn has_opt_out(records: &ChainRecords<'_>) -> bool
    ensures { (apex name : Labels) → ((place : ℕ) × (chain_said apex records.now).OptedOut name place)
        → IsTrue result }
{
    match records {
        ChainRecords::Nsec(_) => false,
        ChainRecords::Nsec3(hashed) => first_to_say(&OptOut, hashed.entries.as_slice()).is_some(),
    }
}

/// The word of an NSEC record that its owner is a delegation without DS.
#[derive(Drop)]
struct NsecDelegation;

impl Word<NsecEntry<'_>> for NsecDelegation {
    ghost says = { λ word entry. IsUnsignedDelegation (IsInBitmap (read_entry entry).types) };

    fn is_said_by(&self, entry: &NsecEntry<'_>) -> bool {
        is_unsigned_delegation(&entry.nsec.types)
    }
}

/// The word of an NSEC3 record that the name with its hash is a delegation without DS.
#[derive(Drop)]
struct Nsec3Delegation;

impl Word<Nsec3Entry<'_>> for Nsec3Delegation {
    ghost says = { λ word entry. IsUnsignedDelegation (IsInBitmap (read_nsec3 entry).types) };

    fn is_said_by(&self, entry: &Nsec3Entry<'_>) -> bool {
        is_unsigned_delegation(entry.types)
    }
}

/// The word of an NSEC3 record that it has the Opt-Out flag.
#[derive(Drop)]
struct OptOut;

impl Word<Nsec3Entry<'_>> for OptOut {
    ghost says = { λ word entry. IsTrue entry.is_opt_out };

    fn is_said_by(&self, entry: &Nsec3Entry<'_>) -> bool {
        entry.is_opt_out
    }
}
