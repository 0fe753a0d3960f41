//! Which records there are of a chain, whatever name is asked.
ghost use Rattle.std.specs.Prelude.{◌≡◌, ◌↔◌, ◌<◌, ℕ, IsTrue, length};
ghost use Rattle.dnsv_zones.specs.chains.Rdata.{parameters_of};
ghost use Rattle.dnsv_proof_forms.specs.records.Record.{read_nsec3};
ghost use Rattle.dnsv_proof_forms.specs.words.ChainSaid.{IsOfChain, IsOptOutOfChain};
ghost use Rattle.dnsv_proof_forms.specs.declared.records.entry.Nsec3Entry.{Nsec3Entry};

use crate::records::chain_records::ChainRecords;
use crate::records::entry::{Nsec3Entry, NsecEntry};
use crate::words::nsec3::same_parameters;
use crate::words::search::{Word, first_to_say};
use dnsv_records::Nsec3Parameters;

/// Whether the chain has a record: for NSEC3 one with the parameters of the hashes.
pub fn is_source(records: &ChainRecords<'_>) -> bool
    ensures { IsTrue result ↔ ((place : ℕ) × IsOfChain records.now place) }
{
    match records {
        ChainRecords::Nsec(entries) => is_not_empty(entries),
        ChainRecords::Nsec3(hashed) => {
            first_to_say(&Made(hashed.parameters), hashed.entries.as_slice()).is_some()
        },
    }
}

/// Whether there are any.
fn is_not_empty(entries: &[NsecEntry<'_>]) -> bool
    ensures { IsTrue result ↔ (0 < length entries.now) }
{
    entries.len() > 0
}

/// Whether an NSEC3 record of the chain has the Opt-Out flag (RFC 5155 6).
pub fn is_opt_out_source(records: &ChainRecords<'_>) -> bool
    ensures { IsTrue result ↔ ((place : ℕ) × IsOptOutOfChain records.now place) }
{
    match records {
        ChainRecords::Nsec(_) => false,
        ChainRecords::Nsec3(hashed) => {
            first_to_say(
                &MadeWithOptOut(hashed.parameters),
                hashed.entries.as_slice(),
            )
            .is_some()
        },
    }
}

/// The word of an NSEC3 record that its hashes are made with the parameters.
#[derive(Drop)]
struct Made<'a>(&'a Nsec3Parameters<'a>);

impl Word<Nsec3Entry<'_>> for Made<'_> {
    ghost says = { λ word entry. (read_nsec3 entry).parameters ≡ parameters_of word.0.now };

    fn is_said_by(&self, entry: &Nsec3Entry<'_>) -> bool {
        same_parameters(entry.parameters, self.0)
    }
}

/// The word that they are, and that the record has the Opt-Out flag.
#[derive(Drop)]
struct MadeWithOptOut<'a>(&'a Nsec3Parameters<'a>);

impl Word<Nsec3Entry<'_>> for MadeWithOptOut<'_> {
    ghost says = { λ word entry. ((read_nsec3 entry).parameters ≡ parameters_of word.0.now) × IsTrue entry.is_opt_out };

    fn is_said_by(&self, entry: &Nsec3Entry<'_>) -> bool {
        if !entry.is_opt_out {
            return false;
        }
        same_parameters(entry.parameters, self.0)
    }
}
