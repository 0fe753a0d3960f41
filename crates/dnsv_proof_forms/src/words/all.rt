//! All records of a chain that say what is asked of a name.
ghost use Rattle.std.specs.Prelude.{◌<◌, ℕ, Contains, IfOk};
ghost use Rattle.dnsv_names.specs.Name.{Labels};
ghost use Rattle.dnsv_zones.specs.forms.Said.{nsec_records_say, nsec3_records_say};
ghost use Rattle.dnsv_proof_forms.specs.records.Numbers.{record_count};
ghost use Rattle.dnsv_proof_forms.specs.records.AskedHash.{hash_of, HasHashesOf};
ghost use Rattle.dnsv_proof_forms.specs.records.Record.{read_entry, read_nsec3};
ghost use Rattle.dnsv_proof_forms.specs.words.Asked.{asked_name, said_word, IsWithin};
ghost use Rattle.dnsv_proof_forms.specs.words.ChainSaid.{chain_said, HasHashes};
ghost use Rattle.dnsv_proof_forms.specs.words.SaidAt.{AreAllPlaces, IsSaidAt};

use crate::records::chain_records::ChainRecords;
use crate::records::entry::NsecEntry;
use crate::records::hashed_records::HashedRecords;
use crate::words::asked::{AskedName, AskedTypes, AskedWord};
use crate::words::nsec::{Absent, EmptyNonTerminal, Node, Owner, RuledOut};
use crate::words::nsec3::{all_covers, all_covers_with, all_matches};
use crate::words::search::all_to_say;
use dnsv_names::Name;
use std::alloc::{AllocError, Global};

/// The places of all records of the chain that say the word of the asked name, for a question of `name`, rising. NSEC3
/// records are looked up by the hash, NSEC records are asked one after another.
pub fn places_saying(
    alloc: Global,
    name: &Name,
    asked: AskedName,
    word: AskedWord,
    records: &ChainRecords<'_>,
) -> Result<Vec<usize>, AllocError>
    requires within { IsWithin name.now asked }
    requires hashes { HasHashes name.now records.now }
    ensures all { IfOk result (λ places. (apex : Labels)
        → AreAllPlaces (said_word (chain_said apex records.now) word (asked_name name.now asked)) places.items) }
    ensures within { IfOk result (λ places. (place : ℕ) → Contains places.items place → place < record_count records.now) }
{
    match records {
        ChainRecords::Nsec(entries) => Ok(nsec_places(alloc, &asked.of(name), word, entries)?),
        ChainRecords::Nsec3(hashed) => Ok(nsec3_places(alloc, asked, word, hashed)?),
    }
}

/// The places of all NSEC records that say the word of the name.
fn nsec_places(
    alloc: Global,
    name: &Name,
    word: AskedWord,
    entries: &[NsecEntry<'_>],
) -> Result<Vec<usize>, AllocError>
    ensures { IfOk result (λ places. (apex : Labels) → AreAllPlaces (said_word
        (nsec_records_say apex (λ Says. IsSaidAt (λ entry. Says (read_entry entry)) entries.now)) word name.now)
        places.items) }
{
    match word {
        AskedWord::Encloser => Ok(all_to_say(alloc, &Node(name), entries)?),
        AskedWord::Absent => Ok(all_to_say(alloc, &Absent(name), entries)?),
        AskedWord::EmptyNonTerminal => Ok(all_to_say(alloc, &EmptyNonTerminal(name), entries)?),
        AskedWord::OptedOut => Ok(Vec::new(alloc)),
        AskedWord::Covered => Ok(all_to_say(alloc, &Absent(name), entries)?),
        AskedWord::RuledOut => Ok(all_to_say(alloc, &RuledOut(name), entries)?),
        AskedWord::Types(types) => Ok(all_to_say(alloc, &Owner { name, types }, entries)?),
    }
}

/// The places of all NSEC3 records with the parameters of the hashes that say the word of the asked name.
fn nsec3_places(
    alloc: Global,
    asked: AskedName,
    word: AskedWord,
    hashed: &HashedRecords<'_>,
) -> Result<Vec<usize>, AllocError>
    requires within { IsWithin hashed.now.name.now asked }
    requires hashes { HasHashesOf hashed.now }
    ensures { IfOk result (λ places. AreAllPlaces (said_word (nsec3_records_say (hash_of hashed.now)
        (λ Says. IsSaidAt (λ entry. Says (read_nsec3 entry)) hashed.now.entries.now)) word
        (asked_name hashed.now.name.now asked)) places.items) }
{
    match word {
        AskedWord::Encloser => Ok(all_matches(alloc, hashed, asked, AskedTypes::Open)?),
        AskedWord::Absent => Ok(all_covers_with(alloc, hashed, asked, false)?),
        AskedWord::EmptyNonTerminal => Ok(Vec::new(alloc)),
        AskedWord::OptedOut => Ok(all_covers_with(alloc, hashed, asked, true)?),
        AskedWord::Covered => Ok(all_covers(alloc, hashed, asked)?),
        AskedWord::RuledOut => Ok(all_covers(alloc, hashed, asked)?),
        AskedWord::Types(types) => Ok(all_matches(alloc, hashed, asked, types)?),
    }
}
