//! What forms ask of NSEC3 records.
ghost use Rattle.std.specs.Prelude.{◌≡◌, ◌↔◌, IfOk, IsTrue};
ghost use Rattle.dnsv_zones.specs.chains.NsecChain.{IsInBitmap};
ghost use Rattle.dnsv_zones.specs.chains.Rdata.{parameters_of};
ghost use Rattle.dnsv_zones.specs.forms.Nsec3.{Matches, Covers};
ghost use Rattle.dnsv_proof_forms.specs.records.AskedHash.{hash_of, HasHashesOf};
ghost use Rattle.dnsv_proof_forms.specs.records.HashWords.{HasHash, CoversHash};
ghost use Rattle.dnsv_proof_forms.specs.records.Record.{read_nsec3, flags_of};
ghost use Rattle.dnsv_proof_forms.specs.words.Asked.{asked_name, said_types, IsWithin};
ghost use Rattle.dnsv_proof_forms.specs.declared.records.entry.Nsec3Entry.{Nsec3Entry};
ghost use Rattle.dnsv_proof_forms.specs.words.SaidAt.{AreAllPlaces, IsSaidAt, IsFirstPlace};

use crate::records::entry::Nsec3Entry;
use crate::records::hashed_records::HashedRecords;
use crate::words::all_among::all_among;
use crate::words::asked::{AskedName, AskedTypes};
use crate::words::first_among::{earlier, first_among};
use crate::words::search::Word;
use dnsv_names::{Hash20, covers};
use dnsv_records::Nsec3Parameters;
use std::alloc::{AllocError, Global};

/// The word that a hash is that of an owner, and the types there are such.
#[derive(Drop)]
pub struct Match<'a> {
    /// The hash.
    pub hash: Hash20,
    /// What it is made with.
    pub parameters: &'a Nsec3Parameters<'a>,
    /// What the types are to be.
    pub types: AskedTypes,
}

impl Word<Nsec3Entry<'_>> for Match<'_> {
    ghost says = { λ word entry. HasHash (parameters_of word.parameters.now) word.hash (read_nsec3 entry)
        × said_types word.types (IsInBitmap (read_nsec3 entry).types) };

    fn is_said_by(&self, entry: &Nsec3Entry<'_>) -> bool {
        if entry.hash != self.hash {
            return false;
        }
        if !same_parameters(entry.parameters, self.parameters) {
            return false;
        }
        self.types.are(entry.types)
    }
}

/// The word that a hash is covered, with the Opt-Out flag or without.
#[derive(Drop)]
pub struct Cover<'a> {
    /// The hash.
    pub hash: Hash20,
    /// What it is made with.
    pub parameters: &'a Nsec3Parameters<'a>,
    /// Whether the record is to have the Opt-Out flag.
    pub is_opt_out: bool,
}

impl Word<Nsec3Entry<'_>> for Cover<'_> {
    ghost says = { λ word entry. CoversHash (parameters_of word.parameters.now) word.hash (read_nsec3 entry)
        × ((read_nsec3 entry).flags ≡ flags_of word.is_opt_out) };

    fn is_said_by(&self, entry: &Nsec3Entry<'_>) -> bool {
        if entry.is_opt_out != self.is_opt_out {
            return false;
        }
        let cover = AnyCover {
            hash: self.hash,
            parameters: self.parameters,
        };
        cover.is_said_by(entry)
    }
}

/// The word that a hash is covered, whatever the Opt-Out flag.
#[derive(Drop)]
pub struct AnyCover<'a> {
    /// The hash.
    pub hash: Hash20,
    /// What it is made with.
    pub parameters: &'a Nsec3Parameters<'a>,
}

impl Word<Nsec3Entry<'_>> for AnyCover<'_> {
    ghost says = { λ word entry. CoversHash (parameters_of word.parameters.now) word.hash (read_nsec3 entry) };

    fn is_said_by(&self, entry: &Nsec3Entry<'_>) -> bool {
        if !covers(&entry.hash, &entry.next_hash, &self.hash) {
            return false;
        }
        same_parameters(entry.parameters, self.parameters)
    }
}

/// Whether hashes with the one parameters are made as those with the others.
pub fn same_parameters(a: &Nsec3Parameters<'_>, b: &Nsec3Parameters<'_>) -> bool
    ensures { IsTrue result ↔ (parameters_of a.now ≡ parameters_of b.now) }
{
    if a.iterations.0 != b.iterations.0 {
        return false;
    }
    a.salt == b.salt
}

/// The place of the first record whose owner has the hash of the asked name, and whose types are such.
pub fn first_match(
    records: &HashedRecords<'_>,
    asked: AskedName,
    types: AskedTypes,
) -> Option<usize>
    requires within { IsWithin records.now.name.now asked }
    requires hashes { HasHashesOf records.now }
    ensures { IsFirstPlace (IsSaidAt (λ entry.
        Matches (hash_of records.now) (read_nsec3 entry) (asked_name records.now.name.now asked)
        × said_types types (IsInBitmap (read_nsec3 entry).types)) records.now.entries.now) result }
{
    let hash = records.hash(asked);
    let parameters = records.parameters;
    let word = Match {
        hash,
        parameters,
        types,
    };
    let entries = records.entries;
    first_among(&word, entries.as_slice(), entries.at(&hash))
}

/// The place of the first record, with the Opt-Out flag or without, that covers the hash of the asked name.
pub fn first_cover(records: &HashedRecords<'_>, asked: AskedName, is_opt_out: bool) -> Option<usize>
    requires within { IsWithin records.now.name.now asked }
    requires hashes { HasHashesOf records.now }
    ensures { IsFirstPlace (IsSaidAt (λ entry.
        Covers (hash_of records.now) (read_nsec3 entry) (asked_name records.now.name.now asked)
        × ((read_nsec3 entry).flags ≡ flags_of is_opt_out)) records.now.entries.now) result }
{
    let hash = records.hash(asked);
    let parameters = records.parameters;
    let word = Cover {
        hash,
        parameters,
        is_opt_out,
    };
    let entries = records.entries;
    let around = first_among(&word, entries.as_slice(), entries.around(&hash));
    let wrapping = first_among(&word, entries.as_slice(), entries.wrapping());
    earlier(around, wrapping)
}

/// The places of all records whose owner has the hash of the asked name, and whose types are such.
pub fn all_matches(
    alloc: Global,
    records: &HashedRecords<'_>,
    asked: AskedName,
    types: AskedTypes,
) -> Result<Vec<usize>, AllocError>
    requires within { IsWithin records.now.name.now asked }
    requires hashes { HasHashesOf records.now }
    ensures { IfOk result (λ places. AreAllPlaces (IsSaidAt (λ entry.
        Matches (hash_of records.now) (read_nsec3 entry) (asked_name records.now.name.now asked)
        × said_types types (IsInBitmap (read_nsec3 entry).types)) records.now.entries.now) places.items) }
{
    let hash = records.hash(asked);
    let parameters = records.parameters;
    let word = Match {
        hash,
        parameters,
        types,
    };
    let entries = records.entries;
    let places = all_among(alloc, &word, entries.as_slice(), entries.at(&hash), &[])?;
    Ok(places)
}

/// The places of all records, with the Opt-Out flag or without, that cover the hash of the asked name.
pub fn all_covers_with(
    alloc: Global,
    records: &HashedRecords<'_>,
    asked: AskedName,
    is_opt_out: bool,
) -> Result<Vec<usize>, AllocError>
    requires within { IsWithin records.now.name.now asked }
    requires hashes { HasHashesOf records.now }
    ensures { IfOk result (λ places. AreAllPlaces (IsSaidAt (λ entry.
        Covers (hash_of records.now) (read_nsec3 entry) (asked_name records.now.name.now asked)
        × ((read_nsec3 entry).flags ≡ flags_of is_opt_out)) records.now.entries.now) places.items) }
{
    let hash = records.hash(asked);
    let parameters = records.parameters;
    let word = Cover {
        hash,
        parameters,
        is_opt_out,
    };
    let entries = records.entries;
    let around = entries.around(&hash);
    let places = all_among(alloc, &word, entries.as_slice(), around, entries.wrapping())?;
    Ok(places)
}

/// The places of all records that cover the hash of the asked name, whatever the Opt-Out flag.
pub fn all_covers(
    alloc: Global,
    records: &HashedRecords<'_>,
    asked: AskedName,
) -> Result<Vec<usize>, AllocError>
    requires within { IsWithin records.now.name.now asked }
    requires hashes { HasHashesOf records.now }
    ensures { IfOk result (λ places. AreAllPlaces (IsSaidAt (λ entry.
        Covers (hash_of records.now) (read_nsec3 entry) (asked_name records.now.name.now asked))
        records.now.entries.now) places.items) }
{
    let hash = records.hash(asked);
    let parameters = records.parameters;
    let word = AnyCover { hash, parameters };
    let entries = records.entries;
    let around = entries.around(&hash);
    let places = all_among(alloc, &word, entries.as_slice(), around, entries.wrapping())?;
    Ok(places)
}
