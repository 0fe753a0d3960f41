//! All records that say a word, of those at some places.
ghost use Rattle.std.specs.Prelude.{◌↔◌, ◌⊎◌, ◌<◌, ℕ, Contains, IfOk, IsTrue, OnOk, length};
ghost use Rattle.dnsv_proof_forms.specs.records.HashIndex.{AreWithin, IsListed};
ghost use Rattle.dnsv_proof_forms.specs.words.SaidAt.{AreAllPlaces, IsSaidAt};

use crate::order::rising;
use crate::records::hash_places::HashPlace;
use crate::words::search::Word;
use std::alloc::{AllocError, Global};

/// The places of all records that say the word, rising. Each stands among one of the two lists.
pub fn all_among<Entry, W: Word<Entry>>(
    alloc: Global,
    word: &W,
    entries: &[Entry],
    one: &[HashPlace],
    other: &[HashPlace],
) -> Result<Vec<usize>, AllocError>
    requires one { AreWithin entries.now one.now }
    requires other { AreWithin entries.now other.now }
    requires all { (place : ℕ) → IsSaidAt (W.says word.now) entries.now place
        → IsListed one.now place ⊎ IsListed other.now place }
    ensures { IfOk result (λ places. AreAllPlaces (IsSaidAt (W.says word.now) entries.now) places.items) }
{
    let mut said = Vec::new(alloc);
    add_among(word, entries, one, &mut said)?;
    add_among(word, entries, other, &mut said)?;
    let places = rising(alloc, &said)?;
    Ok(places)
}

/// Adds those of the places whose record says the word.
fn add_among<Entry, W: Word<Entry>>(
    word: &W,
    entries: &[Entry],
    places: &[HashPlace],
    said: &mut Vec<usize>,
) -> Result<(), AllocError>
    requires { AreWithin entries.now places.now }
    ensures { OnOk result ((place : ℕ) → Contains said.new.items place ↔ (Contains said.old.items place
        ⊎ (IsListed places.now place × IsSaidAt (W.says word.now) entries.now place))) }
{
    for each in places {
        if !is_said_at(word, entries, each.place) {
            continue;
        }
        said.push(each.place)?;
    }
    Ok(())
}

/// Whether the record at the place says the word.
fn is_said_at<Entry, W: Word<Entry>>(word: &W, entries: &[Entry], place: usize) -> bool
    requires { place < length entries.now }
    ensures { IsTrue result ↔ IsSaidAt (W.says word.now) entries.now place }
{
    word.is_said_by(&entries[place])
}
