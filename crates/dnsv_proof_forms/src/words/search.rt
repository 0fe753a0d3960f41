//! The first record that says what a form asks for, and all that do.
ghost use Rattle.std.specs.Prelude.{◌↔◌, IfOk, IsTrue};
ghost use Rattle.dnsv_proof_forms.specs.words.SaidAt.{AreAllPlaces, IsSaidAt, IsFirstPlace};

use std::alloc::{AllocError, Global};

/// What a form asks of a record.
pub trait Word<Entry> {
    /// The record says it.
    ghost says: { Self → Entry → Type 0 };

    /// Whether the record says it.
    fn is_said_by(&self, entry: &Entry) -> bool
        ensures { IsTrue result ↔ says self.now entry.now };
}

/// The place of the first record that says the word, or `None` where none does. It asks each in turn.
pub fn first_to_say<Entry, W: Word<Entry>>(word: &W, entries: &[Entry]) -> Option<usize>
    ensures { IsFirstPlace (IsSaidAt (W.says word.now) entries.now) result }
{
    for (place, entry) in entries.iter().enumerate() {
        if word.is_said_by(entry) {
            return Some(place);
        }
    }
    None
}

/// The places of all records that say the word, rising. It asks each in turn.
pub fn all_to_say<Entry, W: Word<Entry>>(
    alloc: Global,
    word: &W,
    entries: &[Entry],
) -> Result<Vec<usize>, AllocError>
    ensures { IfOk result (λ places. AreAllPlaces (IsSaidAt (W.says word.now) entries.now) places.items) }
{
    let mut places = Vec::new(alloc);
    for (place, entry) in entries.iter().enumerate() {
        if !word.is_said_by(entry) {
            continue;
        }
        places.push(place)?;
    }
    Ok(places)
}
