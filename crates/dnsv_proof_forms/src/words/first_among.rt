//! The first record that says what a form asks for, of those at some places.
ghost use Rattle.std.specs.Prelude.{◌≡◌, ◌⊎◌, ◌<◌, Some, length};
ghost use Rattle.dnsv_proof_forms.specs.records.HashIndex.{AreWithin, IsListed};
ghost use Rattle.dnsv_proof_forms.specs.words.SaidAt.{IsSaidAt, IsFirstPlace};

use crate::records::hash_places::HashPlace;
use crate::words::search::Word;

/// The least of the places whose record says the word, or `None` where none does.
pub fn first_among<Entry, W: Word<Entry>>(
    word: &W,
    entries: &[Entry],
    places: &[HashPlace],
) -> Option<usize>
    requires { AreWithin entries.now places.now }
    ensures { IsFirstPlace (λ place. IsListed places.now place × IsSaidAt (W.says word.now) entries.now place) result }
{
    let mut found = None;
    for each in places {
        found = earlier(found, if_said(word, entries, each.place));
    }
    found
}

/// The place, if its record says the word.
fn if_said<Entry, W: Word<Entry>>(word: &W, entries: &[Entry], place: usize) -> Option<usize>
    requires { place < length entries.now }
    ensures { IsFirstPlace (λ other. (other ≡ place) × IsSaidAt (W.says word.now) entries.now other) result }
{
    if word.is_said_by(&entries[place]) {
        return Some(place);
    }
    None
}

/// The lesser of the places that there are.
pub fn earlier(one: Option<usize>, other: Option<usize>) -> Option<usize>
    ensures { IsFirstPlace (λ place. (one ≡ Some place) ⊎ (other ≡ Some place)) result }
{
    let Some(a) = one else {
        return other;
    };
    let Some(b) = other else {
        return one;
    };
    Some(a.min(b))
}
