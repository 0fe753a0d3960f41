//! What a verifier would have to know.
ghost use Rattle.std.specs.Prelude.{◌≡◌, ◌<◌, length, map, slice_index_or};
ghost use Rattle.dnsv_verifier.specs.Numbers.{entry_of};
ghost use Rattle.dnsv_verifier.specs.declared.entry.Entry.{Entry};

use crate::entry::Entry;
use crate::entry::parts::{EntryNumbers, Parts};
use std::marker::Model;

/// What is asked of a verifier, one after another. The octets are those of the table that the entries come from, and
/// are kept once however many entries have them.
#[derive(Debug, Drop)]
pub struct Entries<'b> {
    parts: Parts<'b>,
    numbers: Vec<EntryNumbers>,
}

impl<'b> Model for Entries<'b> {
    ghost use Rattle.std.specs.Prelude.{List, map};
    ghost use Rattle.dnsv_verifier.specs.Numbers.{entry_of};
    ghost use Rattle.dnsv_verifier.specs.declared.entry.Entry.{Entry};

    ghost Value = { List Entry };

    ghost view = { λ entries. map (entry_of entries.parts) entries.numbers.items };
}

impl<'b> Entries<'b> {
    /// The entries of these numbers.
    pub(crate) fn new(parts: Parts<'b>, numbers: Vec<EntryNumbers>) -> Entries<'b>
        ensures { result ≡ map (entry_of parts.entry) numbers.items }
    {
        Entries { parts, numbers }
    }

    /// How many there are.
    pub fn len(&self) -> usize
        ensures { result ≡ length self.now }
    {
        self.numbers.len()
    }

    /// The entry at the place, from 0 on.
    pub fn at(&self, place: usize) -> Entry<'_>
        requires { place < length self.now }
        ensures { (other : Entry) → slice_index_or self.now place other ≡ result }
    {
        self.parts.entry(self.numbers[place])
    }
}
