//! An index of RRsets by owner and type.

mod merged;
mod numbered;

ghost use Rattle.std.specs.Prelude.{◌≡◌, ◌++◌, ◌<◌, ◌≤◌, ◌-◌, [], IfOk, drop, length, List, map, slice_get, Some, take};
ghost use Rattle.dnsv_canonical.specs.Rrsets.{IsNumbered};
ghost use Rattle.dnsv_canonical.specs.Index.{numbers_at};
ghost use Rattle.dnsv_canonical.specs.Index.Grouping.{AreLaid, AreStarts, IsFirstAt, IsFound, IsIndexOf, IsPlaceBehind, IsPlaceFrom, Numbered, key_of, numbers_of};

use crate::capture::index::merged::Merged;
use crate::capture::index::numbered::{compared, in_order};
use crate::rrset::Rrset;
use dnsv_names::{Name, RecordType};
use std::alloc::{AllocError, Global};
use std::cmp::Ordering;

/// The numbers of RRsets by owner in canonical order, type and number. RRsets of one owner and type are a group.
#[derive(Drop)]
pub struct Index {
    /// The numbers, from 1 on, group by group.
    pub(crate) numbers: Vec<usize>,
    /// Where among the numbers each group begins.
    pub(crate) starts: Vec<usize>,
}

impl Index {
    /// The index of no RRsets. It takes no memory.
    pub fn new(alloc: Global) -> Index
        ensures { IsIndexOf [] result.numbers.items result.starts.items }
    {
        Index {
            numbers: Vec::new(alloc),
            starts: Vec::new(alloc),
        }
    }

    /// The index of these RRsets, of which this is the index, and of more behind them.
    pub fn with<'a>(
        &self,
        alloc: Global,
        held: &'a [Rrset<'a>],
        more: &'a [Rrset<'a>],
    ) -> Result<Index, AllocError>
        requires { IsIndexOf held.now self.now.numbers.items self.now.starts.items }
        ensures { IfOk result (λ index. IsIndexOf (held.now ++ more.now) index.numbers.items index.starts.items) }
    {
        let added = in_order(alloc, held.len(), more)?;
        let mut merged = Merged::with_room(alloc, held.len() + more.len())?;
        for numbered in added.as_slice() {
            let place = self.place_from(held, merged.copied, numbered.rrset);
            merged.copy_to(self, held, place)?;
            merged.add(numbered)?;
        }
        merged.copy_to(self, held, self.starts.len())?;
        Ok(merged.index)
    }

    /// The numbers of the RRsets of the name and type, rising.
    pub fn at(&self, rrsets: &[Rrset<'_>], name: &Name, rtype: RecordType) -> &[usize]
        requires { IsIndexOf rrsets.now self.now.numbers.items self.now.starts.items }
        ensures { result.now ≡ numbers_at rrsets.now name.now rtype.0 }
    {
        match self.find(rrsets, name, rtype) {
            Ok(place) => self.group(place),
            Err(_) => &[],
        }
    }

    /// How many groups don't stand behind the RRset, where those before the place are known not to.
    fn place_from(&self, rrsets: &[Rrset<'_>], from: usize, rrset: &Rrset<'_>) -> usize
        requires { IsIndexOf rrsets.now self.now.numbers.items self.now.starts.items }
        ensures parted { (index : IsIndexOf rrsets.now self.now.numbers.items self.now.starts.items)
            → IsPlaceFrom index.firsts (key_of rrset.now) from result }
        ensures within { result ≤ length self.now.starts.items }
    {
        let groups = self.starts.len();
        if from >= groups {
            return groups;
        }
        // What comes in order mostly belongs right there.
        if compared(self.first(rrsets, from), rrset.owner(), rrset.rtype()).is_gt() {
            return from;
        }
        self.place_behind(rrsets, rrset.owner(), rrset.rtype())
    }

    /// How many groups don't stand behind the name and type.
    fn place_behind(&self, rrsets: &[Rrset<'_>], name: &Name, rtype: RecordType) -> usize
        requires { IsIndexOf rrsets.now self.now.numbers.items self.now.starts.items }
        ensures parted { (index : IsIndexOf rrsets.now self.now.numbers.items self.now.starts.items)
            → IsPlaceBehind index.firsts (name.now, rtype.0) result }
        ensures within { result ≤ length self.now.starts.items }
    {
        match self.find(rrsets, name, rtype) {
            Ok(place) => place + 1,
            Err(place) => place,
        }
    }

    /// The place of the group of the name and type, or that which it would have, by halves.
    fn find(&self, rrsets: &[Rrset<'_>], name: &Name, rtype: RecordType) -> Result<usize, usize>
        requires { IsIndexOf rrsets.now self.now.numbers.items self.now.starts.items }
        ensures found { (index : IsIndexOf rrsets.now self.now.numbers.items self.now.starts.items)
            → IsFound index.firsts (name.now, rtype.0) result }
        ensures within { IfOk result (λ place. place < length self.now.starts.items) }
    {
        let mut low = 0;
        let mut high = self.starts.len();
        while low < high {
            let middle = low + (high - low) / 2;
            match compared(self.first(rrsets, middle), name, rtype) {
                Ordering::Less => low = middle + 1,
                Ordering::Greater => high = middle,
                Ordering::Equal => return Ok(middle),
            }
        }
        Err(low)
    }

    /// The first RRset of the group with the place.
    fn first<'a, 'b>(&self, rrsets: &'a [Rrset<'b>], place: usize) -> &'a Rrset<'b>
        requires index { IsIndexOf rrsets.now self.now.numbers.items self.now.starts.items }
        requires within { place < length self.now.starts.items }
        ensures { (index : IsIndexOf rrsets.now self.now.numbers.items self.now.starts.items)
            → IsFirstAt index.firsts place result.now }
    {
        rrset_at(rrsets, self.numbers[self.starts[place]])
    }

    /// The numbers of the group with the place.
    fn group(&self, place: usize) -> &[usize]
        requires laid { AreStarts self.now.numbers.items self.now.starts.items }
        requires within { place < length self.now.starts.items }
        ensures { (groups : List (List Numbered)) → AreLaid groups self.now.numbers.items self.now.starts.items
            → (group : List Numbered) → slice_get groups place ≡ Some group
            → result.now ≡ map (λ numbered. numbered.0) group }
    {
        between(&self.numbers, self.start(place), self.start(place + 1))
    }

    /// Where the group with the place begins, or where the last ends.
    fn start(&self, place: usize) -> usize
        ensures { (groups : List (List Numbered)) → AreLaid groups self.now.numbers.items self.now.starts.items
            → result ≡ length (numbers_of (take place groups)) }
    {
        if place < self.starts.len() {
            self.starts[place]
        } else {
            self.numbers.len()
        }
    }
}

/// The RRset with the number.
fn rrset_at<'a, 'b>(rrsets: &'a [Rrset<'b>], number: usize) -> &'a Rrset<'b>
    requires some { 0 < number }
    requires within { number ≤ length rrsets.now }
    ensures { IsNumbered rrsets.now number result.now }
{
    &rrsets[number - 1]
}

/// The places from the one up to the other.
fn between(places: &[usize], start: usize, end: usize) -> &[usize]
    requires order { start ≤ end }
    requires within { end ≤ length places.now }
    ensures { result.now ≡ take (end - start) (drop start places.now) }
{
    &places[start..end]
}
