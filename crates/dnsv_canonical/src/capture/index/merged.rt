//! An index that is made from another and from more RRsets.
ghost use Rattle.std.specs.Prelude.{◌≡◌, ◌≢◌, ◌⊎◌, ◌↔◌, ◌++◌, ◌∷◌, [], ◌≤◌, ◌-◌, ◌+◌, ◌<◌, ◌^◌, List, IfOk, IsTrue, OnOk, drop, length, map, take, max, vec_capacity};
ghost use Rattle.std.specs.List.{All, AllByRecursion, enumerate_from};
ghost use Rattle.std.specs.declared.cmp.Ordering.TheVariants.{Greater};
ghost use Rattle.dnsv_canonical.specs.Index.Grouping.{AreFirsts, IsIndexOf, Numbered, key_of, stands};
ghost use Rattle.dnsv_canonical.specs.Index.Merging.{EndsWith, IsMerged};

use crate::capture::index::numbered::NumberedRrset;
use crate::capture::index::{Index, between};
use crate::rrset::Rrset;
use std::alloc::{AllocError, Global};

/// An index in the making, from its first group on.
#[derive(Drop)]
pub struct Merged<'a> {
    pub index: Index,
    /// So many groups of the index that it is made from stand in it.
    pub copied: usize,
    /// The first RRset of its last group.
    last: Option<&'a Rrset<'a>>,
}

impl<'a> Merged<'a> {
    /// Nothing so far, with room for so many RRsets.
    pub fn with_room(alloc: Global, rrsets: usize) -> Result<Merged<'a>, AllocError>
        ensures nothing { IfOk result (λ merged. (held kept : List Numbered) → AreFirsts held kept
            → IsMerged held kept held [] merged) }
        ensures room { IfOk result (λ merged. (rrsets ≤ vec_capacity merged.index.numbers)
            × (rrsets ≤ vec_capacity merged.index.starts)) }
    {
        Ok(Merged {
            index: Index {
                numbers: Vec::with_capacity(alloc, rrsets)?,
                starts: Vec::with_capacity(alloc, rrsets)?,
            },
            copied: 0,
            last: None,
        })
    }

    /// Copies the groups of the index of the held RRsets up to the place, those that aren't copied yet.
    pub fn copy_to(
        &mut self,
        index: &Index,
        held: &'a [Rrset<'a>],
        place: usize,
    ) -> Result<(), AllocError>
        requires index { IsIndexOf held.now index.now.numbers.items index.now.starts.items }
        requires within { place ≤ length index.now.starts.items }
        ensures merged { OnOk result ((of : IsIndexOf held.now index.now.numbers.items index.now.starts.items)
            (all firsts : List Numbered) → IsMerged (enumerate_from 1 held.now) of.firsts all firsts self.old
            → IsMerged (enumerate_from 1 held.now) of.firsts all (firsts ++ take (place - self.old.copied) (drop self.old.copied of.firsts))
            self.new) }
        ensures copied { OnOk result (self.new.copied ≡ max self.old.copied place) }
    {
        if place <= self.copied {
            return Ok(());
        }
        let start = index.start(self.copied);
        let end = index.start(place);
        let before = self.index.numbers.len();
        let starts = between(&index.starts, self.copied, place);
        self.index
            .numbers
            .extend_from_slice(between(&index.numbers, start, end))?;
        push_moved(&mut self.index.starts, starts, start, before)?;
        self.last = Some(index.first(held, place - 1));
        self.copied = place;
        Ok(())
    }

    /// Adds an RRset to the last group, or as one of its own.
    pub fn add(&mut self, added: &NumberedRrset<'a>) -> Result<(), AllocError>
        ensures merged { OnOk result ((held kept all firsts : List Numbered) → IsMerged held kept all firsts self.old
            → AllByRecursion (λ first. stands first (key_of added.now.1) ≢ Greater) firsts
            → AllByRecursion (λ first. stands first (key_of added.now.1) ≡ Greater) (drop self.old.copied kept)
            → IsMerged held kept (all ++ added.now ∷ []) firsts self.new
            ⊎ IsMerged held kept (all ++ added.now ∷ []) (firsts ++ added.now ∷ []) self.new) }
        ensures copied { OnOk result (self.new.copied ≡ self.old.copied) }
    {
        if self.ends_with(added.rrset) {
            self.index.numbers.push(added.number)?;
            return Ok(());
        }
        self.index.starts.push(self.index.numbers.len())?;
        self.index.numbers.push(added.number)?;
        self.last = Some(added.rrset);
        Ok(())
    }

    /// Whether the last group is of the RRset's owner and type.
    fn ends_with(&self, rrset: &Rrset<'_>) -> bool
        ensures { IsTrue result ↔ EndsWith self.now.last (key_of rrset.now) }
    {
        let Some(last) = self.last else {
            return false;
        };
        last.rtype() == rrset.rtype() && *last.owner() == *rrset.owner()
    }
}

/// Adds places, all of them moved alike: `from` to `to`.
fn push_moved(
    starts: &mut Vec<usize>,
    places: &[usize],
    from: usize,
    to: usize,
) -> Result<(), AllocError>
    requires behind { All (λ place. from ≤ place) places.now }
    requires fits { All (λ place. to + (place - from) < 2 ^ 64) places.now }
    ensures { OnOk result (starts.new.items ≡ starts.old.items ++ map (λ place. to + (place - from)) places.now) }
{
    // So many stand before them as stood there: nothing was added in between.
    if from == to {
        starts.extend_from_slice(places)?;
        return Ok(());
    }
    for place in places {
        starts.push(to + (*place - from))?;
    }
    Ok(())
}
