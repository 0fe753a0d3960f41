//! The RDATA of a record where it stands in a message.

mod pieces;

ghost use Rattle.std.specs.Prelude.{◌≡◌, ◌↔◌, ◌≤◌, ◌+◌, ◌++◌, [], ℕ, List, length, nat_eq, IsFalse, IsTrue, IfOk, IfSome, MatchOption};
ghost use Rattle.std.specs.Cmp.{partial_equiv_from_equiv};
ghost use Rattle.std.specs.Cmp.Lexicographic.{lists_equiv, pointwise};
ghost use Rattle.std.proofs.lemmas.Cmp.{nat_eq_equiv};
ghost use Rattle.dnsv_names.specs.Name.{Labels};
ghost use Rattle.dnsv_message.specs.Layout.{layout_of};
ghost use Rattle.dnsv_message.specs.Grammar.{RdataNameAt, RdataAt};

use crate::name_at::name_end;
use crate::number::Class;
use crate::rdata::{Layout, rdata_at};
use crate::rdata_ref::pieces::Pieces;
use bumpalo::Bump;
use dnsv_names::{Name, RecordType};
use std::alloc::{AllocError, Global};
use std::marker::Model;

/// The RDATA of a record where it stands in a message, whose octets it borrows. It is seen as its octets with
/// every name written out uncompressed as it is spelled. It takes no memory.
#[derive(Debug, Drop)]
pub struct RdataRef<'b> {
    octets: &'b [u8],
    start: usize,
    size: u16,
    rtype: RecordType,
    class: Class,
}

impl<'b> Model for RdataRef<'b> {
    ghost use Rattle.std.specs.Prelude.{ℕ, List};

    ghost Value = { List ℕ };

    ghost use Rattle.dnsv_message.specs.Layout.{layout_of};
    ghost use Rattle.dnsv_message.specs.Following.Rdata.{rdata_from, RdataStandsAt};

    ghost view = { λ rdata. rdata_from rdata.octets.now (layout_of rdata.rtype.0 rdata.class.0) rdata.start rdata.size };

    ghost invariant = { λ rdata. RdataStandsAt rdata.octets.now (layout_of rdata.rtype.0 rdata.class.0) rdata.start rdata.size };
}

/// Reads the RDATA of the type and class that takes the `size` octets from `start` on. `None` where it is not
/// laid out as they ask.
pub fn rdata_ref_at<'b>(
    octets: &'b [u8],
    start: usize,
    size: u16,
    rtype: RecordType,
    class: Class,
) -> Option<RdataRef<'b>>
    requires { start + size ≤ length octets.now }
    ensures { MatchOption result
        ((rdata : List ℕ) → RdataAt octets.now (layout_of rtype.0 class.0) start size rdata → ⊥)
        (RdataAt octets.now (layout_of rtype.0 class.0) start size) }
{
    if is_laid_out(octets, start, size as usize, Layout::of(rtype, class)) {
        Some(RdataRef {
            octets,
            start,
            size,
            rtype,
            class,
        })
    } else {
        None
    }
}

/// Whether the `size` octets from `start` on are RDATA of the layout.
fn is_laid_out(octets: &[u8], start: usize, size: usize, layout: Layout) -> bool
    requires { start + size ≤ length octets.now }
    ensures stands { IsTrue result → (rdata : List ℕ) × RdataAt octets.now layout start size rdata }
    ensures none { IsFalse result → (rdata : List ℕ) → RdataAt octets.now layout start size rdata → ⊥ }
{
    if size < layout.head {
        return false;
    }
    let limit = start + size;
    let mut place = start + layout.head;
    for read in 0..layout.names {
        let Some(end) = end_within(octets, place, limit, layout.pointers) else {
            return false;
        };
        place = end;
    }
    let rest = limit - place;
    layout.tail.unwrap_or(rest) == rest
}

/// Where what follows a name stands, within an RDATA that ends at `limit`.
fn end_within(octets: &[u8], place: usize, limit: usize, pointers: bool) -> Option<usize>
    requires place { place ≤ limit }
    requires limit { limit ≤ length octets.now }
    ensures { MatchOption result
        ((name : Labels) (end : ℕ) → RdataNameAt octets.now limit pointers place name end → ⊥)
        (λ end. (name : Labels) × RdataNameAt octets.now limit pointers place name end) }
{
    if pointers {
        let Ok((_, end)) = name_end(octets, place) else {
            return None;
        };
        if limit < end { None } else { Some(end) }
    } else {
        let (_, length) = Name::read(&octets[place..limit])?;
        Some(place + length)
    }
}

impl<'b> RdataRef<'b> {
    /// The octets in a vector of their own.
    pub fn to_vec(&self, alloc: Global) -> Result<Vec<u8>, AllocError>
        ensures { IfOk result (λ octets. octets.items ≡ self.now) }
    {
        let layout = Layout::of(self.rtype, self.class);
        let rdata = rdata_at(alloc, self.octets, self.start, self.size as usize, layout)?;
        Ok(rdata.unwrap())
    }

    /// The octets where they stand in the message, if no name in them may be compressed.
    fn as_they_stand(&self) -> Option<&'b [u8]>
        ensures { IfSome result (λ slice. slice.now ≡ self.now) }
    {
        if Layout::of(self.rtype, self.class).pointers {
            return None;
        }
        Some(&self.octets[self.start..self.start + self.size as usize])
    }

    /// The octets: those of the message where no name in them may be compressed, and a vector otherwise.
    pub fn octets(&self, alloc: Global) -> Result<RdataOctets<'b>, AllocError>
        ensures { IfOk result (λ octets. octets ≡ self.now) }
    {
        if let Some(slice) = self.as_they_stand() {
            return Ok(RdataOctets {
                kept: Kept::Stands(slice),
            });
        }
        let octets = self.to_vec(alloc)?;
        Ok(RdataOctets {
            kept: Kept::Written(octets),
        })
    }

    /// The octets as one slice: those of the message where no name in them may be compressed, and otherwise written
    /// out in the arena.
    pub fn placed(&self, alloc: Global, bump: &'b Bump) -> Result<&'b [u8], AllocError>
        ensures { IfOk result (λ slice. slice.now ≡ self.now) }
    {
        if let Some(slice) = self.as_they_stand() {
            return Ok(slice);
        }
        let octets = self.to_vec(alloc)?;
        Ok(bump.try_alloc_slice_copy(&octets)?)
    }
}

impl<'b> RdataRef<'b> {
    /// The octets before the names, and the pieces behind them.
    fn pieces(&self) -> (&'b [u8], Pieces<'b>)
        ensures { result.0.now ++ result.1 ≡ self.now }
    {
        let layout = Layout::of(self.rtype, self.class);
        let names = self.start + layout.head;
        let limit = self.start + self.size as usize;
        let head = &self.octets[self.start..names];
        (head, Pieces::new(self.octets, names, layout.names, limit))
    }
}

/// RDATA is equal where its octets are, with every name written out uncompressed as it is spelled. Names that
/// differ in case are other octets.
impl PartialEq for RdataRef<'_> {
    ghost eq = { pointwise nat_eq };

    ghost laws = { partial_equiv_from_equiv (lists_equiv nat_eq_equiv) };

    fn eq(&self, other: &Self) -> bool
        ensures value { result ≡ pointwise nat_eq self.now other.now }
        ensures same { IsTrue result ↔ (self.now ≡ other.now) }
    {
        let (mut own, mut own_rest) = self.pieces();
        let (mut others, mut others_rest) = other.pieces();
        'pieces: loop {
            own = own_rest.filled(own);
            others = others_rest.filled(others);
            let both = own.len().min(others.len());
            if both == 0 {
                return own.len() == others.len();
            }
            if own[..both] != others[..both] {
                return false;
            }
            own = &own[both..];
            others = &others[both..];
        }
    }
}

impl Eq for RdataRef<'_> {
    ghost laws = { lists_equiv nat_eq_equiv };
}

/// Where the octets of an RDATA are kept.
#[derive(Debug, Drop)]
enum Kept<'b> {
    /// In the message.
    Stands(&'b [u8]),
    /// In a vector of their own.
    Written(Vec<u8>),
}

/// The octets of an RDATA, one after another, with every name written out uncompressed as it is spelled.
#[derive(Debug, Drop)]
pub struct RdataOctets<'b> {
    kept: Kept<'b>,
}

impl<'b> Model for RdataOctets<'b> {
    ghost use Rattle.std.specs.Prelude.{ℕ, List};
    ghost use Rattle.dnsv_message.specs.Following.Kept.{octets_kept};

    ghost Value = { List ℕ };

    ghost view = { λ octets. octets_kept octets.kept };
}

impl<'b> RdataOctets<'b> {
    /// No octets.
    pub fn none() -> RdataOctets<'b>
        ensures { result ≡ [] }
    {
        RdataOctets {
            kept: Kept::Stands(&[]),
        }
    }

    /// The octets.
    pub fn as_slice(&self) -> &[u8]
        ensures { result.now ≡ self.now }
    {
        match &self.kept {
            Kept::Stands(slice) => slice,
            Kept::Written(octets) => octets,
        }
    }
}
