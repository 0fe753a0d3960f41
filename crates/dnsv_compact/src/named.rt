//! Which signatures places name.
ghost use Rattle.std.specs.Prelude.{◌≡◌, IfOk, List, map};
ghost use Rattle.dnsv_compact.specs.CompactList.{names_rrset, names_signature};
ghost use Rattle.dnsv_compact.specs.Named.{AreNamedBy, AreRrsetsOf, named_at};
ghost use Rattle.dnsv_compact.specs.declared.place.Place.{Place};

use crate::place::Place;
use std::alloc::{AllocError, Global};

/// A signature by the numbers of its RRset and its own.
#[derive(Clone, Copy, Debug, PartialEq, Eq, PartialOrd, Ord)]
pub(crate) struct Named {
    pub(crate) rrset: usize,
    pub(crate) signature: usize,
}

/// The signatures that the places name, each once, rising.
pub(crate) fn named_by(alloc: Global, places: &[Place]) -> Result<Vec<Named>, AllocError>
    ensures { IfOk result (λ named. AreNamedBy places.now named.items) }
{
    let mut named = all_named(alloc, places)?;
    named.sort_unstable();
    named.dedup();
    Ok(named)
}

/// What each place names.
fn all_named(alloc: Global, places: &[Place]) -> Result<Vec<Named>, AllocError>
    ensures { IfOk result (λ named. named.items ≡ map named_at places.now) }
{
    let mut named = Vec::with_capacity(alloc, places.len())?;
    for place in places {
        named.push(Named {
            rrset: place.rrset,
            signature: place.signature,
        })?;
    }
    Ok(named)
}

/// The RRsets that the places are in, each once, rising.
pub(crate) fn rrsets_of(alloc: Global, places: &[Place]) -> Result<Vec<usize>, AllocError>
    ensures { IfOk result (λ rrsets. AreRrsetsOf places.now rrsets.items) }
{
    let mut rrsets = all_rrsets(alloc, places)?;
    rrsets.sort_unstable();
    rrsets.dedup();
    Ok(rrsets)
}

/// The RRset of each place.
fn all_rrsets(alloc: Global, places: &[Place]) -> Result<Vec<usize>, AllocError>
    ensures { IfOk result (λ rrsets. rrsets.items ≡ map (λ place. place.rrset) places.now) }
{
    let mut rrsets = Vec::with_capacity(alloc, places.len())?;
    for place in places {
        rrsets.push(place.rrset)?;
    }
    Ok(rrsets)
}

/// Whether the signature is one of them.
pub(crate) fn has_signature(named: &[Named], rrset: usize, signature: usize) -> bool
    ensures { (places : List Place) → AreNamedBy places named.now → result ≡ names_signature places rrset signature }
{
    match named.binary_search(&Named { rrset, signature }) {
        Ok(_place) => true,
        Err(_place) => false,
    }
}

/// Whether the RRset is one of them.
pub(crate) fn has_rrset(rrsets: &[usize], rrset: usize) -> bool
    ensures { (places : List Place) → AreRrsetsOf places rrsets.now → result ≡ names_rrset places rrset }
{
    match rrsets.binary_search(&rrset) {
        Ok(_place) => true,
        Err(_place) => false,
    }
}
