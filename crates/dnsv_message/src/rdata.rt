//! The RDATA of a record where it stands in a message.
ghost use Rattle.std.specs.Prelude.{◌≡◌, ◌≤◌, ◌+◌, ℕ, List, length, MatchOption, IfOk};
ghost use Rattle.dnsv_names.specs.Name.{Labels};
ghost use Rattle.dnsv_message.specs.Layout.{layout_of, octets_alone, compressed_names, plain_name};
ghost use Rattle.dnsv_message.specs.Grammar.{RdataNameAt, RdataAt};

use crate::name_at::name_at;
use crate::number::Class;
use dnsv_names::{Name, RecordType};
use std::alloc::{AllocError, Global};

/// How an RDATA is laid out: some octets, then some names, then some octets more.
#[derive(Clone, Copy)]
pub struct Layout {
    /// How many octets stand before the names.
    pub head: usize,
    /// How many names there are.
    pub names: usize,
    /// Whether the names may be compressed.
    pub pointers: bool,
    /// How many octets stand behind the names, or any number of them.
    pub tail: Option<usize>,
}

impl Layout {
    /// How RDATA of the type and class is laid out. Outside of class IN no layout is asked of it.
    pub fn of(rtype: RecordType, class: Class) -> Layout
        ensures { result ≡ layout_of rtype.0 class.0 }
    {
        if class != Class::IN {
            return Layout::octets(0, None);
        }
        match rtype {
            RecordType::A => Layout::octets(4, Some(0)),
            RecordType::NS | RecordType::CNAME | RecordType::PTR => Layout::compressed(0, 1, 0),
            RecordType::SOA => Layout::compressed(0, 2, 20),
            RecordType::MX => Layout::compressed(2, 1, 0),
            RecordType::AAAA => Layout::octets(16, Some(0)),
            RecordType::SRV => Layout::compressed(6, 1, 0),
            RecordType::DNAME => Layout::plain(0, Some(0)),
            RecordType::RRSIG => Layout::plain(18, None),
            RecordType::NSEC => Layout::plain(0, None),
            _ => Layout::octets(0, None),
        }
    }

    fn octets(head: usize, tail: Option<usize>) -> Layout
        ensures { result ≡ octets_alone head tail }
    {
        Layout {
            head,
            names: 0,
            pointers: false,
            tail,
        }
    }

    fn compressed(head: usize, names: usize, tail: usize) -> Layout
        ensures { result ≡ compressed_names head names tail }
    {
        Layout {
            head,
            names,
            pointers: true,
            tail: Some(tail),
        }
    }

    fn plain(head: usize, tail: Option<usize>) -> Layout
        ensures { result ≡ plain_name head tail }
    {
        Layout {
            head,
            names: 1,
            pointers: false,
            tail,
        }
    }
}

/// Reads the RDATA that takes the `size` octets from `start` on, and writes its names out
/// uncompressed as they are spelled. `None` where it is not laid out so.
pub fn rdata_at(
    alloc: Global,
    octets: &[u8],
    start: usize,
    size: usize,
    layout: Layout,
) -> Result<Option<Vec<u8>>, AllocError>
    requires { start + size ≤ length octets.now }
    ensures { IfOk result (λ found. MatchOption found
        ((rdata : List ℕ) → RdataAt octets.now layout start size rdata → ⊥)
        (λ rdata. RdataAt octets.now layout start size rdata.items)) }
{
    if size < layout.head {
        return Ok(None);
    }
    let limit = start + size;
    let mut place = start + layout.head;
    let mut written = Vec::from_slice(alloc, &octets[start..place])?;
    for read in 0..layout.names {
        let Some((name, end)) = name_within(octets, place, limit, layout.pointers) else {
            return Ok(None);
        };
        written.extend_from_slice(name.wire())?;
        place = end;
    }
    let rest = limit - place;
    if layout.tail.unwrap_or(rest) != rest {
        return Ok(None);
    }
    written.extend_from_slice(&octets[place..limit])?;
    Ok(Some(written))
}

/// Reads a name within an RDATA that ends at `limit`, and says where what follows it stands.
fn name_within(octets: &[u8], place: usize, limit: usize, pointers: bool) -> Option<(Name, usize)>
    requires place { place ≤ limit }
    requires limit { limit ≤ length octets.now }
    ensures { MatchOption result
        ((name : Labels) (end : ℕ) → RdataNameAt octets.now limit pointers place name end → ⊥)
        (λ found. RdataNameAt octets.now limit pointers place found.0 found.1) }
{
    if pointers {
        let (name, end) = name_at(octets, place).ok()?;
        if limit < end { None } else { Some((name, end)) }
    } else {
        let (name, length) = Name::read(&octets[place..limit])?;
        Some((name, place + length))
    }
}
