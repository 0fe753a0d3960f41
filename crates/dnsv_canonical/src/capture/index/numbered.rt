//! RRsets behind their numbers, in order.
ghost use Rattle.std.specs.Prelude.{◌≡◌, ◌+◌, ◌<◌, IfOk, length};
ghost use Rattle.std.specs.List.{enumerate_from};
ghost use Rattle.dnsv_canonical.specs.Index.Grouping.{AreInOrder, key_cmp, key_of, stands};

use crate::rrset::Rrset;
use dnsv_names::{Name, RecordType};
use std::alloc::{AllocError, Global};
use std::cmp::Ordering;
use std::marker::Model;

/// An RRset with its number.
#[derive(Drop)]
pub struct NumberedRrset<'a> {
    pub number: usize,
    pub rrset: &'a Rrset<'a>,
}

impl<'a> Model for NumberedRrset<'a> {
    ghost use Rattle.std.specs.Prelude.{ℕ};
    ghost use Rattle.dnsv_canonical.specs.Rrsets.{ReceivedRrset};

    ghost Value = { ℕ × ReceivedRrset };

    ghost view = { λ numbered. (numbered.number, numbered.rrset.now) };
}

impl<'a> NumberedRrset<'a> {
    /// How the RRset stands to the other by owner and type.
    fn stands_to(&self, other: &NumberedRrset<'_>) -> Ordering
        ensures { result ≡ stands self.now (key_of other.now.1) }
    {
        compared(self.rrset, other.rrset.owner(), other.rrset.rtype())
    }
}

/// How the RRset stands to the name and type: by its owner in canonical order, and then by its type.
pub fn compared(rrset: &Rrset<'_>, name: &Name, rtype: RecordType) -> Ordering
    ensures { result ≡ key_cmp (key_of rrset.now) (name.now, rtype.0) }
{
    rrset
        .owner()
        .canonical_cmp(name)
        .then(rrset.rtype().0.cmp(&rtype.0))
}

/// The RRsets, which stand behind so many others, by owner, type and number.
pub fn in_order<'a>(
    alloc: Global,
    others: usize,
    rrsets: &'a [Rrset<'a>],
) -> Result<Vec<NumberedRrset<'a>>, AllocError>
    requires { others + length rrsets.now < u64.MAX }
    ensures { IfOk result (λ sorted. AreInOrder (enumerate_from (others + 1) rrsets.now) sorted.items) }
{
    let mut numbered = numbered(alloc, others, rrsets)?;
    // Those of one owner and type keep their order, which is that of their numbers.
    numbered.sort_by(|a, b| a.stands_to(b))?;
    Ok(numbered)
}

/// The RRsets, which stand behind so many others, with their numbers.
fn numbered<'a>(
    alloc: Global,
    others: usize,
    rrsets: &'a [Rrset<'a>],
) -> Result<Vec<NumberedRrset<'a>>, AllocError>
    requires { others + length rrsets.now < u64.MAX }
    ensures { IfOk result (λ numbered. numbered.items ≡ enumerate_from (others + 1) rrsets.now) }
{
    let mut numbered = Vec::with_capacity(alloc, rrsets.len())?;
    for (place, rrset) in rrsets.iter().enumerate() {
        numbered.push(NumberedRrset {
            number: others + 1 + place,
            rrset,
        })?;
    }
    Ok(numbered)
}
