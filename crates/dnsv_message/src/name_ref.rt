//! Names where they stand in a message.

pub mod by_wire;
pub mod following;
mod text;

ghost use Rattle.std.specs.Prelude.{◌≡◌, ◌↔◌, ◌≤◌, IsTrue, IfOk, IfErr, length, map};
ghost use Rattle.std.specs.Cmp.{on_equiv, partial_equiv_from_equiv};
ghost use Rattle.dnsv_names.specs.Name.{SameName, same_name, IsName, IsAtOrBelow, wire};
ghost use Rattle.dnsv_names.specs.Order.{canonical_cmp};
ghost use Rattle.dnsv_names.specs.Order.ByWire.{search_cmp};
ghost use Rattle.dnsv_names.specs.Order.ByWireLaws.{same_name_equiv};
ghost use Rattle.dnsv_names.specs.Tree.Keys.{is_at_or_below};
ghost use Rattle.dnsv_message.specs.NameAt.{NameFrom, NameFaultFrom};

use crate::errors::NameFault;
use crate::name_at::{name_at, name_end};
use crate::name_ref::following::{
    behind_pointers, label_count, label_start, labels_of, wire_order,
};
use dnsv_names::{Name, lower_order};
use std::cmp::Ordering;
use std::marker::Model;

/// A domain name where it stands in a message, whose octets it borrows: its labels are found through its
/// pointers each time (RFC 1035 4.1.4). It takes no memory.
#[derive(Debug, Drop)]
pub struct NameRef<'b> {
    octets: &'b [u8],
    /// The place behind the pointers that the name begins with, so that names which point to one place are
    /// read from there.
    place: usize,
    /// How many octets the wire form has.
    size: u8,
}

impl<'b> Model for NameRef<'b> {
    ghost use Rattle.std.specs.Prelude.{◌≡◌, length};
    ghost use Rattle.dnsv_names.specs.Name.{Labels, wire};

    ghost Value = { Labels };

    ghost use Rattle.dnsv_message.specs.Following.{labels_at, StandsAt};

    ghost view = { λ name. labels_at name.octets.now name.place };

    ghost invariant = { λ name. StandsAt name.octets.now name.place
        × (name.size ≡ length (wire (labels_at name.octets.now name.place))) };
}

/// Reads the name at a place, and says at which place what follows it stands.
///
/// A name costs at most 127 labels and 32 pointers, however long the message is.
pub fn name_ref_at<'b>(octets: &'b [u8], place: usize) -> Result<(NameRef<'b>, usize), NameFault>
    ensures found { IfOk result (λ found. NameFrom octets.now place found.0 found.1) }
    ensures within { IfOk result (λ found. found.1 ≤ length octets.now) }
    ensures fault { IfErr result (NameFaultFrom octets.now place) }
{
    let (size, end) = name_end(octets, place)?;
    let name = NameRef {
        octets,
        place: behind_pointers(octets, place),
        size,
    };
    Ok((name, end))
}

impl<'b> NameRef<'b> {
    /// The name, in the wire form that it keeps.
    pub fn of(name: &'b Name) -> NameRef<'b>
        ensures { result ≡ name.now }
    {
        let octets = name.wire();
        NameRef {
            octets,
            place: 0,
            size: octets.len() as u8,
        }
    }

    /// The name again, which stands where it stood.
    pub fn copied(&self) -> NameRef<'b>
        ensures { result ≡ self.now }
    {
        NameRef {
            octets: self.octets,
            place: self.place,
            size: self.size,
        }
    }

    /// How many labels the name has, the root not counted.
    pub fn labels(&self) -> usize
        ensures count { result ≡ length self.now }
        ensures at_most_127 { result ≤ 127 }
    {
        label_count(self.octets, self.place)
    }

    /// How many octets its wire form has.
    pub fn wire_length(&self) -> usize
        ensures count { result ≡ length (wire self.now) }
        ensures at_most_255 { result ≤ 255 }
    {
        self.size as usize
    }

    /// The name as a value of its own.
    pub fn to_name(&self) -> Name
        ensures { result ≡ self.now }
    {
        let (name, _) = name_at(self.octets, self.place).unwrap();
        name
    }

    /// Whether the name is `above` or stands below it: the labels of `above` end those of the name,
    /// without regard to case.
    pub fn is_at_or_below(&self, above: &NameRef<'_>) -> bool
        ensures at_or_below { IsTrue result ↔ IsAtOrBelow self.now above.now }
        ensures test { result ≡ is_at_or_below self.now above.now }
    {
        let count = self.labels();
        let kept = above.labels();
        if kept > count {
            return false;
        }
        let place = label_start(self.octets, self.place, count - kept);
        wire_order(self.octets, place, above.octets, above.place).is_eq()
    }

    /// Compares two names in canonical order (RFC 4034 6.1): labels from the rightmost on, each as unsigned
    /// octets with A to Z in lower case.
    pub fn canonical_cmp(&self, other: &NameRef<'_>) -> Ordering
        ensures { result ≡ canonical_cmp self.now other.now }
    {
        let own = labels_of(self.octets, self.place);
        let others = labels_of(other.octets, other.place);
        order_from_the_right(own.as_slice(), others.as_slice())
    }

    /// Compares two names in an order that costs less than the canonical one: by the length of the wire form,
    /// and then by its octets in lower case. Two are equal where the names are.
    pub fn search_cmp(&self, other: &NameRef<'_>) -> Ordering
        ensures { result ≡ search_cmp self.now other.now }
    {
        if self.size != other.size {
            return self.size.cmp(&other.size);
        }
        wire_order(self.octets, self.place, other.octets, other.place)
    }
}

/// Names are equal where they differ in the case of ASCII letters alone (RFC 4343).
impl PartialEq for NameRef<'_> {
    ghost eq = { same_name };

    ghost laws = { partial_equiv_from_equiv same_name_equiv };

    fn eq(&self, other: &Self) -> bool
        ensures value { result ≡ same_name self.now other.now }
        ensures same { IsTrue result ↔ SameName self.now other.now }
    {
        self.search_cmp(other).is_eq()
    }
}

impl Eq for NameRef<'_> {
    ghost laws = { same_name_equiv };
}

/// The order of labels from the rightmost on.
fn order_from_the_right(a: &[&[u8]], b: &[&[u8]]) -> Ordering
    ensures { result ≡ canonical_cmp (map (λ label. label.now) a.now) (map (λ label. label.now) b.now) }
{
    for passed in 0..a.len().min(b.len()) {
        let order = lower_order(a[a.len() - 1 - passed], b[b.len() - 1 - passed]);
        if order != Ordering::Equal {
            return order;
        }
    }
    a.len().cmp(&b.len())
}
