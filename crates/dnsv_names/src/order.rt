//! The canonical order of names (RFC 4034 6.1), and their hash.

pub mod by_wire;

ghost use Rattle.std.specs.Prelude.{◌≡◌, ◌↔◌, ◌<◌, ◌+◌, ◌++◌, refl, length, take, drop, slice_index};
ghost use Rattle.std.specs.Cmp.{IsTotalOrder, partial_order_from_agreeing_total};
ghost use Rattle.std.specs.Ordering.{as_partial_cmp};
ghost use Rattle.dnsv_names.specs.Name.{Labels, SameName, IsAtOrBelow};
ghost use Rattle.dnsv_names.specs.Order.{from_the_right, canonical_cmp, IsBefore, IsBelow};
ghost use Rattle.dnsv_names.specs.Order.OrderLaws.{canonical_cmp_total, same_name_ties, hash_input_of, hash_respects_eq};
ghost use Rattle.dnsv_names.specs.Order.Ends.{WalkedTo};
ghost use Rattle.dnsv_names.specs.Name.Spelling.{labels_of, SpellsName};

use crate::name::Name;
use crate::wire::lower::{alike_at_end, lower_order};
use std::cmp::Ordering;
use std::hash::{Hash, Hasher};

impl Name {
    /// Compares two names in canonical order: labels from the rightmost on, each as unsigned octets
    /// with A to Z in lower case. A missing octet comes before any octet, and a missing label before
    /// any label.
    pub fn canonical_cmp(&self, other: &Name) -> Ordering
        ensures { result ≡ canonical_cmp self.now other.now }
    {
        compared(self.wire(), other.wire())
    }
}

/// The canonical order.
impl Ord for Name {
    ghost cmp = { canonical_cmp };

    ghost total = { canonical_cmp_total };

    ghost matches_partial_cmp = { λ a b. refl };

    ghost matches_eq = { same_name_ties };

    fn cmp(&self, other: &Name) -> Ordering {
        self.canonical_cmp(other)
    }
}

impl PartialOrd for Name {
    ghost partial_cmp = { as_partial_cmp canonical_cmp };

    ghost laws = { partial_order_from_agreeing_total canonical_cmp canonical_cmp_total (λ a b. refl) same_name_ties };

    fn partial_cmp(&self, other: &Name) -> Option<Ordering> {
        Some(self.cmp(other))
    }
}

/// Names that are equal have one hash, whatever their case.
impl Hash for Name {
    ghost hash_input = { hash_input_of };

    ghost respects_eq = { hash_respects_eq };

    fn hash<H: Hasher>(&self, state: &mut H) {
        self.to_lower().wire().hash(state);
    }
}

/// The canonical order of the names whose wire forms these are.
pub fn compared(a: &[u8], b: &[u8]) -> Ordering
    requires first { SpellsName a.now }
    requires second { SpellsName b.now }
    ensures { result ≡ canonical_cmp (labels_of a.now) (labels_of b.now) }
{
    let alike = alike_at_end(a, b);
    let (mut a_label, mut a_rest) = walked(a, alike);
    let (mut b_label, mut b_rest) = walked(b, alike);
    // The longer rest goes on to its next label, until both are the same labels.
    while a_rest.len() != b_rest.len() {
        if a_rest.len() > b_rest.len() {
            a_label = Some(a_rest);
            a_rest = behind_label(a_rest);
        } else {
            b_label = Some(b_rest);
            b_rest = behind_label(b_rest);
        }
    }
    match (a_label, b_label) {
        (Some(a), Some(b)) => lower_order(first_label(a), first_label(b)),
        (Some(_), None) => Ordering::Greater,
        (None, Some(_)) => Ordering::Less,
        (None, None) => Ordering::Equal,
    }
}

/// The first rest of the wire form, from some label on, that has at most `reach` octets, and the wire form from the
/// label before it on.
fn walked(octets: &[u8], reach: usize) -> (Option<&[u8]>, &[u8])
    requires name { SpellsName octets.now }
    requires root { 0 < reach }
    ensures { WalkedTo octets.now reach result.1.now result.0 }
{
    let mut label = None;
    let mut rest = octets;
    while rest.len() > reach {
        label = Some(rest);
        rest = behind_label(rest);
    }
    (label, rest)
}

/// The octets of the label that stands in front, behind its length.
pub fn first_label(octets: &[u8]) -> &[u8]
    requires { slice_index octets.now 0 < length octets.now }
    ensures { result.now ≡ take (slice_index octets.now 0) (drop 1 octets.now) }
{
    &octets[1..1 + octets[0] as usize]
}

/// What stands behind the label in front.
pub fn behind_label(octets: &[u8]) -> &[u8]
    requires { slice_index octets.now 0 < length octets.now }
    ensures { result.now ≡ drop (1 + slice_index octets.now 0) octets.now }
{
    &octets[1 + octets[0] as usize..]
}

/// A law of the canonical order: it is total, and its equality is that of names.
pub fn canonical_order_is_total()
    ensures total { IsTotalOrder canonical_cmp }
    ensures equality { (a b : Labels) → (canonical_cmp a b ≡ Ordering.Equal) ↔ SameName a b }
{}

/// A law of the tree of names: a name is at or below another where its labels, from the right and in
/// lower case, begin with those of the other.
pub fn names_at_or_below_begin_alike()
    ensures { (name above : Labels) → IsAtOrBelow name above
        ↔ ((rest : Labels) × (from_the_right name ≡ from_the_right above ++ rest)) }
{}

/// A law of the canonical order: a name comes before every name below it.
pub fn names_come_before_those_below()
    ensures { (name above : Labels) → IsBelow name above → IsBefore above name }
{}

/// A law of the canonical order: the names at or below a name follow each other, with no other name
/// between them.
pub fn names_at_or_below_are_an_interval()
    ensures { (above x y z : Labels) → IsAtOrBelow x above → IsAtOrBelow z above
        → IsBefore x y → IsBefore y z → IsAtOrBelow y above }
{}
