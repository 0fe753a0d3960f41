//! Walks along the labels of a name where it stands, through its pointers (RFC 1035 4.1.4).
ghost use Rattle.std.specs.Prelude.{◌≡◌, ◌∷◌, ◌<◌, ◌≤◌, get_or, length, drop, map};
ghost use Rattle.dnsv_names.specs.Name.{wire, lower_case};
ghost use Rattle.dnsv_names.specs.Octets.{octets_cmp};
ghost use Rattle.dnsv_message.specs.Following.{IsNamed, StandsAt, labels_at, label_at};

use crate::name_at::POINTER_BITS;
use arrayvec::ArrayVec;
use dnsv_names::{LABEL_LIMIT, lower_order, u16_at};
use std::cmp::Ordering;

/// How many labels a name has at most, since each takes two octets of its 255 or more.
pub const LABEL_COUNT_LIMIT: usize = 127;

/// The place behind the pointers that stand at a name's place.
pub fn behind_pointers(octets: &[u8], place: usize) -> usize
    requires { IsNamed octets.now place }
    ensures stands { StandsAt octets.now result }
    ensures same { labels_at octets.now result ≡ labels_at octets.now place }
{
    let mut next = place;
    while octets[next] as usize > LABEL_LIMIT {
        next = u16_at(octets, next) as usize - POINTER_BITS;
    }
    next
}

/// The octets of the label at the place, which are none at the root.
pub fn label(octets: &[u8], place: usize) -> &[u8]
    requires { StandsAt octets.now place }
    ensures { result.now ≡ label_at octets.now place }
{
    &octets[place + 1..place + 1 + octets[place] as usize]
}

/// The place of what follows the label at the place.
pub fn next_label(octets: &[u8], place: usize) -> usize
    requires stands { StandsAt octets.now place }
    requires not_root { 0 < get_or octets.now place 0 }
    ensures stands { StandsAt octets.now result }
    ensures labels { labels_at octets.now place ≡ label_at octets.now place ∷ labels_at octets.now result }
{
    behind_pointers(octets, place + (1 + octets[place] as usize))
}

/// How many labels stand from the place on.
pub fn label_count(octets: &[u8], place: usize) -> usize
    requires { StandsAt octets.now place }
    ensures { result ≡ length (labels_at octets.now place) }
{
    let mut next = place;
    let mut count = 0;
    while octets[next] != 0 {
        next = next_label(octets, next);
        count += 1;
    }
    count
}

/// The place of the label that has `n` others to its left, or of the root.
pub fn label_start(octets: &[u8], place: usize, n: usize) -> usize
    requires stands { StandsAt octets.now place }
    requires within { n ≤ length (labels_at octets.now place) }
    ensures stands { StandsAt octets.now result }
    ensures labels { labels_at octets.now result ≡ drop n (labels_at octets.now place) }
{
    let mut next = place;
    for passed in 0..n {
        next = next_label(octets, next);
    }
    next
}

/// The labels from the place on.
pub fn labels_of(octets: &[u8], place: usize) -> ArrayVec<&[u8], LABEL_COUNT_LIMIT>
    requires { StandsAt octets.now place }
    ensures { map (λ label. label.now) result.items ≡ labels_at octets.now place }
{
    let mut labels = ArrayVec::new();
    let mut next = place;
    while octets[next] != 0 {
        labels.push(label(octets, next));
        next = next_label(octets, next);
    }
    labels
}

/// The order of the wire forms of two names in lower case, which ends at the first octet that differs.
pub fn wire_order(a: &[u8], a_start: usize, b: &[u8], b_start: usize) -> Ordering
    requires first { StandsAt a.now a_start }
    requires second { StandsAt b.now b_start }
    ensures { result ≡ octets_cmp (wire (lower_case (labels_at a.now a_start))) (wire (lower_case (labels_at b.now b_start))) }
{
    let mut a_place = a_start;
    let mut b_place = b_start;
    while a[a_place] != 0 && a[a_place] == b[b_place] {
        let order = lower_order(label(a, a_place), label(b, b_place));
        if order != Ordering::Equal {
            return order;
        }
        a_place = next_label(a, a_place);
        b_place = next_label(b, b_place);
    }
    a[a_place].cmp(&b[b_place])
}
