//! Walks over the octets of a name's wire form.

pub mod lower;

ghost use Rattle.std.specs.Prelude.{◌≡◌, ◌<◌, ◌≤◌, ◌++◌, List, ℕ, Some, length, take, drop, map, IfSome};
ghost use Rattle.std.specs.Char.{to_ascii_lowercase};
ghost use Rattle.dnsv_names.specs.Name.{Labels, IsName, wire};
ghost use Rattle.dnsv_names.specs.Name.Spelling.{labels_of, SpellsName};

use crate::name::{LABEL_LIMIT, WIRE_LIMIT};
use arrayvec::ArrayVec;

/// How many octets the wire form of a name takes at the front of the octets; `None` where none is there.
pub fn wire_length(octets: &[u8]) -> Option<usize>
    ensures found { IfSome result (λ n. SpellsName (take n octets.now)) }
    ensures within { IfSome result (λ n. n ≤ length octets.now) }
    ensures every { (labels : Labels) (rest : List ℕ) → IsName labels → octets.now ≡ wire labels ++ rest
        → result ≡ Some (length (wire labels)) }
{
    let mut place = 0;
    while place < octets.len() {
        let length = octets[place] as usize;
        if length == 0 {
            return Some(place + 1);
        }
        place += 1 + length;
        // The root's octet has to follow within the limit.
        if length > LABEL_LIMIT || place >= WIRE_LIMIT {
            return None;
        }
    }
    None
}

/// How many labels the wire form has.
pub fn label_count(octets: &[u8]) -> usize
    requires { SpellsName octets.now }
    ensures { result ≡ length (labels_of octets.now) }
{
    let mut place = 0;
    let mut count = 0;
    while octets[place] != 0 {
        place += 1 + octets[place] as usize;
        count += 1;
    }
    count
}

/// The place of the length octet of the label that has `i` others to its left, or of the root's.
pub fn label_place(octets: &[u8], i: usize) -> usize
    requires name { SpellsName octets.now }
    requires within { i ≤ length (labels_of octets.now) }
    ensures rest { drop result octets.now ≡ wire (drop i (labels_of octets.now)) }
    ensures within { result < length octets.now }
{
    let mut place = 0;
    for left in 0..i {
        place += 1 + octets[place] as usize;
    }
    place
}

/// The octets with A to Z in lower case.
pub fn lowered(octets: &[u8]) -> ArrayVec<u8, WIRE_LIMIT>
    requires { length octets.now ≤ WIRE_LIMIT }
    ensures { result.items ≡ map to_ascii_lowercase octets.now }
{
    let mut lowered = copied(octets);
    lowered.as_mut_slice().make_ascii_lowercase();
    lowered
}

/// The octets in a vector of their own.
pub fn copied(octets: &[u8]) -> ArrayVec<u8, WIRE_LIMIT>
    requires { length octets.now ≤ WIRE_LIMIT }
    ensures { result.items ≡ octets.now }
{
    let mut copy = ArrayVec::new();
    copy.try_extend_from_slice(octets).unwrap();
    copy
}
