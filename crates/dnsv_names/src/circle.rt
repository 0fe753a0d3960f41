//! Circles of values: a chain's owners in their order, the last of which the first follows.
ghost use Rattle.std.specs.Prelude.{◌≡◌, ◌≢◌, ◌↔◌, List, IsTrue};
ghost use Rattle.dnsv_names.specs.Name.{Labels, IsAtOrBelow};
ghost use Rattle.dnsv_names.specs.Order.{canonical_cmp};
ghost use Rattle.dnsv_names.specs.Circle.{Gap, is_in_gap, IsMember, IsSuccessor};

use crate::hash20::Hash20;
use crate::name::Name;
use std::cmp::Ordering;

/// What stands in a circle by its total order: the owners of NSEC records by canonical order (RFC 4034 4.1.1), and
/// hashes as unsigned octets (RFC 5155 3.1.7). The laws of the order are those of `Ord`.
pub trait Circle: Ord {}

impl Circle for Name {}

impl Circle for Hash20 {}

/// Whether `x` lies in the gap of `owner` and `next`: between them; where `next` comes first, since `owner` is the
/// last of its circle, behind `owner` or before `next`; where the two are equal, since `owner` is alone, anywhere
/// but at it.
pub fn covers<T: Circle>(owner: &T, next: &T, x: &T) -> bool
    ensures gap { IsTrue result ↔ Gap T.cmp owner.now next.now x.now }
    ensures test { result ≡ is_in_gap T.cmp owner.now next.now x.now }
{
    match owner.cmp(next) {
        Ordering::Less => owner < x && x < next,
        Ordering::Greater => owner < x || x < next,
        Ordering::Equal => owner != x,
    }
}

/// A law of circles: each value has a successor in a circle that has a member. Between it and its successor no member
/// lies.
pub fn each_value_has_a_successor<T: Circle>()
    ensures { (members : List T) (some owner : T) → IsMember T.cmp members some
        → (next : T) × IsSuccessor T.cmp members owner next }
{}

/// A law of circles: a value has one successor.
pub fn a_value_has_one_successor<T: Circle>()
    ensures { (members : List T) (owner next other : T) → IsSuccessor T.cmp members owner next
        → IsSuccessor T.cmp members owner other → T.cmp next other ≡ Ordering.Equal }
{}

/// A law of circles: what equals no member lies in the gap of one of them, whichever successor that one is given.
pub fn all_else_lies_in_a_gap<T: Circle>()
    ensures { (members : List T) (some x : T) → IsMember T.cmp members some → ¬ IsMember T.cmp members x
        → (owner : T) × IsMember T.cmp members owner
        × ((next : T) → IsSuccessor T.cmp members owner next → Gap T.cmp owner next x) }
{}

/// A law of circles: what equals no member lies in the gap of no two of them.
pub fn all_else_lies_in_one_gap<T: Circle>()
    ensures { (members : List T) (x owner next other after : T) → ¬ IsMember T.cmp members x
        → IsMember T.cmp members owner → IsSuccessor T.cmp members owner next → Gap T.cmp owner next x
        → IsMember T.cmp members other → IsSuccessor T.cmp members other after → Gap T.cmp other after x
        → T.cmp owner other ≡ Ordering.Equal }
{}

/// A law of circles: where a member comes behind a value of a gap, the gap's next comes behind the value too, and not
/// behind that member.
pub fn the_next_is_behind<T: Circle>()
    ensures { (members : List T) (owner next x member : T) → IsSuccessor T.cmp members owner next
        → IsMember T.cmp members member → Gap T.cmp owner next x → T.cmp x member ≡ Ordering.Less
        → (T.cmp x next ≡ Ordering.Less) × ¬ (T.cmp member next ≡ Ordering.Less) }
{}

/// A law of circles: where a value lies in a gap and a member comes before it, the gap's owner is that member or comes
/// behind it, and before the value.
pub fn the_owner_is_before<T: Circle>()
    ensures { (members : List T) (owner next x member : T) → IsSuccessor T.cmp members owner next
        → IsMember T.cmp members member → Gap T.cmp owner next x → T.cmp member x ≡ Ordering.Less
        → (T.cmp owner x ≡ Ordering.Less) × ¬ (T.cmp owner member ≡ Ordering.Less) }
{}

/// A law of circles of names: where a name lies in a gap and a member is at or below it, the gap's next is at or below
/// it. So the record that covers an empty non-terminal shows that it is one.
pub fn the_next_is_below_what_has_a_member_below()
    ensures { (members : List Labels) (owner next name member : Labels)
        → IsSuccessor canonical_cmp members owner next → IsMember canonical_cmp members member
        → Gap canonical_cmp owner next name → IsAtOrBelow member name → IsAtOrBelow next name }
{}

/// A law of circles of names: where a name lies in a gap and a member is at or above it, the gap's owner is at or below
/// that member. So the owner before a name that is below a delegation is the delegation, if no member is below that.
pub fn the_owner_is_below_each_member_above()
    ensures { (members : List Labels) (owner next name member : Labels)
        → IsSuccessor canonical_cmp members owner next → IsMember canonical_cmp members member
        → Gap canonical_cmp owner next name → IsAtOrBelow name member → IsAtOrBelow owner member }
{}
