//! Laws of the tree of names, of ancestors and wildcards, and of where a name and those below it stand in
//! canonical order (RFC 1034 3.1, RFC 4592, RFC 4034 6.1). None depends on case.
//!
//! Each is a function that does nothing and ensures the law. A caller learns it by a call; a proof file of
//! any crate cites the lemma of the same subject in `specs/`.
ghost use Rattle.std.specs.Prelude.{◌≡◌, ◌≢◌, ◌↔◌, ◌⊎◌, ◌+◌, ◌<◌, ◌≤◌, List, ℕ, [], ◌∷◌, ◌++◌, length, map, IsTrue};
ghost use Rattle.std.specs.Char.{to_ascii_lowercase};
ghost use Rattle.dnsv_names.specs.Name.{Labels, IsName, IsAtOrBelow, SameName, lower_case, wire, rightmost};
ghost use Rattle.dnsv_names.specs.Order.{IsBefore, IsBelow};
ghost use Rattle.dnsv_names.specs.Tree.{wildcard_of};
ghost use Rattle.dnsv_names.specs.Tree.Keys.{is_at_or_below};

use crate::name::Name;

/// A law of the tree: to be at or below is an order, of which the root is the top. In it names are equal that
/// differ in case alone, and equal names stand in one place.
pub fn names_form_a_tree()
    ensures itself { (name : Labels) → IsAtOrBelow name name }
    ensures through { (x y z : Labels) → IsAtOrBelow x y → IsAtOrBelow y z → IsAtOrBelow x z }
    ensures both_ways { (a b : Labels) → IsAtOrBelow a b → IsAtOrBelow b a → SameName a b }
    ensures root { (name : Labels) → IsAtOrBelow name [] }
    ensures equal { (a b c d : Labels) → SameName a b → SameName c d → IsAtOrBelow a c → IsAtOrBelow b d }
{}

/// A law of the tree: the names above one name stand in one line, by their numbers of labels.
pub fn ancestors_stand_in_one_line()
    ensures { (name a b : Labels) → IsAtOrBelow name a → IsAtOrBelow name b → length a ≤ length b
        → IsAtOrBelow b a }
{}

/// A law of the tree: what a name is at or below are its rightmost labels.
pub fn names_above_are_the_rightmost_labels()
    ensures { (name above : Labels) → IsAtOrBelow name above
        ↔ ((length above ≤ length name) × SameName (rightmost name (length above)) above) }
{}

/// A law of the tree: below is at or below with more labels. Whatever is at or below a name is it or below it,
/// and no name is above one below it.
pub fn names_below_have_more_labels()
    ensures longer { (name above : Labels) → IsBelow name above
        ↔ (IsAtOrBelow name above × (length above < length name)) }
    ensures cases { (name above : Labels) → IsAtOrBelow name above → SameName name above ⊎ IsBelow name above }
    ensures below_what_is_at_or_below { (x y z : Labels) → IsBelow x y → IsAtOrBelow y z → IsBelow x z }
    ensures at_or_below_what_is_below { (x y z : Labels) → IsAtOrBelow x y → IsBelow y z → IsBelow x z }
    ensures one_way { (name above : Labels) → IsBelow name above → ¬ IsAtOrBelow above name }
    ensures equal { (a b c d : Labels) → SameName a b → SameName c d → IsBelow a c → IsBelow b d }
{}

/// A law of names: equal names have as many labels, and wire forms of one length.
pub fn equal_names_have_equal_sizes()
    ensures labels { (a b : Labels) → SameName a b → length a ≡ length b }
    ensures octets { (a b : Labels) → SameName a b → length (wire a) ≡ length (wire b) }
{}

/// A law of names: at most one name's wire form begins octets. In lower case it is the wire form of the name in lower
/// case, which is a name too.
pub fn a_wire_form_is_one_name()
    ensures one { (a b : Labels) (after_a after_b : List ℕ) → IsName a → IsName b
        → wire a ++ after_a ≡ wire b ++ after_b → (a ≡ b) × (after_a ≡ after_b) }
    ensures lower { (name : Labels) → IsName name → map to_ascii_lowercase (wire name) ≡ wire (lower_case name) }
    ensures name { (name : Labels) → IsName name → IsName (lower_case name) }
{}

/// A law of ancestors: the `n` rightmost labels of a name are so many, and a name where it is one. They are above
/// it, those of them are its own, and one label more stands before them.
pub fn rightmost_labels_are_ancestors()
    ensures length { (name : Labels) (n : ℕ) → n ≤ length name → length (rightmost name n) ≡ n }
    ensures part { (name : Labels) (n m : ℕ) → m ≤ n → rightmost (rightmost name n) m ≡ rightmost name m }
    ensures none { (name : Labels) → rightmost name 0 ≡ [] }
    ensures all { (name : Labels) (n : ℕ) → length name ≤ n → rightmost name n ≡ name }
    ensures parent { (label : List ℕ) (parent : Labels) → rightmost (label ∷ parent) (length parent) ≡ parent }
    ensures one_more { (name : Labels) (n : ℕ) → n < length name
        → (label : List ℕ) × (rightmost name (n + 1) ≡ label ∷ rightmost name n) }
    ensures name { (name : Labels) (n : ℕ) → IsName name → IsName (rightmost name n) }
    ensures above { (name : Labels) (n : ℕ) → IsAtOrBelow name (rightmost name n) }
    ensures equal { (a b : Labels) (n : ℕ) → SameName a b → SameName (rightmost a n) (rightmost b n) }
{}

/// A law of ancestors: the next closer name is below the closest encloser (RFC 5155 1.3), and what is above the
/// name is above the one or at or below the other.
pub fn the_next_closer_name_is_below_the_closest_encloser()
    ensures below { (name : Labels) (n : ℕ) → n < length name
        → IsBelow (rightmost name (n + 1)) (rightmost name n) }
    ensures nothing_between { (name above : Labels) (n : ℕ) → n < length name → IsAtOrBelow name above
        → IsAtOrBelow (rightmost name n) above ⊎ IsAtOrBelow above (rightmost name (n + 1)) }
{}

/// A law of wildcards: `*` stands right below its parent. Where another label has room there, `*` has.
pub fn wildcards_stand_right_below()
    ensures below { (name : Labels) → IsBelow (wildcard_of name) name }
    ensures labels { (name : Labels) → length (wildcard_of name) ≡ length name + 1 }
    ensures name { (label : List ℕ) (name : Labels) → IsName (label ∷ name) → IsName (wildcard_of name) }
    ensures no_longer { (label : List ℕ) (name : Labels) → IsName (label ∷ name)
        → length (wire (wildcard_of name)) ≤ length (wire (label ∷ name)) }
    ensures equal { (a b : Labels) → SameName (wildcard_of a) (wildcard_of b) ↔ SameName a b }
{}

/// A law of the tree and the order: a name comes before all below it, and what comes behind it and isn't at or
/// below it comes behind all that is.
pub fn names_at_or_below_come_together()
    ensures first { (name above : Labels) → IsAtOrBelow name above → SameName name above ⊎ IsBefore above name }
    ensures behind { (above x y : Labels) → IsBefore above y → ¬ IsAtOrBelow y above → IsAtOrBelow x above
        → IsBefore x y }
{}

/// A law of the tree: `is_at_or_below` of the definitions tests what its name says.
pub fn at_or_below_is_tested()
    ensures { (name above : Labels) → IsTrue (is_at_or_below name above) ↔ IsAtOrBelow name above }
{}

impl Name {
    /// A law of names: the labels of each are a name, within the limits of RFC 1035 2.3.4.
    pub fn keeps_its_limits(&self)
        ensures { IsName self.now }
    {
        let _octets = self.wire();
    }
}
