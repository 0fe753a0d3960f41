//! Names above and below a name (RFC 1034 3.1).

pub mod tree_laws;

ghost use Rattle.std.specs.Prelude.{◌≡◌, ◌↔◌, ◌<◌, ◌≤◌, List, ℕ, [], ◌∷◌, length, MatchOption, MatchResult, IsTrue, IfOk};
ghost use Rattle.dnsv_names.specs.Name.{Labels, IsName, IsAtOrBelow, wire, rightmost};
ghost use Rattle.dnsv_names.specs.Tree.Keys.{is_at_or_below};
ghost use Rattle.dnsv_names.specs.Tree.{wildcard_of, is_wildcard, IsWildcard};

use crate::error::NameError;
use crate::name::{Name, WIRE_LIMIT};
use crate::wire::label_place;
use arrayvec::ArrayVec;

/// The label `*` in wire form (RFC 4592 2.1.1).
pub const ASTERISK_LABEL: [u8; 2] = *b"\x01*";

impl Name {
    /// The name without its leftmost label; `None` for the root.
    pub fn parent(&self) -> Option<Name>
        ensures { MatchOption result (self.now ≡ [])
            (λ parent. (label : List ℕ) × (self.now ≡ label ∷ parent)) }
    {
        let above = self.labels().checked_sub(1)?;
        Some(self.suffix(above))
    }

    /// Whether the name is `above` or stands below it: the labels of `above` end those of the name,
    /// without regard to case.
    pub fn is_at_or_below(&self, above: &Name) -> bool
        ensures at_or_below { IsTrue result ↔ IsAtOrBelow self.now above.now }
        ensures test { result ≡ is_at_or_below self.now above.now }
    {
        let count = self.labels();
        let kept = above.labels();
        if kept > count {
            return false;
        }
        let octets = self.wire();
        let place = label_place(octets, count - kept);
        octets[place..].eq_ignore_ascii_case(above.wire())
    }

    /// Whether the name is a wildcard: its leftmost label is `*` (RFC 4592 2.1.1).
    pub fn is_wildcard(&self) -> bool
        ensures test { result ≡ is_wildcard self.now }
        ensures wildcard { IsTrue result ↔ IsWildcard self.now }
    {
        self.labels() > 0 && self.label(0) == b"*".as_slice()
    }

    /// The wildcard right below the name: `*` and then the name's labels (RFC 4592 2.1.1).
    ///
    /// `LongName` where its wire form has more than 255 octets.
    pub fn wildcard_of(&self) -> Result<Name, NameError>
        ensures variant { MatchResult result (λ name. name ≡ wildcard_of self.now)
            (λ error. (error ≡ NameError.LongName) × (255 < length (wire (wildcard_of self.now)))) }
        ensures name { IfOk result (λ name. IsName name) }
    {
        let below = self.wire();
        if ASTERISK_LABEL.len() + below.len() > WIRE_LIMIT {
            return Err(NameError::LongName);
        }
        let mut octets = ArrayVec::new();
        octets.try_extend_from_slice(&ASTERISK_LABEL).unwrap();
        octets.try_extend_from_slice(below).unwrap();
        Ok(Name { octets })
    }

    /// The wildcard right below the name's `n` rightmost labels: the source of synthesis, where these are
    /// the name's closest encloser (RFC 4592 3.3.1). It is no longer than the name can be.
    pub fn source_of_synthesis(&self, n: usize) -> Name
        requires { n < length self.now }
        ensures { result ≡ wildcard_of (rightmost self.now n) }
    {
        self.keeps_its_limits();
        match self.suffix(n).wildcard_of() {
            Ok(wildcard) => wildcard,
            Err(_) => unreachable!(),
        }
    }
}
