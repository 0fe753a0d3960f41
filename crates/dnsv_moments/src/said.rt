//! What is said of a question at a moment.
ghost use Rattle.std.specs.Prelude.{◌≡◌, ◌↔◌, IsTrue, string_bytes};
ghost use Rattle.dnsv_moments.specs.validity.Said.{Said};

use crate::validity::kind::Kind;
use dnsv_canonical::SignatureNumber;
use std::marker::Model;

/// What is said of a question at a moment: what it comes to, the text of what carries that, and which signatures derive
/// it.
#[derive(Debug, Drop)]
pub struct Said {
    kind: Kind,
    text: String,
    by: Vec<SignatureNumber>,
}

impl Model for Said {
    ghost use Rattle.std.specs.Prelude.{string_bytes};
    ghost use Rattle.dnsv_moments.specs.validity.Said as said;

    ghost Value = { said.Said };

    ghost view = { λ each. record {
      told = record {
        kind = each.kind;
        text = string_bytes each.text;
      };
      by = each.by.items;
    } };
}

impl Said {
    /// What is said by these.
    pub(crate) fn new(kind: Kind, text: String, by: Vec<SignatureNumber>) -> Said
        ensures { result ≡ record {
          told = record {
            kind = kind;
            text = string_bytes text;
          };
          by = by.items;
        } }
    {
        Said { kind, text, by }
    }

    /// What the question comes to.
    pub fn kind(&self) -> Kind
        ensures { result ≡ self.now.told.kind }
    {
        self.kind
    }

    /// The text of what carries that, in the format that was asked for: the lines of `check` behind its first, but for
    /// the entries that are still to be checked, or its members of JSON behind the exit status, each behind a comma and
    /// without these entries. Of a refusal it is empty.
    pub fn text(&self) -> &str
        ensures { result.now ≡ self.now.told.text }
    {
        &self.text
    }

    /// The signatures that derive it, rising by RRset and then by signature.
    pub fn by(&self) -> &[SignatureNumber]
        ensures { result.now ≡ self.now.by }
    {
        &self.by
    }

    /// Whether both say the same.
    pub fn is_same(&self, other: &Said) -> bool
        ensures { IsTrue result ↔ self.now ≡ other.now }
    {
        is_same_kind(self.kind, other.kind)
            && is_same_text(&self.text, &other.text)
            && are_same(&self.by, &other.by)
    }
}

/// Whether both are one kind.
pub(crate) fn is_same_kind(one: Kind, other: Kind) -> bool
    ensures { IsTrue result ↔ one ≡ other }
{
    one == other
}

/// Whether both are one text.
fn is_same_text(one: &str, other: &str) -> bool
    ensures { IsTrue result ↔ one.now ≡ other.now }
{
    one == other
}

/// Whether both are the same signatures in the same order.
fn are_same(one: &[SignatureNumber], other: &[SignatureNumber]) -> bool
    ensures { IsTrue result ↔ one.now ≡ other.now }
{
    one == other
}
