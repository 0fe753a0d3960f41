//! Ways into a DNSKEY RRset by one trust anchor, or by one record of a DS RRset.
ghost use Rattle.std.specs.Prelude.{◌↔◌, ℕ, IsTrue, MatchOption};
ghost use Rattle.dnsv_canonical.specs.Rrsets.{ReceivedRrset};
ghost use Rattle.dnsv_chain.specs.Anchor.{IsAnchorMatch};
ghost use Rattle.dnsv_chain.specs.Ds.{IsMatch};
ghost use Rattle.dnsv_derivations.specs.Explained.{Setting};
ghost use Rattle.dnsv_derivations.specs.Following.{IsGoodUnder};
ghost use Rattle.dnsv_derivations.specs.derivations.WaySearch.{IsFirstUnder, IsKeySet, IsLowestGood, IsNoneUnder, IsSetKey, MatchesBy, signature_of};

use crate::derivations::ways::FoundWay;
use crate::derivations::ways::keys::{GoodSignature, KeySet, SetKey, key_name};
use crate::digested::DigestedKey;
use dnsv_chain::Anchor;
use dnsv_lines::Voucher;
use dnsv_names::Name;
use dnsv_records::Ds;

/// What may match a key: a trust anchor, or a record of the DS RRset of the owner.
#[derive(Clone, Copy)]
pub enum Matcher<'a> {
    Anchor(&'a Anchor<'a>),
    Ds(&'a Name, &'a Ds<'a>),
}

impl Matcher<'_> {
    /// Whether it matches the key (RFC 4035 5, 5.2).
    fn is_match(self, key: &DigestedKey<'_>) -> bool
        ensures { IsTrue result ↔ MatchesBy self.entry key.now }
    {
        match self {
            Matcher::Anchor(anchor) => is_anchor_match(anchor, key),
            Matcher::Ds(owner, ds) => is_ds_match(owner, ds, key),
        }
    }
}

/// Whether the trust anchor matches the key.
fn is_anchor_match(anchor: &Anchor<'_>, key: &DigestedKey<'_>) -> bool
    ensures { IsTrue result ↔ IsAnchorMatch anchor.now key.now }
{
    match anchor {
        Anchor::Ds { owner, ds } => is_ds_match(owner, ds, key),
        Anchor::Key { .. } => dnsv_chain::is_anchor_match(anchor, key.key()),
    }
}

/// Whether the DS record of the owner matches the key (RFC 4035 5.2).
pub fn is_ds_match(owner: &Name, ds: &Ds<'_>, key: &DigestedKey<'_>) -> bool
    ensures { IsTrue result ↔ IsMatch owner.now ds.now key.now }
{
    key.is_match(ds) && *owner == *key.key().owner()
}

/// The way by the lowest key that is matched and that signs the RRset. `voucher` tells what matches it.
pub fn way_with(set: &KeySet<'_>, matcher: Matcher<'_>, voucher: Voucher) -> Option<FoundWay>
    ensures { (setting : Setting) → IsKeySet setting set.now → MatchOption result
        (IsNoneUnder setting set.now.number set.now.rrset.now (MatchesBy matcher.entry))
        (IsFirstUnder setting set.now.number set.now.rrset.now (MatchesBy matcher.entry) voucher) }
{
    for each in &set.keys {
        if let Some(signature) = signature_where(each, matcher) {
            return Some(FoundWay {
                voucher,
                key: key_name(each.key),
                signature,
            });
        }
    }
    None
}

/// The lowest signature by the key, if it is one that is matched.
fn signature_where(key: &SetKey<'_>, matcher: Matcher<'_>) -> Option<GoodSignature>
    ensures { (setting : Setting) (k : ℕ) (rrset : ReceivedRrset) → IsSetKey setting k rrset key.now → MatchOption result
        ((s : ℕ) → MatchesBy matcher.entry key.now.key.now → ¬ IsGoodUnder setting (signature_of k s) rrset key.now.key.now)
        (λ found. MatchesBy matcher.entry key.now.key.now × IsLowestGood setting k rrset key.now.key.now found) }
{
    let Some(signing) = &key.signing else {
        return None;
    };
    if !matcher.is_match(&signing.digested) {
        return None;
    }
    Some(signing.signature)
}
