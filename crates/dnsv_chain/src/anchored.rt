//! Which keys trust anchors match.
ghost use Rattle.std.specs.Prelude.{◌↔◌, IsTrue};
ghost use Rattle.dnsv_chain.specs.Anchor.{HasAnchorMatch, IsAnchorMatch};

use crate::matching::is_match;
use dnsv_anchors::{Anchor, Anchors};
use dnsv_verifier::KeyRecord;

/// Whether an anchor matches the key.
pub fn has_anchor_match(anchors: &Anchors<'_>, key: &KeyRecord<'_>) -> bool
    ensures { IsTrue result ↔ HasAnchorMatch anchors.now key.now }
{
    let given = anchors.as_slice();
    given.iter().any(|anchor| is_anchor_match(anchor, key))
}

/// Whether the anchor matches the key: it has the same owner, and either is a DS record that matches the key, or has the
/// very RDATA.
pub fn is_anchor_match(anchor: &Anchor<'_>, key: &KeyRecord<'_>) -> bool
    ensures { IsTrue result ↔ IsAnchorMatch anchor.now key.now }
{
    match anchor {
        Anchor::Ds { owner, ds } => is_match(owner, ds, key),
        Anchor::Key { owner, rdata } => {
            *owner == *key.owner() && rdata.as_slice() == key.rdata()
        }
    }
}
