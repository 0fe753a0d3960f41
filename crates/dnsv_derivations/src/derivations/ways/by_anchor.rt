//! Ways into a DNSKEY RRset by trust anchors.
ghost use Rattle.std.specs.Prelude.{MatchOption};
ghost use Rattle.dnsv_derivations.specs.Explained.{setting_in};
ghost use Rattle.dnsv_derivations.specs.derivations.WaySearch.{IsFoundWay, IsKeySet, IsNoWayBefore, IsVoucherOf};

use crate::derivations::ways::FoundWay;
use crate::derivations::ways::keys::KeySet;
use crate::derivations::ways::matcher::{Matcher, way_with};
use crate::evidence::Evidence;
use dnsv_chain::Anchor;
use dnsv_lines::Voucher;

/// The first way into the DNSKEY RRset by an anchor: by the anchor of lowest number, then by the lowest key.
pub fn way_by_anchor(evidence: &Evidence<'_>, set: &KeySet<'_>) -> Option<FoundWay>
    requires { IsKeySet (setting_in evidence.now) set.now }
    ensures { MatchOption result (IsNoWayBefore (setting_in evidence.now) set.now.number 1 0)
        (IsFoundWay (setting_in evidence.now) set.now.number) }
{
    for (place, anchor) in evidence.anchors().iter().enumerate() {
        let voucher = voucher_of(place + 1, anchor);
        if let Some(way) = way_with(set, Matcher::Anchor(anchor), voucher) {
            return Some(way);
        }
    }
    None
}

/// How the anchor, which has the number, is reported.
fn voucher_of(number: usize, anchor: &Anchor<'_>) -> Voucher
    ensures { IsVoucherOf number anchor.now result }
{
    match anchor {
        Anchor::Ds { ds, .. } => Voucher::DsAnchor(number, ds.digest_type),
        Anchor::Key { .. } => Voucher::KeyAnchor(number),
    }
}
