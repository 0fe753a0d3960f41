//! How many labels the closest encloser of a name may have, by one look at each record.
ghost use Rattle.std.specs.Prelude.{ℕ, ◌≡◌, ◌+◌, ◌-◌, ◌≤◌, length, min, max};
ghost use Rattle.dnsv_proof_forms.specs.forms.EndLimits.{AreEndLimits, DeniesNoFewer, HoldsOfFirst, ShowsNoMore};
ghost use Rattle.dnsv_proof_forms.specs.words.ChainSaid.{chain_said};

use crate::records::chain_records::ChainRecords;
use crate::records::entry::NsecEntry;
use dnsv_names::Name;
use dnsv_zones::{is_absent, is_node};

/// Between which numbers of labels the closest encloser has its number.
#[derive(Clone, Copy)]
pub struct EndLimits {
    /// It has no fewer.
    pub fewest: usize,
    /// It has fewer than so many.
    pub limit: usize,
}

/// The limits for a name. NSEC records leave what is between the most labels that they show to be a node and the fewest
/// that they show to be none: one number, where they are of one chain.
pub fn end_limits(apex: &Name, name: &Name, records: &ChainRecords<'_>) -> EndLimits
    ensures limits { AreEndLimits (chain_said apex.now records.now) apex.now name.now result }
    ensures proper { result.limit ≤ length name.now }
    ensures within { length apex.now ≤ result.fewest }
{
    match records {
        ChainRecords::Nsec(entries) => nsec_limits(apex, name, entries),
        ChainRecords::Nsec3(_) => EndLimits {
            fewest: apex.labels(),
            limit: name.labels(),
        },
    }
}

/// The limits by NSEC records.
fn nsec_limits(apex: &Name, name: &Name, entries: &[NsecEntry<'_>]) -> EndLimits
    ensures shown { (shown : ℕ) × (length apex.now ≤ shown)
        × HoldsOfFirst (ShowsNoMore name.now shown) entries.now (length entries.now)
        × (result.limit ≡ min (shown + 1) (length name.now)) }
    ensures absent { (absent : ℕ) × HoldsOfFirst (DeniesNoFewer name.now absent) entries.now (length entries.now)
        × (result.fewest ≡ max (absent - 1) (length apex.now)) }
{
    let shown = most_shown(apex, name, entries);
    let absent = fewest_absent(name, entries);
    EndLimits {
        fewest: absent.saturating_sub(1).max(apex.labels()),
        limit: (shown + 1).min(name.labels()),
    }
}

/// The most labels of the name that a record may show to be a node above it, or those of the apex.
fn most_shown(apex: &Name, name: &Name, entries: &[NsecEntry<'_>]) -> usize
    ensures most { HoldsOfFirst (ShowsNoMore name.now result) entries.now (length entries.now) }
    ensures within { length apex.now ≤ result }
    ensures at_most_127 { result ≤ 127 }
{
    let mut shown = apex.labels();
    for entry in entries {
        shown = shown_with(name, shown, entry);
    }
    shown
}

/// The number, or a greater one of the name's labels that the record shows to be a node.
fn shown_with(name: &Name, shown: usize, entry: &NsecEntry<'_>) -> usize
    ensures most { ShowsNoMore name.now result entry.now }
    ensures rising { shown ≤ result }
    ensures at_most_127 { shown ≤ 127 → result ≤ 127 }
{
    let mut most = shown;
    while most < name.labels() {
        let deeper = name.suffix(most + 1);
        if !is_node(entry.owner, entry.nsec, &deeper) {
            return most;
        }
        most += 1;
    }
    most
}

/// The fewest labels of the name that a record may show to be no node, or more than all of them.
fn fewest_absent(name: &Name, entries: &[NsecEntry<'_>]) -> usize
    ensures { HoldsOfFirst (DeniesNoFewer name.now result) entries.now (length entries.now) }
{
    let mut absent = name.labels() + 1;
    for entry in entries {
        absent = absent_with(name, absent, entry);
    }
    absent
}

/// The number, or a lesser one of the name's labels that the record shows to be no node.
fn absent_with(name: &Name, absent: usize, entry: &NsecEntry<'_>) -> usize
    requires { absent ≤ length name.now + 1 }
    ensures fewest { DeniesNoFewer name.now result entry.now }
    ensures falling { result ≤ absent }
{
    let mut fewest = absent;
    while fewest > 0 {
        let higher = name.suffix(fewest - 1);
        if !is_absent(entry.owner, entry.nsec, &higher) {
            return fewest;
        }
        fewest -= 1;
    }
    fewest
}
