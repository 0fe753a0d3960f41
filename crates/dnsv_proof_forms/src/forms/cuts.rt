//! Where the records of a chain show that names may be unsigned (RFC 4035 5.2, RFC 5155 8.6, 8.9, 9.2).
ghost use Rattle.std.specs.Prelude.{ℕ, ◌↔◌, ◌≤◌, IsTrue, MatchOption};
ghost use Rattle.dnsv_names.specs.Name.{Labels};
ghost use Rattle.dnsv_zones.specs.forms.Forms.{UnsignedCutForm};
ghost use Rattle.dnsv_zones.specs.forms.Parts.{IsHighestCut, IsOptOutWithMostLabels, OptsOut};
ghost use Rattle.dnsv_zones.specs.forms.RecordWords.{words};
ghost use Rattle.dnsv_proof_forms.specs.words.ChainSaid.{chain_said, HasHashes};

use crate::forms::ends::is_above;
use crate::records::chain_records::ChainRecords;
use crate::words::any_name::{has_opt_out, has_unsigned_delegation};
use crate::words::asked::{AskedName, AskedTypes};
use crate::words::said::{has_encloser, has_types, is_absent, is_opted_out};
use dnsv_names::Name;

/// How many of the name's rightmost labels the highest delegation without DS has that a record shows, below the apex
/// and at or above the name; or `None` where none shows one (RFC 4035 5.2, RFC 5155 8.9).
pub fn unsigned_delegation(apex: &Name, name: &Name, records: &ChainRecords<'_>) -> Option<usize>
    requires { HasHashes name.now records.now }
    ensures { MatchOption result
        ((cut : Labels) → ¬ UnsignedCutForm (words (chain_said apex.now records.now)) apex.now name.now cut)
        (IsHighestCut (chain_said apex.now records.now) apex.now name.now) }
{
    if !has_unsigned_delegation(records) {
        return None;
    }
    if !name.is_at_or_below(apex) {
        return None;
    }
    let mut labels = apex.labels();
    while labels < name.labels() {
        labels += 1;
        let cut = AskedName::Above(labels);
        if has_types(name, cut, AskedTypes::UnsignedDelegation, records) {
            return Some(labels);
        }
    }
    None
}

/// How many labels the closest encloser with most labels has below which an unsigned delegation may be left out at the next
/// closer name, or at the wildcard beside it; `None` where there is none (RFC 5155 8.6, 9.2).
pub fn opt_out(apex: &Name, name: &Name, records: &ChainRecords<'_>) -> Option<usize>
    requires { HasHashes name.now records.now }
    ensures { MatchOption result
        ((labels : ℕ) → ¬ OptsOut (chain_said apex.now records.now) apex.now name.now labels)
        (IsOptOutWithMostLabels (chain_said apex.now records.now) apex.now name.now) }
{
    if !has_opt_out(records) {
        return None;
    }
    let mut labels = name.labels();
    while labels > apex.labels() {
        labels -= 1;
        if opts_out(apex, name, labels, records) {
            return Some(labels);
        }
    }
    None
}

/// Whether an unsigned delegation may be left out at the next closer name of a closest encloser with so many labels, or at
/// the wildcard beside it.
fn opts_out(apex: &Name, name: &Name, labels: usize, records: &ChainRecords<'_>) -> bool
    requires { HasHashes name.now records.now }
    ensures { IsTrue result ↔ OptsOut (chain_said apex.now records.now) apex.now name.now labels }
{
    if !is_above(apex, name, labels) {
        return false;
    }
    if !has_encloser(apex, name, labels, records) {
        return false;
    }
    if is_opted_out(name, AskedName::Above(labels + 1), records) {
        return true;
    }
    if !is_absent(name, AskedName::Above(labels + 1), records) {
        return false;
    }
    is_opted_out(name, AskedName::Wildcard(labels), records)
}
