//! What records show of a name that may be unsigned, for so many of its labels (RFC 4035 5.2, RFC 5155 8.6, 8.8, 9.2).
ghost use Rattle.std.specs.Prelude.{◌↔◌, ◌<◌, ◌≤◌, IsTrue, MatchOption, length};
ghost use Rattle.std.specs.Ordering.{nat_cmp};
ghost use Rattle.dnsv_zones.specs.forms.Parts.{OptsOut, OptsOutNextCloser};
ghost use Rattle.dnsv_proof_forms.specs.forms.Denials.{IsDelegationAt};
ghost use Rattle.dnsv_proof_forms.specs.forms.ShownUnsigned.{ShowsDelegation, ShowsOptOut, ShowsOptOutCloser};
ghost use Rattle.dnsv_proof_forms.specs.words.ChainSaid.{chain_said, HasHashes};

use crate::forms::ends::is_above;
use crate::forms::proof_form::{ProofForm, WildcardParts};
use crate::records::chain_records::ChainRecords;
use crate::words::asked::{AskedName, AskedTypes};
use crate::words::said::{absent, encloser, needs_none, opted_out, types_at};
use dnsv_names::Name;

/// The first record that shows a delegation without DS at the name's so many labels, below the apex (RFC 4035 5.2, RFC
/// 5155 8.9), or `None` where none does.
pub fn delegation_at(
    apex: &Name,
    name: &Name,
    labels: usize,
    records: &ChainRecords<'_>,
) -> Option<ProofForm<usize>>
    requires { HasHashes name.now records.now }
    ensures { MatchOption result (¬ IsDelegationAt (chain_said apex.now records.now) apex.now name.now labels)
        (ShowsDelegation nat_cmp (chain_said apex.now records.now) apex.now name.now labels) }
{
    if !name.is_at_or_below(apex) {
        return None;
    }
    if !lies_below(apex, name, labels) {
        return None;
    }
    let cut = AskedName::Above(labels);
    let Some(delegation) = types_at(name, cut, AskedTypes::UnsignedDelegation, records) else {
        return None;
    };
    Some(ProofForm::Delegation { labels, delegation })
}

/// Whether the name has so many labels, and the apex fewer.
fn lies_below(apex: &Name, name: &Name, labels: usize) -> bool
    ensures { IsTrue result ↔ (length apex.now < labels) × (labels ≤ length name.now) }
{
    if labels <= apex.labels() {
        return false;
    }
    if labels > name.labels() {
        return false;
    }
    true
}

/// The first records that leave open that an unsigned delegation lies at or below the next closer name to the name's so
/// many labels, or at the wildcard beside it: of the closest encloser, and of the next closer name with the Opt-Out flag;
/// or, where none covers that with the flag, of it without the flag, and of the wildcard with it (RFC 5155 8.6, 9.2).
/// `None` where none do.
pub fn opt_out_at(
    apex: &Name,
    name: &Name,
    labels: usize,
    records: &ChainRecords<'_>,
) -> Option<ProofForm<usize>>
    requires { HasHashes name.now records.now }
    ensures { MatchOption result (¬ OptsOut (chain_said apex.now records.now) apex.now name.now labels)
        (ShowsOptOut nat_cmp (chain_said apex.now records.now) apex.now name.now labels) }
{
    if !is_above(apex, name, labels) {
        return None;
    }
    if needs_none(apex, name, labels, records) {
        return None;
    }
    let encloser = encloser(name, labels, records)?;
    if let Some(next_closer) = opted_out(name, AskedName::Above(labels + 1), records) {
        return Some(ProofForm::OptOut {
            labels,
            encloser: Some(encloser),
            next_closer,
        });
    }
    let covering = absent(name, AskedName::Above(labels + 1), records)?;
    let wildcard = opted_out(name, AskedName::Wildcard(labels), records)?;
    Some(ProofForm::WildcardOptOut(WildcardParts {
        labels,
        encloser: Some(encloser),
        next_closer: covering,
        wildcard,
    }))
}

/// The first record with the Opt-Out flag that covers the next closer name to the name's so many labels (RFC 5155 8.8),
/// or `None` where none does or these labels are no proper ancestor of the name within the zone.
pub fn opt_out_closer(
    labels: usize,
    apex: &Name,
    name: &Name,
    records: &ChainRecords<'_>,
) -> Option<ProofForm<usize>>
    requires { HasHashes name.now records.now }
    ensures { MatchOption result (¬ OptsOutNextCloser (chain_said apex.now records.now) apex.now name.now labels)
        (ShowsOptOutCloser nat_cmp (chain_said apex.now records.now) apex.now name.now labels) }
{
    if !is_above(apex, name, labels) {
        return None;
    }
    let next_closer = opted_out(name, AskedName::Above(labels + 1), records)?;
    Some(ProofForm::OptOutCloser {
        labels,
        next_closer,
    })
}
