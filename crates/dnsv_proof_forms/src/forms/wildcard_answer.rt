//! What records say against an answer from a wildcard (RFC 4035 5.3.4, RFC 5155 8.8).
ghost use Rattle.std.specs.Prelude.{ℕ, ◌↔◌, [], ◌∷◌, IfSome, IsTrue, MatchOption};
ghost use Rattle.std.specs.Ordering.{nat_cmp};
ghost use Rattle.dnsv_names.specs.Name.{rightmost};
ghost use Rattle.dnsv_names.specs.Tree.{wildcard_of};
ghost use Rattle.dnsv_zones.specs.forms.Forms.{NoCloserForm};
ghost use Rattle.dnsv_zones.specs.forms.Parts.{IsNoCloserPart, OptsOutNextCloser};
ghost use Rattle.dnsv_zones.specs.forms.RecordWords.{words};
ghost use Rattle.dnsv_zones.specs.zones.Lookup.{IsLookup};
ghost use Rattle.dnsv_zones.specs.zones.Lookup.Answer.{Held};
ghost use Rattle.dnsv_zones.specs.zones.Zone.{Zone, Holds};
ghost use Rattle.dnsv_proof_forms.specs.records.RecordsAt.{HasRecordsAt};
ghost use Rattle.dnsv_proof_forms.specs.words.ChainSaid.{chain_said, HasHashes};

use crate::forms::ends::is_above;
use crate::records::chain_records::ChainRecords;
use crate::words::asked::AskedName;
use crate::words::said::{absent, is_opted_out};
use dnsv_names::Name;

/// The place of the first record that leaves no closer name than the wildcard below the name's so many labels
/// (RFC 4035 5.3.4, RFC 5155 8.8), or `None` where none does or these labels are no proper ancestor of the name within
/// the zone.
pub fn no_closer(
    apex: &Name,
    name: &Name,
    labels: usize,
    records: &ChainRecords<'_>,
) -> Option<usize>
    requires { HasHashes name.now records.now }
    ensures first { MatchOption result
        (¬ NoCloserForm (words (chain_said apex.now records.now)) apex.now name.now labels)
        (IsNoCloserPart nat_cmp (chain_said apex.now records.now) apex.now name.now labels) }
    // In each zone that has the record in its chain, the answer to a type that the wildcard has is the wildcard's.
    ensures meaning { IfSome result (λ place. (zone : Zone) (t : ℕ)
        → HasRecordsAt zone apex.now records.now (place ∷ [])
        → Holds zone (wildcard_of (rightmost name.now labels)) t
        → IsLookup zone name.now t (Held (wildcard_of (rightmost name.now labels)))) }
{
    if !is_above(apex, name, labels) {
        return None;
    }
    absent(name, AskedName::Above(labels + 1), records)
}

/// Whether an unsigned delegation may stand against an answer from the wildcard below the name's so many labels: these
/// are a proper ancestor of the name within the zone, and a record with the Opt-Out flag covers the next closer name
/// (RFC 5155 8.8).
pub fn opts_out_next_closer(
    apex: &Name,
    name: &Name,
    labels: usize,
    records: &ChainRecords<'_>,
) -> bool
    requires { HasHashes name.now records.now }
    ensures { IsTrue result ↔ OptsOutNextCloser (chain_said apex.now records.now) apex.now name.now labels }
{
    if !is_above(apex, name, labels) {
        return false;
    }
    is_opted_out(name, AskedName::Above(labels + 1), records)
}
