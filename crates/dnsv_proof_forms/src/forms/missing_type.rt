//! The proof that a type isn't there (RFC 4035 5.4, RFC 5155 8.5 to 8.7).
ghost use Rattle.std.specs.Prelude.{MatchOption};
ghost use Rattle.std.specs.Ordering.{nat_cmp};
ghost use Rattle.dnsv_zones.specs.forms.Forms.{NoDataForms};
ghost use Rattle.dnsv_zones.specs.forms.RecordWords.{words};
ghost use Rattle.dnsv_proof_forms.specs.forms.ProofForms.{ShowsNoData};
ghost use Rattle.dnsv_proof_forms.specs.words.ChainSaid.{chain_said, HasHashes};

use crate::forms::by_wildcard::by_wildcard;
use crate::forms::proof_form::ProofForm;
use crate::records::chain_records::ChainRecords;
use crate::words::asked::{AskedName, AskedTypes, AskedWildcard};
use crate::words::said::{empty_non_terminal, types_at};
use dnsv_names::{Name, RecordType};

/// The form that shows that the type isn't there, or `None` where no records do. Of these forms the first that stands is
/// taken: the name is there without the type; it is an empty non-terminal; the wildcard at the closest encloser is
/// there without the type; that wildcard is an empty non-terminal. The closest encloser has as many labels as records
/// show, and of each word the first record is taken.
pub fn no_data(
    apex: &Name,
    name: &Name,
    rtype: RecordType,
    records: &ChainRecords<'_>,
) -> Option<ProofForm<usize>>
    requires { HasHashes name.now records.now }
    ensures { MatchOption result
        (¬ NoDataForms (words (chain_said apex.now records.now)) apex.now name.now rtype.0)
        (ShowsNoData nat_cmp (chain_said apex.now records.now) apex.now name.now rtype.0) }
{
    if !name.is_at_or_below(apex) {
        return None;
    }
    let itself = AskedName::Above(name.labels());
    if let Some(place) = types_at(name, itself, AskedTypes::Without(rtype), records) {
        return Some(ProofForm::NoData(place));
    }
    if let Some(place) = empty_non_terminal(name, itself, records) {
        return Some(ProofForm::EmptyNonTerminal(place));
    }
    if let Some(places) = by_wildcard(apex, name, AskedWildcard::Without(rtype), records) {
        return Some(ProofForm::WildcardNoData(places));
    }
    let Some(places) = by_wildcard(apex, name, AskedWildcard::Empty, records) else {
        return None;
    };
    Some(ProofForm::EmptyWildcard(places))
}
