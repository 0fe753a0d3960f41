//! The records that prove a denial, by their places among those of one chain.
ghost use Rattle.std.specs.Prelude.{ℕ, IfSome, MatchOption};
ghost use Rattle.std.specs.Ordering.{nat_cmp};
ghost use Rattle.dnsv_names.specs.Name.{Labels};
ghost use Rattle.dnsv_zones.specs.forms.Forms.{NoDataForms, NoNameForm};
ghost use Rattle.dnsv_zones.specs.forms.Parts.{AreNoDataParts, AreNoNameParts};
ghost use Rattle.dnsv_zones.specs.forms.RecordWords.{words};
ghost use Rattle.dnsv_zones.specs.zones.Lookup.{IsLookup};
ghost use Rattle.dnsv_zones.specs.zones.Lookup.Answer.{NoData, NoName};
ghost use Rattle.dnsv_zones.specs.zones.Zone.{Zone};
ghost use Rattle.dnsv_proof_forms.specs.records.RecordsAt.{HasRecordsAt, HasNoCollisionBy};
ghost use Rattle.dnsv_proof_forms.specs.words.ChainSaid.{chain_said, HasHashes};

use crate::forms::ends::Places;
use crate::forms::proof_form::form_places;
use crate::forms::{by_wildcard, missing_type};
use crate::records::chain_records::ChainRecords;
use dnsv_names::{Name, RecordType};

/// The records that show that there is no such name (RFC 4035 5.4, RFC 5155 8.4), or `None` where none do. The closest
/// encloser has as many labels as records show, and of each word the first record is taken: of the closest encloser
/// if it needs one, of the next closer name, and of the wildcard at the closest encloser.
pub fn no_name(apex: &Name, name: &Name, records: &ChainRecords<'_>) -> Option<Places>
    requires { HasHashes name.now records.now }
    ensures first { MatchOption result (¬ NoNameForm (words (chain_said apex.now records.now)) apex.now name.now)
        (λ places. AreNoNameParts nat_cmp (chain_said apex.now records.now) apex.now name.now places.items) }
    // In each zone that has the records in its chain there is no such name, whatever type is asked.
    ensures meaning { IfSome result (λ places. (zone : Zone) (t : ℕ)
        → HasRecordsAt zone apex.now records.now places.items → HasNoCollisionBy zone name.now records.now
        → IsLookup zone name.now t NoName) }
{
    let Some(form) = by_wildcard::no_name(apex, name, records) else {
        return None;
    };
    Some(form_places(form))
}

/// The records that show that the type isn't there, or `None` where none do. Of these forms the first that stands is
/// taken: the name is there without the type; it is an empty non-terminal; the wildcard at the closest encloser is
/// there without the type; that wildcard is an empty non-terminal. The closest encloser has as many labels as records
/// show, and of each word the first record is taken.
pub fn no_data(
    apex: &Name,
    name: &Name,
    rtype: RecordType,
    records: &ChainRecords<'_>,
) -> Option<Places>
    requires { HasHashes name.now records.now }
    ensures first { MatchOption result
        (¬ NoDataForms (words (chain_said apex.now records.now)) apex.now name.now rtype.0)
        (λ places. AreNoDataParts nat_cmp (chain_said apex.now records.now) apex.now name.now rtype.0 places.items) }
    // In each zone that has the records in its chain, the name, or a wildcard for it, is there without the type.
    ensures meaning { IfSome result (λ places. (zone : Zone)
        → HasRecordsAt zone apex.now records.now places.items → HasNoCollisionBy zone name.now records.now
        → (source : Labels) × IsLookup zone name.now rtype.0 (NoData source)) }
{
    let Some(form) = missing_type::no_data(apex, name, rtype, records) else {
        return None;
    };
    Some(form_places(form))
}
