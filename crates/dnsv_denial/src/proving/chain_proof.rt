//! The proof of a denial by one chain.
ghost use Rattle.std.specs.Prelude.{◌≡◌, ◌<◌, List, MatchOption};
ghost use Rattle.std.specs.List.{AllByRecursion};
ghost use Rattle.dnsv_canonical.specs.Rrsets.{ReceivedRrset};
ghost use Rattle.dnsv_chain.specs.Trust.{KeptTrust, SecuredIn};
ghost use Rattle.dnsv_proof_forms.specs.forms.ProofForms.{form_by, form_records, option_by, wildcard_by, wildcard_records};
ghost use Rattle.dnsv_denial.specs.proving.ChainOf.{IsChainOf, IsShownBy, StandsAs, kind_of_records};
ghost use Rattle.dnsv_proof_forms.specs.records.Numbers.{numbers_of, number_at, record_count};
ghost use Rattle.dnsv_proof_forms.specs.records.RecordsAt.{listed};
ghost use Rattle.dnsv_proof_forms.specs.words.ChainSaid.{HasHashes};
ghost use Rattle.dnsv_denial.specs.gathering.EvidenceWords.{Chain};

use crate::proving::numbers::record_numbers;
use crate::proving::proof::Proof;
use crate::proving::shown_denial::ShownDenial;
use dnsv_canonical::RecordNumber;
use dnsv_names::Name;
use dnsv_proof_forms::{ChainKind, ChainRecords, Denial, ProofForm, WildcardParts, form_places};

/// How the denial is shown by the records of a chain of the zone, or `None` where they prove none.
pub fn chain_proof(
    denial: Denial,
    zone: &Name,
    name: &Name,
    records: &ChainRecords<'_>,
) -> Option<ShownDenial>
    requires { HasHashes name.now records.now }
    ensures { (trust : KeptTrust) (rrsets : List ReceivedRrset) (chain : Chain)
        → IsChainOf (SecuredIn trust) rrsets zone.now chain records.now
        → MatchOption result
        (¬ StandsAs (SecuredIn trust) rrsets denial name.now zone.now chain)
        (IsShownBy (SecuredIn trust) rrsets denial name.now zone.now chain) }
{
    let Some(places) = denial.places(zone, name, records) else {
        return None;
    };
    let numbers = record_numbers(&form_places(places), records);
    Some(ShownDenial {
        proof: Proof::new(zone.suffix(zone.labels()), numbers),
        chain: chain_kind(records),
        form: numbered(places, records),
    })
}

/// Which records the chain has.
fn chain_kind(records: &ChainRecords<'_>) -> ChainKind
    ensures { result ≡ kind_of_records records.now }
{
    match records {
        ChainRecords::Nsec(_) => ChainKind::Nsec,
        ChainRecords::Nsec3(_) => ChainKind::Nsec3,
    }
}

/// The form with the numbers of its records in place of their places.
fn numbered(form: ProofForm<usize>, records: &ChainRecords<'_>) -> ProofForm<RecordNumber>
    requires { AllByRecursion (λ place. place < record_count records.now) (form_records form) }
    ensures { result ≡ form_by (number_at (numbers_of records.now)) form }
{
    match form {
        ProofForm::NoName(parts) => ProofForm::NoName(numbered_parts(parts, records)),
        ProofForm::NoData(place) => ProofForm::NoData(records.number(place)),
        ProofForm::EmptyNonTerminal(place) => { ProofForm::EmptyNonTerminal(records.number(place)) }
        ProofForm::WildcardNoData(parts) => {
            ProofForm::WildcardNoData(numbered_parts(parts, records))
        }
        ProofForm::EmptyWildcard(parts) => ProofForm::EmptyWildcard(numbered_parts(parts, records)),
        ProofForm::NoCloser {
            labels,
            next_closer,
        } => ProofForm::NoCloser {
            labels,
            next_closer: records.number(next_closer),
        },
        ProofForm::Delegation { labels, delegation } => ProofForm::Delegation {
            labels,
            delegation: records.number(delegation),
        },
        ProofForm::OptOut {
            labels,
            encloser,
            next_closer,
        } => ProofForm::OptOut {
            labels,
            encloser: numbered_encloser(encloser, records),
            next_closer: records.number(next_closer),
        },
        ProofForm::WildcardOptOut(parts) => {
            ProofForm::WildcardOptOut(numbered_parts(parts, records))
        }
        ProofForm::OptOutCloser {
            labels,
            next_closer,
        } => ProofForm::OptOutCloser {
            labels,
            next_closer: records.number(next_closer),
        },
    }
}

/// The parts of a form that asks of the wildcard, with numbers in place of places.
fn numbered_parts(
    parts: WildcardParts<usize>,
    records: &ChainRecords<'_>,
) -> WildcardParts<RecordNumber>
    requires { AllByRecursion (λ place. place < record_count records.now) (wildcard_records parts) }
    ensures { result ≡ wildcard_by (number_at (numbers_of records.now)) parts }
{
    WildcardParts {
        labels: parts.labels,
        encloser: numbered_encloser(parts.encloser, records),
        next_closer: records.number(parts.next_closer),
        wildcard: records.number(parts.wildcard),
    }
}

/// The number of the closest encloser's record, where there is one.
fn numbered_encloser(encloser: Option<usize>, records: &ChainRecords<'_>) -> Option<RecordNumber>
    requires { AllByRecursion (λ place. place < record_count records.now) (listed encloser) }
    ensures { result ≡ option_by (number_at (numbers_of records.now)) encloser }
{
    let Some(place) = encloser else {
        return None;
    };
    Some(records.number(place))
}
