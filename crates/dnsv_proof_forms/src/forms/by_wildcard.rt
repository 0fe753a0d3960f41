//! The forms that ask something of the wildcard at the closest encloser.
ghost use Rattle.std.specs.Prelude.{ℕ, ◌≡◌, ◌<◌, MatchOption, length};
ghost use Rattle.std.specs.Ordering.{nat_cmp};
ghost use Rattle.dnsv_names.specs.Name.{Labels, rightmost};
ghost use Rattle.dnsv_names.specs.Tree.{wildcard_of};
ghost use Rattle.dnsv_zones.specs.forms.Forms.{NoNameForm};
ghost use Rattle.dnsv_zones.specs.forms.RecordWords.{words};
ghost use Rattle.dnsv_proof_forms.specs.forms.ByWildcard.{wildcard_said, StandsAt, ShowsWithMostLabels};
ghost use Rattle.dnsv_proof_forms.specs.forms.ProofForms.{ShowsNoName, ShowsWildcard};
ghost use Rattle.dnsv_proof_forms.specs.words.ChainSaid.{chain_said, HasHashes};
ghost use Rattle.dnsv_proof_forms.specs.words.SaidAt.{IsFirstPlace};

use crate::forms::end_limits::end_limits;
use crate::forms::ends::end_at;
use crate::forms::proof_form::{ProofForm, WildcardParts};
use crate::records::chain_records::ChainRecords;
use crate::words::asked::{AskedName, AskedTypes, AskedWildcard};
use crate::words::said::{absent, empty_non_terminal, types_at};
use dnsv_names::Name;

/// The form that shows that there is no such name (RFC 4035 5.4, RFC 5155 8.4), or `None` where no records do. The
/// closest encloser has as many labels as records show, and of each word the first record is taken: of the closest
/// encloser if it needs one, of the next closer name, and of the wildcard at the closest encloser.
pub fn no_name(apex: &Name, name: &Name, records: &ChainRecords<'_>) -> Option<ProofForm<usize>>
    requires { HasHashes name.now records.now }
    ensures { MatchOption result (¬ NoNameForm (words (chain_said apex.now records.now)) apex.now name.now)
        (ShowsNoName nat_cmp (chain_said apex.now records.now) apex.now name.now) }
{
    let Some(parts) = by_wildcard(apex, name, AskedWildcard::Absent, records) else {
        return None;
    };
    Some(ProofForm::NoName(parts))
}

/// The records of such a form by the closest encloser with most labels.
pub fn by_wildcard(
    apex: &Name,
    name: &Name,
    asked: AskedWildcard,
    records: &ChainRecords<'_>,
) -> Option<WildcardParts<usize>>
    requires { HasHashes name.now records.now }
    ensures { MatchOption result
        ((labels : ℕ) → ¬ StandsAt asked (chain_said apex.now records.now) apex.now name.now labels)
        (ShowsWithMostLabels asked (chain_said apex.now records.now) apex.now name.now) }
{
    let limits = end_limits(apex, name, records);
    let mut labels = limits.limit;
    while labels > limits.fewest {
        labels -= 1;
        if let Some(parts) = by_wildcard_at(apex, name, labels, asked, records) {
            return Some(parts);
        }
    }
    None
}

/// The records of such a form by a closest encloser of so many labels.
fn by_wildcard_at(
    apex: &Name,
    name: &Name,
    labels: usize,
    asked: AskedWildcard,
    records: &ChainRecords<'_>,
) -> Option<WildcardParts<usize>>
    requires { HasHashes name.now records.now }
    ensures { MatchOption result
        (¬ StandsAt asked (chain_said apex.now records.now) apex.now name.now labels)
        (λ parts. (parts.labels ≡ labels) × ShowsWildcard nat_cmp (chain_said apex.now records.now) apex.now name.now
        (wildcard_said asked (chain_said apex.now records.now)) parts) }
{
    let ends = end_at(apex, name, labels, records)?;
    let wildcard = at_wildcard(name, labels, asked, records)?;
    Some(WildcardParts {
        labels,
        encloser: ends.encloser,
        next_closer: ends.next_closer,
        wildcard,
    })
}

/// The place of the first record that says it of the wildcard right below so many of the name's labels.
fn at_wildcard(
    name: &Name,
    labels: usize,
    asked: AskedWildcard,
    records: &ChainRecords<'_>,
) -> Option<usize>
    requires within { labels < length name.now }
    requires hashes { HasHashes name.now records.now }
    ensures { (apex : Labels) → IsFirstPlace
        (wildcard_said asked (chain_said apex records.now) (wildcard_of (rightmost name.now labels))) result }
{
    let wildcard = AskedName::Wildcard(labels);
    match asked {
        AskedWildcard::Absent => absent(name, wildcard, records),
        AskedWildcard::Empty => empty_non_terminal(name, wildcard, records),
        AskedWildcard::Without(rtype) => {
            types_at(name, wildcard, AskedTypes::Without(rtype), records)
        }
    }
}
