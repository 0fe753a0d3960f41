//! The form by which a denial is proved, with its records.
ghost use Rattle.std.specs.Prelude.{◌≡◌, [], ◌∷◌, ◌++◌};
ghost use Rattle.dnsv_proof_forms.specs.forms.ProofForms.{form_encloser, form_records, wildcard_records};
ghost use Rattle.dnsv_proof_forms.specs.records.RecordsAt.{listed};

use crate::forms::ends::{EndPlaces, Places};
use arrayvec::ArrayVec;

/// The records of a form that asks of the wildcard at the closest encloser (RFC 5155 8.4, 8.7), by places among those
/// of a chain or by numbers among the evidence.
#[derive(Clone, Copy, Debug, PartialEq, Eq)]
pub struct WildcardParts<Index> {
    /// The closest encloser is the question's so many rightmost labels.
    pub labels: usize,
    /// The record that shows the closest encloser; `None` where NSEC records are of a zone that is it.
    pub encloser: Option<Index>,
    /// The record that shows that the next closer name is no node.
    pub next_closer: Index,
    /// The record that says what the form asks of the wildcard.
    pub wildcard: Index,
}

/// The form by which a denial is proved, with the record for each of its parts.
#[derive(Clone, Copy, Debug, PartialEq, Eq)]
pub enum ProofForm<Index> {
    /// There is no such name, nor a wildcard that would stand for it (RFC 4035 5.4, RFC 5155 8.4).
    NoName(WildcardParts<Index>),
    /// A record is at the name, without the type (RFC 4035 5.4, RFC 5155 8.5, 8.6).
    NoData(Index),
    /// The name is an empty non-terminal (RFC 4592 2.2.2).
    EmptyNonTerminal(Index),
    /// A wildcard stands for the name, without the type (RFC 4035 3.1.3.4, RFC 5155 8.7).
    WildcardNoData(WildcardParts<Index>),
    /// A wildcard stands for the name, and is an empty non-terminal.
    EmptyWildcard(WildcardParts<Index>),
    /// There is no closer name than the wildcard (RFC 4035 5.3.4, RFC 5155 8.8).
    NoCloser {
        /// The question's so many rightmost labels, taken as the closest encloser.
        labels: usize,
        /// The record that shows that the next closer name is no node.
        next_closer: Index,
    },
    /// A delegation without DS lies at or above the name (RFC 4035 5.2, RFC 5155 8.9).
    Delegation {
        /// It is at the question's so many rightmost labels.
        labels: usize,
        /// The record with its types.
        delegation: Index,
    },
    /// Opt-Out may leave out a delegation at the next closer name: a record with the flag covers it (RFC 5155 8.6, 9.2).
    OptOut {
        /// The closest encloser is the question's so many rightmost labels.
        labels: usize,
        /// The record that shows the closest encloser; never `None`, since the form is by NSEC3 alone.
        encloser: Option<Index>,
        /// The record with the Opt-Out flag that covers the next closer name.
        next_closer: Index,
    },
    /// It may do so at the wildcard beside the next closer name: a record with the flag covers the wildcard at the closest
    /// encloser, and one without it the next closer name.
    WildcardOptOut(WildcardParts<Index>),
    /// Opt-Out may leave out a delegation at the next closer name, against an answer from the wildcard (RFC 5155 8.8).
    OptOutCloser {
        /// The question's so many rightmost labels, taken as the closest encloser.
        labels: usize,
        /// The record with the Opt-Out flag that covers the next closer name.
        next_closer: Index,
    },
}

impl<Index> ProofForm<Index> {
    /// How many of the question's rightmost labels the closest encloser has, where the form speaks of one.
    pub fn encloser(&self) -> Option<usize>
        ensures { result ≡ form_encloser self.now }
    {
        match self {
            ProofForm::NoName(parts) => Some(parts.labels),
            ProofForm::NoData(_) => None,
            ProofForm::EmptyNonTerminal(_) => None,
            ProofForm::WildcardNoData(parts) => Some(parts.labels),
            ProofForm::EmptyWildcard(parts) => Some(parts.labels),
            ProofForm::NoCloser { labels, .. } => Some(*labels),
            ProofForm::Delegation { .. } => None,
            ProofForm::OptOut { labels, .. } => Some(*labels),
            ProofForm::WildcardOptOut(parts) => Some(parts.labels),
            ProofForm::OptOutCloser { labels, .. } => Some(*labels),
        }
    }
}

/// The places of the form's records, in the order of its parts.
pub fn form_places(form: ProofForm<usize>) -> Places
    ensures { result.items ≡ form_records form }
{
    match form {
        ProofForm::NoName(parts) => wildcard_places(parts),
        ProofForm::NoData(place) => alone(place),
        ProofForm::EmptyNonTerminal(place) => alone(place),
        ProofForm::WildcardNoData(parts) => wildcard_places(parts),
        ProofForm::EmptyWildcard(parts) => wildcard_places(parts),
        ProofForm::NoCloser { next_closer, .. } => alone(next_closer),
        ProofForm::Delegation { delegation, .. } => alone(delegation),
        ProofForm::OptOut {
            encloser,
            next_closer,
            ..
        } => both(encloser, next_closer),
        ProofForm::WildcardOptOut(parts) => wildcard_places(parts),
        ProofForm::OptOutCloser { next_closer, .. } => alone(next_closer),
    }
}

/// The places of a form that asks of the wildcard.
fn wildcard_places(parts: WildcardParts<usize>) -> Places
    ensures { result.items ≡ wildcard_records parts }
{
    let ends = EndPlaces {
        encloser: parts.encloser,
        next_closer: parts.next_closer,
    };
    ends.with(parts.wildcard)
}

/// The closest encloser's place, where it has one, and the next closer name's.
fn both(encloser: Option<usize>, next_closer: usize) -> Places
    ensures { result.items ≡ listed encloser ++ next_closer ∷ [] }
{
    let mut places = ArrayVec::new();
    if let Some(encloser) = encloser {
        places.push(encloser);
    }
    places.push(next_closer);
    places
}

/// One place.
fn alone(place: usize) -> Places
    ensures { result.items ≡ place ∷ [] }
{
    let mut places = ArrayVec::new();
    places.push(place);
    places
}
