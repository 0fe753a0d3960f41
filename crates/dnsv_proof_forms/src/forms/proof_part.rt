//! The parts of a proof: what a record says of which name.
ghost use Rattle.std.specs.Prelude.{◌≡◌, ◌+◌, ◌<◌, ◌≤◌, [], ◌∷◌, Some, length};
ghost use Rattle.dnsv_names.specs.Name.{rightmost};
ghost use Rattle.dnsv_names.specs.Tree.{wildcard_of};
ghost use Rattle.dnsv_proof_forms.specs.forms.ProofParts.{encloser_part, form_parts, opt_out_parts, wildcard_parts};

use crate::forms::proof_form::{ProofForm, WildcardParts};
use crate::records::chain_kind::ChainKind;
use arrayvec::ArrayVec;
use dnsv_canonical::RecordNumber;
use dnsv_names::Name;

/// What a part of a proof speaks of, by the question's name.
#[derive(Clone, Copy, Debug, Default)]
pub enum PartName {
    /// The closest encloser: so many of the question's rightmost labels (RFC 5155 1.3).
    ClosestEncloser(usize),
    /// The next closer name: one label more than so many, which are the closest encloser (RFC 5155 1.3).
    NextCloser(usize),
    /// The wildcard right below so many, which are the closest encloser (RFC 4592).
    Wildcard(usize),
    /// The question's name.
    #[default]
    Name,
    /// A delegation without DS: so many of the question's rightmost labels (RFC 4035 5.2).
    Cut(usize),
}

impl PartName {
    ghost use Rattle.dnsv_proof_forms.specs.forms.ProofParts.{IsPartName, part_name};

    /// The name, for a question of `name`; the question's where that has too few labels.
    pub fn of(self, name: &Name) -> Name
        ensures value { IsPartName (length name.now) self → result ≡ part_name name.now self }
        ensures few { ¬ IsPartName (length name.now) self → result ≡ name.now }
    {
        match self {
            PartName::ClosestEncloser(labels) => above(name, labels),
            PartName::NextCloser(labels) => next_closer(name, labels),
            PartName::Wildcard(labels) => wildcard(name, labels),
            PartName::Name => above(name, name.labels()),
            PartName::Cut(labels) => above(name, labels),
        }
    }
}

/// So many of the name's rightmost labels, or all that it has.
fn above(name: &Name, labels: usize) -> Name
    ensures value { labels ≤ length name.now → result ≡ rightmost name.now labels }
    ensures few { ¬ labels ≤ length name.now → result ≡ name.now }
{
    name.suffix(labels.min(name.labels()))
}

/// The next closer name to so many of the name's rightmost labels (RFC 5155 1.3); the name itself where it has no more.
pub fn next_closer(name: &Name, labels: usize) -> Name
    ensures value { labels < length name.now → result ≡ rightmost name.now (labels + 1) }
    ensures few { ¬ labels < length name.now → result ≡ name.now }
{
    if labels < name.labels() {
        return name.suffix(labels + 1);
    }
    above(name, labels)
}

/// The wildcard right below so many of the name's rightmost labels; the name itself where it has no more.
fn wildcard(name: &Name, labels: usize) -> Name
    ensures value { labels < length name.now → result ≡ wildcard_of (rightmost name.now labels) }
    ensures few { ¬ labels < length name.now → result ≡ name.now }
{
    if labels < name.labels() {
        return name.source_of_synthesis(labels);
    }
    above(name, labels)
}

/// How a record is related to the name that it speaks of.
#[derive(Clone, Copy, Debug, Default)]
pub enum PartRelation {
    /// Its owner, or its hash, is the name's.
    Matched,
    /// Its owner or its next name is at or below the name.
    Exists,
    /// The name, or its hash, is in its gap, and no such name is there.
    Covered,
    /// The name is in its gap, and its next name is below it.
    NonTerminal,
    /// The hash of the name is in its gap, which may leave out unsigned delegations (RFC 5155 6).
    OptOut,
    /// The name is the zone itself: no record is needed.
    #[default]
    Apex,
}

/// One part of a proof.
#[derive(Clone, Copy, Debug, Default)]
pub struct ProofPart {
    /// What it speaks of.
    pub name: PartName,
    /// How its record is related to that name.
    pub relation: PartRelation,
    /// The record that says so, of lowest number; `None` where the name is the zone itself.
    pub by: Option<RecordNumber>,
}

/// The parts of the form by records of such a chain, in the order of the form.
pub fn form_parts(chain: ChainKind, form: ProofForm<RecordNumber>) -> ArrayVec<ProofPart, 3>
    ensures { result.items ≡ form_parts chain form }
{
    match form {
        ProofForm::NoName(parts) => wildcard_parts(chain, parts, PartRelation::Covered),
        ProofForm::NoData(by) => alone(PartName::Name, PartRelation::Matched, by),
        ProofForm::EmptyNonTerminal(by) => alone(PartName::Name, PartRelation::NonTerminal, by),
        ProofForm::WildcardNoData(parts) => wildcard_parts(chain, parts, PartRelation::Matched),
        ProofForm::EmptyWildcard(parts) => wildcard_parts(chain, parts, PartRelation::NonTerminal),
        ProofForm::NoCloser {
            labels,
            next_closer,
        } => alone(
            PartName::NextCloser(labels),
            PartRelation::Covered,
            next_closer,
        ),
        ProofForm::Delegation { labels, delegation } => {
            alone(PartName::Cut(labels), PartRelation::Matched, delegation)
        }
        ProofForm::OptOut {
            labels,
            encloser,
            next_closer,
        } => opt_out_parts(chain, labels, encloser, next_closer),
        ProofForm::WildcardOptOut(parts) => wildcard_parts(chain, parts, PartRelation::OptOut),
        ProofForm::OptOutCloser {
            labels,
            next_closer,
        } => alone(
            PartName::NextCloser(labels),
            PartRelation::OptOut,
            next_closer,
        ),
    }
}

/// The closest encloser, and the next closer name that Opt-Out may leave out.
fn opt_out_parts(
    chain: ChainKind,
    labels: usize,
    encloser: Option<RecordNumber>,
    next_closer: RecordNumber,
) -> ArrayVec<ProofPart, 3>
    ensures { result.items ≡ opt_out_parts chain labels encloser next_closer }
{
    let mut all = ArrayVec::new();
    all.push(encloser_part(chain, labels, encloser));
    all.push(said(
        PartName::NextCloser(labels),
        PartRelation::OptOut,
        next_closer,
    ));
    all
}

/// The parts of a form that asks of the wildcard, to which the last record is related so.
fn wildcard_parts(
    chain: ChainKind,
    parts: WildcardParts<RecordNumber>,
    relation: PartRelation,
) -> ArrayVec<ProofPart, 3>
    ensures { result.items ≡ wildcard_parts chain parts relation }
{
    let mut all = ArrayVec::new();
    all.push(encloser_part(chain, parts.labels, parts.encloser));
    all.push(said(
        PartName::NextCloser(parts.labels),
        PartRelation::Covered,
        parts.next_closer,
    ));
    all.push(said(PartName::Wildcard(parts.labels), relation, parts.wildcard));
    all
}

/// The closest encloser of so many labels, which is the zone itself where no record shows it.
fn encloser_part(chain: ChainKind, labels: usize, by: Option<RecordNumber>) -> ProofPart
    ensures { result ≡ encloser_part chain labels by }
{
    let Some(number) = by else {
        return ProofPart {
            name: PartName::ClosestEncloser(labels),
            relation: PartRelation::Apex,
            by: None,
        };
    };
    let relation = match chain {
        ChainKind::Nsec => PartRelation::Exists,
        ChainKind::Nsec3 => PartRelation::Matched,
    };
    said(PartName::ClosestEncloser(labels), relation, number)
}

/// The part that a record says.
fn said(name: PartName, relation: PartRelation, by: RecordNumber) -> ProofPart
    ensures { result ≡ record { name = name; relation = relation; by = Some by } }
{
    ProofPart {
        name,
        relation,
        by: Some(by),
    }
}

/// The part that a record says, alone.
fn alone(name: PartName, relation: PartRelation, by: RecordNumber) -> ArrayVec<ProofPart, 3>
    ensures { result.items ≡ record { name = name; relation = relation; by = Some by } ∷ [] }
{
    let mut parts = ArrayVec::new();
    parts.push(said(name, relation, by));
    parts
}
