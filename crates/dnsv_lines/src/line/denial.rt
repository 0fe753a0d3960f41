//! Lines that say how a denial is proved.
ghost use Rattle.std.specs.Prelude.{◌≡◌};
ghost use Rattle.dnsv_lines.specs.Rows.{part_row, proof_row};
ghost use Rattle.dnsv_lines.specs.Sentence.{said, said_sentence};
ghost use Rattle.dnsv_lines.specs.Words as words;

use crate::sentence::Sentence;
use crate::sentence::field::{Field, Value};
use dnsv_canonical::RecordNumber;
use dnsv_names::{Name, RecordType};

/// How a denial is proved (RFC 4035 5.4, RFC 5155 8.4 to 8.8).
#[derive(Clone, Copy, Debug, PartialEq, Eq)]
pub enum Form {
    /// There is no such name, and no wildcard that would stand for it.
    NoName,
    /// A record is at the name, without the type.
    NoData1,
    /// The name is an empty non-terminal.
    NoData2,
    /// A wildcard stands for the name, without the type.
    NoData3,
    /// A wildcard that is an empty non-terminal stands for the name.
    NoData4,
    /// There is no closer name than the wildcard.
    NoCloser,
    /// A name that an Opt-Out span may leave out.
    OptOut,
}

impl Form {
    /// The word.
    pub fn word(self) -> &'static str
        ensures { result.now ≡ words.form_word self }
    {
        match self {
            Form::NoName => "no-name",
            Form::NoData1 => "no-data-1",
            Form::NoData2 => "no-data-2",
            Form::NoData3 => "no-data-3",
            Form::NoData4 => "no-data-4",
            Form::NoCloser => "no-closer",
            Form::OptOut => "opt-out",
        }
    }
}

/// The records that prove it.
#[derive(Clone, Copy, Debug, PartialEq, Eq)]
pub enum Chain {
    Nsec,
    Nsec3,
}

impl Chain {
    /// The word.
    pub fn word(self) -> &'static str
        ensures { result.now ≡ words.chain_word self }
    {
        match self {
            Chain::Nsec => "nsec",
            Chain::Nsec3 => "nsec3",
        }
    }
}

/// That records of the zone prove a denial. Their parts follow.
#[derive(Debug, Drop)]
pub struct Proof {
    pub form: Form,
    pub chain: Chain,
    pub zone: Name,
    /// The closest encloser, where the form speaks of one.
    pub encloser: Option<Name>,
}

impl Proof {
    /// The line.
    pub fn sentence(&self) -> Sentence<'_>
        ensures { said_sentence result ≡ proof_row self.now }
    {
        Sentence::of(
            "proof",
            &[
                Field::plain("form", Value::Word(self.form.word())),
                Field::plain("kind", Value::Word(self.chain.word())),
                Field::same("zone", Value::Name(&self.zone)),
                Field::same("encloser", Value::given_name(&self.encloser)),
            ],
        )
    }
}

/// What a part of a proof is for.
#[derive(Clone, Copy, Debug, PartialEq, Eq)]
pub enum Role {
    ClosestEncloser,
    NextCloser,
    Wildcard,
    Name,
    Cut,
}

impl Role {
    /// The word.
    pub fn word(self) -> &'static str
        ensures { result.now ≡ words.role_word self }
    {
        match self {
            Role::ClosestEncloser => "closest-encloser",
            Role::NextCloser => "next-closer",
            Role::Wildcard => "wildcard",
            Role::Name => "name",
            Role::Cut => "cut",
        }
    }
}

/// What a record says of the name of a part.
#[derive(Clone, Copy, Debug, PartialEq, Eq)]
pub enum Relation {
    /// Its owner, or its hash, is the name's.
    Matched,
    /// Its owner or next name is at or below the name.
    Exists,
    /// The name is in its gap, and it says that no such name is there.
    Covered,
    /// The name is an empty non-terminal, by its next name.
    NonTerminal,
    /// The hash of the name is in its gap, which may leave out unsigned delegations.
    OptOut,
    /// The name is the zone itself: no record is needed.
    Apex,
}

impl Relation {
    /// The word.
    pub fn word(self) -> &'static str
        ensures { result.now ≡ words.relation_word self }
    {
        match self {
            Relation::Matched => "matched",
            Relation::Exists => "exists",
            Relation::Covered => "covered",
            Relation::NonTerminal => "non-terminal",
            Relation::OptOut => "opt-out",
            Relation::Apex => "apex",
        }
    }
}

/// A record of the evidence, with what it stands at.
#[derive(Debug, Drop)]
pub struct RecordPlace {
    pub owner: Name,
    pub rtype: RecordType,
    pub number: RecordNumber,
}

/// One part of a proof: what a record says of a name.
#[derive(Debug, Drop)]
pub struct Part {
    pub role: Role,
    pub relation: Relation,
    pub name: Name,
    /// The record that says it, where one is needed.
    pub by: Option<RecordPlace>,
}

impl Part {
    /// The line.
    pub fn sentence(&self) -> Sentence<'_>
        ensures { said_sentence result ≡ part_row self.now }
    {
        let (owner, rtype, rrset, place) = record_values(&self.by);
        Sentence::of(
            "part",
            &[
                Field::plain("role", Value::Word(self.role.word())),
                Field::plain("relation", Value::Word(self.relation.word())),
                Field::plain("name", Value::Name(&self.name)),
                Field::under("by", "owner", owner),
                Field::plain("type", rtype),
                Field::same("rrset", rrset),
                Field::same("record", place),
            ],
        )
    }
}

/// Of the record that says it, where one is needed, the owner, the type, the RRset and the place.
fn record_values(by: &Option<RecordPlace>) -> (Value<'_>, Value<'_>, Value<'_>, Value<'_>)
    ensures owner { said result.0 ≡ words.owner_said by.now }
    ensures rtype { said result.1 ≡ words.rtype_said by.now }
    ensures rrset { said result.2 ≡ words.rrset_said by.now }
    ensures place { said result.3 ≡ words.place_said by.now }
{
    match by {
        Some(by) => (
            Value::Name(&by.owner),
            Value::Number(u64::from(by.rtype.0)),
            Value::Rrset(by.number.rrset),
            Value::count(by.number.place),
        ),
        None => (
            Value::Nothing,
            Value::Nothing,
            Value::Nothing,
            Value::Nothing,
        ),
    }
}
