//! Lines that say why nothing answers a question, and why denials don't.
ghost use Rattle.std.specs.Prelude.{◌≡◌};
ghost use Rattle.dnsv_lines.specs.Rows.{denial_unproved_row, dname_row, missing_answer_row, nsec3_row, source_fault_row};
ghost use Rattle.dnsv_lines.specs.Sentence.{reason_word, said, said_sentence};
ghost use Rattle.dnsv_lines.specs.Words as words;

use crate::line::denial::{Chain, Role};
use crate::line::fault::denial::parameters::SourceParameters;
use crate::sentence::field::{Field, Value};
use crate::sentence::{ReasonWord, Sentence};
use dnsv_canonical::RecordNumber;
use dnsv_names::{Name, RecordType};
use dnsv_records::Iterations;

pub mod parameters;

/// That a DNAME stands above the question's name: the RRset, or the record of a denial that has the type.
#[derive(Debug, Drop)]
pub struct DnameAbove {
    pub name: Name,
    pub rrset: usize,
    /// The place of the record, where it is one of a denial.
    pub place: Option<usize>,
}

impl DnameAbove {
    /// The line.
    pub fn sentence(&self) -> Sentence<'_>
        ensures { said_sentence result ≡ dname_row self.now }
    {
        Sentence::reason(
            ReasonWord::of("dname", 0),
            &[
                Field::plain("name", Value::Name(&self.name)),
                Field::same("rrset", Value::Rrset(self.rrset)),
                Field::same("record", Value::given_count(self.place)),
            ],
        )
    }
}

/// Why an NSEC3 record can't be used.
#[derive(Clone, Copy, Debug)]
pub enum WhyNsec3 {
    /// It asks for more iterations than this profile takes (RFC 5155 10.3).
    Iterations(Iterations),
    /// It is no record that this profile knows, or not the zone's (RFC 5155 3, 8.1, 8.2).
    Unusable,
}

impl WhyNsec3 {
    /// The word, and the number of the extended DNS error (RFC 8914, RFC 9276).
    pub fn word(self) -> ReasonWord
        ensures { reason_word result ≡ words.nsec3_word self }
    {
        match self {
            WhyNsec3::Iterations(_) => ReasonWord::of("nsec3-iterations", 27),
            WhyNsec3::Unusable => ReasonWord::of("nsec3-unusable", 6),
        }
    }

    /// How many iterations, where these are too many.
    fn iterations(self) -> Value<'static>
        ensures { said result ≡ words.iterations_said self }
    {
        match self {
            WhyNsec3::Iterations(iterations) => Value::Number(u64::from(iterations.0)),
            WhyNsec3::Unusable => Value::Nothing,
        }
    }
}

/// That an NSEC3 record can't be used, and why.
#[derive(Debug, Drop)]
pub struct UnusableNsec3 {
    pub why: WhyNsec3,
    pub owner: Name,
    pub number: RecordNumber,
}

impl UnusableNsec3 {
    /// The line.
    pub fn sentence(&self) -> Sentence<'_>
        ensures { said_sentence result ≡ nsec3_row self.now }
    {
        let word = self.why.word();
        Sentence::reason(
            word,
            &[
                Field::plain("owner", Value::Name(&self.owner)),
                Field::plain("type", Value::Number(50)),
                Field::same("rrset", Value::Rrset(self.number.rrset)),
                Field::same("record", Value::count(self.number.place)),
                Field::same("iterations", self.why.iterations()),
            ],
        )
    }
}

/// The records of one zone that may prove a denial: those of NSEC, or those of NSEC3 with the same parameters.
#[derive(Debug, Drop)]
pub struct Source {
    pub zone: Name,
    /// Where they are of NSEC3.
    pub parameters: Option<SourceParameters>,
}

impl Source {
    /// The records' type.
    fn kind(&self) -> Chain
        ensures { result ≡ words.kind_of self.now.parameters }
    {
        match &self.parameters {
            Some(_) => Chain::Nsec3,
            None => Chain::Nsec,
        }
    }

    /// How many more times than once a name is hashed.
    fn iterations(&self) -> Value<'_>
        ensures { said result ≡ words.source_iterations_said self.now.parameters }
    {
        match &self.parameters {
            Some(parameters) => Value::Number(u64::from(parameters.iterations().0)),
            None => Value::Nothing,
        }
    }

    /// What the names are hashed with besides.
    fn salt(&self) -> Value<'_>
        ensures { said result ≡ words.source_salt_said self.now.parameters }
    {
        match &self.parameters {
            Some(parameters) => Value::Salt(parameters.salt()),
            None => Value::Nothing,
        }
    }
}

/// What keeps the records of a zone from proving a denial (RFC 4035 5.4, RFC 5155 8).
#[derive(Clone, Copy, Debug)]
pub enum WhySource {
    /// A delegation stands at the name, whose record denies nothing there and below (RFC 6840 4.1).
    Delegation(RecordNumber),
    /// The record at the name has the type.
    TypeHeld(RecordNumber, RecordType),
    /// No record is at the name.
    MatchMissing,
    /// No record shows an ancestor of the name to be there.
    EncloserMissing,
    /// No record covers the name.
    CoverMissing(Role),
}

impl WhySource {
    /// The word, and the number of the extended DNS error (RFC 8914).
    pub fn word(self) -> ReasonWord
        ensures { reason_word result ≡ words.source_word self }
    {
        match self {
            WhySource::Delegation(_) => ReasonWord::of("delegation", 12),
            WhySource::TypeHeld(_, _) => ReasonWord::of("type-held", 12),
            WhySource::MatchMissing => ReasonWord::of("match-missing", 12),
            WhySource::EncloserMissing => ReasonWord::of("encloser-missing", 12),
            WhySource::CoverMissing(_) => ReasonWord::of("cover-missing", 12),
        }
    }

    /// What the record that is missing would be for; of the record that is in the way its RRset, its place, and the type
    /// that it has.
    fn values(
        self,
    ) -> (
        Value<'static>,
        Value<'static>,
        Value<'static>,
        Value<'static>,
    )
        ensures role { said result.0 ≡ words.missing_role_said self }
        ensures rrset { said result.1 ≡ words.source_rrset_said self }
        ensures place { said result.2 ≡ words.source_place_said self }
        ensures held { said result.3 ≡ words.held_said self }
    {
        match self {
            WhySource::Delegation(number) => (
                Value::Nothing,
                Value::Rrset(number.rrset),
                Value::count(number.place),
                Value::Nothing,
            ),
            WhySource::TypeHeld(number, held) => (
                Value::Nothing,
                Value::Rrset(number.rrset),
                Value::count(number.place),
                Value::Number(u64::from(held.0)),
            ),
            WhySource::CoverMissing(role) => (
                Value::Word(role.word()),
                Value::Nothing,
                Value::Nothing,
                Value::Nothing,
            ),
            _ => (
                Value::Nothing,
                Value::Nothing,
                Value::Nothing,
                Value::Nothing,
            ),
        }
    }
}

/// What keeps the records of a zone from proving a denial, and at which name.
#[derive(Debug, Drop)]
pub struct SourceFault {
    pub why: WhySource,
    pub source: Source,
    pub name: Name,
}

impl SourceFault {
    /// The line.
    pub fn sentence(&self) -> Sentence<'_>
        ensures { said_sentence result ≡ source_fault_row self.now }
    {
        let word = self.why.word();
        let source = &self.source;
        let (role, rrset, place, held) = self.why.values();
        Sentence::reason(
            word,
            &[
                Field::plain("kind", Value::Word(source.kind().word())),
                Field::plain("zone", Value::Name(&source.zone)),
                Field::same("iterations", source.iterations()),
                Field::same("salt", source.salt()),
                Field::same("role", role),
                Field::same("name", Value::Name(&self.name)),
                Field::same("rrset", rrset),
                Field::same("record", place),
                Field::under("holds", "held", held),
            ],
        )
    }
}

/// That there is neither an answer to the question nor a denial of the zone that should speak, where there is one.
#[derive(Debug, Drop)]
pub struct MissingAnswer {
    pub name: Name,
    pub rtype: RecordType,
    pub zone: Option<Name>,
}

impl MissingAnswer {
    /// The line.
    pub fn sentence(&self) -> Sentence<'_>
        ensures { said_sentence result ≡ missing_answer_row self.now }
    {
        Sentence::reason(
            ReasonWord::of("answer-missing", 12),
            &[
                Field::plain("name", Value::Name(&self.name)),
                Field::plain("type", Value::Number(u64::from(self.rtype.0))),
                Field::same("zone", Value::given_name(&self.zone)),
            ],
        )
    }
}

/// That there is no answer to the question, and the denials of the zone that should speak prove nothing.
#[derive(Debug, Drop)]
pub struct DenialUnproved {
    pub name: Name,
    pub rtype: RecordType,
    pub zone: Name,
}

impl DenialUnproved {
    /// The line.
    pub fn sentence(&self) -> Sentence<'_>
        ensures { said_sentence result ≡ denial_unproved_row self.now }
    {
        Sentence::reason(
            ReasonWord::of("denial-unproved", 12),
            &[
                Field::plain("name", Value::Name(&self.name)),
                Field::plain("type", Value::Number(u64::from(self.rtype.0))),
                Field::same("zone", Value::Name(&self.zone)),
            ],
        )
    }
}
