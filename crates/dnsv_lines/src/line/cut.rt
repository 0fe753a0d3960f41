//! Lines that say why a name may lie in a zone that isn't signed.
ghost use Rattle.std.specs.Prelude.{◌≡◌};
ghost use Rattle.dnsv_lines.specs.Rows.{case_row, unusable_row};
ghost use Rattle.dnsv_lines.specs.Sentence.{said_sentence};
ghost use Rattle.dnsv_lines.specs.Words as words;

use crate::line::derivation::KeyName;
use crate::sentence::Sentence;
use crate::sentence::field::{Field, Value};
use dnsv_canonical::RecordNumber;
use dnsv_names::Name;
use dnsv_records::DigestType;

/// Why a name may lie in a zone that isn't signed. Each has a number that stays.
#[derive(Clone, Copy, Debug)]
pub enum InsecureCase {
    /// 1: a delegation without DS (RFC 4035 5.2).
    UnsignedDelegation,
    /// 2: a DS RRset without a record that can be used (RFC 4035 5.2).
    UnusableDs,
    /// 3: an Opt-Out span may leave the name out (RFC 5155 6, 9.2).
    OptOut,
    /// 4: an Opt-Out span may leave out a name that is closer than a wildcard (RFC 5155 8.8).
    OptOutWildcard,
}

impl InsecureCase {
    /// The number of the case.
    pub fn number(self) -> u8
        ensures { result ≡ words.case_number self }
    {
        match self {
            InsecureCase::UnsignedDelegation => 1,
            InsecureCase::UnusableDs => 2,
            InsecureCase::OptOut => 3,
            InsecureCase::OptOutWildcard => 4,
        }
    }
}

/// The name at which a zone that isn't signed may begin.
#[derive(Debug, Drop)]
pub struct Cut {
    pub case: InsecureCase,
    pub name: Name,
    /// The zone whose records show it, where the case names one.
    pub zone: Option<Name>,
}

impl Cut {
    /// The line.
    pub fn sentence(&self) -> Sentence<'_>
        ensures { said_sentence result ≡ case_row self.now }
    {
        let case = u64::from(self.case.number());
        Sentence::of(
            "case",
            &[
                Field::plain("case", Value::Number(case)),
                Field::same("cut", Value::Name(&self.name)),
                Field::same("zone", Value::given_name(&self.zone)),
            ],
        )
    }
}

/// Why a record of a DS RRset can't be used: the first that is so.
#[derive(Clone, Copy, Debug)]
pub enum WhyUnusable {
    /// Its algorithm isn't supported.
    Algorithm,
    /// Its digest type isn't supported.
    DigestType,
    /// Its RRset has a stronger digest type (RFC 4509 3).
    DigestIgnored,
}

impl WhyUnusable {
    /// The word.
    pub fn word(self) -> &'static str
        ensures { result.now ≡ words.why_word self }
    {
        match self {
            WhyUnusable::Algorithm => "algorithm",
            WhyUnusable::DigestType => "digest-type",
            WhyUnusable::DigestIgnored => "digest-ignored",
        }
    }
}

/// That a record of a DS RRset can't be used, and which key it asks for.
#[derive(Debug, Drop)]
pub struct UnusableDs {
    pub why: WhyUnusable,
    pub owner: Name,
    pub number: RecordNumber,
    pub key: KeyName,
    pub digest_type: DigestType,
}

impl UnusableDs {
    /// The line.
    pub fn sentence(&self) -> Sentence<'_>
        ensures { said_sentence result ≡ unusable_row self.now }
    {
        Sentence::of(
            "unusable",
            &[
                Field::plain("why", Value::Word(self.why.word())),
                Field::plain("owner", Value::Name(&self.owner)),
                Field::same("rrset", Value::Rrset(self.number.rrset)),
                Field::same("record", Value::count(self.number.place)),
                Field::under("wants", "tag", Value::Number(u64::from(self.key.tag.0))),
                Field::plain("algorithm", Value::Number(u64::from(self.key.algorithm.0))),
                Field::under(
                    "digest",
                    "digest_type",
                    Value::Number(u64::from(self.digest_type.0)),
                ),
            ],
        )
    }
}
