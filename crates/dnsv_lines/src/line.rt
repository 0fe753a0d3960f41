//! The lines of an explanation.

pub mod cut;
pub mod denial;
pub mod derivation;
pub mod fault;
pub mod interval;
pub mod place;

ghost use Rattle.std.specs.Prelude.{◌≡◌, Some};
ghost use Rattle.dnsv_lines.specs.Rows.{hope_row, line_text, sentence_of};
ghost use Rattle.dnsv_lines.specs.Sentence.{said_sentence};
ghost use Rattle.dnsv_lines.specs.Words.{kind_word};

use crate::line::cut::{Cut, UnusableDs};
use crate::line::denial::{Part, Proof};
use crate::line::derivation::{SignedRrset, TrustedKeys};
use crate::line::fault::Reason;
use crate::line::fault::key::ShownKey;
use crate::line::fault::signature::UntrustedSigner;
use crate::line::interval::Interval;
use crate::line::place::RrsetPlace;
use crate::sentence::Sentence;
use crate::sentence::field::{Field, Value};
use std::fmt;

/// A fact of the evidence. RRsets, signatures, records and trust anchors are numbered from 1.
#[derive(Debug, Drop)]
pub enum Line {
    /// A DNSKEY RRset is trusted (RFC 4035 5).
    Trusted(TrustedKeys),
    /// A signature is good under a trusted key (RFC 4035 5.3).
    Signed(SignedRrset),
    /// A denial is proved (RFC 4035 5.4, RFC 5155 8).
    Proof(Proof),
    /// What one record says for a proof.
    Part(Part),
    /// Why a name may lie in a zone that isn't signed (RFC 4035 5.2).
    Case(Cut),
    /// A record of a DS RRset can't be used.
    Unusable(UnusableDs),
    /// What the verdict would be if each signature that the verifier doesn't know were valid.
    Hope(Kind),
    /// From when to when the signatures of the lines before it are valid.
    Holds(Interval),
    /// A fact that keeps the evidence from proving more.
    Reason(Reason),
    /// A signature proves nothing because its signer isn't trusted.
    Follows(UntrustedSigner),
    /// A DNSKEY record, with what is good under it and what matches it.
    Key(ShownKey),
    /// Where an RRset stands.
    Rrset(RrsetPlace),
}

impl Line {
    /// The words and the fields that stand for the line.
    pub fn sentence(&self) -> Sentence<'_>
        ensures { said_sentence result ≡ sentence_of self.now }
    {
        match self {
            Line::Trusted(keys) => keys.sentence(),
            Line::Signed(rrset) => rrset.sentence(),
            Line::Proof(proof) => proof.sentence(),
            Line::Part(part) => part.sentence(),
            Line::Case(cut) => cut.sentence(),
            Line::Unusable(ds) => ds.sentence(),
            Line::Hope(kind) => kind.sentence(),
            Line::Holds(interval) => interval.sentence(),
            Line::Reason(reason) => reason.sentence(),
            Line::Follows(untrusted) => untrusted.sentence(),
            Line::Key(key) => key.sentence(),
            Line::Rrset(place) => place.sentence(),
        }
    }
}

/// The text of the line, without its end.
impl fmt::Display for Line {
    ghost output = { λ line. Some (line_text line) };

    fn fmt<W: fmt::Write>(&self, f: &mut fmt::Formatter<W>) -> fmt::Result {
        let sentence = self.sentence();
        write!(f, "{sentence}")
    }
}

/// A verdict that needs no more answers of the verifier, without what carries it.
#[derive(Clone, Copy, Debug)]
pub enum Kind {
    SecureAnswer,
    SecureAlias,
    SecureNoName,
    SecureNoData,
    Insecure,
}

impl Kind {
    /// The verdict's word.
    pub fn word(self) -> &'static str
        ensures { result.now ≡ kind_word self }
    {
        match self {
            Kind::SecureAnswer => "SecureAnswer",
            Kind::SecureAlias => "SecureAlias",
            Kind::SecureNoName => "SecureNoName",
            Kind::SecureNoData => "SecureNoData",
            Kind::Insecure => "Insecure",
        }
    }

    /// The line that hopes for it.
    pub fn sentence(self) -> Sentence<'static>
        ensures { said_sentence result ≡ hope_row self }
    {
        Sentence::of("hope", &[Field::plain("kind", Value::Word(self.word()))])
    }
}
