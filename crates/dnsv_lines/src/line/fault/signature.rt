//! Lines that say why a signature proves nothing.
ghost use Rattle.std.specs.Prelude.{◌≡◌, map};
ghost use Rattle.dnsv_lines.specs.Rows.{closer_row, shown_fields, signature_fault_row, unsigned_row, untrusted_row};
ghost use Rattle.dnsv_lines.specs.Sentence.{Number, reason_word, said, said_field, said_sentence};
ghost use Rattle.dnsv_lines.specs.Words as words;

use crate::line::derivation::KeyName;
use crate::sentence::field::{Field, Value};
use crate::sentence::{ReasonWord, Sentence};
use dnsv_canonical::SignatureNumber;
use dnsv_names::{Name, RecordType};
use dnsv_records::{Expiration, Inception};

/// A signature of an RRset, with the key that it names.
#[derive(Debug, Drop)]
pub struct ShownSignature {
    /// The owner of the RRset.
    pub owner: Name,
    pub rtype: RecordType,
    pub number: SignatureNumber,
    /// What the signature names its key by.
    pub key: KeyName,
    pub signer: Name,
}

impl ShownSignature {
    /// The fields of the signature.
    fn fields(&self) -> [Field<'_>; 7]
        ensures { map said_field result ≡ shown_fields self.now }
    {
        [
            Field::plain("owner", Value::Name(&self.owner)),
            Field::plain("type", Value::Number(u64::from(self.rtype.0))),
            Field::same("rrset", Value::Rrset(self.number.rrset)),
            Field::same("signature", Value::count(self.number.signature)),
            Field::under("key", "tag", Value::Number(u64::from(self.key.tag.0))),
            Field::plain("algorithm", Value::Number(u64::from(self.key.algorithm.0))),
            Field::under("zone", "signer", Value::Name(&self.signer)),
        ]
    }
}

/// From when to when a signature is valid, and how many seconds the moment is off.
#[derive(Clone, Copy, Debug)]
pub struct SignatureTimes {
    pub inception: Inception,
    pub expiration: Expiration,
    pub by: u32,
}

impl SignatureTimes {
    /// Each of them.
    fn values(self) -> (Value<'static>, Value<'static>, Value<'static>)
        ensures inception { said result.0 ≡ Number self.inception.0 }
        ensures expiration { said result.1 ≡ Number self.expiration.0 }
        ensures by { said result.2 ≡ Number self.by }
    {
        (
            Value::Number(u64::from(self.inception.0)),
            Value::Number(u64::from(self.expiration.0)),
            Value::Number(u64::from(self.by)),
        )
    }
}

/// Why a signature proves nothing (RFC 4035 5.3.1, 5.3.3).
#[derive(Clone, Copy, Debug)]
pub enum WhySignature {
    /// It counts more labels than the owner has.
    Labels,
    /// The signer can't be the zone of the RRset.
    Signer,
    /// A wildcard stands for no RRset of this type.
    Expanded,
    /// Its algorithm isn't supported.
    Algorithm,
    /// The moment is before its inception.
    NotYet(SignatureTimes),
    /// The moment is behind its expiration.
    Expired(SignatureTimes),
    /// No key of the signer has its tag and its algorithm.
    KeyMissing,
    /// None of those that have is a zone key.
    NotZoneKey,
    /// The verifier takes it for invalid under each key that may have made it.
    Bad,
    /// The verifier doesn't know it.
    Unanswered,
    /// It is good under a key of the trusted signer that no trusted DNSKEY RRset holds.
    KeyUntrusted,
}

impl WhySignature {
    /// The word, and the number of the extended DNS error (RFC 8914).
    pub fn word(self) -> ReasonWord
        ensures { reason_word result ≡ words.signature_word self }
    {
        match self {
            WhySignature::Labels => ReasonWord::of("labels", 6),
            WhySignature::Signer => ReasonWord::of("signer", 6),
            WhySignature::Expanded => ReasonWord::of("expanded", 6),
            WhySignature::Algorithm => ReasonWord::of("algorithm", 1),
            WhySignature::NotYet(_) => ReasonWord::of("not-yet", 8),
            WhySignature::Expired(_) => ReasonWord::of("expired", 7),
            WhySignature::KeyMissing => ReasonWord::of("key-missing", 9),
            WhySignature::NotZoneKey => ReasonWord::of("not-zone-key", 11),
            WhySignature::Bad => ReasonWord::of("bad", 6),
            WhySignature::Unanswered => ReasonWord::of("unanswered", 0),
            WhySignature::KeyUntrusted => ReasonWord::of("key-untrusted", 9),
        }
    }

    /// Where its times are what is wrong, the inception, the expiration and how many seconds the moment is off.
    fn times(self) -> (Value<'static>, Value<'static>, Value<'static>)
        ensures inception { said result.0 ≡ words.inception_said self }
        ensures expiration { said result.1 ≡ words.expiration_said self }
        ensures by { said result.2 ≡ words.off_said self }
    {
        match self {
            WhySignature::NotYet(times) => times.values(),
            WhySignature::Expired(times) => times.values(),
            _ => (Value::Nothing, Value::Nothing, Value::Nothing),
        }
    }
}

/// That a signature proves nothing, and why.
#[derive(Debug, Drop)]
pub struct SignatureFault {
    pub why: WhySignature,
    pub signature: ShownSignature,
}

impl SignatureFault {
    /// The line.
    pub fn sentence(&self) -> Sentence<'_>
        ensures { said_sentence result ≡ signature_fault_row self.now }
    {
        let word = self.why.word();
        let (inception, expiration, by) = self.why.times();
        let [owner, rtype, rrset, signature, tag, algorithm, signer] = self.signature.fields();
        Sentence::reason(
            word,
            &[
                owner,
                rtype,
                rrset,
                signature,
                tag,
                algorithm,
                signer,
                Field::under("from", "inception", inception),
                Field::under("to", "expiration", expiration),
                Field::same("by", by),
            ],
        )
    }
}

/// That a wildcard was signed, and no record shows that there is no closer name (RFC 4035 5.3.4).
#[derive(Debug, Drop)]
pub struct CloserName {
    pub signature: ShownSignature,
    /// The name that would have to be covered.
    pub name: Name,
}

impl CloserName {
    /// The line.
    pub fn sentence(&self) -> Sentence<'_>
        ensures { said_sentence result ≡ closer_row self.now }
    {
        let [owner, rtype, rrset, signature, tag, algorithm, signer] = self.signature.fields();
        let name = Field::same("name", Value::Name(&self.name));
        Sentence::reason(
            ReasonWord::of("no-closer", 12),
            &[owner, rtype, rrset, signature, tag, algorithm, signer, name],
        )
    }
}

/// That nothing else is wrong with a signature, but its signer isn't trusted.
#[derive(Debug, Drop)]
pub struct UntrustedSigner {
    pub signature: ShownSignature,
}

impl UntrustedSigner {
    /// The line.
    pub fn sentence(&self) -> Sentence<'_>
        ensures { said_sentence result ≡ untrusted_row self.now }
    {
        Sentence::follows("untrusted", &self.signature.fields())
    }
}

/// That an RRset has no signatures in its message and section.
#[derive(Debug, Drop)]
pub struct UnsignedRrset {
    pub owner: Name,
    pub rtype: RecordType,
    pub rrset: usize,
}

impl UnsignedRrset {
    /// The line.
    pub fn sentence(&self) -> Sentence<'_>
        ensures { said_sentence result ≡ unsigned_row self.now }
    {
        Sentence::reason(
            ReasonWord::of("unsigned", 10),
            &[
                Field::plain("owner", Value::Name(&self.owner)),
                Field::plain("type", Value::Number(u64::from(self.rtype.0))),
                Field::same("rrset", Value::Rrset(self.rrset)),
            ],
        )
    }
}
