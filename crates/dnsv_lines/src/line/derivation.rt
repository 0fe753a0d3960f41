//! Lines that say what is trusted and what is signed.
ghost use Rattle.std.specs.Prelude.{◌≡◌};
ghost use Rattle.dnsv_lines.specs.Rows.{signed_row, trusted_row};
ghost use Rattle.dnsv_lines.specs.Sentence.{said, said_sentence};
ghost use Rattle.dnsv_lines.specs.Words as words;

use crate::sentence::Sentence;
use crate::sentence::field::{Field, Value};
use dnsv_canonical::{RecordNumber, SignatureNumber};
use dnsv_names::{Name, RecordType};
use dnsv_records::{Algorithm, DigestType, KeyTag};

/// What a signature or a DS record names a key by, beside its owner (RFC 4034 3.1, 5.1).
#[derive(Clone, Copy, Debug)]
pub struct KeyName {
    pub tag: KeyTag,
    pub algorithm: Algorithm,
}

/// What matches a key, so that it is the first of a derivation or the next one (RFC 4035 5).
#[derive(Clone, Copy, Debug)]
pub enum Voucher {
    /// The DNSKEY record of the trust anchor with the number.
    KeyAnchor(usize),
    /// The DS record of the trust anchor with the number.
    DsAnchor(usize, DigestType),
    /// The record of a DS RRset of the evidence.
    Ds(RecordNumber, DigestType),
}

impl Voucher {
    /// The number of the trust anchor, the RRset and the place of the DS record, and the digest type.
    fn values(
        self,
    ) -> (
        Value<'static>,
        Value<'static>,
        Value<'static>,
        Value<'static>,
    )
        ensures anchor { said result.0 ≡ words.anchor_said self }
        ensures rrset { said result.1 ≡ words.voucher_rrset_said self }
        ensures place { said result.2 ≡ words.voucher_place_said self }
        ensures digest_type { said result.3 ≡ words.digest_said self }
    {
        match self {
            Voucher::KeyAnchor(anchor) => (
                Value::count(anchor),
                Value::Nothing,
                Value::Nothing,
                Value::Nothing,
            ),
            Voucher::DsAnchor(anchor, digest_type) => (
                Value::count(anchor),
                Value::Nothing,
                Value::Nothing,
                Value::Number(u64::from(digest_type.0)),
            ),
            Voucher::Ds(number, digest_type) => (
                Value::Nothing,
                Value::Rrset(number.rrset),
                Value::count(number.place),
                Value::Number(u64::from(digest_type.0)),
            ),
        }
    }
}

/// The number of the RRset of a DS record, where there is one.
pub fn ds_rrset(ds: Option<RecordNumber>) -> Value<'static>
    ensures { said result ≡ words.ds_rrset_said ds }
{
    match ds {
        Some(ds) => Value::Rrset(ds.rrset),
        None => Value::Nothing,
    }
}

/// Its place in it.
pub fn ds_place(ds: Option<RecordNumber>) -> Value<'static>
    ensures { said result ≡ words.ds_place_said ds }
{
    match ds {
        Some(ds) => Value::count(ds.place),
        None => Value::Nothing,
    }
}

/// The number of an entry among those that a verdict depends on, where the verifier doesn't know it.
#[derive(Clone, Copy, Debug)]
pub struct Todo(pub Option<usize>);

/// That a DNSKEY RRset is trusted: a signature is good under one of its own keys, which something matches.
#[derive(Debug, Drop)]
pub struct TrustedKeys {
    /// The owner of the RRset.
    pub zone: Name,
    pub signature: SignatureNumber,
    pub key: KeyName,
    pub voucher: Voucher,
    /// Where the verifier doesn't know the signature, its number among the entries of the verdict.
    pub todo: Todo,
}

impl TrustedKeys {
    /// The line.
    pub fn sentence(&self) -> Sentence<'_>
        ensures { said_sentence result ≡ trusted_row self.now }
    {
        let (anchor, ds_rrset, ds_record, digest_type) = self.voucher.values();
        Sentence::of(
            "trusted",
            &[
                Field::plain("zone", Value::Name(&self.zone)),
                Field::same("rrset", Value::Rrset(self.signature.rrset)),
                Field::same("signature", Value::count(self.signature.signature)),
                Field::under("key", "tag", Value::Number(u64::from(self.key.tag.0))),
                Field::plain("algorithm", Value::Number(u64::from(self.key.algorithm.0))),
                Field::same("anchor", anchor),
                Field::under("ds", "ds_rrset", ds_rrset),
                Field::plain("ds_record", ds_record),
                Field::under("digest", "digest_type", digest_type),
                Field::same("todo", Value::given_count(self.todo.0)),
            ],
        )
    }
}

/// That a signature of an RRset is good under a key of a trusted DNSKEY RRset.
#[derive(Debug, Drop)]
pub struct SignedRrset {
    pub owner: Name,
    pub rtype: RecordType,
    pub signature: SignatureNumber,
    pub key: KeyName,
    /// The signer.
    pub zone: Name,
    /// The number of the trusted DNSKEY RRset.
    pub keys: usize,
    /// Where the verifier doesn't know the signature, its number among the entries of the verdict.
    pub todo: Todo,
}

impl SignedRrset {
    /// The line.
    pub fn sentence(&self) -> Sentence<'_>
        ensures { said_sentence result ≡ signed_row self.now }
    {
        Sentence::of(
            "signed",
            &[
                Field::plain("owner", Value::Name(&self.owner)),
                Field::plain("type", Value::Number(u64::from(self.rtype.0))),
                Field::same("rrset", Value::Rrset(self.signature.rrset)),
                Field::same("signature", Value::count(self.signature.signature)),
                Field::under("key", "tag", Value::Number(u64::from(self.key.tag.0))),
                Field::plain("algorithm", Value::Number(u64::from(self.key.algorithm.0))),
                Field::under("zone", "signer", Value::Name(&self.zone)),
                Field::same("keys", Value::Rrset(self.keys)),
                Field::same("todo", Value::given_count(self.todo.0)),
            ],
        )
    }
}
