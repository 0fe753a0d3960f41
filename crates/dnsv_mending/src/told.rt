//! What is reported of what fails.
ghost use Rattle.std.specs.Prelude.{◌≡◌};
ghost use Rattle.dnsv_mending.specs.Told.{cost, entry_cost, signature_cost};

use crate::price::{Class, Price};
use dnsv_canonical::{RecordNumber, SignatureNumber};
use dnsv_lines::{EntryNumber, WhyEntry, WhySignature, WhyZone};

/// What a line says that is reported, by the numbers of what it speaks of: anchors, RRsets, records and signatures have
/// those of the evidence, and a zone, which is at or above the name that is asked for, that of its labels.
#[derive(Clone, Copy, Debug)]
pub enum Told {
    /// A zone lacks something.
    Zone(WhyZone, usize),
    /// A trust anchor or a DS record matches no key.
    Entry(WhyEntry, EntryNumber),
    /// A DNSKEY RRset has signatures, and none by this key in it (RFC 4035 5.2).
    NotSelfSigned(RecordNumber),
    /// No trust anchor and no DS record fits a key of this DNSKEY RRset (RFC 4035 5).
    NotVouched(usize),
    /// An RRset has no signatures.
    Unsigned(usize),
    /// A signature proves nothing.
    Signature(WhySignature, SignatureNumber),
    /// A signature proves nothing because its signer isn't trusted.
    Follows(SignatureNumber),
}

impl Told {
    /// What it costs to mend what it says: one fault of its class; nothing, where that is mended with something else.
    pub fn cost(self) -> Price
        ensures { result ≡ cost self }
    {
        match self {
            Told::Zone(..) => Price::one(Class::Missing),
            Told::Entry(why, number) => entry_cost(why, number),
            Told::NotSelfSigned(_) => Price::one(Class::NotSigning),
            Told::NotVouched(_) => Price::one(Class::NotFitting),
            Told::Unsigned(_) => Price::one(Class::Stripped),
            Told::Signature(why, _) => signature_cost(why),
            Told::Follows(_) => Price::none(),
        }
    }
}

/// What a trust anchor or a DS record costs.
fn entry_cost(why: WhyEntry, number: EntryNumber) -> Price
    ensures { result ≡ entry_cost why number }
{
    match (why, number) {
        (WhyEntry::Algorithm | WhyEntry::DigestType | WhyEntry::DigestIgnored, _) => {
            Price::one(Class::Stripped)
        }
        (_, EntryNumber::Anchor(_)) => Price::one(Class::Lacking),
        (_, EntryNumber::Ds(_)) => Price::one(Class::NotFitting),
    }
}

/// What a signature costs.
fn signature_cost(why: WhySignature) -> Price
    ensures { result ≡ signature_cost why }
{
    match why {
        WhySignature::Labels | WhySignature::Signer | WhySignature::Expanded => {
            Price::one(Class::Unfit)
        }
        WhySignature::Algorithm | WhySignature::KeyMissing => Price::one(Class::Lacking),
        WhySignature::NotYet(_) | WhySignature::Expired(_) => Price::one(Class::Time),
        WhySignature::NotZoneKey => Price::one(Class::NotFitting),
        WhySignature::Bad => Price::one(Class::Bad),
        WhySignature::Unanswered => Price::one(Class::Unanswered),
        WhySignature::KeyUntrusted => Price::none(),
    }
}
