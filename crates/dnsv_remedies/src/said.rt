//! What is reported of a question that nothing answers.
ghost use Rattle.std.specs.Prelude.{◌≡◌};
ghost use Rattle.dnsv_mending.specs.Reasons as trust;
ghost use Rattle.dnsv_remedies.specs.Said.{is_reason};

use crate::facts::name::{AskedName, CutNumber, SourceNumber};
use crate::facts::question::DnameFacts;
use dnsv_canonical::{RecordNumber, SignatureNumber};
use dnsv_lines::{WhyNsec3, WhySource};
use dnsv_mending::Told;

/// What a line says that is reported, by the numbers of what it speaks of: RRsets, records and signatures have those of the
/// evidence, and a name at or above the name that is asked for has that of its labels.
#[derive(Clone, Copy, Debug)]
pub enum Said {
    /// What keeps a zone from being trusted, or an RRset from being signed.
    Trust(Told),
    /// A wildcard's signature proves nothing, since a closer name may be there: the one with so many labels (RFC 4035 5.3.4).
    NoCloser(SignatureNumber, usize),
    /// A name above has a DNAME RRset, and no answer is made of it (RFC 6672).
    Dname(DnameFacts),
    /// A record of a denial has the type DNAME, above the name: the labels of the record's name.
    DnameHeld(usize, RecordNumber),
    /// An NSEC3 record can't be used.
    Nsec3(WhyNsec3, RecordNumber),
    /// The records of a source don't prove something of a name.
    Source(WhySource, SourceNumber, AskedName),
    /// There is neither an answer nor a denial of the zone that should speak, where there is one.
    AnswerMissing(Option<usize>),
    /// There is no answer, and the denials of the zone prove nothing.
    DenialUnproved(usize),
    /// A name may be an unsigned delegation, and the zone doesn't prove it.
    DsUnproved(CutNumber),
}

impl Said {
    /// Whether it says what fails, and not only what follows from that.
    pub fn is_reason(self) -> bool
        ensures { result ≡ is_reason self }
    {
        match self {
            Said::Trust(told) => is_trust_reason(told),
            Said::NoCloser(..)
            | Said::Dname(_)
            | Said::DnameHeld(..)
            | Said::Nsec3(..)
            | Said::Source(..)
            | Said::AnswerMissing(_)
            | Said::DenialUnproved(_)
            | Said::DsUnproved(_) => true,
        }
    }
}

/// The same, of what keeps a zone from being trusted or an RRset from being signed.
fn is_trust_reason(told: Told) -> bool
    ensures { result ≡ trust.is_reason told }
{
    match told {
        Told::Follows(_) => false,
        Told::Zone(..)
        | Told::Entry(..)
        | Told::NotSelfSigned(_)
        | Told::NotVouched(_)
        | Told::Unsigned(_)
        | Told::Signature(..) => true,
    }
}
