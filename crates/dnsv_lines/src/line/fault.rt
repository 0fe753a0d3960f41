//! Lines that say what fails, each by a word and its extended DNS error (RFC 8914).

pub mod denial;
pub mod key;
pub mod signature;
pub mod zone;

ghost use Rattle.std.specs.Prelude.{◌≡◌};
ghost use Rattle.dnsv_lines.specs.Rows.{reason_row};
ghost use Rattle.dnsv_lines.specs.Sentence.{said_sentence};

use crate::line::fault::denial::{
    DenialUnproved, DnameAbove, MissingAnswer, SourceFault, UnusableNsec3,
};
use crate::line::fault::signature::{CloserName, SignatureFault, UnsignedRrset};
use crate::line::fault::zone::{
    DsUnproved, EntryFault, KeyWithoutSignature, KeysNotVouched, ZoneFault,
};
use crate::sentence::Sentence;

/// A fact that keeps the evidence from proving more.
#[derive(Debug, Drop)]
pub enum Reason {
    /// A zone has no trust anchor, no DNSKEY RRset, or nothing that leads to its keys.
    Zone(ZoneFault),
    /// A trust anchor or a DS record matches no key.
    Entry(EntryFault),
    /// A key doesn't sign the DNSKEY RRset that it stands in (RFC 4035 5.2).
    NotSelfSigned(KeyWithoutSignature),
    /// An RRset has no signatures.
    Unsigned(UnsignedRrset),
    /// A signature proves nothing.
    Signature(SignatureFault),
    /// A wildcard's signature proves nothing, since a closer name may be there.
    NoCloser(CloserName),
    /// A DNAME stands above the name, and no answer is made of it.
    Dname(DnameAbove),
    /// An NSEC3 record can't be used (RFC 5155 8.1, 8.2, 10.3).
    Nsec3(UnusableNsec3),
    /// A zone's records don't prove a denial.
    Source(SourceFault),
    /// There is neither an answer nor a denial.
    AnswerMissing(MissingAnswer),
    /// There is no answer, and the denials prove nothing.
    DenialUnproved(DenialUnproved),
    /// No trust anchor and no DS record fits a key of a DNSKEY RRset (RFC 4035 5).
    NotVouched(KeysNotVouched),
    /// A delegation may be unsigned, and nothing proves it (RFC 4035 5.2).
    DsUnproved(DsUnproved),
}

impl Reason {
    /// The line.
    pub fn sentence(&self) -> Sentence<'_>
        ensures { said_sentence result ≡ reason_row self.now }
    {
        match self {
            Reason::Zone(fault) => fault.sentence(),
            Reason::Entry(fault) => fault.sentence(),
            Reason::NotSelfSigned(key) => key.sentence(),
            Reason::Unsigned(rrset) => rrset.sentence(),
            Reason::Signature(fault) => fault.sentence(),
            Reason::NoCloser(closer) => closer.sentence(),
            Reason::Dname(dname) => dname.sentence(),
            Reason::Nsec3(fault) => fault.sentence(),
            Reason::Source(fault) => fault.sentence(),
            Reason::AnswerMissing(missing) => missing.sentence(),
            Reason::DenialUnproved(denial) => denial.sentence(),
            Reason::NotVouched(keys) => keys.sentence(),
            Reason::DsUnproved(cut) => cut.sentence(),
        }
    }
}
