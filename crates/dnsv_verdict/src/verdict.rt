//! What a question's evidence comes to.
use dnsv_denial::Proof;
use dnsv_names::Name;
use dnsv_verifier::Entries;

/// What the evidence says of a question. RRsets, and the signatures of each, are numbered from 1.
#[derive(Debug, Drop)]
pub enum Verdict<'b> {
    /// The RRset answers the question, and the signature secures it (RFC 4035 5.3).
    SecureAnswer { rrset: usize, signature: usize },
    /// The RRset is a CNAME for the name, and the signature secures it.
    SecureAlias { rrset: usize, signature: usize },
    /// Records prove that there is no such name (RFC 4035 5.4, RFC 5155 8.4).
    SecureNoName(Proof),
    /// Records prove that the name doesn't have the type (RFC 4035 5.4, RFC 5155 8.5 to 8.7).
    SecureNoData(Proof),
    /// The name may lie in a zone that isn't signed, which may begin at this name (RFC 4035 5.2, RFC 5155 8.8, 8.9).
    Insecure(Name),
    /// It depends on signatures that the verifier doesn't know. These are all that it was asked and doesn't know.
    Pending(Entries<'b>),
    /// A trust anchor is at or above the name, and nothing is proved (RFC 4033 5).
    Bogus,
    /// No trust anchor is at or above the name (RFC 4033 5).
    Indeterminate,
}
