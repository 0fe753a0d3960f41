//! What a question comes to, whatever carries it.
ghost use Rattle.std.specs.Prelude.{◌≡◌};
ghost use Rattle.dnsv_moments.specs.validity.Kinds.{verdict_kind};

use dnsv_verdict::{Verdict, VerdictError};

/// What a question comes to: the kind of its verdict, or why it has none.
#[derive(Clone, Copy, Debug, PartialEq, Eq)]
pub enum Kind {
    SecureAnswer,
    SecureAlias,
    SecureNoName,
    SecureNoData,
    Insecure,
    Pending,
    Bogus,
    Indeterminate,
    /// An alias can't be followed.
    Refused(VerdictError),
}

/// The kind of the verdict.
pub fn kind_of(verdict: &Verdict<'_>) -> Kind
    ensures { result ≡ verdict_kind verdict.now }
{
    match verdict {
        Verdict::SecureAnswer { .. } => Kind::SecureAnswer,
        Verdict::SecureAlias { .. } => Kind::SecureAlias,
        Verdict::SecureNoName(_) => Kind::SecureNoName,
        Verdict::SecureNoData(_) => Kind::SecureNoData,
        Verdict::Insecure(_) => Kind::Insecure,
        Verdict::Pending(_) => Kind::Pending,
        Verdict::Bogus => Kind::Bogus,
        Verdict::Indeterminate => Kind::Indeterminate,
    }
}
