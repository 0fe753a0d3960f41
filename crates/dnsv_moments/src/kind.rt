//! The words of kinds.
ghost use Rattle.std.specs.Prelude.{◌≡◌};
ghost use Rattle.dnsv_moments.specs.Kinds as specs;

use crate::validity::kind::Kind;

/// The word of the verdict, as `check` tells it, or that the question is refused.
pub fn kind_word(kind: Kind) -> &'static str
    ensures { result.now ≡ specs.kind_word kind }
{
    match kind {
        Kind::SecureAnswer => "SecureAnswer",
        Kind::SecureAlias => "SecureAlias",
        Kind::SecureNoName => "SecureNoName",
        Kind::SecureNoData => "SecureNoData",
        Kind::Insecure => "Insecure",
        Kind::Pending => "Pending",
        Kind::Bogus => "Bogus",
        Kind::Indeterminate => "Indeterminate",
        Kind::Refused(_) => "refused",
    }
}
