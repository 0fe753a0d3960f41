//! What a question is refused for throughout.
ghost use Rattle.std.specs.Prelude.{◌≡◌, ◌≢◌, ◌↔◌, [], IsTrue, MatchOption};
ghost use Rattle.dnsv_moments.specs.Question.{TellKind};
ghost use Rattle.dnsv_moments.specs.declared.validity.kind.Kind.TheVariants.{Refused};
ghost use Rattle.dnsv_verdict.specs.declared.error.VerdictError.{VerdictError};

use crate::said::{Said, is_same_kind};
use crate::validity::kind::Kind;
use dnsv_timeline::Stretch;
use dnsv_verdict::VerdictError;

/// Why each stretch is refused. `None` where not all are, by one number.
pub(crate) fn refused_throughout(stretches: &[Stretch<Said>]) -> Option<VerdictError>
    ensures { MatchOption result
        ((error : VerdictError) → stretches.now ≢ [] → ¬ TellKind (Refused error) stretches.now)
        (λ error. TellKind (Refused error) stretches.now) }
{
    let Some(first) = stretches.first() else {
        return None;
    };
    let kind = first.said.kind();
    let Some(error) = refusal(kind) else {
        return None;
    };
    if !all_tell(stretches, kind) {
        return None;
    }
    Some(error)
}

/// Whether each stretch tells the kind.
fn all_tell(stretches: &[Stretch<Said>], kind: Kind) -> bool
    ensures { IsTrue result ↔ TellKind kind stretches.now }
{
    for stretch in stretches {
        if !tells(stretch, kind) {
            return false;
        }
    }
    true
}

/// Whether the stretch tells the kind.
fn tells(stretch: &Stretch<Said>, kind: Kind) -> bool
    ensures { IsTrue result ↔ stretch.now.said.told.kind ≡ kind }
{
    is_same_kind(stretch.said.kind(), kind)
}

/// Why a question is refused. `None` where it has a verdict.
fn refusal(kind: Kind) -> Option<VerdictError>
    ensures { MatchOption result ((error : VerdictError) → kind ≢ Refused error) (λ error. kind ≡ Refused error) }
{
    match kind {
        Kind::Refused(error) => Some(error),
        _ => None,
    }
}
