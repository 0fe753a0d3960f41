//! What is said of a question at one moment.
ghost use Rattle.std.specs.Prelude.{◌≡◌, ℕ, IfOk, IfSome, string_bytes};
ghost use Rattle.dnsv_holding.specs.Derived.{IsDerived};
ghost use Rattle.dnsv_moments.specs.Moments.{IsOfEvidence};
ghost use Rattle.dnsv_moments.specs.Saying.{IsSaidWithin, told_of};
ghost use Rattle.dnsv_names.specs.Name.{Labels};
ghost use Rattle.dnsv_moments.specs.validity.Said.{IsSaid};
ghost use Rattle.dnsv_chain.specs.Basis.{Basis};

use crate::moments::Moments;
use crate::said::Said;
use crate::shown::signatures_shown;
use crate::validity::kind::{Kind, kind_of};
use dnsv_canonical::Rrset;
use dnsv_holding::{Derivation, Deriver, Outcome};
use dnsv_names::{Name, RecordType};
use dnsv_questions::Format;
use dnsv_texts::told_text;
use std::alloc::{AllocError, Global};

/// What is said of the question at the moment, or at the nearest one of the range. Whoever explained at the moment before
/// hands on the hashes for names, and is nobody after an error. That is that memory ran out, or that the type can't be
/// asked at the name.
pub(crate) fn said_at<'a>(
    alloc: Global,
    moments: &Moments<'a>,
    before: &mut Option<Deriver<'a>>,
    name: &Name,
    rtype: RecordType,
    format: Format,
    moment: u64,
) -> Result<Said, AllocError>
    requires { IfSome before.now (IsOfEvidence moments.now) }
    ensures said { IfOk result (λ said. IsSaidWithin moments.now format name.now rtype.0 moment said) }
    ensures before { IfSome before.new (IsOfEvidence moments.now) }
{
    let mut deriver = moments.deriver_at(alloc, moment, before.take())?;
    let Ok(derivation) = deriver.derive(alloc, name, rtype) else {
        return Err(AllocError);
    };
    let said = said_of(alloc, moments.capture().rrsets(), format, &derivation)?;
    *before = Some(deriver);
    Ok(said)
}

/// What is said where this is told of the question, and derived so.
fn said_of(
    alloc: Global,
    rrsets: &[Rrset<'_>],
    format: Format,
    derivation: &Derivation<'_>,
) -> Result<Said, AllocError>
    ensures { (basis : Basis) (name : Labels) (t : ℕ) → basis.rrsets ≡ rrsets.now
        → IsDerived basis name t derivation.now.outcome derivation.now.lines.items
        → IfOk result (IsSaid format basis name t) }
{
    let by = signatures_shown(alloc, &derivation.lines)?;
    let (kind, text) = told_of(alloc, rrsets, format, &derivation.outcome)?;
    Ok(Said::new(kind, text, by))
}

/// The kind of what a question comes to, and the text of what carries it.
fn told_of(
    alloc: Global,
    rrsets: &[Rrset<'_>],
    format: Format,
    outcome: &Outcome<'_>,
) -> Result<(Kind, String), AllocError>
    ensures { IfOk result (λ told. record {
      kind = told.0;
      text = string_bytes told.1;
    } ≡ told_of format rrsets.now outcome.now) }
{
    match outcome {
        Outcome::Verdict(report) => {
            let kind = kind_of(&report.verdict);
            let links = report.links.as_slice();
            let text = told_text(alloc, format, rrsets, links, &report.verdict)?;
            Ok((kind, text))
        }
        Outcome::Refused(error) => Ok((Kind::Refused(*error), String::new(alloc))),
    }
}
