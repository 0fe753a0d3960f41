//! Each signer that is reported as untrusted has a line that says why.
ghost use Rattle.std.specs.Prelude.{List, Contains};
ghost use Rattle.std.specs.List.{AllByRecursion};
ghost use Rattle.dnsv_canonical.specs.Rdata.{IsWellFormed};
ghost use Rattle.dnsv_gaps.specs.Asking.{Asking};
ghost use Rattle.dnsv_lines.specs.declared.line.Line.{Line};
ghost use Rattle.dnsv_lines.specs.declared.line.Line.TheVariants as line;
ghost use Rattle.dnsv_lines.specs.declared.line.fault.signature.UntrustedSigner.{UntrustedSigner};
ghost use Rattle.dnsv_reasons.specs.Failures.{AreFailures};
ghost use Rattle.dnsv_true_reasons.specs.Ends.{IsExplained};
ghost use Rattle.dnsv_chain.specs.Basis.{HasAnchor};

/// A law: each signer that is reported as untrusted isn't trusted, and a reason is reported of it or of a zone above it.
/// Where no anchor is at or above the name, none is reported.
pub fn untrusted_signers_have_a_reason()
    ensures explained { (a : Asking) (lines : List Line) → AllByRecursion IsWellFormed a.basis.rrsets
        → AreFailures a lines → (untrusted : UntrustedSigner) → Contains lines (line.Follows untrusted)
        → IsExplained a lines untrusted.signature.signer }
    ensures none { (a : Asking) (lines : List Line) → ¬ HasAnchor a.basis.anchors a.name → AreFailures a lines
        → (untrusted : UntrustedSigner) → ¬ Contains lines (line.Follows untrusted) }
{}
