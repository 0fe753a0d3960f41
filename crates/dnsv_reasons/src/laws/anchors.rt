//! What fails where no trust anchor is at or above a question's name, and where one is.
ghost use Rattle.std.specs.Prelude.{◌≡◌, ◌∷◌, List, Contains};
ghost use Rattle.dnsv_gaps.specs.Asking.{Asking};
ghost use Rattle.dnsv_lines.specs.declared.line.Line.{Line};
ghost use Rattle.dnsv_lines.specs.declared.line.Line.TheVariants as line;
ghost use Rattle.dnsv_lines.specs.declared.line.fault.signature.UntrustedSigner.{UntrustedSigner};
ghost use Rattle.dnsv_reasons.specs.Failures.{AreFailures};
ghost use Rattle.dnsv_reasons.specs.laws.Anchors.{no_anchor_line};
ghost use Rattle.dnsv_chain.specs.Basis.{HasAnchor};

/// A law: where no trust anchor is at or above a question's name, what fails begins with that, and no line only follows from
/// what fails. Where one is, no line says that there is none.
pub fn a_missing_anchor_is_said_first()
    ensures first { (a : Asking) (lines : List Line) → ¬ HasAnchor a.basis.anchors a.name → AreFailures a lines
        → (rest : List Line) × (lines ≡ no_anchor_line a.name ∷ rest) }
    ensures follows { (a : Asking) (lines : List Line) → ¬ HasAnchor a.basis.anchors a.name → AreFailures a lines
        → (untrusted : UntrustedSigner) → ¬ Contains lines (line.Follows untrusted) }
    ensures anchored { (a : Asking) (lines : List Line) → HasAnchor a.basis.anchors a.name → AreFailures a lines
        → ¬ Contains lines (no_anchor_line a.name) }
{}
