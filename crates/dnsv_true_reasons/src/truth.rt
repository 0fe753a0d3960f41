//! Each reason that is reported is true.
ghost use Rattle.std.specs.Prelude.{List, Contains};
ghost use Rattle.dnsv_gaps.specs.Asking.{Asking};
ghost use Rattle.dnsv_lines.specs.declared.line.Line.{Line};
ghost use Rattle.dnsv_lines.specs.declared.line.Line.TheVariants as line;
ghost use Rattle.dnsv_lines.specs.declared.line.fault.Reason.{Reason};
ghost use Rattle.dnsv_lines.specs.declared.line.fault.Reason.TheVariants as reason;
ghost use Rattle.dnsv_lines.specs.declared.line.fault.denial.DenialUnproved.{DenialUnproved};
ghost use Rattle.dnsv_lines.specs.declared.line.fault.denial.DnameAbove.{DnameAbove};
ghost use Rattle.dnsv_lines.specs.declared.line.fault.denial.MissingAnswer.{MissingAnswer};
ghost use Rattle.dnsv_lines.specs.declared.line.fault.denial.SourceFault.{SourceFault};
ghost use Rattle.dnsv_lines.specs.declared.line.fault.denial.UnusableNsec3.{UnusableNsec3};
ghost use Rattle.dnsv_lines.specs.declared.line.fault.signature.CloserName.{CloserName};
ghost use Rattle.dnsv_lines.specs.declared.line.fault.signature.SignatureFault.{SignatureFault};
ghost use Rattle.dnsv_lines.specs.declared.line.fault.signature.UnsignedRrset.{UnsignedRrset};
ghost use Rattle.dnsv_lines.specs.declared.line.fault.zone.DsUnproved.{DsUnproved};
ghost use Rattle.dnsv_lines.specs.declared.line.fault.zone.EntryFault.{EntryFault};
ghost use Rattle.dnsv_lines.specs.declared.line.fault.zone.KeyWithoutSignature.{KeyWithoutSignature};
ghost use Rattle.dnsv_lines.specs.declared.line.fault.zone.KeysNotVouched.{KeysNotVouched};
ghost use Rattle.dnsv_lines.specs.declared.line.fault.zone.ZoneFault.{ZoneFault};
ghost use Rattle.dnsv_reasons.specs.Failures.{AreFailures};
ghost use Rattle.dnsv_true_reasons.specs.truth.Entries.{IsEntryTrue};
ghost use Rattle.dnsv_true_reasons.specs.truth.Keys.{IsWithoutSignature, IsWithoutVoucher};
ghost use Rattle.dnsv_true_reasons.specs.truth.Question.{IsTrueOfCloser, IsTrueOfDenial, IsTrueOfDname, IsTrueOfDs, IsTrueOfMissing};
ghost use Rattle.dnsv_true_reasons.specs.truth.Reasons.{IsCaptured, IsReasonTrue};
ghost use Rattle.dnsv_true_reasons.specs.truth.Signatures.{IsTrueOfSignature, IsUnsigned};
ghost use Rattle.dnsv_true_reasons.specs.truth.Sources.{IsTrueOfNsec3, IsTrueOfSource};
ghost use Rattle.dnsv_true_reasons.specs.truth.Zones.{IsZoneTrue};
ghost use Rattle.dnsv_verdict.specs.Verdict.{IsSettledBy};

/// A law: what is reported of zones, of their keys, of trust anchors and DS records, and of signatures is so.
pub fn reasons_of_trust_are_true()
    ensures zones { (a : Asking) (lines : List Line) (fault : ZoneFault) → IsCaptured a → AreFailures a lines
        → Contains lines (line.Reason (reason.Zone fault)) → IsZoneTrue a.basis fault.zone fault.why }
    ensures entries { (a : Asking) (lines : List Line) (fault : EntryFault) → IsCaptured a → AreFailures a lines
        → Contains lines (line.Reason (reason.Entry fault)) → IsEntryTrue a.basis fault }
    ensures not_self_signed { (a : Asking) (lines : List Line) (without : KeyWithoutSignature) → IsCaptured a → AreFailures a lines
        → Contains lines (line.Reason (reason.NotSelfSigned without)) → IsWithoutSignature a.basis without }
    ensures not_vouched { (a : Asking) (lines : List Line) (keys : KeysNotVouched) → IsCaptured a → AreFailures a lines
        → Contains lines (line.Reason (reason.NotVouched keys)) → IsWithoutVoucher a.basis keys }
    ensures unsigned { (a : Asking) (lines : List Line) (unsigned : UnsignedRrset) → IsCaptured a → AreFailures a lines
        → Contains lines (line.Reason (reason.Unsigned unsigned)) → IsUnsigned a.basis unsigned }
    ensures signatures { (a : Asking) (lines : List Line) (fault : SignatureFault) → IsCaptured a → AreFailures a lines
        → Contains lines (line.Reason (reason.Signature fault)) → IsTrueOfSignature a.basis fault }
{}

/// A law: what is reported of a question, of its answers and of its denials is so. That denials prove nothing, or that
/// nothing proves an unsigned delegation, is so where the evidence doesn't settle the question.
pub fn reasons_of_questions_are_true()
    ensures closers { (a : Asking) (lines : List Line) (closer : CloserName) → AreFailures a lines
        → Contains lines (line.Reason (reason.NoCloser closer)) → IsTrueOfCloser a closer }
    ensures dnames { (a : Asking) (lines : List Line) (above : DnameAbove) → AreFailures a lines
        → Contains lines (line.Reason (reason.Dname above)) → IsTrueOfDname a above above.place }
    ensures nsec3s { (a : Asking) (lines : List Line) (unusable : UnusableNsec3) → AreFailures a lines
        → Contains lines (line.Reason (reason.Nsec3 unusable)) → IsTrueOfNsec3 a unusable }
    ensures sources { (a : Asking) (lines : List Line) (fault : SourceFault) → AreFailures a lines
        → Contains lines (line.Reason (reason.Source fault)) → IsTrueOfSource a fault }
    ensures missing { (a : Asking) (lines : List Line) (missing : MissingAnswer) → AreFailures a lines
        → Contains lines (line.Reason (reason.AnswerMissing missing)) → IsTrueOfMissing a missing }
    ensures denials { (a : Asking) (lines : List Line) (denial : DenialUnproved) → ¬ IsSettledBy a.basis a.name a.rtype
        → AreFailures a lines → Contains lines (line.Reason (reason.DenialUnproved denial)) → IsTrueOfDenial a denial }
    ensures cuts { (a : Asking) (lines : List Line) (cut : DsUnproved) → ¬ IsSettledBy a.basis a.name a.rtype → AreFailures a lines
        → Contains lines (line.Reason (reason.DsUnproved cut)) → IsTrueOfDs a cut }
{}

/// A law: where the evidence doesn't settle the question, each reason is so.
pub fn each_reason_is_true()
    ensures { (a : Asking) (lines : List Line) (told : Reason) → IsCaptured a → ¬ IsSettledBy a.basis a.name a.rtype
        → AreFailures a lines → Contains lines (line.Reason told) → IsReasonTrue a told }
{}
