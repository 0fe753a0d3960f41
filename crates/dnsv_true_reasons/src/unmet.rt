//! Of a question that nothing proves something fails, and a reason is reported.
ghost use Rattle.std.specs.Prelude.{List, Contains};
ghost use Rattle.std.specs.List.{AllByRecursion};
ghost use Rattle.dnsv_canonical.specs.Rdata.{IsWellFormed};
ghost use Rattle.dnsv_gaps.specs.Asking.{Asking};
ghost use Rattle.dnsv_gaps.specs.questions.Questions.{AreQuestionFacts};
ghost use Rattle.dnsv_zone_faults.specs.Zones.{AreZoneFacts};
ghost use Rattle.dnsv_lines.specs.declared.line.Line.{Line};
ghost use Rattle.dnsv_lines.specs.declared.line.Line.TheVariants as line;
ghost use Rattle.dnsv_lines.specs.declared.line.fault.Reason.{Reason};
ghost use Rattle.dnsv_mending.specs.declared.facts.zone.ZoneFacts.{ZoneFacts};
ghost use Rattle.dnsv_reasons.specs.Failures.{AreFailures};
ghost use Rattle.dnsv_true_reasons.specs.Unmet.{IsUnproved};
ghost use Rattle.dnsv_remedies.specs.InPlace.{IsQuestionInPlace};
ghost use Rattle.dnsv_remedies.specs.Reasons.{IsWholeQuestion};
ghost use Rattle.dnsv_remedies.specs.declared.facts.question.QuestionFacts.{QuestionFacts};
ghost use Rattle.dnsv_chain.specs.Basis.{HasAnchor};
ghost use Rattle.dnsv_verdict.specs.Verdict.{IsVerdictAt};

use dnsv_verdict::Verdict;

/// A law: what is found of a question meets what `dnsv_remedies` asks of facts.
pub fn what_is_found_of_questions_is_whole()
    ensures is_whole { (a : Asking) (zones : List ZoneFacts) (q : QuestionFacts) → AreZoneFacts a.basis a.name a.rtype zones
        → AreQuestionFacts a q → IsWholeQuestion zones q }
    ensures in_place { (a : Asking) (zones : List ZoneFacts) (q : QuestionFacts) → AreZoneFacts a.basis a.name a.rtype zones
        → AreQuestionFacts a q → IsQuestionInPlace zones q }
{}

/// A law: where an anchor is at or above the name, and nothing that is found of messages proves the question, a reason is
/// reported of what fails.
pub fn unproved_questions_fail_for_a_reason()
    ensures { (a : Asking) (lines : List Line) → AllByRecursion IsWellFormed a.basis.rrsets → HasAnchor a.basis.anchors a.name
        → IsUnproved a → AreFailures a lines → (reason : Reason) × Contains lines (line.Reason reason) }
{}

/// A law: of a Bogus question nothing that is found is a proof, so a reason is reported of what fails.
pub fn bogus_questions_fail_for_a_reason()
    ensures unproved { (a : Asking) → IsVerdictAt a.basis a.name a.rtype Verdict.Bogus → IsUnproved a }
    ensures reason { (a : Asking) (lines : List Line) → AllByRecursion IsWellFormed a.basis.rrsets
        → IsVerdictAt a.basis a.name a.rtype Verdict.Bogus → AreFailures a lines → (reason : Reason) × Contains lines (line.Reason reason) }
{}
