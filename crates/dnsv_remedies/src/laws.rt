//! Laws of what has to be mended for a question, and of what is reported of it.
ghost use Rattle.std.specs.Prelude.{◌≡◌, List, [], ◌∷◌, Option, Some, None, true, false};
ghost use Rattle.std.specs.List.{AllByRecursion, list_any};
ghost use Rattle.std.specs.declared.alloc.Global.{Global};
ghost use Rattle.dnsv_lines.specs.declared.line.denial.Role.TheVariants as role;
ghost use Rattle.dnsv_lines.specs.declared.line.fault.denial.WhyNsec3.TheVariants as nsec3;
ghost use Rattle.dnsv_lines.specs.declared.line.fault.denial.WhySource.TheVariants as why;
ghost use Rattle.dnsv_lines.specs.declared.line.fault.signature.WhySignature.TheVariants as signature;
ghost use Rattle.dnsv_lines.specs.declared.line.fault.zone.WhyZone.TheVariants as zone;
ghost use Rattle.dnsv_mending.specs.Examples.{expired, record_at, signature_at, standby, times};
ghost use Rattle.dnsv_mending.specs.InPlace.{IsInPlace};
ghost use Rattle.dnsv_mending.specs.Level.{Leveled};
ghost use Rattle.dnsv_mending.specs.Price.{none};
ghost use Rattle.dnsv_mending.specs.Reasons.{IsClosed};
ghost use Rattle.dnsv_mending.specs.Ways.{IsAmong};
ghost use Rattle.dnsv_mending.specs.Zone.{levels_of};
ghost use Rattle.dnsv_mending.specs.declared.facts.zone.ZoneFacts.{ZoneFacts};
ghost use Rattle.dnsv_mending.specs.declared.told.Told.TheVariants as told;
ghost use Rattle.dnsv_remedies.specs.Examples.{below, below_cut, below_shop, closed, cut_at, dname_at, elsewhere, of_another, of_no_use, over_answer, over_cut, over_denial, question_lines, source, stripped, synthesized, unanchored, uncovered, unknown, unshown_cut, wild};
ghost use Rattle.dnsv_remedies.specs.InPlace.{IsQuestionInPlace};
ghost use Rattle.dnsv_remedies.specs.Question.{all_lines, lines_told, no_anchor, question_remedy, question_ways};
ghost use Rattle.dnsv_remedies.specs.Reasons.{BeginsWith, IsNowhereTwice, IsProved, IsWholeQuestion};
ghost use Rattle.dnsv_remedies.specs.Remedy.{IsFirstOfLeast, Remedied};
ghost use Rattle.dnsv_remedies.specs.Said.{is_reason};
ghost use Rattle.dnsv_remedies.specs.Same.{is_same};
ghost use Rattle.dnsv_remedies.specs.declared.facts.cut.CutCase.TheVariants as cut;
ghost use Rattle.dnsv_remedies.specs.declared.facts.name.AskedName.TheVariants as name;
ghost use Rattle.dnsv_remedies.specs.declared.facts.question.QuestionFacts.{QuestionFacts};
ghost use Rattle.dnsv_remedies.specs.declared.said.Said.{Said};
ghost use Rattle.dnsv_remedies.specs.declared.said.Said.TheVariants as said;

/// A law: what is found of a question is the first of the least price of all ways, and nothing is only where there is no way.
pub fn what_is_told_of_is_the_first_of_the_least()
    ensures first { (levels : List Leveled) (q : QuestionFacts) (m : Remedied) → question_remedy levels q ≡ Some m
        → IsFirstOfLeast m (question_ways levels q) }
    ensures none { (levels : List Leveled) (q : QuestionFacts) → question_remedy levels q ≡ None → question_ways levels q ≡ [] }
{}

/// A law: of a question that nothing answers or denies, and that isn't below an unsigned delegation, a reason is reported,
/// where what is kept is whole; and where facts name only what is there, there always is something to be reported.
pub fn a_question_that_nothing_proves_has_a_reason()
    ensures of_what_is_found { (zones : List ZoneFacts) (q : QuestionFacts) (m : Remedied) → IsClosed zones → IsWholeQuestion zones q
        → q.is_anchored ≡ true → question_remedy (levels_of true zones) q ≡ Some m → (IsProved zones q → ⊥)
        → list_any is_reason (lines_told q (Some m)) ≡ true }
    ensures always { (zones : List ZoneFacts) (q : QuestionFacts) → IsClosed zones → IsInPlace zones → IsWholeQuestion zones q
        → IsQuestionInPlace zones q → q.is_anchored ≡ true → (IsProved zones q → ⊥)
        → list_any is_reason (lines_told q (question_remedy (levels_of true zones) q)) ≡ true }
{}

/// A law: a question for which nothing has to be mended is answered, denied, or below an unsigned delegation, where what is
/// kept is whole.
pub fn what_costs_nothing_is_proved()
    ensures { (zones : List ZoneFacts) (q : QuestionFacts) (m : Remedied) → IsClosed zones → IsWholeQuestion zones q
        → question_remedy (levels_of true zones) q ≡ Some m → m.price ≡ none → IsProved zones q }
{}

/// A law: two lines say the same just where they are equal.
pub fn lines_that_say_the_same_are_equal()
    ensures same { (a b : Said) → is_same a b ≡ true → a ≡ b }
    ensures itself { (a : Said) → is_same a a ≡ true }
{}

/// A law: no line is reported twice; and where the name has an anchor at or above it, each line is reported, and no other.
pub fn each_line_is_told_once()
    ensures once { (q : QuestionFacts) (m : Option Remedied) → IsNowhereTwice (lines_told q m) }
    ensures each { (q : QuestionFacts) (m : Option Remedied) (line : Said) → q.is_anchored ≡ true → IsAmong line (all_lines q m)
        → IsAmong line (lines_told q m) }
    ensures only { (q : QuestionFacts) (m : Option Remedied) (line : Said) → q.is_anchored ≡ true → IsAmong line (lines_told q m)
        → IsAmong line (all_lines q m) }
{}

/// A law: where no anchor is at or above the name, that is reported first, and nothing that only follows from what fails.
pub fn a_missing_anchor_is_told_first()
    ensures first { (q : QuestionFacts) (m : Option Remedied) → q.is_anchored ≡ false → BeginsWith (no_anchor q) (lines_told q m) }
    ensures reasons { (q : QuestionFacts) (m : Option Remedied) → q.is_anchored ≡ false
        → AllByRecursion (λ line. is_reason line ≡ true) (lines_told q m) }
{}

/// A law: what is reported of answers with a break. Signatures were stripped; all of a zone are over, and its DNSKEY RRset's
/// comes first; a wildcard's answer lacks the record that covers the name; there is no anchor; a DNAME RRset is above.
pub fn what_answers_lack_is_told()
    ensures stripped { (heap : Global) → question_lines (below heap) (stripped heap) ≡ said.Trust (told.Unsigned 2) ∷ [] }
    ensures over { (heap : Global) → question_lines (expired heap) (over_answer heap)
        ≡ said.Trust (told.Signature (signature.Expired (times 100)) (signature_at 5 1))
        ∷ said.Trust (told.Signature (signature.Expired (times 100)) (signature_at 6 1)) ∷ [] }
    ensures wild { (heap : Global) → question_lines (below heap) (wild heap) ≡ said.NoCloser (signature_at 2 1) 2 ∷ [] }
    ensures unanchored { (heap : Global) → question_lines (unknown heap) (unanchored heap) ≡ said.Trust (told.Zone zone.NoAnchor 2) ∷ [] }
    ensures synthesized { (heap : Global) → question_lines (below heap) (synthesized heap) ≡ said.Dname (dname_at 2 2) ∷ [] }
{}

/// A law: what is reported of denials with a break. They are of another name; nothing covers the next closer name or the
/// wildcard; their record is one of a delegation, or holds DNAME, above the name; it is over; it is over and another zone's
/// than the one that should speak, which lacks more; and it has too many iterations.
pub fn what_denials_lack_is_told()
    ensures of_another { (heap : Global) → question_lines (below heap) (of_another heap)
        ≡ said.Source (why.CoverMissing role.NextCloser) source (name.At 2) ∷ said.Source why.MatchMissing source (name.At 2)
        ∷ said.DenialUnproved 1 ∷ [] }
    ensures uncovered { (heap : Global) → question_lines (below heap) (uncovered heap)
        ≡ said.Source (why.CoverMissing role.NextCloser) source (name.At 2) ∷ said.Source why.MatchMissing source (name.At 3)
        ∷ said.Source (why.CoverMissing role.Wildcard) source (name.Wildcard 1) ∷ said.DenialUnproved 1 ∷ [] }
    ensures delegation { (heap : Global) → question_lines (below heap) (closed heap false)
        ≡ said.Source (why.Delegation (record_at 2 1)) source (name.At 2) ∷ said.DenialUnproved 1 ∷ [] }
    ensures dname { (heap : Global) → question_lines (below heap) (closed heap true)
        ≡ said.DnameHeld 2 (record_at 2 1) ∷ said.DenialUnproved 1 ∷ [] }
    ensures over { (heap : Global) → question_lines (below heap) (over_denial heap)
        ≡ said.Trust (told.Signature (signature.Expired (times 100)) (signature_at 2 1)) ∷ said.DenialUnproved 1 ∷ [] }
    ensures elsewhere { (heap : Global) → question_lines (below_shop heap) (elsewhere heap)
        ≡ said.Trust (told.Signature (signature.Expired (times 100)) (signature_at 2 1)) ∷ said.DenialUnproved 1 ∷ [] }
    ensures of_no_use { (heap : Global) → question_lines (below heap) (of_no_use heap)
        ≡ said.Nsec3 (nsec3.Iterations (record { 0 = 501 })) (record_at 2 1) ∷ said.DenialUnproved 1 ∷ [] }
{}

/// A law: what is reported below an unsigned delegation whose proof is over is that proof, and not that nothing below it is
/// signed; so it is where opt-out covers it, and nothing shows its parent. Where the zone says that there is no delegation,
/// what is reported is that the answer has no signatures.
pub fn what_an_unsigned_delegation_lacks_is_told()
    ensures unshown { (heap : Global) → question_lines (below heap) (unshown_cut heap)
        ≡ said.Source why.EncloserMissing source (name.At 2) ∷ said.DsUnproved (cut_at 2 1) ∷ [] }
    ensures no_cut { (heap : Global) → question_lines (below heap) (below_cut heap cut.NoCut) ≡ said.Trust (told.Unsigned 2) ∷ [] }
    ensures over { (heap : Global) → question_lines (below heap) (over_cut heap)
        ≡ said.Trust (told.Signature (signature.Expired (times 100)) (signature_at 3 1)) ∷ said.DsUnproved (cut_at 2 1) ∷ [] }
{}

/// A law: what the laws ask of facts can be met by a question that has something to be mended.
pub fn what_is_asked_of_facts_can_be_met()
    ensures closed { (heap : Global) → IsClosed (standby heap) }
    ensures zones_in_place { (heap : Global) → IsInPlace (standby heap) }
    ensures in_place { (heap : Global) → IsQuestionInPlace (standby heap) (of_another heap) }
    ensures is_whole { (heap : Global) → IsWholeQuestion (standby heap) (of_another heap) }
    ensures there { (heap : Global) → (m : Remedied) × (question_remedy (levels_of true (standby heap)) (of_another heap) ≡ Some m) }
{}
