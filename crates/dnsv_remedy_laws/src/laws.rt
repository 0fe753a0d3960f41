//! Laws of facts that are alike.
ghost use Rattle.std.specs.Prelude.{◌≡◌, List, Bool};
ghost use Rattle.std.specs.List.{AllZip};
ghost use Rattle.dnsv_mending.specs.Zone.{levels_of};
ghost use Rattle.dnsv_mending.specs.declared.facts.zone.ZoneFacts.{ZoneFacts};
ghost use Rattle.dnsv_remedies.specs.Question.{lines_told, question_remedy};
ghost use Rattle.dnsv_remedies.specs.declared.facts.question.QuestionFacts.{QuestionFacts};
ghost use Rattle.dnsv_remedy_laws.specs.AlikeQuestions.{AreAlikeQuestions};
ghost use Rattle.dnsv_remedy_laws.specs.AlikeZones.{AreAlikeZones};

/// A law: of facts that are alike the same is reported.
pub fn facts_that_are_alike_tell_the_same()
    ensures { (zones others : List ZoneFacts) (a b : QuestionFacts) → AllZip AreAlikeZones zones others → AreAlikeQuestions a b
        → lines_told a (question_remedy (levels_of a.is_anchored zones) a) ≡ lines_told b (question_remedy (levels_of b.is_anchored others) b) }
{}
