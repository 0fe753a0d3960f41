//! What is so of a question follows from the case.
ghost use Rattle.dnsv_gaps.specs.Asking.{Asking};
ghost use Rattle.dnsv_gaps.specs.questions.Questions.{AreQuestionFacts};
ghost use Rattle.dnsv_remedies.specs.declared.facts.question.QuestionFacts.{QuestionFacts};
ghost use Rattle.dnsv_remedy_laws.specs.AlikeQuestions.{AreAlikeQuestions};

/// A law: what is so of a question is one, up to where its lists lie in memory.
pub fn the_facts_of_a_question_are_one()
    ensures { (a : Asking) (one other : QuestionFacts) → AreQuestionFacts a one → AreQuestionFacts a other → AreAlikeQuestions one other }
{}
