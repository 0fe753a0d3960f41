//! The least that has to be mended, so that a question is answered, denied, or shown to be below an unsigned delegation.
//!
//! It is made of what has to be mended so that zones are trusted and RRsets signed (`dnsv_mending`), and of what records say
//! of the question, which `dnsv_gaps` finds in the evidence.
#![tactic(auto)]

pub use facts::answer::{AnswerSignature, CloserFacts, GoalFacts};
pub use facts::cut::{CutCase, CutFacts, CutSource, OptOutFacts, ParentFacts, SignedCutFacts};
pub use facts::denial::{
    ClosedFacts, EncloserFacts, HoldingFacts, RecordsAt, SourceCase, SourceFacts, SpeakerFacts,
    WildcardFacts,
};
pub use facts::name::{AskedName, CutNumber, SourceNumber, UnusableFacts};
pub use facts::question::{DnameFacts, QuestionFacts};
pub use laws::{
    a_missing_anchor_is_told_first, a_question_that_nothing_proves_has_a_reason,
    each_line_is_told_once, lines_that_say_the_same_are_equal,
    what_an_unsigned_delegation_lacks_is_told, what_answers_lack_is_told,
    what_costs_nothing_is_proved, what_denials_lack_is_told, what_is_asked_of_facts_can_be_met,
    what_is_told_of_is_the_first_of_the_least,
};
pub use question::question_remedy;
pub use remedy::Remedy;
pub use said::Said;
pub use telling::lines_told;

mod answers;
mod cuts;
mod denials;
mod facts;
mod laws;
mod parts;
mod question;
mod remedy;
mod said;
mod same;
mod sources;
mod telling;
