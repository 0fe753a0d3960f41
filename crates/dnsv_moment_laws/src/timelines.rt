//! Laws of the timeline of a question.
//!
//! Each is a function that does nothing and ensures the law, which its caller learns.
ghost use Rattle.std.specs.Prelude.{◌≡◌, ◌↔◌, ◌≤◌, List, ℕ};
ghost use Rattle.dnsv_moments.specs.Moments.{IsSaidBy, MomentsContents};
ghost use Rattle.dnsv_moments.specs.Question.{IsRefusedFor, IsRefusedThroughout, IsTimelineFor, TellKind};
ghost use Rattle.dnsv_names.specs.Name.{Labels};
ghost use Rattle.dnsv_questions.specs.declared.format.Format.{Format};
ghost use Rattle.dnsv_timeline.specs.Timeline.{IsTimelineBy};
ghost use Rattle.dnsv_timeline.specs.declared.stretch.Stretch.{Stretch};
ghost use Rattle.dnsv_questions.specs.Question.{IsQuestion};
ghost use Rattle.dnsv_moments.specs.validity.Said.{IsSaidAt, Said};
ghost use Rattle.dnsv_moments.specs.declared.validity.kind.Kind.TheVariants.{Refused};
ghost use Rattle.dnsv_chain.specs.Basis.{Basis};
ghost use Rattle.dnsv_verdict.specs.declared.error.VerdictError.{VerdictError};
ghost use Rattle.dnsv_verifier.specs.declared.answer.Answer.{Answer};
ghost use Rattle.dnsv_verifier.specs.declared.entry.Entry.{Entry};

use crate::validity::{
    a_table_for_a_range_serves_each_moment, one_thing_is_said_of_a_question,
    what_is_said_depends_on_what_is_asked,
};
use dnsv_verdict::a_question_leads_one_way;

/// A question has at most one timeline in a format, and it is the same for all verifiers that the table may be of.
pub fn a_question_has_one_timeline()
    ensures one { (meaning : Entry → Answer) (moments : MomentsContents) (format : Format) (name : Labels) (t : ℕ)
        (stretches others : List (Stretch Said))
        → IsTimelineFor meaning moments format name t stretches → IsTimelineFor meaning moments format name t others
        → stretches ≡ others }
    ensures whoever { (meaning other : Entry → Answer) (moments : MomentsContents) (format : Format) (name : Labels)
        (t : ℕ) (stretches : List (Stretch Said)) → IsSaidBy meaning moments → IsSaidBy other moments
        → IsTimelineFor meaning moments format name t stretches
        → IsTimelineFor other moments format name t stretches }
{
    one_thing_is_said_of_a_question();
    what_is_said_depends_on_what_is_asked();
    a_table_for_a_range_serves_each_moment();
}

/// A question is refused throughout for at most one reason, and one that can be asked is, just where each stretch of its
/// timeline tells that reason. The stretches may be several all the same, since they differ in the signatures that derive
/// the alias which can't be followed. It is refused alike for all verifiers that the table may be of.
pub fn what_is_refused_throughout()
    ensures one { (basis : Basis) (from to : ℕ) (name : Labels) (t : ℕ) (error other : VerdictError) → from ≤ to
        → IsRefusedThroughout basis from to name t error → IsRefusedThroughout basis from to name t other
        → error ≡ other }
    ensures told { (format : Format) (basis : Basis) (from to : ℕ) (name : Labels) (t : ℕ) (error : VerdictError)
        (stretches : List (Stretch Said)) → from ≤ to → IsQuestion name t
        → IsTimelineBy (IsSaidAt format basis name t) from to stretches
        → (IsRefusedThroughout basis from to name t error ↔ TellKind (Refused error) stretches) }
    ensures whoever { (meaning other : Entry → Answer) (moments : MomentsContents) (name : Labels) (t : ℕ)
        (error : VerdictError) → IsSaidBy meaning moments → IsSaidBy other moments
        → IsRefusedFor meaning moments name t error → IsRefusedFor other moments name t error }
{
    a_question_leads_one_way();
    what_is_said_depends_on_what_is_asked();
    a_table_for_a_range_serves_each_moment();
}
