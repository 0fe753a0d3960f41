//! Laws of verdicts.
//!
//! Each is a function that does nothing and ensures the law, which its caller learns.

pub mod complete;
pub mod ways;

ghost use Rattle.std.specs.Prelude.{◌≡◌, ◌↔◌, ◌≤◌, ◌++◌, ℕ, List, [], Contains};
ghost use Rattle.dnsv_message.specs.Message.{Contents};
ghost use Rattle.dnsv_names.specs.Name.{Labels};
ghost use Rattle.dnsv_verifier.specs.declared.answer.Answer.{Answer};
ghost use Rattle.dnsv_verifier.specs.declared.answer.Answer.TheVariants.{Valid};
ghost use Rattle.dnsv_verifier.specs.declared.entry.Entry.{Entry};
ghost use Rattle.dnsv_anchors.specs.declared.anchor.Anchor.{Anchor};
ghost use Rattle.dnsv_verdict.specs.Settled.NoLess.{AnswersNoLess, IsNoLess, basis_of_messages, case_of};
ghost use Rattle.dnsv_chain.specs.Basis.{Basis, HasAnchor, with_meaning};
ghost use Rattle.dnsv_verdict.specs.Verdict.{IsSettledVerdict, IsVerdictAt, IsSettledBy};

use crate::verdict::Verdict;
use dnsv_chain::{more_evidence_takes_no_trust_away, trust_depends_on_what_is_asked};
use dnsv_rrsets::earlier_rrsets_keep_their_numbers;

/// A question has at most one verdict, so none can be given in place of another.
pub fn a_question_has_one_verdict()
    ensures { (basis : Basis) (name : Labels) (t : ℕ) (a b : Verdict)
        → IsVerdictAt basis name t a → IsVerdictAt basis name t b → a ≡ b }
{}

/// A question has a verdict: it can't be that no verdict is the one. With the law above it has exactly one. Some of the
/// cases ask whether records prove something, which their definitions don't decide; so the law says that none fails,
/// and not which one it is.
pub fn a_question_has_a_verdict()
    ensures { (basis : Basis) (name : Labels) (t : ℕ)
        → ¬ ((verdict : Verdict) → ¬ IsVerdictAt basis name t verdict) }
{}

/// A question is Indeterminate just where no trust anchor is at or above its name: an anchor below the name, or beside
/// it, makes nothing good that could settle the question, whatever the evidence and the verifier.
pub fn a_question_is_indeterminate_without_an_anchor_above()
    ensures { (basis : Basis) (name : Labels) (t : ℕ)
        → IsVerdictAt basis name t Verdict.Indeterminate ↔ (¬ HasAnchor basis.anchors name) }
{}

/// Where a verdict depends on entries, a verifier that says Valid of these, and of each other entry what was said,
/// leads to a verdict that depends on none: a secure one, or that the name may be unsigned. So a verdict never depends
/// on an empty list.
pub fn valid_answers_settle_what_depends_on_them()
    ensures settles { (basis : Basis) (name : Labels) (t : ℕ) (entries : List Entry) (later : Entry → Answer)
        → IsVerdictAt basis name t (Verdict.Pending entries)
        → ((entry : Entry) → Contains entries entry → later entry ≡ Valid)
        → ((entry : Entry) → ¬ Contains entries entry → later entry ≡ basis.meaning entry)
        → IsSettledBy (with_meaning basis later) name t }
    ensures verdict { (basis : Basis) (name : Labels) (t : ℕ) (entries : List Entry) (later : Entry → Answer)
        → IsVerdictAt basis name t (Verdict.Pending entries)
        → ((entry : Entry) → Contains entries entry → later entry ≡ Valid)
        → ((entry : Entry) → ¬ Contains entries entry → later entry ≡ basis.meaning entry)
        → (verdict : Verdict) → IsVerdictAt (with_meaning basis later) name t verdict → IsSettledVerdict verdict }
    ensures some { (basis : Basis) (name : Labels) (t : ℕ) → ¬ IsVerdictAt basis name t (Verdict.Pending []) }
{
    trust_depends_on_what_is_asked();
}

/// More evidence makes no verdict worse. With RRsets behind those that were there, more anchors, the same moment, and a
/// verifier that says Valid wherever it was said and Invalid nowhere that it was Unknown, the case of the verdict is
/// none behind the one before. So it is of a capture and each with more messages behind the same ones. What a verdict
/// names may change: a lower signature may have become good.
pub fn more_evidence_makes_no_verdict_worse()
    ensures bases { (before after : Basis) (name : Labels) (t : ℕ) (first second : Verdict)
        → IsNoLess before after
        → IsVerdictAt before name t first → IsVerdictAt after name t second → case_of second ≤ case_of first }
    ensures captures { (earlier later : List Contents) (anchors others : List Anchor) (moment : ℕ)
        (meaning better : Entry → Answer) (name : Labels) (t : ℕ) (first second : Verdict)
        → ((anchor : Anchor) → Contains anchors anchor → Contains others anchor)
        → AnswersNoLess meaning better
        → IsVerdictAt (basis_of_messages earlier anchors moment meaning) name t first
        → IsVerdictAt (basis_of_messages (earlier ++ later) others moment better) name t second
        → case_of second ≤ case_of first }
{
    more_evidence_takes_no_trust_away();
    earlier_rrsets_keep_their_numbers();
}
