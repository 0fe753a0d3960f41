//! What has to be mended so that a question is answered, denied, or shown to be below an unsigned delegation.
ghost use Rattle.std.specs.Prelude.{◌≡◌, IfOk, OnOk, map};
ghost use Rattle.std.specs.Option.{option_map};
ghost use Rattle.dnsv_mending.specs.Level.{seen_level};
ghost use Rattle.dnsv_remedies.specs.Question.{answer_or_denial, is_below_dname, question_remedy};
ghost use Rattle.dnsv_remedies.specs.Remedy.{Offers, seen};

use crate::answers::offer_goals;
use crate::cuts::offer_parents;
use crate::denials::offer_denials;
use crate::facts::question::QuestionFacts;
use crate::remedy::{Remedy, is_none};
use dnsv_mending::{Level, Mend, zone_above};
use std::alloc::{AllocError, Global};

/// The least that has to be mended so that the question is answered, denied, or shown to be below an unsigned delegation;
/// `None` where nothing leads there. `levels` are those of the zones at or above the name, from the root down.
#[tactic(auto, using(crate::proofs::Lists::offered_both))]
pub fn question_remedy(
    alloc: Global,
    levels: &[Level],
    question: &QuestionFacts,
) -> Result<Option<Remedy>, AllocError>
    ensures { IfOk result (λ m. option_map seen m ≡ question_remedy (map seen_level levels.now) question.now) }
{
    let mut best = None;
    offer_answer_or_denial(alloc, levels, question, &mut best)?;
    offer_parents(alloc, levels, &question.parents, &mut best)?;
    Ok(best)
}

/// Offers the answers, where something may answer, or else the denials.
fn offer_answer_or_denial(
    alloc: Global,
    levels: &[Level],
    question: &QuestionFacts,
    best: &mut Option<Remedy>,
) -> Result<(), AllocError>
    ensures { OnOk result (Offers (answer_or_denial (map seen_level levels.now) question.now) best.old best.new) }
{
    let below = is_below_dname(question);
    if is_none(&question.goals) {
        return offer_denials(
            alloc,
            levels,
            question.labels,
            below,
            &question.speakers,
            best,
        );
    }
    let nothing = Mend::nothing(alloc);
    let above = zone_above(levels, &nothing);
    offer_goals(alloc, levels, above, below, &question.goals, best)
}

/// Whether a name above the name that is asked for owns a DNAME RRset.
fn is_below_dname(question: &QuestionFacts) -> bool
    ensures { result ≡ is_below_dname question.now }
{
    !is_none(&question.dnames)
}
