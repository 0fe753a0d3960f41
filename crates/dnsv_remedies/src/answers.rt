//! What has to be mended so that an RRset answers.
ghost use Rattle.std.specs.Prelude.{◌≡◌, IfOk, OnOk, map, flat_map};
ghost use Rattle.std.specs.Option.{option_map};
ghost use Rattle.dnsv_mending.specs.Level.{seen_level};
ghost use Rattle.dnsv_mending.specs.Mend as mending;
ghost use Rattle.dnsv_remedies.specs.Answers.{answer_ways, closer_remedy, goal_ways, stripped};
ghost use Rattle.dnsv_remedies.specs.Remedy.{Offers, seen};

use crate::facts::answer::{AnswerSignature, CloserFacts, GoalFacts};
use crate::parts::part;
use crate::remedy::{
    Remedy, end_with, fault, is_none, nothing, offer_after, offer_beside, untold, unusable_lines,
};
use crate::said::Said;
use dnsv_mending::{Class, Level, Mend, SignatureFacts, Told, offer_signature};
use std::alloc::{AllocError, Global};

/// Offers the ways by each of the RRsets. `above` is the zone above the name that is asked for, and `is_below_dname` tells
/// whether a name above it owns a DNAME RRset.
#[tactic(auto, using(crate::proofs::Lists::offered_next))]
pub fn offer_goals(
    alloc: Global,
    levels: &[Level],
    above: Option<&Mend>,
    is_below_dname: bool,
    goals: &[GoalFacts],
    best: &mut Option<Remedy>,
) -> Result<(), AllocError>
    ensures { OnOk result (Offers (flat_map (goal_ways (map seen_level levels.now) (option_map (λ m. mending.seen m.now) above.entry) is_below_dname)
        goals.now) best.old best.new) }
{
    for goal in goals {
        offer_goal(alloc, levels, above, is_below_dname, goal, best)?;
    }
    Ok(())
}

/// Offers those by one of them.
#[tactic(auto, unfolding(crate::specs::Answers::goal_ways))]
fn offer_goal(
    alloc: Global,
    levels: &[Level],
    above: Option<&Mend>,
    is_below_dname: bool,
    goal: &GoalFacts,
    best: &mut Option<Remedy>,
) -> Result<(), AllocError>
    ensures { OnOk result (Offers (goal_ways (map seen_level levels.now) (option_map (λ m. mending.seen m.now) above.entry) is_below_dname
        goal.now) best.old best.new) }
{
    if is_none(&goal.signatures) {
        let own = stripped(alloc, is_below_dname, goal)?;
        return offer_after(alloc, above, &own, best);
    }
    offer_signatures(alloc, levels, above, &goal.signatures, best)
}

/// What has to be mended where it has no signatures, which costs as what is missing altogether.
fn stripped(alloc: Global, is_below_dname: bool, goal: &GoalFacts) -> Result<Remedy, AllocError>
    ensures { IfOk result (λ m. seen m ≡ stripped is_below_dname goal.now) }
{
    if is_below_dname && goal.is_cname {
        Ok(untold(alloc, Class::Missing))
    } else {
        let line = Said::Trust(Told::Unsigned(goal.number));
        fault(alloc, Class::Missing, line)
    }
}

/// Offers those by each of the signatures.
#[tactic(auto, using(crate::proofs::Lists::offered_next))]
fn offer_signatures(
    alloc: Global,
    levels: &[Level],
    above: Option<&Mend>,
    signatures: &[AnswerSignature],
    best: &mut Option<Remedy>,
) -> Result<(), AllocError>
    ensures { OnOk result (Offers (flat_map (answer_ways (map seen_level levels.now) (option_map (λ m. mending.seen m.now) above.entry))
        signatures.now) best.old best.new) }
{
    for signature in signatures {
        offer_answer(alloc, levels, above, signature, best)?;
    }
    Ok(())
}

/// Offers that by one of them.
#[tactic(auto, unfolding(crate::specs::Answers::answer_ways))]
fn offer_answer(
    alloc: Global,
    levels: &[Level],
    above: Option<&Mend>,
    answer: &AnswerSignature,
    best: &mut Option<Remedy>,
) -> Result<(), AllocError>
    ensures { OnOk result (Offers (answer_ways (map seen_level levels.now) (option_map (λ m. mending.seen m.now) above.entry)
        answer.now) best.old best.new) }
{
    let mut kept = None;
    offer_signature(alloc, levels, above, &answer.signature, &mut kept)?;
    let closer = closer_remedy(alloc, levels, &answer.signature, answer.closer.as_ref())?;
    offer_beside(alloc, kept.as_ref(), &closer, best)
}

/// What has to be mended so that no closer name is there.
fn closer_remedy(
    alloc: Global,
    levels: &[Level],
    signature: &SignatureFacts,
    closer: Option<&CloserFacts>,
) -> Result<Remedy, AllocError>
    ensures { IfOk result (λ m. seen m ≡ closer_remedy (map seen_level levels.now) signature.now (option_map (λ c. c.now) closer.entry)) }
{
    let Some(closer) = closer else {
        return Ok(nothing(alloc));
    };
    let lines = unusable_lines(alloc, &closer.unusable)?;
    let mut made = part(alloc, levels, signature.signer, &closer.covers, &lines)?;
    end_with(&mut made, Said::NoCloser(signature.number, closer.name))?;
    Ok(made)
}
