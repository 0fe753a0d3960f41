//! What may answer a question.
ghost use Rattle.std.specs.Prelude.{◌≡◌, ◌↔◌, IfOk, IsTrue, OnOk, map};
ghost use Rattle.std.specs.List.{AllByRecursion};
ghost use Rattle.dnsv_canonical.specs.Rrsets.{IsNumbered};
ghost use Rattle.dnsv_faults.specs.KnownZones.{IsGoal};
ghost use Rattle.dnsv_gaps.specs.Asking.{IsAsked, asking};
ghost use Rattle.dnsv_gaps.specs.questions.CloserSearch.{IsOneOf, IsViewOf};
ghost use Rattle.dnsv_gaps.specs.questions.Goals.{AreGoalFacts, AreGoals, HasItsCloser, IsGoalNumber};
ghost use Rattle.dnsv_gaps.specs.questions.Listing.{AddsWhere};

use crate::asked::AskedQuestion;
use crate::question::closers::closer_of;
use dnsv_canonical::Rrset;
use dnsv_denial::View;
use dnsv_faults::is_goal;
use dnsv_mending::SignatureFacts;
use dnsv_names::RecordType;
use dnsv_remedies::{AnswerSignature, GoalFacts};
use std::alloc::{AllocError, Global};

/// What is so of each RRset that may answer, by their numbers.
pub fn goals(
    alloc: Global,
    question: &AskedQuestion<'_, '_>,
    view: &View<'_, '_>,
) -> Result<Vec<GoalFacts>, AllocError>
    requires asked { IsAsked question.now }
    requires view { IsViewOf question.now view.now }
    ensures { IfOk result (λ goals. AreGoals (asking question.now) goals.items) }
{
    let mut goals = Vec::new(alloc);
    for (place, rrset) in question.facts.capture().rrsets().iter().enumerate() {
        add_goal(alloc, question, view, place + 1, rrset, &mut goals)?;
    }
    Ok(goals)
}

/// Adds the RRset, which has the number, if it may answer.
fn add_goal(
    alloc: Global,
    question: &AskedQuestion<'_, '_>,
    view: &View<'_, '_>,
    number: usize,
    rrset: &Rrset<'_>,
    goals: &mut Vec<GoalFacts>,
) -> Result<(), AllocError>
    requires asked { IsAsked question.now }
    requires view { IsViewOf question.now view.now }
    requires numbered { IsNumbered question.now.facts.now.rrsets number rrset.now }
    ensures { OnOk result (AddsWhere (IsGoalNumber (asking question.now) number)
        (λ goal. AreGoalFacts (asking question.now) goal × (goal.number ≡ number)) goals.old.items goals.new.items) }
{
    if !is_goal(rrset, question.name, question.rtype) {
        return Ok(());
    }
    let Some(known) = question.facts.rrset_facts(alloc, number)? else {
        return Ok(());
    };
    let is_cname = rrset.rtype() == RecordType::CNAME;
    let signatures = answer_signatures(alloc, question, view, rrset, known.signatures)?;
    goals.push(GoalFacts {
        number,
        is_cname,
        signatures,
    })?;
    Ok(())
}

/// The signatures of the RRset, each with what it asks for beside it.
fn answer_signatures(
    alloc: Global,
    question: &AskedQuestion<'_, '_>,
    view: &View<'_, '_>,
    rrset: &Rrset<'_>,
    known: Vec<SignatureFacts>,
) -> Result<Vec<AnswerSignature>, AllocError>
    requires asked { IsAsked question.now }
    requires view { IsViewOf question.now view.now }
    requires goal { IsGoal question.now.name.now question.now.rtype.0 rrset.now }
    requires each { AllByRecursion (IsOneOf rrset.now) known.items }
    ensures signatures { IfOk result (λ all. map (λ each. each.signature) all.items ≡ known.items) }
    ensures closers { IfOk result (λ all. AllByRecursion (HasItsCloser (asking question.now) rrset.now) all.items) }
{
    let mut all = Vec::with_capacity(alloc, known.len())?;
    for signature in known {
        let closer = closer_of(alloc, question, view, rrset, signature.number.signature)?;
        all.push(AnswerSignature { signature, closer })?;
    }
    Ok(all)
}
