//! What is so of a question.

mod closers;
mod cuts;
mod dnames;
mod goals;

ghost use Rattle.std.specs.Prelude.{◌≡◌, IfOk};
ghost use Rattle.dnsv_chain.specs.Trust.{SecuredIn};
ghost use Rattle.dnsv_denial.specs.gathering.ByZone.{AreDenialRecords};
ghost use Rattle.dnsv_gaps.specs.Asking.{IsAsked, asking, asking_of};
ghost use Rattle.dnsv_gaps.specs.questions.CloserSearch.{IsViewOf};
ghost use Rattle.dnsv_gaps.specs.questions.Questions.{AreQuestionFacts};

use crate::asked::AskedQuestion;
use crate::question::cuts::parents;
use crate::question::dnames::dnames;
use crate::question::goals::goals;
use crate::speakers::speaker_facts;
use dnsv_canonical::Capture;
use dnsv_denial::{DenialRecords, View};
use dnsv_faults::{CaseFacts, has_anchor};
use dnsv_names::{Name, RecordType};
use dnsv_proof_forms::Hashes;
use dnsv_remedies::QuestionFacts;
use std::alloc::{AllocError, Global};

/// What the evidence of the case has that may answer the question of a name and a type or deny it, whether it is trusted or not.
/// `facts` are found in the case, `denials` are the records of denials that its trust secures, and `hashes` are those for the
/// name. Nothing is asked of a verifier, and nothing is hashed.
pub fn question_facts<'s, 'a>(
    alloc: Global,
    capture: &'a Capture<'a>,
    denials: &'s DenialRecords<'s>,
    facts: &'s CaseFacts<'s>,
    hashes: &'s Hashes<'a>,
    name: &'s Name,
    rtype: RecordType,
) -> Result<QuestionFacts, AllocError>
    requires capture { capture.now.rrsets ≡ facts.now.rrsets }
    requires denials { AreDenialRecords (SecuredIn facts.now.trust) facts.now.rrsets denials.now }
    requires hashes { hashes.now ≡ record { rrsets = facts.now.rrsets; name = name.now } }
    ensures { IfOk result (AreQuestionFacts (asking_of facts.now name.now rtype.0)) }
{
    let known = facts.known_zones(alloc, name, rtype)?;
    let question = AskedQuestion {
        facts,
        name,
        rtype,
        known: &known,
        hashes,
    };
    let view = View::through(alloc, capture, facts.trust(), denials, hashes)?;
    Ok(facts_of(alloc, &question, &view)?)
}

/// What is so of the question. The view is of its name.
fn facts_of(
    alloc: Global,
    question: &AskedQuestion<'_, '_>,
    view: &View<'_, '_>,
) -> Result<QuestionFacts, AllocError>
    requires asked { IsAsked question.now }
    requires view { IsViewOf question.now view.now }
    ensures { IfOk result (AreQuestionFacts (asking question.now)) }
{
    let labels = question.name.labels();
    let is_anchored = has_anchor(question.facts, question.name);
    let goals = goals(alloc, question, view)?;
    let dnames = dnames(alloc, question)?;
    let speakers = speaker_facts(alloc, question)?;
    let parents = parents(alloc, question)?;
    Ok(QuestionFacts {
        labels,
        is_anchored,
        goals,
        dnames,
        speakers,
        parents,
    })
}
