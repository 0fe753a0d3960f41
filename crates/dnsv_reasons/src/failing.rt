//! What fails, where nothing answers a question.
ghost use Rattle.std.specs.Prelude.{◌≡◌, IfOk};
ghost use Rattle.std.specs.Option.{option_map};
ghost use Rattle.dnsv_chain.specs.Trust.{SecuredIn};
ghost use Rattle.dnsv_denial.specs.gathering.ByZone.{AreDenialRecords};
ghost use Rattle.dnsv_remedies.specs.Question.{lines_told};
ghost use Rattle.dnsv_remedies.specs.Remedy.{seen};
ghost use Rattle.dnsv_gaps.specs.Asking.{IsAsked, asking, asking_of};
ghost use Rattle.dnsv_reasons.specs.Failures.{AreFailures, AreToldOf};
ghost use Rattle.dnsv_reasons.specs.Lines.{AreSaidLines};
ghost use Rattle.dnsv_reasons.specs.SourceSearch.{AreAllDenials};

use crate::lines::said_lines;
use crate::sources::{all_denials, named_sources};
use dnsv_canonical::Capture;
use dnsv_denial::DenialRecords;
use dnsv_faults::CaseFacts;
use dnsv_gaps::{AskedQuestion, ZoneDenials, question_facts};
use dnsv_lines::Line;
use dnsv_mending::levels_of;
use dnsv_names::{Name, RecordType};
use dnsv_proof_forms::Hashes;
use dnsv_remedies::{QuestionFacts, Remedy, Said, lines_told, question_remedy};
use dnsv_zone_faults::zone_facts;
use std::alloc::{AllocError, Global};

/// What fails of the question of a name and a type, where nothing answers it: the least that has to be mended, from the root
/// down. `facts` are found in the case of the capture, `denials` are the records of denials that its trust secures, and
/// `hashes` are those for the name.
pub fn failures<'s, 'a>(
    alloc: Global,
    capture: &'a Capture<'a>,
    denials: &'s DenialRecords<'s>,
    facts: &'s CaseFacts<'s>,
    hashes: &'s Hashes<'a>,
    name: &'s Name,
    rtype: RecordType,
) -> Result<Vec<Line>, AllocError>
    requires capture { capture.now.rrsets ≡ facts.now.rrsets }
    requires denials { AreDenialRecords (SecuredIn facts.now.trust) facts.now.rrsets denials.now }
    requires hashes { hashes.now ≡ record { rrsets = facts.now.rrsets; name = name.now } }
    ensures { IfOk result (λ lines. AreFailures (asking_of facts.now name.now rtype.0) lines.items) }
{
    let told = told(alloc, capture, denials, facts, hashes, name, rtype)?;
    let known = facts.known_zones(alloc, name, rtype)?;
    let question = AskedQuestion {
        facts,
        name,
        rtype,
        known: &known,
        hashes,
    };
    let lines = lines_of(alloc, &question, &told)?;
    Ok(lines)
}

/// What is reported of the question, by numbers.
fn told<'s, 'a>(
    alloc: Global,
    capture: &'a Capture<'a>,
    denials: &'s DenialRecords<'s>,
    facts: &'s CaseFacts<'s>,
    hashes: &'s Hashes<'a>,
    name: &'s Name,
    rtype: RecordType,
) -> Result<Vec<Said>, AllocError>
    requires capture { capture.now.rrsets ≡ facts.now.rrsets }
    requires denials { AreDenialRecords (SecuredIn facts.now.trust) facts.now.rrsets denials.now }
    requires hashes { hashes.now ≡ record { rrsets = facts.now.rrsets; name = name.now } }
    ensures { IfOk result (λ told. AreToldOf (asking_of facts.now name.now rtype.0) told.items) }
{
    let zones = zone_facts(alloc, facts, name, rtype)?;
    let question = question_facts(alloc, capture, denials, facts, hashes, name, rtype)?;
    let levels = levels_of(alloc, question.is_anchored, &zones)?;
    let remedy = question_remedy(alloc, &levels, &question)?;
    let lines = told_by(alloc, &question, &remedy)?;
    Ok(lines)
}

/// What is reported of the question, by the least that has to be mended.
fn told_by(
    alloc: Global,
    question: &QuestionFacts,
    remedy: &Option<Remedy>,
) -> Result<Vec<Said>, AllocError>
    ensures { IfOk result (λ told. told.items ≡ lines_told question.now (option_map seen remedy.now)) }
{
    lines_told(alloc, question, remedy.as_ref())
}

/// The lines that say what is reported of the question.
fn lines_of(
    alloc: Global,
    question: &AskedQuestion<'_, '_>,
    told: &[Said],
) -> Result<Vec<Line>, AllocError>
    requires { IsAsked question.now }
    ensures { IfOk result (λ lines. AreSaidLines (asking question.now) told.now lines.items) }
{
    let zones = all_denials(alloc, question)?;
    Ok(lines_by(alloc, question, &zones, told)?)
}

/// The same at lifetimes of their own, by the denials of each zone.
fn lines_by(
    alloc: Global,
    question: &AskedQuestion<'_, '_>,
    zones: &[ZoneDenials<'_>],
    told: &[Said],
) -> Result<Vec<Line>, AllocError>
    requires asked { IsAsked question.now }
    requires zones { AreAllDenials question.now zones.now }
    ensures { IfOk result (λ lines. AreSaidLines (asking question.now) told.now lines.items) }
{
    Ok(lines_with(alloc, question, zones, told)?)
}

/// The same, of what is lent for as long.
fn lines_with<'r>(
    alloc: Global,
    question: &'r AskedQuestion<'r, '_>,
    zones: &'r [ZoneDenials<'r>],
    told: &[Said],
) -> Result<Vec<Line>, AllocError>
    requires asked { IsAsked question.now }
    requires zones { AreAllDenials question.now zones.now }
    ensures { IfOk result (λ lines. AreSaidLines (asking question.now) told.now lines.items) }
{
    let named = named_sources(alloc, question, zones)?;
    said_lines(alloc, question, &named, told)
}
