//! The JSON that begins what is told of a question.
ghost use Rattle.std.specs.Prelude.{◌≡◌, ◌++◌, OnOk, codes, string_bytes, true};
ghost use Rattle.dnsv_lines.specs.Json.{parted};
ghost use Rattle.dnsv_evidence_texts.specs.Question as specs;

use crate::heading::Heading;
use dnsv_lines::push_name;
use dnsv_questions::question_word;
use std::alloc::AllocError;

/// Begins the object with the members for the question, and for the moment that the verdict speaks of.
pub fn push_question(text: &mut String, why: bool, heading: &Heading<'_>) -> Result<(), AllocError>
    ensures { OnOk result (string_bytes text.new ≡ string_bytes text.old
        ++ (codes "{" ++ parted true (specs.question_members why heading.now.name.now heading.now.rtype.0
        heading.now.moment))) }
{
    let command = question_word(why);
    let rtype = heading.rtype.0;
    let moment = heading.moment;
    write!(text, "{{\"command\":\"{command}\",\"name\":")?;
    push_name(text, heading.name)?;
    write!(text, ",\"type\":{rtype},\"moment\":{moment}")?;
    Ok(())
}
