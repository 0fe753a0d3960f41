//! The JSON for a question that has no verdict, where it is one of many.
ghost use Rattle.std.specs.Prelude.{◌≡◌, IfOk, string_bytes};
ghost use Rattle.dnsv_evidence_texts.specs.Refused as specs;
ghost use Rattle.dnsv_questions.specs.declared.format.Format.TheVariants.{Json};

use crate::heading::Heading;
use crate::json::question::push_question;
use std::alloc::{AllocError, Global};

/// The object of the question, the number of its refusal and the exit status.
pub fn refused_json(
    alloc: Global,
    number: u16,
    why: bool,
    heading: &Heading<'_>,
) -> Result<String, AllocError>
    ensures { IfOk result (λ text. string_bytes text
        ≡ specs.refused_text Json number why heading.now.name.now heading.now.rtype.0 heading.now.moment
        heading.now.status) }
{
    let mut text = String::new(alloc);
    push_question(&mut text, why, heading)?;
    let status = heading.status;
    write!(text, ",\"refused\":{number},\"status\":{status}")?;
    text.push_str("}\n")?;
    Ok(text)
}
