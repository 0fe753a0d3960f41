//! The JSON of a line.
ghost use Rattle.std.specs.Prelude.{◌≡◌, ◌++◌, ◌∷◌, [], codes, flat_map, map, OnOk, string_bytes};
ghost use Rattle.std.specs.Fmt.{decimal};
ghost use Rattle.dnsv_lines.specs.Json.{AddsMembers, member, name_json, quoted};
ghost use Rattle.dnsv_lines.specs.Rows.{line_json};
ghost use Rattle.dnsv_lines.specs.Salt.{salt_text};
ghost use Rattle.dnsv_lines.specs.Sentence.{field_members, json_under, said_field, said_sentence};

use crate::json::push_name;
use crate::line::Line;
use crate::sentence::Sentence;
use crate::sentence::field::{Field, Value};
use crate::sentence::salt::SaltText;
use dnsv_names::Name;
use std::alloc::AllocError;

/// Adds the object of the line to the text.
pub fn push_line(text: &mut String, line: &Line) -> Result<(), AllocError>
    ensures { OnOk result (string_bytes text.new ≡ string_bytes text.old ++ line_json line.now) }
{
    push_object(text, "line", &line.sentence())
}

/// Adds the object of a sentence, whose first word stands under this key.
pub fn push_object(text: &mut String, key: &str, sentence: &Sentence<'_>) -> Result<(), AllocError>
    ensures { OnOk result (string_bytes text.new
        ≡ string_bytes text.old ++ json_under key.now (said_sentence sentence.now)) }
{
    let line = sentence.line;
    write!(text, "{{\"{key}\":\"{line}\"")?;
    push_field(text, &Field::plain("word", sentence.word))?;
    push_field(text, &Field::plain("ede", sentence.error))?;
    push_fields(text, &sentence.fields)?;
    text.push_str("}")?;
    Ok(())
}

/// Adds the members of fields, behind others.
fn push_fields(text: &mut String, fields: &[Field<'_>]) -> Result<(), AllocError>
    ensures { OnOk result (AddsMembers (flat_map field_members (map said_field fields.now)) (string_bytes text.old)
        (string_bytes text.new)) }
{
    for field in fields {
        push_field(text, field)?;
    }
    Ok(())
}

/// Adds the member of a field, where the line has it.
#[tactic(auto, using(crate::proofs::MemberLemmas::no_members))]
fn push_field(text: &mut String, field: &Field<'_>) -> Result<(), AllocError>
    ensures { OnOk result (AddsMembers (field_members (said_field field.now)) (string_bytes text.old)
        (string_bytes text.new)) }
{
    match field.value {
        Value::Name(name) => push_named(text, field.key, name),
        Value::Number(number) => push_number(text, field.key, number),
        Value::Rrset(number) => push_number(text, field.key, number as u64),
        Value::Word(word) => push_word(text, field.key, word),
        Value::Salt(salt) => push_salt(text, field.key, salt),
        Value::Nothing => Ok(()),
    }
}

/// Adds the key of a member, whose value comes next.
fn push_key(text: &mut String, key: &str) -> Result<(), AllocError>
    ensures { OnOk result (string_bytes text.new
        ≡ string_bytes text.old ++ (codes "," ++ (quoted key.now ++ codes ":"))) }
{
    write!(text, ",\"{key}\":")?;
    Ok(())
}

/// Adds a member with a number.
fn push_number(text: &mut String, key: &str, number: u64) -> Result<(), AllocError>
    ensures { OnOk result (AddsMembers (member key.now (decimal number) ∷ []) (string_bytes text.old)
        (string_bytes text.new)) }
{
    push_key(text, key)?;
    write!(text, "{number}")?;
    Ok(())
}

/// Adds a member with a name, in lower case.
fn push_named(text: &mut String, key: &str, name: &Name) -> Result<(), AllocError>
    ensures { OnOk result (AddsMembers (member key.now (name_json name.now) ∷ []) (string_bytes text.old)
        (string_bytes text.new)) }
{
    push_key(text, key)?;
    push_name(text, name)?;
    Ok(())
}

/// Adds a member with a word, as a string.
fn push_word(text: &mut String, key: &str, word: &str) -> Result<(), AllocError>
    ensures { OnOk result (AddsMembers (member key.now (quoted word.now) ∷ []) (string_bytes text.old)
        (string_bytes text.new)) }
{
    push_key(text, key)?;
    write!(text, "\"{word}\"")?;
    Ok(())
}

/// Adds a member with a salt, as a string.
fn push_salt(text: &mut String, key: &str, salt: &[u8]) -> Result<(), AllocError>
    ensures { OnOk result (AddsMembers (member key.now (quoted (salt_text salt.now)) ∷ []) (string_bytes text.old)
        (string_bytes text.new)) }
{
    push_key(text, key)?;
    let salt = SaltText { salt };
    write!(text, "\"{salt}\"")?;
    Ok(())
}
