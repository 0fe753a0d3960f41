//! Laws of the lines of explanations.
//!
//! Each is a function that changes nothing and ensures the law, which its caller learns.
ghost use Rattle.std.specs.Prelude.{◌≡◌, ◌↔◌};
ghost use Rattle.std.specs.List.{AllByRecursion};
ghost use Rattle.dnsv_lines.specs.Rows.{line_json, line_text, sentence_of};
ghost use Rattle.dnsv_lines.specs.Sentence.{said};
ghost use Rattle.dnsv_line_laws.specs.Lower.{SameLine};
ghost use Rattle.dnsv_line_laws.specs.Types.{AreOfTheirTypes, IsOfItsType};

use dnsv_lines::{Field, Line, Value};

/// Lines have one text just where they are the same, but for the case of letters in names: no two lines of one text.
pub fn a_text_has_one_line(a: &Line, b: &Line)
    ensures { line_text a.now ≡ line_text b.now ↔ SameLine a.now b.now }
{
    says_what_types_allow(a);
    says_what_types_allow(b);
}

/// Lines have one object of JSON just where they are the same, but for the case of letters in names.
pub fn a_json_has_one_line(a: &Line, b: &Line)
    ensures { line_json a.now ≡ line_json b.now ↔ SameLine a.now b.now }
{
    says_what_types_allow(a);
    says_what_types_allow(b);
}

/// The names of a line are names, and its numbers have at most 64 bits.
fn says_what_types_allow(line: &Line)
    ensures { AreOfTheirTypes (sentence_of line.now) }
{
    let sentence = line.sentence();
    are_of_their_types(&sentence.fields);
}

/// So of fields one after another.
fn are_of_their_types(fields: &[Field<'_>])
    ensures { AllByRecursion (λ field. IsOfItsType (said field.value)) fields.now }
{
    for field in fields {
        is_of_its_type(field.value);
    }
}

/// So of a field.
fn is_of_its_type(value: Value<'_>)
    ensures { IsOfItsType (said value.entry) }
{
    match value {
        Value::Name(name) => name.keeps_its_limits(),
        _ => {}
    }
}
