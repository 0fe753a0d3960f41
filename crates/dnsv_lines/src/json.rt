//! JSON as it is written here: the words of its grammar (RFC 8259).
ghost use Rattle.std.specs.Prelude.{◌≡◌, ◌++◌, ◌<◌, false, flat_map, OnOk, string_bytes};
ghost use Rattle.dnsv_names.specs.Text.{text_of};
ghost use Rattle.dnsv_lines.specs.Json as specs;

pub mod sentence;

use dnsv_names::Name;
use std::alloc::AllocError;

/// Adds a comma where a value stands before: what follows is then no more the first.
pub fn push_comma(text: &mut String, first: &mut bool) -> Result<(), AllocError>
    ensures text { OnOk result (string_bytes text.new ≡ string_bytes text.old ++ specs.comma first.old) }
    ensures first { OnOk result (first.new ≡ false) }
{
    if !*first {
        text.push_str(",")?;
    }
    *first = false;
    Ok(())
}

/// Adds the name, in lower case, as a string.
pub fn push_name(text: &mut String, name: &Name) -> Result<(), AllocError>
    ensures { OnOk result (string_bytes text.new ≡ string_bytes text.old ++ specs.name_json name.now) }
{
    let name = name.to_lower();
    text.push_str("\"")?;
    push_spelled(text, &name)?;
    text.push_str("\"")?;
    Ok(())
}

/// Adds the text of a name, within a string.
fn push_spelled(text: &mut String, name: &Name) -> Result<(), AllocError>
    ensures { OnOk result (string_bytes text.new
        ≡ string_bytes text.old ++ flat_map specs.escaped (text_of name.now)) }
{
    // The wire form says that it is a name, whose text is ASCII.
    let _wire = name.wire();
    let spelled = name.text();
    push_ascii(text, spelled.as_str().as_bytes())
}

/// Adds ASCII, within a string.
fn push_ascii(text: &mut String, octets: &[u8]) -> Result<(), AllocError>
    requires { specs.AreAscii octets.now }
    ensures { OnOk result (string_bytes text.new ≡ string_bytes text.old ++ flat_map specs.escaped octets.now) }
{
    for octet in octets {
        push_octet(text, *octet)?;
    }
    Ok(())
}

/// Adds an octet of ASCII, within a string.
fn push_octet(text: &mut String, octet: u8) -> Result<(), AllocError>
    requires { octet < 128 }
    ensures { OnOk result (string_bytes text.new ≡ string_bytes text.old ++ specs.escaped octet) }
{
    if octet == b'"' || octet == b'\\' {
        text.push('\\')?;
    }
    text.push(char::from(octet))?;
    Ok(())
}
