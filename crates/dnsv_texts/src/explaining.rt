//! Why a verdict stands, in lines.
ghost use Rattle.std.specs.Prelude.{◌≡◌, ◌++◌, OnOk, codes, flat_map, string_bytes};
ghost use Rattle.std.specs.Option.{option_map};
ghost use Rattle.dnsv_lines.specs.Rows.{line_text};
ghost use Rattle.dnsv_texts.specs.Why.{why_line, why_lines};

use crate::numbering::renumbered;
use dnsv_lines::Line;
use std::alloc::AllocError;

/// Adds a line of text for each line that says why, where there are such.
pub fn push_why(
    text: &mut String,
    why: Option<&[Line]>,
    numbers: Option<&[usize]>,
) -> Result<(), AllocError>
    ensures { OnOk result (string_bytes text.new
        ≡ string_bytes text.old ++ why_lines (option_map (λ lines. lines.now) why.entry)
        (option_map (λ numbers. numbers.now) numbers.entry)) }
{
    match why {
        Some(lines) => push_lines(text, lines, numbers),
        None => Ok(()),
    }
}

/// Adds a line of text for each.
fn push_lines(
    text: &mut String,
    lines: &[Line],
    numbers: Option<&[usize]>,
) -> Result<(), AllocError>
    ensures { OnOk result (string_bytes text.new ≡ string_bytes text.old
        ++ flat_map (why_line (option_map (λ numbers. numbers.now) numbers.entry)) lines.now) }
{
    for line in lines {
        push_line(text, line, numbers)?;
    }
    Ok(())
}

/// Adds a line of text.
fn push_line(text: &mut String, line: &Line, numbers: Option<&[usize]>) -> Result<(), AllocError>
    ensures { OnOk result (string_bytes text.new
        ≡ string_bytes text.old ++ why_line (option_map (λ numbers. numbers.now) numbers.entry) line.now) }
{
    match renumbered(line, numbers) {
        Some(told) => write_line(text, &told),
        None => write_line(text, line),
    }
}

/// Adds the text of a line as it is.
fn write_line(text: &mut String, line: &Line) -> Result<(), AllocError>
    ensures { OnOk result (string_bytes text.new ≡ string_bytes text.old ++ (line_text line.now ++ codes "\n")) }
{
    writeln!(text, "{line}")?;
    Ok(())
}
