//! What fails is said without a line twice.
ghost use Rattle.std.specs.Prelude.{List, map};
ghost use Rattle.std.specs.List.{AllByRecursion};
ghost use Rattle.dnsv_gaps.specs.Asking.{Asking};
ghost use Rattle.dnsv_line_laws.specs.Lower.{lower_line};
ghost use Rattle.dnsv_lines.specs.Rows.{line_text};
ghost use Rattle.dnsv_reasons.specs.Failures.{AreFailures};
ghost use Rattle.dnsv_reasons.specs.laws.Once.{AreOnce, TellsItsLine};

use dnsv_line_laws::a_text_has_one_line;
use dnsv_lines::Line;

/// A law: of what fails of a question no two lines are the same, not even but for the case of letters in names.
pub fn no_line_that_fails_stands_twice()
    ensures same { (a : Asking) (lines : List Line) → AreFailures a lines → AreOnce (map lower_line lines) }
    ensures equal { (a : Asking) (lines : List Line) → AreFailures a lines → AreOnce lines }
{}

/// A law: and no two of these lines have one text.
pub fn no_text_of_what_fails_stands_twice(lines: &[Line])
    ensures { (a : Asking) → AreFailures a lines.now → AreOnce (map line_text lines.now) }
{
    for line in lines {
        tells_its_line(line, lines);
    }
}

/// The text of the line tells it from the others.
fn tells_its_line(line: &Line, lines: &[Line])
    ensures { AllByRecursion (TellsItsLine line.now) lines.now }
{
    for other in lines {
        a_text_has_one_line(line, other);
    }
}
