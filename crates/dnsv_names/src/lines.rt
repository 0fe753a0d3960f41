//! The lines of text files.

pub mod base64_field;
pub mod decimal;

ghost use Rattle.std.specs.Prelude.{◌≡◌, ◌==◌, ◌+◌, ◌++◌, ◌∷◌, [], ◌<◌, ◌^◌, ◌↔◌, IsTrue, List, ℕ, length, MatchOption, Some, map, ◌≢◌, IfSome, IfNone};
ghost use Rattle.std.specs.Option.{option_copied};
ghost use Rattle.std.specs.Iterator.{YieldsFirst, item_count};
ghost use Rattle.std.specs.List.{position};
ghost use Rattle.dnsv_names.specs.Lines.LineReading.{lines_in, pieces_in, pieces_left};
ghost use Rattle.dnsv_names.specs.Lines.{AreFields, HasLines, Lacks, NumberedLine, is_passed_over};

use arrayvec::ArrayVec;
use memchr::memchr;
use std::marker::Model;

/// A line of a text file, without its newline, and its number in the file.
#[derive(Debug, Drop)]
pub struct Line<'a> {
    number: usize,
    octets: &'a [u8],
}

impl<'a> Model for Line<'a> {
    ghost use Rattle.std.specs.Prelude.{◌≡◌, false};
    ghost use Rattle.dnsv_names.specs.Lines.{NumberedLine, is_passed_over};

    ghost Value = { NumberedLine };

    ghost view = { λ line. record { number = line.number; octets = line.octets.now } };

    ghost invariant = { λ line. is_passed_over line.octets.now ≡ false };
}

impl<'a> Line<'a> {
    /// The number of the line, the file's first being 1.
    pub fn number(&self) -> usize
        ensures { result ≡ self.now.number }
    {
        self.number
    }

    /// The octets of the line, of any values.
    pub fn octets(&self) -> &'a [u8]
        ensures { result.now ≡ self.now.octets }
    {
        self.octets
    }

    /// The fields of the line, where it has `N` of them. Exactly one space stands between two fields, and each
    /// has at least one octet, of any values but the space's.
    pub fn fields<const N: usize>(&self) -> Option<ArrayVec<&'a [u8], N>>
        ensures found { IfSome result
            (λ found. AreFields self.now.octets (map (λ field. field.now) found.items)) }
        ensures length { IfSome result (λ found. length found.items ≡ N) }
        ensures none { IfNone result
            ((fields : List (List ℕ)) → AreFields self.now.octets fields → length fields ≡ N → ⊥) }
    {
        let mut fields = ArrayVec::new();
        let mut rest = Some(self.octets);
        while !fields.is_full() {
            let (field, behind) = first_piece(rest?);
            if field.is_empty() {
                return None;
            }
            fields.push(field);
            rest = behind;
        }
        if rest.is_some() {
            return None;
        }
        Some(fields)
    }
}

/// The lines of a text file in order. Each ends with a newline, the octet 0x0a, and the last may lack it. An
/// empty line and one that begins with `#` are passed over, but counted.
///
/// It takes no memory.
#[derive(Debug, Drop)]
pub struct Lines<'a> {
    rest: &'a [u8],
    passed: usize,
}

impl<'a> Model for Lines<'a> {
    ghost use Rattle.std.specs.Prelude.{List, length, ◌+◌, ◌<◌, ◌^◌};
    ghost use Rattle.dnsv_names.specs.Lines.{NumberedLine, kept_from};
    ghost use Rattle.dnsv_names.specs.Lines.LineReading.{lines_in};

    ghost Value = { List NumberedLine };

    ghost view = { λ lines. kept_from (lines.passed + 1) (lines_in lines.rest.now) };

    ghost invariant = { λ lines. lines.passed + length lines.rest.now < 2 ^ 64 };
}

impl<'a> Lines<'a> {
    /// The lines of the text.
    pub fn new(text: &'a [u8]) -> Lines<'a>
        ensures { HasLines text.now result }
    {
        Lines {
            rest: text,
            passed: 0,
        }
    }
}

impl<'a> Iterator for Lines<'a> {
    type Item = Line<'a>;

    ghost next_gives = { YieldsFirst (λ lines. lines) };

    ghost remaining = { item_count (λ lines. lines) };

    fn next(&mut self) -> Option<Line<'a>> {
        while !self.rest.is_empty() {
            let (octets, rest) = first_line(self.rest);
            self.rest = rest;
            self.passed += 1;
            if !is_passed_over(octets) {
                return Some(Line {
                    number: self.passed,
                    octets,
                });
            }
        }
        None
    }
}

/// A law of text files: each text has lines, and has them in one way.
pub fn a_text_has_one_list_of_lines()
    ensures some { (text : List ℕ) → (lines : List NumberedLine) × HasLines text lines }
    ensures only { (text : List ℕ) (a b : List NumberedLine) → HasLines text a → HasLines text b
        → a ≡ b }
{}

/// A law of text files: a line has fields in at most one way.
pub fn a_line_has_one_list_of_fields()
    ensures { (line : List ℕ) (a b : List (List ℕ)) → AreFields line a → AreFields line b → a ≡ b }
{}

/// Whether the line is empty or begins with `#`.
fn is_passed_over(line: &[u8]) -> bool
    ensures { result ≡ is_passed_over line.now }
{
    matches!(line, [] | [b'#', ..])
}

/// The first line of a text that isn't empty, and what stands behind its newline.
fn first_line(text: &[u8]) -> (&[u8], &[u8])
    requires { 0 < length text.now }
    ensures first { lines_in text.now ≡ result.0.now ∷ lines_in result.1.now }
    ensures shorter { length result.1.now < length text.now }
{
    match parted(text, b'\n') {
        Some(found) => found,
        None => (text, &[]),
    }
}

/// What stands before and behind the first of these octets.
fn parted(text: &[u8], octet: u8) -> Option<(&[u8], &[u8])>
    ensures { MatchOption result (Lacks octet text.now)
        (λ found. (text.now ≡ found.0.now ++ octet ∷ found.1.now) × Lacks octet found.0.now) }
{
    let place = place_of(text, octet)?;
    Some((&text[..place], &text[place + 1..]))
}

/// The place of the first of these octets.
fn place_of(text: &[u8], octet: u8) -> Option<usize>
    ensures { result ≡ position (λ each. each == octet) text.now }
{
    memchr(octet, text)
}

/// What stands before the first space, and what stands behind it.
fn first_piece(text: &[u8]) -> (&[u8], Option<&[u8]>)
    ensures { pieces_in text.now ≡ result.0.now ∷ pieces_left (option_copied result.1) }
{
    match parted(text, b' ') {
        Some((first, rest)) => (first, Some(rest)),
        None => (text, None),
    }
}
