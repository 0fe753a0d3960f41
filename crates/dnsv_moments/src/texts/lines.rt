//! The lines of a timeline.
ghost use Rattle.std.specs.Prelude.{◌≡◌, ◌++◌, IfOk, OnOk, flat_map, string_bytes};
ghost use Rattle.dnsv_moments.specs.texts.Shown.{border_line};
ghost use Rattle.dnsv_moments.specs.texts.Text as specs;

use crate::kind::kind_word;
use crate::texts::pieces::Piece;
use crate::texts::shown::ShownBorder;
use crate::validity::kind::Kind;
use dnsv_names::{Name, RecordType};
use std::alloc::{AllocError, Global};

/// The question, and then each interval behind the borders in front of it.
pub fn timeline_lines(
    alloc: Global,
    kinds: bool,
    name: &Name,
    rtype: RecordType,
    pieces: &[Piece<'_>],
) -> Result<String, AllocError>
    ensures { IfOk result (λ text. string_bytes text
        ≡ specs.question_line name.now rtype.0 ++ flat_map (specs.piece_lines kinds) pieces.now) }
{
    let mut text = String::new(alloc);
    push_question(&mut text, name, rtype)?;
    push_pieces(&mut text, kinds, pieces)?;
    Ok(text)
}

/// Adds the question.
fn push_question(text: &mut String, name: &Name, rtype: RecordType) -> Result<(), AllocError>
    ensures { OnOk result (string_bytes text.new ≡ string_bytes text.old ++ specs.question_line name.now rtype.0) }
{
    let name = name.to_lower();
    let rtype = rtype.0;
    writeln!(text, "timeline {name} {rtype}")?;
    Ok(())
}

/// Adds each interval behind its borders.
fn push_pieces(text: &mut String, kinds: bool, pieces: &[Piece<'_>]) -> Result<(), AllocError>
    ensures { OnOk result (string_bytes text.new
        ≡ string_bytes text.old ++ flat_map (specs.piece_lines kinds) pieces.now) }
{
    for piece in pieces {
        push_piece(text, kinds, piece)?;
    }
    Ok(())
}

/// Adds the borders, and then the interval.
fn push_piece(text: &mut String, kinds: bool, piece: &Piece<'_>) -> Result<(), AllocError>
    ensures { OnOk result (string_bytes text.new ≡ string_bytes text.old ++ specs.piece_lines kinds piece.now) }
{
    push_borders(text, &piece.borders)?;
    push_interval(text, kinds, piece)?;
    Ok(())
}

/// Adds a line for each border.
fn push_borders(text: &mut String, borders: &[ShownBorder]) -> Result<(), AllocError>
    ensures { OnOk result (string_bytes text.new ≡ string_bytes text.old ++ flat_map border_line borders.now) }
{
    for border in borders {
        push_border(text, border)?;
    }
    Ok(())
}

/// Adds the line of a border.
fn push_border(text: &mut String, border: &ShownBorder) -> Result<(), AllocError>
    ensures { OnOk result (string_bytes text.new ≡ string_bytes text.old ++ border_line border.now) }
{
    let sentence = border.sentence();
    writeln!(text, "{sentence}")?;
    Ok(())
}

/// Adds the line of an interval.
fn push_interval(text: &mut String, kinds: bool, piece: &Piece<'_>) -> Result<(), AllocError>
    ensures { OnOk result (string_bytes text.new ≡ string_bytes text.old ++ specs.interval_line kinds piece.now) }
{
    let from = piece.from;
    let to = piece.to;
    write!(text, "{from} {to} ")?;
    push_kind(text, piece.first.kind())?;
    push_carried(text, kinds, piece.first.text())?;
    text.push_str("\n")?;
    Ok(())
}

/// Adds the word of the kind, and of a refusal its number.
fn push_kind(text: &mut String, kind: Kind) -> Result<(), AllocError>
    ensures { OnOk result (string_bytes text.new ≡ string_bytes text.old ++ specs.kind_text kind) }
{
    let Kind::Refused(error) = kind else {
        text.push_str(kind_word(kind))?;
        return Ok(());
    };
    let number = error.code();
    write!(text, "refused {number}")?;
    Ok(())
}

/// Adds what carries it, where more than kinds is shown.
fn push_carried(text: &mut String, kinds: bool, carried: &str) -> Result<(), AllocError>
    ensures { OnOk result (string_bytes text.new ≡ string_bytes text.old ++ specs.carried kinds carried.now) }
{
    if kinds {
        return Ok(());
    }
    text.push_str(carried)?;
    Ok(())
}
