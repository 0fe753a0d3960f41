//! The JSON of a timeline.
ghost use Rattle.std.specs.Prelude.{◌≡◌, ◌++◌, ◌∷◌, [], codes, false, map, true, IfOk, OnOk, string_bytes};
ghost use Rattle.std.specs.List.{flat_map};
ghost use Rattle.dnsv_lines.specs.Json.{parted, still_first};
ghost use Rattle.dnsv_questions.specs.declared.format.Format.TheVariants.{Json};
ghost use Rattle.dnsv_moments.specs.texts.Shown.{border_json};
ghost use Rattle.dnsv_moments.specs.texts.Text as specs;

mod interval;

use crate::texts::json::interval::push_intervals;
use crate::texts::pieces::Piece;
use crate::texts::shown::ShownBorder;
use crate::texts::text::Question;
use dnsv_lines::{push_comma, push_name, push_object};
use std::alloc::{AllocError, Global};

/// The object of the question, the intervals, and the borders between them.
pub fn timeline_json(
    alloc: Global,
    kinds: bool,
    question: &Question<'_>,
    pieces: &[Piece<'_>],
) -> Result<String, AllocError>
    ensures { IfOk result (λ text. string_bytes text ≡ specs.pieces_text Json kinds question.now.name.now
        question.now.rtype.0 question.now.range.from question.now.range.to pieces.now) }
{
    let mut text = String::new(alloc);
    push_question(&mut text, question)?;
    text.push_str(",\"intervals\":[")?;
    push_intervals(&mut text, kinds, pieces)?;
    text.push_str("],\"edges\":[")?;
    push_edges(&mut text, pieces)?;
    text.push_str("]}\n")?;
    Ok(text)
}

/// Begins the object with the members for the question.
fn push_question(text: &mut String, question: &Question<'_>) -> Result<(), AllocError>
    ensures { OnOk result (string_bytes text.new ≡ string_bytes text.old ++ (codes "{" ++ parted true
        (specs.question_members question.now.name.now question.now.rtype.0 question.now.range.from
        question.now.range.to))) }
{
    let rtype = question.rtype.0;
    let from = question.range.from();
    let to = question.range.to();
    text.push_str("{\"command\":\"timeline\",\"name\":")?;
    push_name(text, question.name)?;
    write!(text, ",\"type\":{rtype},\"from\":{from},\"to\":{to}")?;
    Ok(())
}

/// Adds the object of each border.
fn push_edges(text: &mut String, pieces: &[Piece<'_>]) -> Result<(), AllocError>
    ensures { OnOk result (string_bytes text.new ≡ string_bytes text.old
        ++ parted true (flat_map (λ piece. map border_json piece.borders) pieces.now)) }
{
    let mut first = true;
    for piece in pieces {
        push_borders(text, &mut first, &piece.borders)?;
    }
    Ok(())
}

/// Adds the object of each of these, behind others or as the first.
fn push_borders(
    text: &mut String,
    first: &mut bool,
    borders: &[ShownBorder],
) -> Result<(), AllocError>
    ensures text { OnOk result (string_bytes text.new
        ≡ string_bytes text.old ++ parted first.old (map border_json borders.now)) }
    ensures first { OnOk result (first.new ≡ still_first first.old (map border_json borders.now)) }
{
    for border in borders {
        push_border(text, first, border)?;
    }
    Ok(())
}

/// Adds the object of a border, behind others or as the first.
fn push_border(text: &mut String, first: &mut bool, border: &ShownBorder) -> Result<(), AllocError>
    ensures text { OnOk result (string_bytes text.new
        ≡ string_bytes text.old ++ parted first.old (border_json border.now ∷ [])) }
    ensures first { OnOk result (first.new ≡ false) }
{
    push_comma(text, first)?;
    push_object(text, "edge", &border.sentence())?;
    Ok(())
}
