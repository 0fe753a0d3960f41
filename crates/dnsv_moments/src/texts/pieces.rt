//! The intervals of a timeline as they are shown.
ghost use Rattle.std.specs.Prelude.{◌≡◌, ◌↔◌, IfOk, IsTrue};
ghost use Rattle.dnsv_moments.specs.texts.Following.{Follows};
ghost use Rattle.dnsv_moments.specs.texts.Pieces as specs;

use crate::said::Said;
use crate::texts::shown::{ShownBorder, shown_borders};
use dnsv_canonical::Capture;
use dnsv_timeline::Stretch;
use std::alloc::{AllocError, Global};
use std::marker::Model;

/// An interval, with the borders in front of it and what is said at its first moment and at its last.
#[derive(Drop)]
pub struct Piece<'a> {
    pub borders: Vec<ShownBorder>,
    /// Its first moment.
    pub from: u64,
    /// Its last moment.
    pub to: u64,
    pub first: &'a Said,
    pub last: &'a Said,
}

impl<'a> Model for Piece<'a> {
    ghost use Rattle.dnsv_moments.specs.texts.Pieces as specs;

    ghost Value = { specs.Piece };

    ghost view = { λ piece. record {
      borders = piece.borders.items;
      from = piece.from;
      to = piece.to;
      first = piece.first.now;
      last = piece.last.now;
    } };
}

/// The stretches, or where kinds are shown alone those of one kind joined; each but the first with the signatures that
/// end and begin in front of it.
pub fn pieces_of<'a>(
    alloc: Global,
    capture: &Capture<'_>,
    kinds: bool,
    stretches: &'a [Stretch<Said>],
) -> Result<Vec<Piece<'a>>, AllocError>
    ensures { IfOk result (λ pieces. specs.ArePieces capture.now.rrsets kinds stretches.now pieces.items) }
{
    let mut pieces = Vec::new(alloc);
    let Some((first, others)) = stretches.split_first() else {
        return Ok(pieces);
    };
    let mut piece = begun(Vec::new(alloc), first);
    for stretch in others {
        piece = next(alloc, capture, kinds, &mut pieces, piece, stretch)?;
    }
    pieces.push(piece)?;
    Ok(pieces)
}

/// The interval that the stretch is in: the last one, where kinds are shown alone and it has that kind, else a new one,
/// and the last is added.
fn next<'a>(
    alloc: Global,
    capture: &Capture<'_>,
    kinds: bool,
    pieces: &mut Vec<Piece<'a>>,
    piece: Piece<'a>,
    stretch: &'a Stretch<Said>,
) -> Result<Piece<'a>, AllocError>
    ensures { IfOk result (λ next. Follows capture.now.rrsets kinds piece.entry stretch.now pieces.old.items
        pieces.new.items next) }
{
    if are_joined(kinds, piece.last, &stretch.said) {
        return Ok(longer(piece, stretch));
    }
    let borders = shown_borders(
        alloc,
        capture,
        piece.last.by(),
        stretch.said.by(),
        stretch.from,
    )?;
    pieces.push(piece)?;
    Ok(begun(borders, stretch))
}

/// An interval that begins with the stretch, behind these borders.
fn begun<'a>(borders: Vec<ShownBorder>, stretch: &'a Stretch<Said>) -> Piece<'a>
    ensures { result ≡ specs.begun borders.items stretch.now }
{
    Piece {
        borders,
        from: stretch.from,
        to: stretch.to,
        first: &stretch.said,
        last: &stretch.said,
    }
}

/// The same interval up to the end of the stretch.
fn longer<'a>(piece: Piece<'a>, stretch: &'a Stretch<Said>) -> Piece<'a>
    ensures { result ≡ specs.longer piece.entry stretch.now }
{
    Piece {
        borders: piece.borders,
        from: piece.from,
        to: stretch.to,
        first: piece.first,
        last: &stretch.said,
    }
}

/// Whether kinds are shown alone, and both have one kind.
fn are_joined(kinds: bool, last: &Said, said: &Said) -> bool
    ensures { IsTrue result ↔ specs.AreJoined kinds last.now said.now }
{
    kinds && last.kind() == said.kind()
}
