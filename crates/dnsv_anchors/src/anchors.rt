//! Files of trust anchors.

mod anchor_line;

ghost use Rattle.std.specs.Prelude.{◌≡◌, ◌<◌, ◌≤◌, ◌⊎◌, ◌++◌, ◌∷◌, [], Err, List, ℕ, length, IfOk, IfErr, OnOk};
ghost use Rattle.dnsv_anchors.specs.AnchorFile.{AreAnchorsOf, BeginsWithAnchor, IsAnchorLine, IsFaultOf, IsFaultOfLine};
ghost use Rattle.dnsv_anchors.specs.declared.anchor.Anchor.{Anchor};
ghost use Rattle.dnsv_anchors.specs.declared.anchors.AnchorsError.{AnchorsError};

use crate::anchor::Anchor;
use crate::anchors::anchor_line::anchor_of;
use bumpalo::Bump;
use dnsv_names::{Line, Lines};
use std::alloc::{AllocError, AllocFailed, Global};
use std::marker::Model;
use thiserror::Error;

/// How many anchors a file has at most.
const ANCHOR_LIMIT: usize = 64;

/// What keeps a text from being a file of trust anchors. Each has a number that stays.
#[derive(Clone, Copy, Debug, PartialEq, Eq, Error)]
pub enum AnchorsError {
    /// 90: memory was refused.
    #[error("memory was refused")]
    OutOfMemory,
    /// 601: the line of this number is no anchor.
    #[error("line {0} is no trust anchor")]
    Syntax(usize),
    /// 602: the line of this number is the 65th anchor.
    #[error("line {0} is the 65th trust anchor")]
    TooMany(usize),
}

impl AnchorsError {
    ghost use Rattle.dnsv_anchors.specs.AnchorsError.{anchors_error_code};

    /// The number of the error.
    pub fn code(&self) -> u16
        ensures { result ≡ anchors_error_code self.now }
    {
        match self {
            AnchorsError::OutOfMemory => 90,
            AnchorsError::Syntax(_) => 601,
            AnchorsError::TooMany(_) => 602,
        }
    }
}

impl From<AllocError> for AnchorsError {
    ghost use Rattle.dnsv_anchors.specs.declared.anchors.AnchorsError.TheVariants.{OutOfMemory};

    ghost from_gives = { λ _ error. error ≡ OutOfMemory };

    fn from(_error: AllocError) -> AnchorsError {
        AnchorsError::OutOfMemory
    }
}

impl<T: Drop> From<AllocFailed<T>> for AnchorsError {
    ghost use Rattle.dnsv_anchors.specs.declared.anchors.AnchorsError.TheVariants.{OutOfMemory};

    ghost from_gives = { λ _ error. error ≡ OutOfMemory };

    fn from(_refused: AllocFailed<T>) -> AnchorsError {
        AnchorsError::OutOfMemory
    }
}

/// The trust anchors of a file, in the order of its lines: at most 64. A repeat counts. Their octets lie in an arena.
#[derive(Debug, Drop)]
pub struct Anchors<'b> {
    anchors: Vec<Anchor<'b>>,
}

impl<'b> Model for Anchors<'b> {
    ghost use Rattle.std.specs.Prelude.{List};
    ghost use Rattle.dnsv_anchors.specs.declared.anchor.Anchor.{Anchor};

    ghost Value = { List Anchor };

    ghost view = { λ anchors. anchors.anchors.items };
}

impl<'b> Anchors<'b> {
    /// Reads a file of trust anchors. Each line that counts is a DS record, `DS`, its owner, key tag, algorithm and
    /// digest type, and the digest in hex digits, `-` where it has no octets; or a DNSKEY record, `KEY`, its owner,
    /// flags, protocol and algorithm, and the key in base64 with padding. One space stands between two fields, and
    /// numbers are decimal. Empty lines and lines that begin with `#` are passed over, but counted.
    ///
    /// The first line with a fault counts: `Syntax` where it is no anchor, else `TooMany` where 64 anchors, repeats among
    /// them, stand before it. Want of memory is reported only where the first line says an anchor, so a file that is empty
    /// or of comments alone is always read.
    pub fn parse(alloc: Global, bump: &'b Bump, text: &[u8]) -> Result<Anchors<'b>, AnchorsError>
        // What is read is what the file says.
        ensures anchors { IfOk result (AreAnchorsOf text.now) }
        // A refusal is the first fault, unless memory was refused.
        ensures fault { IfErr result (λ error. (error ≡ AnchorsError.OutOfMemory) ⊎ IsFaultOf text.now error) }
        // A fault is told, unless memory was refused to an anchor before it.
        ensures every_fault { (fault : AnchorsError) → IsFaultOf text.now fault → (result ≡ Err fault)
            ⊎ ((result ≡ Err AnchorsError.OutOfMemory) × BeginsWithAnchor text.now) }
        // Memory is wanted only where the first line says an anchor.
        ensures memory { IfErr result (λ error. error ≡ AnchorsError.OutOfMemory → BeginsWithAnchor text.now) }
    {
        let mut anchors = Anchors {
            anchors: Vec::new(alloc),
        };
        for line in Lines::new(text) {
            anchors.add(alloc, bump, &line)?;
        }
        Ok(anchors)
    }

    /// Adds the anchor of a line, behind at most 64. Where memory is refused, the line says an anchor, and there is
    /// room for it.
    fn add(&mut self, alloc: Global, bump: &'b Bump, line: &Line) -> Result<(), AnchorsError>
        requires { length self.old ≤ 64 }
        ensures added { OnOk result ((anchor : Anchor) × IsAnchorLine line.now.octets anchor
            × (length self.old < 64) × (self.new ≡ self.old ++ anchor ∷ [])) }
        ensures fault { IfErr result (λ error. ((error ≡ AnchorsError.OutOfMemory) × (length self.old < 64)
            × ((anchor : Anchor) × IsAnchorLine line.now.octets anchor))
            ⊎ IsFaultOfLine error line.now self.old) }
    {
        if self.anchors.len() >= ANCHOR_LIMIT {
            return Err(refused_at_limit(alloc, bump, line));
        }
        let Some(anchor) = anchor_of(alloc, bump, line)? else {
            return Err(AnchorsError::Syntax(line.number()));
        };
        self.anchors.push(anchor)?;
        Ok(())
    }

    /// The anchors, in the order of their lines.
    pub fn as_slice(&self) -> &[Anchor<'b>]
        ensures { result.now ≡ self.now }
    {
        &self.anchors
    }
}

/// What a line behind 64 anchors is refused for, whether or not there is memory for an anchor.
fn refused_at_limit(alloc: Global, bump: &Bump, line: &Line) -> AnchorsError
    ensures { (before : List Anchor) → length before ≡ 64 → IsFaultOfLine result line.now before }
{
    match anchor_of(alloc, bump, line) {
        Ok(None) => AnchorsError::Syntax(line.number()),
        Ok(Some(_)) | Err(_) => AnchorsError::TooMany(line.number()),
    }
}

/// A law of files of trust anchors: a text is one list of anchors or has one first fault, never both, and no text has
/// neither.
pub fn a_text_is_one_list_of_anchors()
    ensures anchors { (text : List ℕ) (a b : List Anchor) → AreAnchorsOf text a → AreAnchorsOf text b → a ≡ b }
    ensures fault { (text : List ℕ) (a b : AnchorsError) → IsFaultOf text a → IsFaultOf text b → a ≡ b }
    ensures apart { (text : List ℕ) (anchors : List Anchor) (fault : AnchorsError) → AreAnchorsOf text anchors
        → IsFaultOf text fault → ⊥ }
    ensures either { (text : List ℕ) → ((anchors : List Anchor) → AreAnchorsOf text anchors → ⊥)
        → ((fault : AnchorsError) → IsFaultOf text fault → ⊥) → ⊥ }
{}
