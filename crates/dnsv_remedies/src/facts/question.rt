//! What is so of a question.

use crate::facts::answer::GoalFacts;
use crate::facts::cut::ParentFacts;
use crate::facts::denial::SpeakerFacts;

/// A name above the name that is asked for that owns a DNAME RRset (RFC 6672).
#[derive(Clone, Copy, Debug)]
pub struct DnameFacts {
    /// How many labels it has.
    pub labels: usize,
    /// The lowest of its DNAME RRsets.
    pub rrset: usize,
}

/// What is so of a question: a name and a type.
#[derive(Debug, Drop)]
pub struct QuestionFacts {
    /// How many labels the name has.
    pub labels: usize,
    /// Whether a trust anchor is at or above it.
    pub is_anchored: bool,
    /// The RRsets that may answer, by their numbers.
    pub goals: Vec<GoalFacts>,
    /// From the root down.
    pub dnames: Vec<DnameFacts>,
    /// The known zones, from many labels to few: the first should speak.
    pub speakers: Vec<SpeakerFacts>,
    /// The known zones with a trust anchor at or above them, from few labels to many.
    pub parents: Vec<ParentFacts>,
}
