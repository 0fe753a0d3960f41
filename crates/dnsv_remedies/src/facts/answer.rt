//! What is so of an RRset that may answer.

use crate::facts::name::UnusableFacts;
use dnsv_mending::{RrsetFacts, SignatureFacts};

/// What a wildcard's signature asks for beside it: that no closer name is there (RFC 4035 5.3.4).
#[derive(Debug, Drop)]
pub struct CloserFacts {
    /// How many labels the name to be covered has, which is at or above the name that is asked for.
    pub name: usize,
    /// The RRsets with a record of the signer that covers it, by their numbers; none where the signer has more labels than
    /// the signature counts.
    pub covers: Vec<RrsetFacts>,
    /// The NSEC3 records of the signer that can't be used, by their numbers.
    pub unusable: Vec<UnusableFacts>,
}

/// A signature of an RRset that may answer.
#[derive(Debug, Drop)]
pub struct AnswerSignature {
    pub signature: SignatureFacts,
    /// What it asks for beside it; `None` where that is proved, where it is none of a wildcard, or where its signer isn't at
    /// or above the name that is asked for.
    pub closer: Option<CloserFacts>,
}

/// An RRset that may answer: it is at the name that is asked for, and has the type or is of CNAME.
#[derive(Debug, Drop)]
pub struct GoalFacts {
    pub number: usize,
    pub is_cname: bool,
    /// Its signatures: those by signers with most labels first, and of those of one signer the lowest first.
    pub signatures: Vec<AnswerSignature>,
}
