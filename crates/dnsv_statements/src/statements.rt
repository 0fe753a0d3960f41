//! Files of statements.

pub mod said;
pub mod statement;

ghost use Rattle.std.specs.Prelude.{◌≡◌, ◌⊎◌, ℕ, Err, List, Vec, IfOk, IfErr};
ghost use Rattle.dnsv_statements.specs.Statements.{AreStatementsOf, BeginsWithStatement, IsFaultOf, IsSaid, listed_answer};
ghost use Rattle.dnsv_verifier.specs.declared.entry.Entry.{Entry};
ghost use Rattle.dnsv_statements.specs.declared.statements.statement.Word.{Word};
ghost use Rattle.dnsv_statements.specs.declared.statements.StatementsError.{StatementsError};

use crate::packed_entry::PackedEntry;
use crate::statements::said::{add, listed_in, said_word};
use crate::statements::statement::Word;
use dnsv_names::Lines;
use dnsv_verifier::{Answer, Entry, Verifier};
use std::alloc::{AllocError, AllocFailed, Global};
use std::collections::BTreeMap;
use std::marker::Model;
use thiserror::Error;

/// What keeps a text from being a file of statements. Each has a number that stays.
#[derive(Clone, Copy, Debug, PartialEq, Eq, Error)]
pub enum StatementsError {
    /// 90: memory was refused.
    #[error("memory was refused")]
    OutOfMemory,
    /// 501: the line of this number is no statement.
    #[error("line {0} is no statement")]
    Syntax(usize),
    /// 502: the line of this number calls an entry good that was called bad before, or the other way round.
    #[error("line {0} contradicts an earlier one")]
    Contradiction(usize),
}

impl StatementsError {
    ghost use Rattle.dnsv_statements.specs.StatementsError.{statements_error_code};

    /// The number of the error.
    pub fn code(&self) -> u16
        ensures { result ≡ statements_error_code self.now }
    {
        match self {
            StatementsError::OutOfMemory => 90,
            StatementsError::Syntax(_) => 501,
            StatementsError::Contradiction(_) => 502,
        }
    }
}

impl From<AllocError> for StatementsError {
    ghost use Rattle.std.specs.Prelude.{◌≡◌};
    ghost use Rattle.dnsv_statements.specs.declared.statements.StatementsError.TheVariants.{OutOfMemory};

    ghost from_gives = { λ _ error. error ≡ OutOfMemory };

    fn from(_error: AllocError) -> StatementsError {
        StatementsError::OutOfMemory
    }
}

impl<T: Drop> From<AllocFailed<T>> for StatementsError {
    ghost use Rattle.std.specs.Prelude.{◌≡◌};
    ghost use Rattle.dnsv_statements.specs.declared.statements.StatementsError.TheVariants.{OutOfMemory};

    ghost from_gives = { λ _ error. error ≡ OutOfMemory };

    fn from(_refused: AllocFailed<T>) -> StatementsError {
        StatementsError::OutOfMemory
    }
}

/// What a file says of entries: which signatures are good and which are bad. Each entry is there once, by rising
/// algorithm, key, signed data and signature.
#[derive(Drop)]
pub struct Statements {
    listed: Vec<(PackedEntry, Word)>,
}

impl Model for Statements {
    ghost use Rattle.std.specs.Prelude.{List, map};
    ghost use Rattle.std.specs.List.Sorted.{IsStrictlySortedBy};
    ghost use Rattle.dnsv_verifier.specs.Entry.{entry_cmp};
    ghost use Rattle.dnsv_verifier.specs.declared.entry.Entry.{Entry};
    ghost use Rattle.dnsv_statements.specs.declared.statements.statement.Word.{Word};

    ghost Value = { List (Entry × Word) };

    ghost view = { λ statements. statements.listed.items };

    ghost invariant = { λ statements. IsStrictlySortedBy entry_cmp (map (λ each. each.0) statements.listed.items) };
}

impl Statements {
    /// Reads a file of statements. Each line that counts is `good` or `bad`, the number of an algorithm, and the
    /// key, the signed data and the signature in hex digits, `-` where one has no octets.
    ///
    /// The first line with a fault counts: `Syntax` where it is no statement, else `Contradiction` where it calls an entry
    /// good that an earlier line called bad, or the other way round. A plain repeat is none. Want of memory is reported only
    /// where the first line is a statement, so a file that is empty or of comments alone is always read.
    pub fn parse(alloc: Global, text: &[u8]) -> Result<Statements, StatementsError>
        // What is listed is what the file says.
        ensures found { IfOk result (λ listed. (statements : List (Entry × Word))
            × AreStatementsOf text.now statements
            × ((entry : Entry) → IsSaid statements entry (listed_answer listed entry))) }
        // A refusal is the first fault, unless memory was refused.
        ensures fault { IfErr result (λ error. (error ≡ StatementsError.OutOfMemory)
            ⊎ IsFaultOf text.now error) }
        // A fault is told, unless memory was refused to a statement before it.
        ensures every_fault { (fault : StatementsError) → IsFaultOf text.now fault → (result ≡ Err fault)
            ⊎ ((result ≡ Err StatementsError.OutOfMemory) × BeginsWithStatement text.now) }
        // Memory is wanted only where the first line is a statement.
        ensures memory { IfErr result (λ error. error ≡ StatementsError.OutOfMemory → BeginsWithStatement text.now) }
    {
        let mut rising = Vec::new(alloc);
        let mut tree = BTreeMap::new(alloc);
        for line in Lines::new(text) {
            add(alloc, &mut rising, &mut tree, &line)?;
        }
        let listed = listed_in(alloc, rising, tree)?;
        Ok(Statements { listed })
    }
}

impl Verifier for Statements {
    ghost meaning = { listed_answer };

    fn answer(&self, entry: &Entry<'_>) -> Answer {
        match said_word(&self.listed, entry) {
            Some(word) => word.answer(),
            None => Answer::Unknown,
        }
    }
}

/// A law of files of statements: a text is one list of statements or has one first fault, never both, and no text has
/// neither.
pub fn a_text_is_one_list_of_statements()
    ensures statements { (text : List ℕ) (a b : List (Entry × Word)) → AreStatementsOf text a
        → AreStatementsOf text b → a ≡ b }
    ensures fault { (text : List ℕ) (a b : StatementsError) → IsFaultOf text a → IsFaultOf text b
        → a ≡ b }
    ensures apart { (text : List ℕ) (statements : List (Entry × Word)) (fault : StatementsError)
        → AreStatementsOf text statements → IsFaultOf text fault → ⊥ }
    ensures either { (text : List ℕ) → ((statements : List (Entry × Word)) → AreStatementsOf text statements → ⊥)
        → ((fault : StatementsError) → IsFaultOf text fault → ⊥) → ⊥ }
{}
