//! One line of a file of statements.
ghost use Rattle.std.specs.Prelude.{◌≡◌, ◌∷◌, [], List, ℕ, length, IfOk, MatchOption, OnErr};
ghost use Rattle.dnsv_names.specs.Lines.{AreFields};
ghost use Rattle.dnsv_statements.specs.Statements.{States};
ghost use Rattle.dnsv_verifier.specs.declared.entry.Entry.{Entry};
ghost use Rattle.dnsv_statements.specs.StatementsReading.{IsStatement, word_of};

use crate::packed_entry::PackedEntry;
use dnsv_anchors::digits_of;
use dnsv_names::{Line, decimal_u8};
use dnsv_verifier::Answer;
use std::alloc::{AllocError, Global};

type FiveFields<'a> = (&'a [u8], &'a [u8], &'a [u8], &'a [u8], &'a [u8]);

/// What a statement calls the signature of an entry.
#[derive(Clone, Copy, Debug, PartialEq, Eq)]
pub enum Word {
    /// It is the key's over the signed data.
    Good,
    /// It isn't.
    Bad,
}

impl Word {
    ghost use Rattle.dnsv_statements.specs.Statements.{answer_by, other_word};

    /// What a verifier that stands by the word says.
    pub(crate) fn answer(self) -> Answer
        ensures { result ≡ answer_by (Some self) }
    {
        match self {
            Word::Good => Answer::Valid,
            Word::Bad => Answer::Invalid,
        }
    }

    /// The other word.
    pub(crate) fn other(self) -> Word
        ensures { result ≡ other_word self }
    {
        match self {
            Word::Good => Word::Bad,
            Word::Bad => Word::Good,
        }
    }
}

/// What a line states, `None` where it is no statement. Memory is asked for only where it is one.
pub(crate) fn statement_of(
    alloc: Global,
    line: &Line,
) -> Result<Option<(PackedEntry, Word)>, AllocError>
    ensures found { IfOk result (λ found. MatchOption found
        ((entry : Entry) (word : Word) → States line.now.octets entry word → ⊥)
        (λ statement. States line.now.octets statement.0 statement.1)) }
    ensures refused { OnErr result (IsStatement line.now.octets) }
{
    let Some((word, algorithm, key, signed_data, signature)) = five_fields(line) else {
        return Ok(None);
    };
    let Some(word) = word_of(word) else {
        return Ok(None);
    };
    let Some(algorithm) = decimal_u8(algorithm) else {
        return Ok(None);
    };
    let Some(key) = digits_of(key) else {
        return Ok(None);
    };
    let Some(signed_data) = digits_of(signed_data) else {
        return Ok(None);
    };
    let Some(signature) = digits_of(signature) else {
        return Ok(None);
    };
    let entry = PackedEntry::of_digits(alloc, algorithm, key, signed_data, signature)?;
    Ok(Some((entry, word)))
}

/// The fields of a line that has five.
fn five_fields<'a>(line: &Line<'a>) -> Option<FiveFields<'a>>
    ensures { MatchOption result
        ((fields : List (List ℕ)) → AreFields line.now.octets fields → length fields ≡ 5 → ⊥)
        (λ found. AreFields line.now.octets (found.0.now ∷ found.1.now ∷ found.2.now ∷ found.3.now
        ∷ found.4.now ∷ [])) }
{
    let fields = line.fields::<5>()?;
    let [first, second, third, fourth, fifth] = fields.as_slice() else {
        return None;
    };
    Some((first, second, third, fourth, fifth))
}

/// The word that a field is.
fn word_of(field: &[u8]) -> Option<Word>
    ensures { result ≡ word_of field.now }
{
    match field {
        b"good" => Some(Word::Good),
        b"bad" => Some(Word::Bad),
        _ => None,
    }
}
