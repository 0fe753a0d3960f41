//! The heading of a file of answers.
ghost use Rattle.std.specs.Prelude.{◌≡◌, ◌∷◌, ◌<◌, ◌^◌, ◌↔◌, [], ℕ, IsTrue, List, MatchOption, codes, length};
ghost use Rattle.std.specs.Fmt.{decimal};
ghost use Rattle.dnsv_names.specs.Lines.{AreFields};
ghost use Rattle.dnsv_names.specs.Lines.LineReading.{is_marked};
ghost use Rattle.dnsv_answers.specs.Heading.{IsHeading, SaysDigest, SaysHeading, SaysMoment};
ghost use Rattle.dnsv_answers.specs.declared.heading.Heading.{Heading};

use dnsv_names::Line;
use hex::FromHex;
use std::str;

/// The moments that a list was made for, in seconds since 1970-01-01 00:00:00 UTC.
#[derive(Clone, Copy, Debug, PartialEq, Eq)]
pub enum Moments {
    /// One moment.
    At(u64),
    /// All from the first to the last.
    Between(u64, u64),
}

/// What a list was made of.
#[derive(Clone, Copy, Debug)]
pub struct Heading {
    /// The SHA-256 of the octets of the capture.
    pub digest: [u8; 32],
    pub moments: Moments,
}

/// How many moments there are: up to 2^48 - 1.
const MOMENT_LIMIT: u64 = 281_474_976_710_656;

/// The heading that a line is, `None` where it is none. It takes no memory.
pub(crate) fn heading_of(line: &Line) -> Option<Heading>
    ensures { MatchOption result ((heading : Heading) → IsHeading line.now.octets heading → ⊥)
        (IsHeading line.now.octets) }
{
    if let Some((word, digest, moment)) = three_fields(line) {
        return heading_at(word, digest, moment);
    }
    let Some((word, digest, first, last)) = four_fields(line) else {
        return None;
    };
    heading_between(word, digest, first, last)
}

/// The fields of a line that has three.
fn three_fields<'a>(line: &Line<'a>) -> Option<(&'a [u8], &'a [u8], &'a [u8])>
    ensures { MatchOption result
        ((fields : List (List ℕ)) → AreFields line.now.octets fields → length fields ≡ 3 → ⊥)
        (λ found. AreFields line.now.octets (found.0.now ∷ found.1.now ∷ found.2.now ∷ [])) }
{
    let fields = line.fields::<3>()?;
    let [first, second, third] = fields.as_slice() else {
        return None;
    };
    Some((first, second, third))
}

/// The fields of a line that has four.
fn four_fields<'a>(line: &Line<'a>) -> Option<(&'a [u8], &'a [u8], &'a [u8], &'a [u8])>
    ensures { MatchOption result
        ((fields : List (List ℕ)) → AreFields line.now.octets fields → length fields ≡ 4 → ⊥)
        (λ found. AreFields line.now.octets (found.0.now ∷ found.1.now ∷ found.2.now ∷ found.3.now ∷ [])) }
{
    let fields = line.fields::<4>()?;
    let [first, second, third, fourth] = fields.as_slice() else {
        return None;
    };
    Some((first, second, third, fourth))
}

/// The heading of a word, a digest and a moment.
fn heading_at(word: &[u8], digest: &[u8], moment: &[u8]) -> Option<Heading>
    ensures { MatchOption result
        ((heading : Heading) → SaysHeading (word.now ∷ digest.now ∷ moment.now ∷ []) heading → ⊥)
        (SaysHeading (word.now ∷ digest.now ∷ moment.now ∷ [])) }
{
    let Some(digest) = digest_behind(word, digest) else {
        return None;
    };
    let Some(moment) = moment_of(moment) else {
        return None;
    };
    Some(Heading {
        digest,
        moments: Moments::At(moment),
    })
}

/// The heading of a word, a digest, and the first and the last moment.
fn heading_between(word: &[u8], digest: &[u8], first: &[u8], last: &[u8]) -> Option<Heading>
    ensures { MatchOption result
        ((heading : Heading) → SaysHeading (word.now ∷ digest.now ∷ first.now ∷ last.now ∷ []) heading → ⊥)
        (SaysHeading (word.now ∷ digest.now ∷ first.now ∷ last.now ∷ [])) }
{
    let Some(digest) = digest_behind(word, digest) else {
        return None;
    };
    let Some(first) = moment_of(first) else {
        return None;
    };
    let Some(last) = moment_of(last) else {
        return None;
    };
    Some(Heading {
        digest,
        moments: Moments::Between(first, last),
    })
}

/// The digest behind the word `of`.
fn digest_behind(word: &[u8], digest: &[u8]) -> Option<[u8; 32]>
    ensures { MatchOption result ((octets : List ℕ) → word.now ≡ codes "of" → SaysDigest digest.now octets → ⊥)
        (λ octets. (word.now ≡ codes "of") × SaysDigest digest.now octets) }
{
    if !is_word(word, b"of") {
        return None;
    }
    digest_of(digest)
}

/// Whether a field is the word.
fn is_word(field: &[u8], word: &[u8]) -> bool
    ensures { IsTrue result ↔ (field.now ≡ word.now) }
{
    field == word
}

/// The digest whose hex digits the field is.
fn digest_of(field: &[u8]) -> Option<[u8; 32]>
    ensures { MatchOption result ((octets : List ℕ) → SaysDigest field.now octets → ⊥) (SaysDigest field.now) }
{
    match <[u8; 32] as FromHex>::from_hex(field) {
        Ok(octets) => Some(octets),
        Err(_) => None,
    }
}

/// The moment whose decimal digits the text is.
fn moment_of(text: &[u8]) -> Option<u64>
    ensures { MatchOption result ((moment : ℕ) → SaysMoment text.now moment → ⊥) (SaysMoment text.now) }
{
    let Some(number) = decimal_u64(text) else {
        return None;
    };
    if number >= MOMENT_LIMIT {
        return None;
    }
    Some(number)
}

/// The number below 2^64 whose decimal digits the text is, with no zero in front and no sign.
fn decimal_u64(text: &[u8]) -> Option<u64>
    ensures { MatchOption result ((number : ℕ) → number < 2 ^ 64 → text.now ≡ decimal number → ⊥)
        (λ number. text.now ≡ decimal number) }
{
    if is_marked(text) {
        return None;
    }
    let Ok(digits) = str::from_utf8(text) else {
        return None;
    };
    digits.parse().ok()
}

/// Whether the text begins with `+`, or with a `0` that isn't all of it.
fn is_marked(text: &[u8]) -> bool
    ensures { result ≡ is_marked text.now }
{
    matches!(text, [b'+', ..] | [b'0', _, ..])
}
