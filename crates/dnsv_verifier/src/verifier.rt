//! Verifiers of signatures.
ghost use Rattle.std.specs.Prelude.{◌≡◌};
ghost use Rattle.dnsv_verifier.specs.declared.answer.Answer.{Answer};
ghost use Rattle.dnsv_verifier.specs.declared.entry.Entry.{Entry};

use crate::answer::Answer;
use crate::entry::Entry;

/// Whoever can say whether a signature is a key's over some octets. What it says is a function of the four
/// values of an `Entry`, and it may be any function: nothing is assumed of an algorithm's strength.
pub trait Verifier: Drop {
    ghost meaning: { Self → Entry → Answer };

    /// What the verifier says of the entry: whether its signature is its key's over its octets.
    fn answer(&self, entry: &Entry<'_>) -> Answer
        ensures { result ≡ meaning self.now entry.now };
}
