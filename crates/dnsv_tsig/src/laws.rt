//! Laws of signed messages and key files, which other crates may cite.
//!
//! Each is a function that calls the laws which it rests on, and ensures the law.
ghost use Rattle.std.specs.Prelude.{◌≡◌, List, ℕ, Option, Result};
ghost use Rattle.dnsv_names.specs.Octets.{AreOctets};
ghost use Rattle.dnsv_tsig.specs.Answer.{tsig_answer_of};
ghost use Rattle.dnsv_tsig.specs.Key.{SharedKey};
ghost use Rattle.dnsv_tsig.specs.KeyFile.{IsRingOf, IsKeyFault};
ghost use Rattle.dnsv_tsig.specs.Opened.{OpenedMessage};

use crate::error::{KeyFileError, TsigError};
use dnsv_message::{message_or_fault, no_fault_of_a_message, one_fault, one_message, one_tail};

/// Under a ring, at a moment and with a request's MAC, octets have exactly one answer.
pub fn one_answer()
    ensures some { (octets : List ℕ) → AreOctets octets → (keys : List SharedKey) (now : ℕ) (request : Option (List ℕ))
        → (answer : Result OpenedMessage TsigError) × tsig_answer_of octets keys now request answer }
    ensures one { (octets : List ℕ) → AreOctets octets → (keys : List SharedKey) (now : ℕ) (request : Option (List ℕ))
        (answer other : Result OpenedMessage TsigError) → tsig_answer_of octets keys now request answer
        → tsig_answer_of octets keys now request other → answer ≡ other }
{
    message_or_fault();
    one_message();
    one_fault();
    no_fault_of_a_message();
    one_tail();
}

/// A text is one ring, or is refused for one reason, never both, and no text is neither.
pub fn one_ring_or_fault()
    ensures ring { (text : List ℕ) (a b : List SharedKey) → IsRingOf text a → IsRingOf text b → a ≡ b }
    ensures fault { (text : List ℕ) (a b : KeyFileError) → IsKeyFault text a → IsKeyFault text b → a ≡ b }
    ensures apart { (text : List ℕ) (ring : List SharedKey) (error : KeyFileError) → IsRingOf text ring
        → IsKeyFault text error → ⊥ }
    ensures either { (text : List ℕ) → ((ring : List SharedKey) → IsRingOf text ring → ⊥)
        → ((error : KeyFileError) → IsKeyFault text error → ⊥) → ⊥ }
{}
