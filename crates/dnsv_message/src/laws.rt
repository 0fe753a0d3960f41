//! Laws of the message grammar (RFC 1035 4.1).
//!
//! Each is a function that does nothing and ensures the law, which its caller learns.
ghost use Rattle.std.specs.Prelude.{◌≡◌, ◌⊎◌, ◌<◌, ◌≤◌, List, ℕ, length, Option};
ghost use Rattle.dnsv_message.specs.declared.errors.DecodeError.{DecodeError};
ghost use Rattle.dnsv_message.specs.declared.errors.DecodeError.TheVariants.{OutOfMemory};
ghost use Rattle.dnsv_message.specs.Message.{Contents};
ghost use Rattle.dnsv_names.specs.Octets.{AreOctets};
ghost use Rattle.dnsv_message.specs.Grammar.{MessageOf, IsMessage, FaultOf};
ghost use Rattle.dnsv_message.specs.Fits.{FitsMessage};
ghost use Rattle.dnsv_message.specs.Tail.{IsTailOf, TailAt};
ghost use Rattle.dnsv_message.specs.Encoding.{message_octets, PlainMessageOf};

/// Octets are at most one message.
pub fn one_message()
    ensures { (octets : List ℕ) → AreOctets octets → (message other : Contents) →
        MessageOf octets message → MessageOf octets other → message ≡ other }
{}

/// Octets that are a message have no fault.
pub fn no_fault_of_a_message()
    ensures { (octets : List ℕ) → AreOctets octets → (message : Contents) (error : DecodeError) →
        MessageOf octets message → FaultOf octets error → ⊥ }
{}

/// Octets have at most one fault.
pub fn one_fault()
    ensures { (octets : List ℕ) → AreOctets octets → (error other : DecodeError) →
        FaultOf octets error → FaultOf octets other → error ≡ other }
{}

/// Octets are a message or have a fault.
pub fn message_or_fault()
    ensures { (octets : List ℕ) → AreOctets octets →
        ((message : Contents) × MessageOf octets message) ⊎ ((error : DecodeError) × FaultOf octets error) }
{}

/// Want of memory is no fault of octets.
pub fn no_fault_of_memory()
    ensures { (octets : List ℕ) → FaultOf octets OutOfMemory → ⊥ }
{}

/// What is true of every message: its names are names, its numbers fit their fields, and its RDATA is octets, at most
/// 65,535 of them, in the parts that its type asks for.
pub fn messages_fit()
    ensures { (message : Contents) → IsMessage message → FitsMessage message }
{}

/// The octets that are written for a message are that message, and no name in them has a pointer.
pub fn the_encoding_is_the_message()
    ensures { (message : Contents) → IsMessage message → PlainMessageOf (message_octets message) message }
{}

/// No other octets are the message and have no pointer.
pub fn one_encoding()
    ensures { (octets : List ℕ) → AreOctets octets → (message : Contents) →
        PlainMessageOf octets message → octets ≡ message_octets message }
{}

/// A message has one place where its last record begins, behind the header and within the octets, or no records.
pub fn one_tail()
    ensures some { (octets : List ℕ) (message : Contents) → MessageOf octets message →
        (tail : Option ℕ) × IsTailOf octets message tail }
    ensures one { (octets : List ℕ) → AreOctets octets → (message : Contents) (tail other : Option ℕ) →
        IsTailOf octets message tail → IsTailOf octets message other → tail ≡ other }
    ensures within { (octets : List ℕ) (message : Contents) (place : ℕ) → TailAt octets message place →
        (12 ≤ place) × (place < length octets) }
{}
