//! The digest that says which capture is meant.
ghost use Rattle.std.specs.Prelude.{◌≡◌, ◌++◌, List, ℕ, flat_map};
ghost use Rattle.std.specs.List.{AllByRecursion};
ghost use Rattle.sha2.specs.Hashers.{Holds256};
ghost use Rattle.sha2.specs.Sha256.{sha256};
ghost use Rattle.dnsv_message.specs.Streams.Frames.{IsFramed, frame, octets_at_each};

use sha2::{Digest, Sha256};

/// The SHA-256 of the octets of a file of captured messages: of each message, behind its length in two octets.
pub fn capture_digest(messages: &[&[u8]]) -> [u8; 32]
    ensures { AllByRecursion IsFramed (octets_at_each messages.now)
        → result ≡ sha256 (flat_map frame (octets_at_each messages.now)) }
{
    let mut hasher = Sha256::new();
    for message in messages {
        add_message(&mut hasher, message);
    }
    hasher.finalize()
}

/// Adds a message behind its length.
fn add_message(hasher: &mut Sha256, message: &[u8])
    ensures { IsFramed message.now → (before : List ℕ) → Holds256 hasher.old before
        → Holds256 hasher.new (before ++ frame message.now) }
{
    let length = message.len();
    // Two octets announce no more.
    if length > 65_535 {
        return;
    }
    let front = [(length / 256) as u8, (length % 256) as u8];
    hasher.update(front.as_slice());
    hasher.update(message);
}
