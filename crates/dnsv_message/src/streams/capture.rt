//! Captured messages, as a stream of frames gives them.
ghost use Rattle.std.specs.Prelude.{◌≡◌, ◌⊎◌, ◌++◌, List, ℕ, None, IfOk, IfErr, IfSome, IsErrOf, OnOk};
ghost use Rattle.std.specs.List.{AllByRecursion};
ghost use Rattle.dnsv_names.specs.Octets.{AreOctets};
ghost use Rattle.dnsv_message.specs.Streams.Counted.{failures_of, inner_of};
ghost use Rattle.dnsv_message.specs.Streams.Frames.{EndsTorn, Frames, HasNoFault, HasZeroLength, IsCapture, IsTooLong, IsZero, octets_at_each, octets_of_each};
ghost use Rattle.dnsv_message.specs.Streams.Framer.{Feeds, IsPieceError};
ghost use Rattle.dnsv_message.specs.Streams.{ReadsStream};

use crate::FILE_LIMIT;
use crate::errors::ReadError;
use crate::streams::counted::Counted;
use crate::streams::file::{PIECE_LIMIT, read_piece};
use crate::streams::framer::Framer;
use bumpalo::Bump;
use std::alloc::{AllocError, Global};
use std::io::Read;

/// All messages of a stream, each behind its length in two octets, the high octet first
/// (RFC 1035 4.2.2). Each message is placed in the arena once.
///
/// The octets alone decide the answer, in whatever pieces they come. The first fault that is met is
/// answered, and nothing is read after it: a reader that fails is [`ReadError::Read`], an octet past
/// [`FILE_LIMIT`] [`ReadError::TooLong`], a length 0 [`ReadError::ZeroLength`], and an end within a
/// frame [`ReadError::TornFrame`].
pub fn read_capture<'b, R: Read>(
    alloc: Global,
    reader: &mut Counted<R>,
    bump: &'b Bump,
) -> Result<Vec<&'b [u8]>, ReadError>
    // What the octets decide, where they are known.
    ensures messages { IfOk result (λ messages. IfSome (R.remaining (inner_of reader.old))
        (λ octets. IsCapture octets (octets_at_each messages.items))) }
    ensures too_long { IsErrOf result ReadError.TooLong → IfSome (R.remaining (inner_of reader.old)) IsTooLong }
    ensures zero_length { IsErrOf result ReadError.ZeroLength →
        IfSome (R.remaining (inner_of reader.old)) HasZeroLength }
    ensures torn_frame { IsErrOf result ReadError.TornFrame → IfSome (R.remaining (inner_of reader.old)) EndsTorn }
    ensures stream { ReadsStream HasNoFault
        (R.remaining (inner_of reader.old)) (R.remaining (inner_of reader.new))
        (failures_of reader.old) (failures_of reader.new) result }
{
    let mut buffer = vec![in alloc; 0; PIECE_LIMIT]?;
    let piece = buffer.as_mut_slice();
    let mut messages = Vec::new(alloc);
    let mut framer = Framer::new(alloc);
    let mut left = FILE_LIMIT;
    loop {
        let count = read_piece(reader, piece)?;
        if count == 0 {
            break;
        }
        let within = count.min(left);
        let part = &piece[..within];
        place_whole(alloc, &mut framer, part, bump, &mut messages)?;
        if within < count {
            return Err(ReadError::TooLong);
        }
        left -= within;
    }
    framer.finish()?;
    Ok(messages)
}

/// Takes the next piece of a stream, and places each message that is whole now in the arena.
fn place_whole<'b>(
    alloc: Global,
    framer: &mut Framer,
    piece: &[u8],
    bump: &'b Bump,
    out: &mut Vec<&'b [u8]>,
) -> Result<(), ReadError>
    ensures ok { OnOk result (Feeds framer.old.rest piece.now (octets_at_each out.old.items)
        (octets_at_each out.new.items) framer.new.rest) }
    ensures not_zero { OnOk result (¬ IsZero framer.new.rest) }
    ensures no_fault { OnOk result (framer.new.fault ≡ None) }
    ensures zero_length { IsErrOf result ReadError.ZeroLength → (messages : List (List ℕ))
        × Feeds framer.old.rest piece.now (octets_at_each out.old.items) messages framer.new.rest }
    ensures zero { IsErrOf result ReadError.ZeroLength → IsZero framer.new.rest }
    ensures only { IfErr result IsPieceError }
{
    let mut whole = Vec::new(alloc);
    framer.feed(piece, &mut whole)?;
    place_each(bump, &whole, out)?;
    Ok(())
}

/// Places each message in the arena, in order.
fn place_each<'b>(
    bump: &'b Bump,
    messages: &[Vec<u8>],
    out: &mut Vec<&'b [u8]>,
) -> Result<(), AllocError>
    ensures { OnOk result (octets_at_each out.new.items
        ≡ octets_at_each out.old.items ++ octets_of_each messages.now) }
{
    for message in messages {
        let octets: &[u8] = bump.try_alloc_slice_copy(message)?;
        out.push(octets)?;
    }
    Ok(())
}

/// Every stream of octets is read as frames and a rest, in one way.
pub fn one_reading()
    ensures some { (stream : List ℕ) → AreOctets stream →
        (messages : List (List ℕ)) × (rest : List ℕ) × Frames stream messages rest }
    ensures one { (stream : List ℕ) (a b : List (List ℕ)) (r s : List ℕ) →
        Frames stream a r → Frames stream b s → (a ≡ b) × (r ≡ s) }
{}

/// A file of octets has one answer: messages, which are octets too, a length 0, an end within a frame, or an octet
/// too many.
pub fn one_answer()
    ensures some { (file : List ℕ) → AreOctets file →
        ((messages : List (List ℕ)) × IsCapture file messages)
        ⊎ (HasZeroLength file ⊎ (EndsTorn file ⊎ IsTooLong file)) }
    ensures messages { (file : List ℕ) (a b : List (List ℕ)) → IsCapture file a → IsCapture file b → a ≡ b }
    ensures messages_alone { (file : List ℕ) (messages : List (List ℕ)) → IsCapture file messages →
        (¬ HasZeroLength file) × (¬ EndsTorn file) × (¬ IsTooLong file) }
    ensures zero_length_alone { (file : List ℕ) → HasZeroLength file → (¬ EndsTorn file) × (¬ IsTooLong file) }
    ensures torn_frame_alone { (file : List ℕ) → EndsTorn file → ¬ IsTooLong file }
    ensures octets { (file : List ℕ) (messages : List (List ℕ)) → AreOctets file → IsCapture file messages →
        AllByRecursion AreOctets messages }
{}
