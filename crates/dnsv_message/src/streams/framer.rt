//! Messages of a stream that comes in pieces.
ghost use Rattle.std.specs.Prelude.{◌≡◌, ◌≤◌, [], ◌++◌, List, ℕ, length, flat_map, Option, Some, None, IfErr, IfSome, IsErrOf, MatchResult, OnOk};
ghost use Rattle.dnsv_message.specs.Streams.Frames.{BeginsWith, Frames, IsZero, octets_of_each};
ghost use Rattle.dnsv_message.specs.Streams.Framer.{Feeds, FeedsAll, GainsFirst, IsEndError, IsPieceError};

use crate::errors::ReadError;
use crate::streams::framing::OpenFrame;
use std::alloc::Global;
use std::marker::Model;

/// Takes the messages out of a stream that comes in pieces, each message behind its length in two
/// octets, the high octet first (RFC 1035 4.2.2).
///
/// It keeps the beginning of a frame that isn't whole, and the fault that it met, if any: a framer
/// that has failed answers its fault from then on.
#[derive(Drop)]
pub struct Framer {
    alloc: Global,
    frame: OpenFrame,
    failed: Option<ReadError>,
}

impl Model for Framer {
    ghost use Rattle.std.specs.Prelude.{◌≡◌, ◌≤◌, [], length, IfSome};
    ghost use Rattle.dnsv_message.specs.Streams.Framer.{Framing, IsPieceError};
    ghost use Rattle.dnsv_message.specs.Streams.OpenFrame.{rest_of};

    ghost Value = { Framing };

    ghost view = { λ framer. record { rest = rest_of framer.failed framer.frame; fault = framer.failed } };

    // A framer that has failed keeps nothing.
    ghost invariant = { λ framer. (length framer.frame ≤ 65536)
        × IfSome framer.failed (λ fault. IsPieceError fault × (framer.frame ≡ [])) };
}

impl Framer {
    /// A framer at the beginning of a stream. It takes no memory, and keeps the allocator.
    pub fn new(alloc: Global) -> Framer
        ensures rest { result.rest ≡ [] }
        ensures fault { result.fault ≡ None }
    {
        Framer {
            alloc,
            frame: OpenFrame::new(alloc),
            failed: None,
        }
    }

    /// Takes the next piece of the stream, and appends each message that is whole now.
    ///
    /// A length 0 is [`ReadError::ZeroLength`]: the messages before it are appended. Where memory is
    /// refused ([`ReadError::OutOfMemory`]), the first of the messages are appended, and not all of
    /// them perhaps. After either the framer has failed: it answers the same fault from then on, and
    /// appends nothing. Between two calls it keeps 65,536 octets at most.
    pub fn feed(&mut self, piece: &[u8], out: &mut Vec<Vec<u8>>) -> Result<(), ReadError>
        // The messages of the rest and the piece are appended, and what is left then is kept.
        ensures ok { OnOk result (Feeds self.old.rest piece.now (octets_of_each out.old.items)
            (octets_of_each out.new.items) self.new.rest) }
        ensures not_zero { OnOk result (¬ IsZero self.new.rest) }
        ensures zero_length { IsErrOf result ReadError.ZeroLength → Feeds self.old.rest piece.now
            (octets_of_each out.old.items) (octets_of_each out.new.items) self.new.rest }
        ensures zero { IsErrOf result ReadError.ZeroLength → IsZero self.new.rest }
        ensures out_of_memory { IsErrOf result ReadError.OutOfMemory → GainsFirst (octets_of_each out.old.items)
            (octets_of_each out.new.items) (self.old.rest ++ piece.now) }
        ensures only { IfErr result IsPieceError }

        // A fault stays.
        ensures fault { MatchResult result (λ _. self.new.fault ≡ None) (λ fault. self.new.fault ≡ Some fault) }
        ensures failed { IfSome self.old.fault (λ fault. IsErrOf result fault) }
        ensures still { IfSome self.old.fault (λ _. (self.new ≡ self.old) × (out.new.items ≡ out.old.items)) }

        ensures bound { length self.new.rest ≤ 65536 }
    {
        if let Some(fault) = self.failed {
            return Err(fault);
        }
        let fed = self.frame.feed(piece, out);
        if let Err(fault) = fed {
            self.frame = OpenFrame::new(self.alloc);
            self.failed = Some(fault);
        }
        fed
    }

    /// The stream may end here: nothing has come of a further frame.
    ///
    /// Where a beginning of a frame is left, the error is [`ReadError::TornFrame`]. A framer that has
    /// failed answers its fault. It takes no memory.
    pub fn finish(&self) -> Result<(), ReadError>
        ensures { MatchResult result (λ _. (self.now.fault ≡ None) × (self.now.rest ≡ [])) (IsEndError self.now) }
    {
        match self.failed {
            Some(fault) => Err(fault),
            None => self.frame.finish(),
        }
    }
}

/// In whatever pieces a stream comes, a framer that is fed with them from the beginning adds the
/// messages of the whole stream, and keeps what is left of it.
///
/// So two cuttings of one stream give the same. And where memory is refused on the way, what was
/// added are the first of those messages.
pub fn any_cutting()
    ensures whole { (pieces : List (List ℕ)) (old new : List (List ℕ)) (kept : List ℕ) →
        FeedsAll [] pieces old new kept → Feeds [] (flat_map (λ piece. piece) pieces) old new kept }
    ensures one { (rest piece : List ℕ) (old a b : List (List ℕ)) (r s : List ℕ) →
        Feeds rest piece old a r → Feeds rest piece old b s → (a ≡ b) × (r ≡ s) }
    ensures first { (stream : List ℕ) (messages all : List (List ℕ)) (rest : List ℕ) →
        BeginsWith stream messages → Frames stream all rest → (others : List (List ℕ)) × (all ≡ messages ++ others) }
{}
