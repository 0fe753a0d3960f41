//! Frames that come in pieces.
ghost use Rattle.std.specs.Prelude.{◌≡◌, ◌≢◌, ◌<◌, ◌≤◌, ◌∷◌, ◌++◌, [], List, ℕ, length, take, IfErr, IfOk, IsErrOf, MatchResult, OnErr, OnOk};
ghost use Rattle.dnsv_message.specs.Streams.Frames.{Frames, IsZero, octets_of_each};
ghost use Rattle.dnsv_message.specs.Streams.Framer.{Gains, GainsFirst, IsPieceError};
ghost use Rattle.dnsv_message.specs.Streams.OpenFrame.{octets_of, IsOpen};

use crate::errors::ReadError;
use std::alloc::Global;
use std::marker::Model;
use std::mem;

/// What has come of a frame that isn't whole (RFC 1035 4.2.2), seen as its octets.
#[derive(Drop)]
pub struct OpenFrame {
    alloc: Global,
    /// The first octet of the length, once it has come.
    high: Option<u8>,
    /// The length, once both of its octets have come, and 0 before.
    announced: u16,
    /// The octets of the message that have come.
    message: Vec<u8>,
}

impl Model for OpenFrame {
    ghost Value = { List ℕ };

    ghost view = { λ parts. octets_of parts.high parts.announced parts.message.items };

    ghost invariant = { λ parts. IsOpen parts.announced parts.message.items };
}

impl OpenFrame {
    /// A frame of which nothing has come.
    pub fn new(alloc: Global) -> OpenFrame
        ensures { result ≡ [] }
    {
        OpenFrame {
            alloc,
            high: None,
            announced: 0,
            message: Vec::new(alloc),
        }
    }

    /// Takes the next piece of the stream, and appends each message that is whole now.
    ///
    /// After an error nothing more is to be fed.
    pub fn feed(&mut self, piece: &[u8], out: &mut Vec<Vec<u8>>) -> Result<(), ReadError>
        ensures ok { OnOk result (Gains (octets_of_each out.old.items) (octets_of_each out.new.items)
            (self.old ++ piece.now) self.new) }
        ensures not_zero { OnOk result (¬ IsZero self.new) }
        ensures zero_length { IsErrOf result ReadError.ZeroLength →
            ((rest : List ℕ) × IsZero rest × Gains (octets_of_each out.old.items) (octets_of_each out.new.items)
            (self.old ++ piece.now) rest) }
        ensures out_of_memory { IsErrOf result ReadError.OutOfMemory →
            GainsFirst (octets_of_each out.old.items) (octets_of_each out.new.items) (self.old ++ piece.now) }
        ensures only { IfErr result IsPieceError }
        ensures bound { OnOk result (length self.new ≤ 65536) }
    {
        // No effect at run time. The proof reads here what an open frame keeps.
        let _ = &self.announced;
        let mut place = 0;
        while place < piece.len() {
            place += self.take(&piece[place..], out)?;
        }
        Ok(())
    }

    /// Nothing has come of a frame: the stream may end here.
    pub fn finish(&self) -> Result<(), ReadError>
        ensures { MatchResult result (λ _. self.now ≡ [])
            (λ error. (error ≡ ReadError.TornFrame) × (self.now ≢ []) × ¬ IsZero self.now) }
    {
        if self.announced == 0 && self.high.is_none() {
            Ok(())
        } else {
            Err(ReadError::TornFrame)
        }
    }

    // Takes some octets of the stream, at least one, and says how many.
    fn take(&mut self, octets: &[u8], out: &mut Vec<Vec<u8>>) -> Result<usize, ReadError>
        requires { 0 < length octets.now }
        ensures some { IfOk result (λ n. 0 < n) }
        ensures within { IfOk result (λ n. n ≤ length octets.now) }
        ensures ok { IfOk result (λ n. Gains (octets_of_each out.old.items) (octets_of_each out.new.items)
            (self.old ++ take n octets.now) self.new) }
        ensures not_zero { OnOk result (¬ IsZero self.new) }
        ensures zero_length { IsErrOf result ReadError.ZeroLength →
            ((rest : List ℕ) × IsZero rest × Gains (octets_of_each out.old.items) (octets_of_each out.new.items)
            (self.old ++ octets.now) rest) }
        ensures out_of_memory { IsErrOf result ReadError.OutOfMemory →
            octets_of_each out.new.items ≡ octets_of_each out.old.items }
        ensures only { IfErr result IsPieceError }
        ensures bound { OnOk result (length self.new ≤ 65536) }
    {
        if self.announced == 0 {
            self.take_length(octets[0])?;
            Ok(1)
        } else {
            self.take_message(octets, out)
        }
    }

    // Takes the next octet of the length.
    fn take_length(&mut self, octet: u8) -> Result<(), ReadError>
        requires { length self.old < 2 }
        ensures ok { OnOk result (Frames (self.old ++ octet ∷ []) [] self.new) }
        ensures not_zero { OnOk result (¬ IsZero self.new) }
        ensures zero_length { IsErrOf result ReadError.ZeroLength → self.old ++ octet ∷ [] ≡ 0 ∷ (0 ∷ []) }
        ensures only { IfErr result IsPieceError }
        ensures bound { OnOk result (length self.new ≤ 65536) }
    {
        match self.high {
            None => self.high = Some(octet),
            Some(high) => {
                let length = u16::from_be_bytes([high, octet]);
                if length == 0 {
                    return Err(ReadError::ZeroLength);
                }
                self.message = Vec::with_capacity(self.alloc, usize::from(length))?;
                self.announced = length;
            }
        }
        Ok(())
    }

    // Takes octets of the message, as many as it lacks at most, and says how many.
    fn take_message(&mut self, octets: &[u8], out: &mut Vec<Vec<u8>>) -> Result<usize, ReadError>
        requires message { 2 ≤ length self.old }
        requires octets { 0 < length octets.now }
        ensures some { IfOk result (λ n. 0 < n) }
        ensures within { IfOk result (λ n. n ≤ length octets.now) }
        ensures ok { IfOk result (λ n. Gains (octets_of_each out.old.items) (octets_of_each out.new.items)
            (self.old ++ take n octets.now) self.new) }
        ensures not_zero { OnOk result (¬ IsZero self.new) }
        ensures out_of_memory { OnErr result (octets_of_each out.new.items ≡ octets_of_each out.old.items) }
        ensures only { IfErr result (λ error. error ≡ ReadError.OutOfMemory) }
        ensures bound { OnOk result (length self.new ≤ 65536) }
    {
        let missing = usize::from(self.announced) - self.message.len();
        let count = missing.min(octets.len());
        self.message.extend_from_slice(&octets[..count])?;
        if count == missing {
            self.high = None;
            self.announced = 0;
            out.push(mem::replace(&mut self.message, Vec::new(self.alloc)))?;
        }
        Ok(count)
    }
}
