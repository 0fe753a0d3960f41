//! What the frames of a file of captured messages are opened by.
ghost use Rattle.std.specs.Prelude.{◌≡◌, ◌⊎◌, Decides, IfErr, IfOk, List, None, Ok, Option, ℕ};
ghost use Rattle.std.specs.Option.{option_copied};
ghost use Rattle.dnsv_message.specs.Streams.Frames.{octets_at_each};
ghost use Rattle.dnsv_files.specs.Opening.{HasItsMacs, request_mac};
ghost use Rattle.dnsv_files.specs.Opening.Given.{IsOpeningOf, IsOpeningReached, IsFaultOfOpening};
ghost use Rattle.dnsv_files.specs.Files.Faults.{IsAbout, OfFailedRead, OfOctets, TellsFailedReads};
ghost use Rattle.dnsv_files.specs.Files.{IsToldBy, given_failures};

pub mod keys;
pub mod macs;

use crate::files::text::given_text_in;
use crate::opening::macs::RequestMac;
use crate::status::{Fault, InputFile};
use dnsv_message::Counted;
use dnsv_questions::Moment;
use dnsv_tsig::KeyRing;
use std::alloc::Global;
use std::io::Read;
use std::marker::Model;

/// What frames are opened by before their messages are read.
#[derive(Drop)]
pub enum Opening {
    /// Nothing: a frame is a message.
    Plain,
    /// The keys by which the messages were signed (TSIG, RFC 8945).
    Signed {
        keys: KeyRing,
        /// The moment at which the signatures are judged.
        moment: Moment,
        /// The MACs of the requests, where they are given.
        macs: Option<RequestMacs>,
    },
}

/// The MACs of the requests: one for each message in order, or none for one whose request had none.
#[derive(Drop)]
pub struct RequestMacs {
    each: Vec<Option<RequestMac>>,
}

impl Model for RequestMacs {
    ghost use Rattle.std.specs.Prelude.{List, Option, ℕ};

    ghost Value = { List (Option (List ℕ)) };

    ghost view = { λ macs. macs.each.items };
}

impl RequestMacs {
    ghost use Rattle.std.specs.Prelude.{None, get_or, length, ◌-◌};

    /// How many messages they are for.
    fn len(&self) -> usize
        ensures { result ≡ length self.now }
    {
        self.each.len()
    }

    /// The MAC of the request that the message with this number answers.
    fn of_message(&self, number: usize) -> Option<&[u8; 32]>
        ensures { option_copied result ≡ get_or self.now (number - 1) None }
    {
        let place = number.saturating_sub(1);
        if place >= self.each.len() {
            return None;
        }
        match &self.each[place] {
            Some(mac) => Some(mac.octets()),
            None => None,
        }
    }
}

impl Opening {
    /// Whether each frame has its request's MAC, and no other is there, where MACs are given.
    pub fn has_its_macs(&self, frames: &[&[u8]]) -> bool
        ensures { Decides result (HasItsMacs self.now (octets_at_each frames.now)) }
    {
        match self {
            Opening::Signed {
                macs: Some(macs),
                ..
            } => macs.len() == frames.len(),
            _ => true,
        }
    }
}

/// The MAC of the request that the message with this number answers.
pub fn request_mac_of(macs: &Option<RequestMacs>, number: usize) -> Option<&[u8; 32]>
    ensures { option_copied result ≡ request_mac macs.now number }
{
    match macs {
        Some(macs) => macs.of_message(number),
        None => None,
    }
}

/// What the files of keys and of the MACs of requests open frames by at the moment: nothing where no keys are given,
/// and the other file isn't read then.
///
/// The fault is the first: that of the keys, and then that of the MACs.
pub fn opening_in<R: Read>(
    alloc: Global,
    moment: Moment,
    keys: &mut Option<Counted<R>>,
    macs: &mut Option<Counted<R>>,
) -> Result<Opening, Fault>
    ensures opening { (keys_octets macs_octets : Option (List ℕ)) → IsToldBy R.remaining keys.old keys_octets
        → IsToldBy R.remaining macs.old macs_octets → IfOk result (IsOpeningOf keys_octets macs_octets moment) }
    ensures faults { (keys_octets macs_octets : Option (List ℕ)) → IsToldBy R.remaining keys.old keys_octets
        → IsToldBy R.remaining macs.old macs_octets
        → IfErr result (OfOctets (IsFaultOfOpening keys_octets macs_octets)) }
    ensures reached { (keys_octets macs_octets : Option (List ℕ)) → IsToldBy R.remaining keys.old keys_octets
        → IsToldBy R.remaining macs.old macs_octets
        → IfErr result (OfFailedRead (IsOpeningReached keys_octets macs_octets)) }
    ensures keys_reads { TellsFailedReads InputFile.Keys (given_failures keys.old) (given_failures keys.new) result }
    ensures macs_reads { TellsFailedReads InputFile.Macs (given_failures macs.old) (given_failures macs.new) result }
    ensures about { IfErr result (λ told. IsAbout InputFile.Keys told ⊎ IsAbout InputFile.Macs told) }
    ensures none { keys.old ≡ None → result ≡ Ok Opening.Plain }
{
    let Some(keys) = given_text_in(alloc, InputFile::Keys, keys)? else {
        return Ok(Opening::Plain);
    };
    let macs = given_text_in(alloc, InputFile::Macs, macs)?;
    Ok(Opening::Signed { keys, moment, macs })
}
