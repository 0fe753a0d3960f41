//! Files of the MACs of requests.
ghost use Rattle.std.specs.Prelude.{◌≡◌, ◌≤◌, ◌↔◌, Err, IsTrue, IfErr, IfOk, List, ℕ, length};
ghost use Rattle.dnsv_message.specs.Streams.Frames.{file_limit};
ghost use Rattle.dnsv_files.specs.Opening.Macs.{AreMacsRefused, BeginsWithMac, HasMacs, IsMacLine, IsMacRefused};
ghost use Rattle.dnsv_files.specs.Told.{IsFaultOf, IsRefusalOf, TellsRefusals};

use crate::files::text::{FromText, refused_line};
use crate::opening::RequestMacs;
use crate::status::{Fault, Refusal};
use dnsv_names::{Line, Lines};
use hex::FromHex;
use std::alloc::Global;
use std::marker::Model;

/// The MAC of a request that was signed, over which its answer is signed too (RFC 8945 4.3.1).
#[derive(Clone, Copy)]
pub struct RequestMac {
    octets: [u8; 32],
}

impl Model for RequestMac {
    ghost Value = { List ℕ };

    ghost view = { λ mac. mac.octets };

    ghost inverse = { λ octets. record { octets = octets } };
}

impl RequestMac {
    /// The 32 octets.
    pub fn octets(&self) -> &[u8; 32]
        ensures { result.now ≡ self.now }
    {
        &self.octets
    }
}

impl FromText for RequestMacs {
    ghost use Rattle.dnsv_files.specs.Opening.Macs.{AreMacsRefused, BeginsWithMac, HasMacs};

    ghost says = { HasMacs };

    ghost is_refused = { AreMacsRefused };

    ghost begins = { BeginsWithMac };

    ghost waits = { BeginsWithMac };

    fn from_text(alloc: Global, text: &[u8]) -> Result<RequestMacs, Fault> {
        let each = macs_of(alloc, text)?;
        Ok(RequestMacs { each })
    }
}

/// The MACs of the text, of one request after another, `None` for one that had none. The fault is that of its first line
/// that is neither 64 hex digits nor `-`; it is reported, unless memory was refused to a line before it.
fn macs_of(alloc: Global, text: &[u8]) -> Result<Vec<Option<RequestMac>>, Fault>
    ensures macs { IfOk result (λ macs. length text.now ≤ file_limit → HasMacs text.now macs.items) }
    ensures fault { IfErr result (IsFaultOf (AreMacsRefused text.now)) }
    ensures every_fault { TellsRefusals (AreMacsRefused text.now) (BeginsWithMac text.now) result }
    ensures memory { result ≡ Err Fault.OutOfMemory → BeginsWithMac text.now }
{
    let mut macs = Vec::new(alloc);
    for line in Lines::new(text) {
        macs.push(mac_of(&line)?)?;
    }
    Ok(macs)
}

/// The MAC of a line. No memory is taken: the fault is that the line is none.
fn mac_of(line: &Line) -> Result<Option<RequestMac>, Fault>
    ensures mac { IfOk result (IsMacLine line.now.octets) }
    ensures fault { IfErr result (IsRefusalOf (IsMacRefused line.now)) }
{
    if is_word(line.octets(), b"-") {
        return Ok(None);
    }
    match <[u8; 32] as FromHex>::from_hex(line.octets()) {
        Ok(octets) => Ok(Some(RequestMac { octets })),
        Err(_) => Err(refused_line(Refusal::MacSyntax, line.number())),
    }
}

/// Whether a line is the word.
fn is_word(line: &[u8], word: &[u8]) -> bool
    ensures { IsTrue result ↔ (line.now ≡ word.now) }
{
    line == word
}
